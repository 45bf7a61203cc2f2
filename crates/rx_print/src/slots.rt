// How slots are written.
ghost use Rattle.std.specs.Prelude.{◌≡◌, [], ◌∷◌, ◌++◌, OnOk};
ghost use Rattle.std.specs.List.{flat_map};
ghost use Rattle.rx_ast.specs.Syntax.{slots_of};
ghost use Rattle.rx_ast.specs.SlotView.{key_place_of};
ghost use Rattle.rx_print.specs.Printing.{expr_tokens, given as given_under, key_tokens, attribute_tokens, key_before, key_behind, slot_tokens, slots_tokens};
ghost use Rattle.rx_print.specs.Tags.{name_tokens, given_tokens};

use crate::printer::Printer;
use rx_ast::{
    Attribute, AttributeKind, Child, ChildKind, Content, Element, Expr, KeyPlace, Slot, SlotKind,
    Tag,
};
use rx_base::Name;
use rx_lex::{Keyword, Kind, Sign};
use std::alloc::AllocError;

impl Printer {
    /// Writes what is given under a name.
    fn given(&mut self, name: Kind, value: &Expr) -> Result<(), AllocError>
        ensures { OnOk result (self.new ≡ self.old ++ given_under name (expr_tokens value.now)) }
    {
        self.token(name)?;
        self.sign(Sign::Equals)?;
        self.sign(Sign::OpenBrace)?;
        self.expr(value)?;
        self.sign(Sign::CloseBrace)
    }

    /// Writes a key.
    fn key(&mut self, value: &Expr) -> Result<(), AllocError>
        ensures { OnOk result (self.new ≡ self.old ++ key_tokens value.now) }
    {
        self.given(Kind::Word(Keyword::Key), value)
    }

    /// Writes an attribute.
    fn attribute(&mut self, attribute: &Attribute) -> Result<(), AllocError>
        ensures { OnOk result (self.new ≡ self.old ++ attribute_tokens attribute.now) }
    {
        match &attribute.kind {
            AttributeKind::Key(value) => self.key(value),
            AttributeKind::Computed { name, value } => {
                self.lower(name)?;
                self.sign(Sign::Equals)?;
                self.sign(Sign::OpenBrace)?;
                self.expr(value)?;
                self.sign(Sign::CloseBrace)
            }
            AttributeKind::Literal { name, text } => {
                self.lower(name)?;
                self.sign(Sign::Equals)?;
                self.text(text)
            }
        }
    }

    /// Writes attributes in order.
    fn attributes(&mut self, attributes: &[Attribute]) -> Result<(), AllocError>
        ensures { OnOk result (self.new ≡ self.old ++ flat_map attribute_tokens attributes.now) }
    {
        for attribute in attributes {
            self.attribute(attribute)?;
        }
        Ok(())
    }

    /// Writes a key that stands before what else is given.
    fn key_before(&mut self, place: &KeyPlace) -> Result<(), AllocError>
        ensures { OnOk result (self.new ≡ self.old ++ key_before (key_place_of place.now)) }
    {
        match place {
            KeyPlace::First(value) => self.key(value),
            KeyPlace::Unkeyed | KeyPlace::Last(_) => Ok(()),
        }
    }

    /// Writes a key that stands behind what else is given.
    fn key_behind(&mut self, place: &KeyPlace) -> Result<(), AllocError>
        ensures { OnOk result (self.new ≡ self.old ++ key_behind (key_place_of place.now)) }
    {
        match place {
            KeyPlace::Last(value) => self.key(value),
            KeyPlace::Unkeyed | KeyPlace::First(_) => Ok(()),
        }
    }

    /// Writes the name of an element.
    fn tag_name(&mut self, tag: &Tag) -> Result<(), AllocError>
        ensures { OnOk result (self.new ≡ self.old ++ name_tokens tag.now) }
    {
        match tag {
            Tag::Host { name, .. } => self.lower(name),
            Tag::Component { name, .. } => self.upper(name),
            Tag::Suspense { .. } => self.word(Keyword::Suspense),
            Tag::Catch { .. } => self.word(Keyword::Catch),
            Tag::Provider { context, .. } => {
                self.upper(context)?;
                self.sign(Sign::Dot)?;
                self.word(Keyword::Provider)
            }
        }
    }

    /// Writes a closing tag.
    fn closing_tag(&mut self, tag: &Tag) -> Result<(), AllocError>
        ensures { OnOk result (self.new ≡ self.old ++ Kind.Mark Sign.Less ∷ Kind.Mark Sign.Slash ∷ (name_tokens tag.now ++ Kind.Mark Sign.Greater ∷ [])) }
    {
        self.sign(Sign::Less)?;
        self.sign(Sign::Slash)?;
        self.tag_name(tag)?;
        self.sign(Sign::Greater)
    }

    /// Writes what stands behind the name in an opening tag.
    #[cycle(slot)]
    fn tag_given(&mut self, tag: &Tag) -> Result<(), AllocError>
        ensures { OnOk result (self.new ≡ self.old ++ given_tokens tag.now) }
    {
        match tag {
            Tag::Host { attributes, .. } | Tag::Component { attributes, .. } => self.attributes(
                attributes,
            ),
            Tag::Suspense { key, fallback } | Tag::Catch { key, fallback } => {
                self.key_before(key)?;
                self.name("fallback")?;
                self.sign(Sign::Equals)?;
                self.sign(Sign::OpenBrace)?;
                self.slot(fallback)?;
                self.sign(Sign::CloseBrace)?;
                self.key_behind(key)
            }
            Tag::Provider { key, value, .. } => {
                self.key_before(key)?;
                self.name("value")?;
                self.sign(Sign::Equals)?;
                self.sign(Sign::OpenBrace)?;
                self.expr(value)?;
                self.sign(Sign::CloseBrace)?;
                self.key_behind(key)
            }
        }
    }

    /// Writes an element.
    #[cycle(slot)]
    fn element(&mut self, element: &Element) -> Result<(), AllocError>
        ensures { OnOk result (self.new ≡ self.old ++ slot_tokens element.now) }
    {
        self.sign(Sign::Less)?;
        self.tag_name(&element.tag)?;
        self.tag_given(&element.tag)?;
        match &element.content {
            Content::AtOnce => {
                self.sign(Sign::Slash)?;
                self.sign(Sign::Greater)
            }
            Content::Children(children) => {
                self.sign(Sign::Greater)?;
                self.children(children)?;
                self.closing_tag(&element.tag)
            }
        }
    }

    /// Writes a slot.
    #[cycle(slot)]
    pub fn slot(&mut self, slot: &Slot) -> Result<(), AllocError>
        ensures { OnOk result (self.new ≡ self.old ++ slot_tokens slot.now) }
    {
        match &slot.kind {
            SlotKind::Null => self.word(Keyword::Null),
            SlotKind::Text(text) => self.text(text),
            SlotKind::Value(value) => self.expr(value),
            SlotKind::Children => self.word(Keyword::Children),
            SlotKind::For(repetition) => {
                self.for_head(&repetition.index, &repetition.bound, repetition.limit)?;
                self.slot(&repetition.item)
            }
            SlotKind::Choice {
                test,
                first,
                second,
            } => {
                self.expr(test)?;
                self.sign(Sign::Question)?;
                self.slot(first)?;
                self.sign(Sign::Colon)?;
                self.slot(second)
            }
            SlotKind::Element(element) => self.element(element),
            SlotKind::Enclosed(element) => {
                self.sign(Sign::OpenParen)?;
                self.element(element)?;
                self.sign(Sign::CloseParen)
            }
        }
    }

    /// Writes a place of a child list.
    #[cycle(slot)]
    fn child(&mut self, child: &Child) -> Result<(), AllocError>
        ensures { OnOk result (self.new ≡ self.old ++ slot_tokens child.now) }
    {
        match &child.kind {
            ChildKind::Element(element) => self.element(element),
            ChildKind::Braced(slot) => {
                self.sign(Sign::OpenBrace)?;
                self.slot(slot)?;
                self.sign(Sign::CloseBrace)
            }
        }
    }

    /// Writes a child list.
    #[cycle(slot)]
    pub fn children(&mut self, children: &[Child]) -> Result<(), AllocError>
        ensures { OnOk result (self.new ≡ self.old ++ slots_tokens (slots_of children.now)) }
    {
        for child in children {
            self.child(child)?;
        }
        Ok(())
    }

    /// Writes `for (index < bound, limit)`.
    fn for_head(&mut self, index: &Name, bound: &Expr, limit: u64) -> Result<(), AllocError>
        ensures { OnOk result
            (self.new ≡ self.old ++ Kind.Word Keyword.For ∷ Kind.Mark Sign.OpenParen ∷ Kind.Lower index.now ∷ Kind.Mark Sign.Less
            ∷ (expr_tokens bound.now ++ Kind.Mark Sign.Comma ∷ Kind.Number limit ∷ Kind.Mark Sign.CloseParen ∷ [])) }
    {
        self.word(Keyword::For)?;
        self.sign(Sign::OpenParen)?;
        self.lower(index)?;
        self.sign(Sign::Less)?;
        self.expr(bound)?;
        self.sign(Sign::Comma)?;
        self.token(Kind::Number(limit))?;
        self.sign(Sign::CloseParen)
    }
}
