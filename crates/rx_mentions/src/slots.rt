// The mentions of slots.
ghost use Rattle.std.specs.Prelude.{◌≡◌, false, List, [], ◌∷◌, ◌++◌, OnOk, IfOk, length};
ghost use Rattle.rx_ast.specs.Syntax.{slots_of, repeated};
ghost use Rattle.rx_ast.specs.SlotView.{key_place_of};
ghost use Rattle.rx_rules.specs.Keys.{carries_key};
ghost use Rattle.rx_mentions.specs.Mention as mention;
ghost use Rattle.rx_mentions.specs.Mentions.{is_bound, children_name, attributes_mentions, given_names, key_mentions, first_key_mentions, last_key_mentions, taken_first, is_filled, slot_mentions, slots_mentions};
ghost use Rattle.rx_mentions.specs.Tags.{tag_mentions};

use crate::count::Count;
use crate::mention::MentionKind;
use crate::scope::Scope;
use crate::walk::Walk;
use rx_ast::{
    Attribute, AttributeKind, Child, ChildKind, Content, Element, Expr, For, KeyPlace, Slot,
    SlotKind, Tag, key_among,
};
use rx_base::Name;
use rx_names::BorrowedNames;
use std::alloc::{AllocError, Global};

/// Whether there is a child.
fn is_filled(children: &[Child]) -> bool
    ensures { result ≡ is_filled (slots_of children.now) }
{
    match children {
        [] => false,
        [..] => true,
    }
}

/// Whether an element carries a key.
fn element_carries_key(element: &Element) -> bool
    ensures { result ≡ carries_key element.now }
{
    match &element.tag {
        Tag::Host { attributes, .. } | Tag::Component { attributes, .. } => key_among(
            attributes,
        ).is_some(),
        Tag::Suspense { key, .. } | Tag::Catch { key, .. } | Tag::Provider { key, .. } => {
            key.value().is_some()
        }
    }
}

/// Whether a slot, or a branch of its choice, is an element with a key.
fn slot_carries_key(slot: &Slot) -> bool
    ensures { result ≡ carries_key slot.now }
{
    match &slot.kind {
        SlotKind::Null
        | SlotKind::Text(_)
        | SlotKind::Value(_)
        | SlotKind::Children
        | SlotKind::For(_) => false,
        SlotKind::Choice { first, second, .. } => {
            slot_carries_key(first) || slot_carries_key(second)
        }
        SlotKind::Element(element) | SlotKind::Enclosed(element) => element_carries_key(element),
    }
}

/// Whether a place of a child list carries a key.
fn child_carries_key(child: &Child) -> bool
    ensures { result ≡ carries_key child.now }
{
    match &child.kind {
        ChildKind::Element(element) => element_carries_key(element),
        ChildKind::Braced(slot) => slot_carries_key(slot),
    }
}

impl<'a> Walk<'a> {
    /// Notes what attributes mention, when these names stand already.
    fn attributes(
        &mut self,
        scope: &BorrowedNames,
        mut taken: BorrowedNames<'a>,
        attributes: &'a [Attribute],
    ) -> Result<(), AllocError>
        ensures { OnOk result (self.new ≡ self.old ++ attributes_mentions scope.now taken.entry attributes.now) }
    {
        for attribute in attributes {
            match &attribute.kind {
                AttributeKind::Key(value) => {
                    self.introduced(&taken, "key")?;
                    self.expr(scope, value)?;
                    taken.push("key")?;
                }
                AttributeKind::Computed { name, value } => {
                    self.introduced(&taken, name.text())?;
                    self.expr(scope, value)?;
                    taken.push(name.text())?;
                }
                AttributeKind::Literal { name, text } => {
                    self.introduced(&taken, name.text())?;
                    self.quoted(text)?;
                    taken.push(name.text())?;
                }
            }
        }
        Ok(())
    }

    /// What may not be an attribute of an element.
    fn taken_first(&self, second: bool) -> Result<BorrowedNames<'a>, AllocError>
        ensures { IfOk result (λ names. names ≡ taken_first second) }
    {
        let mut taken = BorrowedNames::new(self.alloc);
        if second {
            taken.push("key")?;
        }
        Ok(taken)
    }

    /// Notes what the attributes of an element mention, and how many they are.
    fn element_attributes(
        &mut self,
        scope: &BorrowedNames,
        second: bool,
        attributes: &'a [Attribute],
    ) -> Result<(), AllocError>
        ensures { OnOk result
            (self.new ≡ self.old ++ mention.Counted Count.Attributes (length attributes.now) ∷ attributes_mentions scope.now (taken_first second) attributes.now) }
    {
        self.counted(Count::Attributes, attributes.len())?;
        let taken = self.taken_first(second)?;
        self.attributes(scope, taken, attributes)
    }

    /// Notes a key.
    fn key(
        &mut self,
        scope: &BorrowedNames,
        second: bool,
        value: &'a Expr,
    ) -> Result<(), AllocError>
        ensures { OnOk result (self.new ≡ self.old ++ key_mentions scope.now second value.now) }
    {
        self.note(MentionKind::Introduced {
            again: second,
            name: "key",
        })?;
        self.expr(scope, value)
    }

    /// Notes a key that stands before what else is given.
    fn key_first(
        &mut self,
        scope: &BorrowedNames,
        second: bool,
        place: &'a KeyPlace,
    ) -> Result<(), AllocError>
        ensures { OnOk result (self.new ≡ self.old ++ first_key_mentions scope.now second (key_place_of place.now)) }
    {
        match place {
            KeyPlace::First(value) => self.key(scope, second, value),
            KeyPlace::Unkeyed | KeyPlace::Last(_) => Ok(()),
        }
    }

    /// Notes a key that stands behind what else is given.
    fn key_last(
        &mut self,
        scope: &BorrowedNames,
        second: bool,
        place: &'a KeyPlace,
    ) -> Result<(), AllocError>
        ensures { OnOk result (self.new ≡ self.old ++ last_key_mentions scope.now second (key_place_of place.now)) }
    {
        match place {
            KeyPlace::Last(value) => self.key(scope, second, value),
            KeyPlace::Unkeyed | KeyPlace::First(_) => Ok(()),
        }
    }

    /// Notes an element of the host.
    fn host(&mut self, name: &'a Name) -> Result<(), AllocError>
        ensures { OnOk result (self.new ≡ self.old ++ mention.Host name.now ∷ []) }
    {
        self.note(MentionKind::Host(name))
    }

    /// Notes a context.
    pub(crate) fn context(&mut self, name: &'a Name) -> Result<(), AllocError>
        ensures { OnOk result (self.new ≡ self.old ++ mention.Context name.now ∷ []) }
    {
        self.note(MentionKind::Context(name))
    }

    /// Notes an element of a component.
    fn placed(
        &mut self,
        name: &'a Name,
        attributes: &'a Vec<Attribute>,
        filled: bool,
    ) -> Result<(), AllocError>
        ensures { OnOk result (self.new ≡ self.old ++ mention.Element name.now (given_names attributes.now.items) filled ∷ []) }
    {
        self.note(MentionKind::Element {
            filled,
            component: name,
            attributes,
        })
    }

    /// Notes `children`.
    fn given(&mut self, scope: &Scope) -> Result<(), AllocError>
        ensures { OnOk result (self.new ≡ self.old ++ mention.Children (is_bound scope.now children_name) ∷ []) }
    {
        let known = scope.contains("children");
        self.note(MentionKind::Children { known })
    }

    /// Notes what an opening tag mentions.
    #[cycle(slot)]
    fn tag(
        &mut self,
        scope: &mut Scope<'a>,
        second: bool,
        filled: bool,
        tag: &'a Tag,
    ) -> Result<(), AllocError>
        ensures mentions { OnOk result (self.new ≡ self.old ++ tag_mentions scope.old second filled tag.now) }
        ensures scope { OnOk result (scope.new ≡ scope.old) }
    {
        match tag {
            Tag::Host { name, attributes } => {
                self.host(name)?;
                self.element_attributes(scope.values(), second, attributes)
            }
            Tag::Component { name, attributes } => {
                self.placed(name, attributes, filled)?;
                self.element_attributes(scope.values(), second, attributes)
            }
            Tag::Suspense { key, fallback } | Tag::Catch { key, fallback } => {
                self.key_first(scope.values(), second, key)?;
                self.slot(scope, false, fallback)?;
                self.key_last(scope.values(), second, key)
            }
            Tag::Provider {
                context,
                key,
                value,
            } => {
                self.context(context)?;
                self.key_first(scope.values(), second, key)?;
                self.expr(scope.values(), value)?;
                self.key_last(scope.values(), second, key)
            }
        }
    }

    /// Notes what an element mentions.
    #[cycle(slot)]
    fn element(
        &mut self,
        scope: &mut Scope<'a>,
        second: bool,
        element: &'a Element,
    ) -> Result<(), AllocError>
        ensures mentions { OnOk result (self.new ≡ self.old ++ slot_mentions scope.old second element.now) }
        ensures scope { OnOk result (scope.new ≡ scope.old) }
    {
        match &element.content {
            Content::AtOnce => self.tag(scope, second, false, &element.tag),
            Content::Children(children) => {
                self.tag(scope, second, is_filled(children), &element.tag)?;
                self.children(scope, children)
            }
        }
    }

    /// Notes what a repetition mentions.
    #[cycle(slot)]
    fn repetition(&mut self, scope: &mut Scope<'a>, repetition: &'a For) -> Result<(), AllocError>
        ensures mentions { OnOk result (self.new ≡ self.old ++ slot_mentions scope.old false (repeated repetition.now.index repetition.now.bound repetition.now.limit repetition.now.item)) }
        ensures scope { OnOk result (scope.new ≡ scope.old) }
    {
        self.opened(scope, repetition.index.text())?;
        self.expr(scope.values(), &repetition.bound)?;
        self.note(MentionKind::Counted {
            what: Count::List,
            found: repetition.limit,
        })?;
        scope.bind(&repetition.index)?;
        self.slot(scope, false, &repetition.item)?;
        scope.leave();
        Ok(())
    }

    /// Notes what a slot mentions.
    #[cycle(slot)]
    pub fn slot(
        &mut self,
        scope: &mut Scope<'a>,
        second: bool,
        slot: &'a Slot,
    ) -> Result<(), AllocError>
        ensures mentions { OnOk result (self.new ≡ self.old ++ slot_mentions scope.old second slot.now) }
        ensures scope { OnOk result (scope.new ≡ scope.old) }
    {
        match &slot.kind {
            SlotKind::Null => Ok(()),
            SlotKind::Text(text) => self.quoted(text),
            SlotKind::Value(value) => self.expr(scope.values(), value),
            SlotKind::Children => self.given(scope),
            SlotKind::For(repetition) => self.repetition(scope, repetition),
            SlotKind::Choice {
                test,
                first,
                second: other,
            } => {
                self.expr(scope.values(), test)?;
                self.slot(scope, second, first)?;
                self.slot(scope, second, other)
            }
            SlotKind::Element(element) | SlotKind::Enclosed(element) => {
                self.element(scope, second, element)
            }
        }
    }

    /// Notes what a place of a child list mentions.
    #[cycle(slot)]
    fn child(
        &mut self,
        scope: &mut Scope<'a>,
        second: bool,
        child: &'a Child,
    ) -> Result<(), AllocError>
        ensures mentions { OnOk result (self.new ≡ self.old ++ slot_mentions scope.old second child.now) }
        ensures scope { OnOk result (scope.new ≡ scope.old) }
    {
        match &child.kind {
            ChildKind::Element(element) => self.element(scope, second, element),
            ChildKind::Braced(slot) => self.slot(scope, second, slot),
        }
    }

    /// Notes what a child list mentions.
    #[cycle(slot)]
    pub fn children(
        &mut self,
        scope: &mut Scope<'a>,
        children: &'a [Child],
    ) -> Result<(), AllocError>
        ensures mentions { OnOk result (self.new ≡ self.old ++ slots_mentions scope.old false (slots_of children.now)) }
        ensures scope { OnOk result (scope.new ≡ scope.old) }
    {
        let mut second = false;
        for child in children {
            self.child(scope, second, child)?;
            second = second || child_carries_key(child);
        }
        Ok(())
    }
}
