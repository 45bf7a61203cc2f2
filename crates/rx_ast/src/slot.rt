// What stands in a place of a body.
ghost use Rattle.std.specs.Prelude.{◌≡◌, IfOk, MatchOption, Some, None};
ghost use Rattle.rx_ast.specs.Syntax.{null, words, number_of, children as given_children, repeated, choice, enclosed, parentheses, braces, at_once, by_tag, no_slots, slots_of, slots, inner_slots, attributes, slot_key};
ghost use Rattle.rx_ast.specs.SlotView.{tagged};

use crate::attribute::{Attribute, KeyPlace, key_among};
use crate::expr::Expr;
use rx_base::Name;
use std::alloc::{AllocError, Global};
use std::marker::Model;

/// What a body returns, and what stands in a place of a child list.
#[cycle(slot)]
#[derive(Drop)]
pub struct Slot {
    /// What it is, with its parts.
    pub kind: SlotKind,
}

/// What a slot is, with its parts in the order of the text.
#[cycle(slot)]
#[derive(Drop)]
pub enum SlotKind {
    /// `null`
    Null,
    /// A text.
    Text(Name),
    /// An integer, shown as a text.
    Value(Expr),
    /// The children that the component is given.
    Children,
    For(Box<For>),
    /// `test ? first : second`
    Choice {
        test: Expr,
        first: Box<Slot>,
        second: Box<Slot>,
    },
    Element(Element),
    /// An element in parentheses.
    Enclosed(Element),
}

/// `for (index < bound, limit) item`
#[cycle(slot)]
#[derive(Drop)]
pub struct For {
    pub index: Name,
    pub bound: Expr,
    /// The greatest count of items.
    pub limit: u64,
    pub item: Slot,
}

/// An element.
#[cycle(slot)]
#[derive(Drop)]
pub struct Element {
    pub tag: Tag,
    pub content: Content,
}

/// What an element is, with what it is given in the order of the text.
#[cycle(slot)]
#[derive(Drop)]
pub enum Tag {
    /// An element of the host.
    Host {
        name: Name,
        attributes: Vec<Attribute>,
    },
    /// An element of a component.
    Component {
        name: Name,
        attributes: Vec<Attribute>,
    },
    /// A boundary with its fallback (react.dev, Suspense).
    Suspense {
        key: KeyPlace,
        fallback: Box<Slot>,
    },
    /// An error boundary with its fallback (react.dev, Catching rendering errors with an error boundary).
    Catch {
        key: KeyPlace,
        fallback: Box<Slot>,
    },
    /// A provider of a context, with the value that it provides (react.dev, createContext).
    Provider {
        context: Name,
        key: KeyPlace,
        value: Box<Expr>,
    },
}

/// What stands in an element, and so how it ends.
#[cycle(slot)]
#[derive(Drop)]
pub enum Content {
    /// Nothing: it ends at once, by `/>`.
    AtOnce,
    /// Children, and a closing tag.
    Children(Vec<Child>),
}

/// A place of a child list.
#[cycle(slot)]
#[derive(Drop)]
pub struct Child {
    /// What it is, with its part.
    pub kind: ChildKind,
}

/// What stands in a place of a child list.
#[cycle(slot)]
#[derive(Drop)]
pub enum ChildKind {
    Element(Element),
    /// A slot in braces.
    Braced(Slot),
}

impl Model for Slot {
    ghost use Rattle.rx_ast.specs.Syntax as syntax;
    ghost use Rattle.rx_ast.specs.SlotCodes.{slot_code};

    ghost Value = { syntax.Slot };

    ghost coded = { slot_code };

    ghost use Rattle.rx_ast.specs.SlotView.{slot_of};

    ghost view = { λ s. slot_of s.kind };

    ghost use Rattle.rx_ast.specs.Depth.{slot_size};

    ghost size = { slot_size };

    ghost use Rattle.rx_ast.specs.SlotFalls.{slot_falls};

    ghost size_decreases = { λ a h. slot_falls a.kind };
}

impl Model for Element {
    ghost use Rattle.rx_ast.specs.Syntax as syntax;
    ghost use Rattle.rx_ast.specs.SlotCodes.{slot_code};

    ghost Value = { syntax.Slot };

    ghost coded = { slot_code };

    ghost use Rattle.rx_ast.specs.SlotView.{element_of};

    ghost view = { λ e. element_of e.tag e.content };

    ghost use Rattle.rx_ast.specs.Depth.{element_size};

    ghost size = { element_size };

    ghost use Rattle.rx_ast.specs.SlotFalls.{element_falls};

    ghost size_decreases = { λ a h. element_falls a.tag a.content };
}

impl Model for Child {
    ghost use Rattle.rx_ast.specs.Syntax as syntax;
    ghost use Rattle.rx_ast.specs.SlotCodes.{slot_code};

    ghost Value = { syntax.Slot };

    ghost coded = { slot_code };

    ghost use Rattle.rx_ast.specs.SlotView.{child_of};

    ghost view = { λ c. child_of c.kind };

    ghost use Rattle.rx_ast.specs.Depth.{slot_size};

    ghost size = { slot_size };

    ghost use Rattle.rx_ast.specs.SlotFalls.{child_falls};

    ghost size_decreases = { λ a h. child_falls a.kind };
}

impl Slot {
    /// `null`
    pub fn null() -> Slot
        ensures { result ≡ null }
    {
        Slot {
            kind: SlotKind::Null,
        }
    }

    /// A text.
    pub fn text(text: Name) -> Slot
        ensures { result ≡ words text }
    {
        Slot {
            kind: SlotKind::Text(text),
        }
    }

    /// An integer, shown as a text.
    pub fn value(value: Expr) -> Slot
        ensures { result ≡ number_of value }
    {
        Slot {
            kind: SlotKind::Value(value),
        }
    }

    /// The children that the component is given.
    pub fn children() -> Slot
        ensures { result ≡ given_children }
    {
        Slot {
            kind: SlotKind::Children,
        }
    }

    /// `for (index < bound, limit) item`
    ///
    /// # Errors
    ///
    /// Only if out of memory.
    pub fn repeated(
        alloc: Global,
        index: Name,
        bound: Expr,
        limit: u64,
        item: Slot,
    ) -> Result<Slot, AllocError>
        ensures { IfOk result (λ s. s ≡ repeated index bound limit item) }
    {
        let repetition = For {
            index,
            bound,
            limit,
            item,
        };
        let repetition = Box::new(alloc, repetition)?;
        Ok(Slot {
            kind: SlotKind::For(repetition),
        })
    }

    /// `test ? first : second`
    ///
    /// # Errors
    ///
    /// Only if out of memory.
    pub fn choice(alloc: Global, test: Expr, first: Slot, second: Slot) -> Result<Slot, AllocError>
        ensures { IfOk result (λ s. s ≡ choice test first second) }
    {
        let first = Box::new(alloc, first)?;
        let second = Box::new(alloc, second)?;
        Ok(Slot {
            kind: SlotKind::Choice {
                test,
                first,
                second,
            },
        })
    }

    /// An element.
    pub fn element(element: Element) -> Slot
        ensures { result ≡ element }
    {
        Slot {
            kind: SlotKind::Element(element),
        }
    }

    /// An element in parentheses.
    pub fn enclosed(element: Element) -> Slot
        ensures { result ≡ enclosed parentheses element }
    {
        Slot {
            kind: SlotKind::Enclosed(element),
        }
    }
}

impl Element {
    /// An element that ends at once, by `/>`.
    pub fn ended(tag: Tag) -> Element
        ensures { result ≡ tagged tag at_once no_slots }
    {
        Element {
            tag,
            content: Content::AtOnce,
        }
    }

    /// An element with children and a closing tag.
    pub fn filled(tag: Tag, children: Vec<Child>) -> Element
        ensures { result ≡ tagged tag by_tag (slots_of children.items) }
    {
        Element {
            tag,
            content: Content::Children(children),
        }
    }

    /// Its children in order.
    pub fn children(&self) -> &[Child]
        ensures { result.now ≡ slots (inner_slots self.now) }
    {
        match &self.content {
            Content::AtOnce => &[],
            Content::Children(children) => children,
        }
    }

    /// Its attributes in order, with `key`; none for a boundary, of Suspense or of errors, or a provider.
    pub fn attributes(&self) -> &[Attribute]
        ensures { result.now ≡ attributes self.now }
    {
        match &self.tag {
            Tag::Host { attributes, .. } | Tag::Component { attributes, .. } => attributes,
            Tag::Suspense { .. } | Tag::Catch { .. } | Tag::Provider { .. } => &[],
        }
    }

    /// Its key (react.dev, Rendering Lists); the first if it has more.
    pub fn key(&self) -> Option<&Expr>
        ensures { MatchOption result (slot_key self.now ≡ None) (λ e. slot_key self.now ≡ Some e.now) }
    {
        match &self.tag {
            Tag::Host { attributes, .. } | Tag::Component { attributes, .. } => key_among(
                attributes,
            ),
            Tag::Suspense { key, .. } | Tag::Catch { key, .. } | Tag::Provider { key, .. } => {
                key.value()
            }
        }
    }
}

impl Child {
    /// An element in a place of a child list.
    pub fn element(element: Element) -> Child
        ensures { result ≡ element }
    {
        Child {
            kind: ChildKind::Element(element),
        }
    }

    /// A slot in braces.
    pub fn braced(slot: Slot) -> Child
        ensures { result ≡ enclosed braces slot }
    {
        Child {
            kind: ChildKind::Braced(slot),
        }
    }
}
