// What a component's body evaluates to.
ghost use Rattle.std.specs.Prelude.{◌≡◌, IfOk};
ghost use Rattle.rx_elem.specs.Elements as elements;
ghost use Rattle.rx_elem.specs.ElementView.{element_seen};

use crate::attr::Attr;
use rx_base::{Int, Ints, Name, Str};
use std::alloc::{AllocError, Global};
use std::marker::Model;
use std::rc::Rc;

/// What stands in a place of a tree (react.dev, createElement). A parent and a child both hold the child's element: each
/// holds a handle of it, and what is in it stands once. Contracts see it as plain data.
#[cycle(element)]
pub struct Element {
    kind: Rc<ElementKind>,
}

/// What is in an element. Components and contexts are named by their numbers in the order of the text.
#[derive(Drop)]
#[cycle(element)]
pub enum ElementKind {
    /// Nothing.
    Null,
    Text(Str),
    /// An element of the host, with its children.
    Host(Name, Option<Int>, Vec<Attr>, Vec<Element>),
    /// An element of a component, with its props and the children that it is given.
    Comp(u32, Option<Int>, Ints, Vec<Element>),
    /// The children of a `for`, or those that stand for `children`, if the mark is true.
    List(bool, Vec<Element>),
    /// A Suspense boundary: its key, its fallback and its children.
    Boundary(Option<Int>, Element, Vec<Element>),
    /// An error boundary: its key, its fallback and its children.
    Catch(Option<Int>, Element, Vec<Element>),
    /// A provider of a context, with the value that it gives.
    Provider(u32, Option<Int>, Int, Vec<Element>),
}

impl Model for Element {
    ghost use Rattle.rx_elem.specs.Elements as elements;
    ghost use Rattle.rx_elem.specs.ElementCode.{element_code};

    ghost Value = { elements.Element };

    ghost coded = { element_code };

    ghost use Rattle.rx_elem.specs.ElementView.{element_seen};

    ghost view = { λ e. element_seen e.kind.value };

    ghost size = { elements.depth };

    ghost use Rattle.rx_elem.specs.ElementFalls.{depth_falls};

    ghost size_decreases = { λ a h. depth_falls a.kind.value };
}

// An element is taken apart here alone, once for all crates.
impl Drop for Element {
    #[cycle(taken_apart)]
    fn drop(self) {
        let Element { kind: _kind } = self;
    }
}

impl Element {
    /// The element with this in it.
    ///
    /// # Errors
    ///
    /// Only if out of memory.
    pub fn new(alloc: Global, kind: ElementKind) -> Result<Element, AllocError>
        ensures { IfOk result (λ e. e ≡ element_seen kind) }
    {
        let kind = Rc::new(alloc, kind)?;
        Ok(Element { kind })
    }

    /// What is in it.
    pub fn kind(&self) -> &ElementKind
        ensures { element_seen result.now ≡ self.now }
    {
        &self.kind
    }

    /// The same element, by one handle more.
    ///
    /// # Errors
    ///
    /// Only if out of memory.
    pub fn copy(&self) -> Result<Element, AllocError>
        ensures { IfOk result (λ e. e ≡ self.now) }
    {
        let kind = self.kind.clone()?;
        Ok(Element { kind })
    }
}
