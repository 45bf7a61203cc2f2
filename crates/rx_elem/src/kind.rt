// What tells whether two elements are of one node.
ghost use Rattle.std.specs.Prelude.{◌≡◌};
ghost use Rattle.rx_elem.specs.Elements.{is_present, key_of, kind_of, same_kind, stands_for_children};

use crate::element::{Element, ElementKind};
use rx_base::Int;

impl Element {
    /// The key, if the element has one.
    pub fn key(&self) -> Option<Int>
        ensures { result ≡ key_of self.now }
    {
        match self.kind() {
            ElementKind::Null | ElementKind::Text(_) | ElementKind::List(_, _) => None,
            ElementKind::Host(_, key, _, _) => *key,
            ElementKind::Comp(_, key, _, _) => *key,
            ElementKind::Boundary(key, _, _) | ElementKind::Catch(key, _, _) => *key,
            ElementKind::Provider(_, key, _, _) => *key,
        }
    }

    /// True if the element stands for a node: all but `null` do.
    pub fn is_present(&self) -> bool
        ensures { result ≡ is_present self.now }
    {
        match self.kind() {
            ElementKind::Null => false,
            _ => true,
        }
    }

    /// True for the list that stands for `children` in what a body gives (react.dev, Passing JSX as children).
    pub fn stands_for_children(&self) -> bool
        ensures { result ≡ stands_for_children self.now }
    {
        match self.kind() {
            ElementKind::List(mark, _) => *mark,
            _ => false,
        }
    }

    /// True if a node of this element and one of the other can be one, beside their identity (react.dev, Preserving and
    /// Resetting State).
    pub fn is_same_kind(&self, other: &Element) -> bool
        ensures { result ≡ same_kind (kind_of self.now) (kind_of other.now) }
    {
        match (self.kind(), other.kind()) {
            (ElementKind::Text(_), ElementKind::Text(_)) => true,
            (ElementKind::Host(m, _, _, _), ElementKind::Host(n, _, _, _)) => m.text() == n.text(),
            (ElementKind::Comp(c, _, _, _), ElementKind::Comp(d, _, _, _)) => *c == *d,
            (ElementKind::List(_, _), ElementKind::List(_, _)) => true,
            (ElementKind::Boundary(_, _, _), ElementKind::Boundary(_, _, _)) => true,
            (ElementKind::Catch(_, _, _), ElementKind::Catch(_, _, _)) => true,
            (ElementKind::Provider(c, _, _, _), ElementKind::Provider(d, _, _, _)) => *c == *d,
            _ => false,
        }
    }
}
