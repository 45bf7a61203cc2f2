// Hosts, as a tree keeps them.
ghost use Rattle.std.specs.Prelude.{◌≡◌, ◌≤◌, ◌+◌, [], Some, None, false, vec_len};
ghost use Rattle.rx_forest.specs.Forests.{with_body, with_letters, with_value};
ghost use Rattle.rx_host.specs.Attrs.{AreByName};

use crate::attrs::AttrList;
use rx_base::{Name, Str};
use rx_elem::AttrValue;

/// What a host is made as: an element without attributes, or a text.
#[derive(Drop, Debug)]
pub enum HostKind {
    Element(Name),
    Text(Str),
}

/// What is shown of a host: an element with its attributes, or a text, and whether it is marked as hidden.
#[derive(Drop)]
pub struct HostView {
    pub(crate) hidden: bool,
    pub(crate) kind: HostKind,
    pub(crate) attrs: AttrList,
}

impl HostView {
    /// Whether it is marked as hidden.
    pub fn is_hidden(&self) -> bool
        ensures { result ≡ self.now.hidden }
    {
        self.hidden
    }

    /// Whether it is an element, and its name, or a text.
    pub fn kind(&self) -> &HostKind
        ensures { result.now ≡ self.now.kind }
    {
        &self.kind
    }

    /// Its attributes in the order of their names, by their bytes. A text has none that counts.
    pub fn attrs(&self) -> &AttrList
        ensures attrs { result.now ≡ self.now.attrs }
        ensures by_name { AreByName result.now }
    {
        self.attrs.look_in()
    }
}

impl HostView {
    ghost use Rattle.rx_host.specs.Kept.{held_as};

    /// A host of this kind, without attributes, that isn't marked.
    pub(crate) fn new(kind: HostKind) -> HostView
        ensures kind { result.kind ≡ kind }
        ensures hidden { result.hidden ≡ false }
        ensures attrs { result.attrs ≡ [] }
    {
        HostView {
            hidden: false,
            kind,
            attrs: AttrList::new(),
        }
    }

    /// Changes the letters of a text; an element stays.
    pub(crate) fn set_letters(&mut self, text: Str)
        ensures { held_as self.new ≡ with_body (with_letters text) (held_as self.old) }
    {
        if let HostKind::Text(_) = self.kind {
            self.kind = HostKind::Text(text);
        }
    }

    /// Gives an attribute its value; a text has none that counts.
    pub(crate) fn set_attr(&mut self, name: Name, value: AttrValue, cells: &mut Vec<Box<AttrList>>)
        requires { 1 ≤ vec_len cells.old }
        ensures held { held_as self.new ≡ with_body (with_value name (Some value)) (held_as self.old) }
        ensures room { vec_len cells.old ≤ vec_len cells.new + 1 }
    {
        self.attrs.set(name, value, cells);
    }

    /// Takes an attribute away.
    pub(crate) fn unset_attr(&mut self, name: &Name)
        ensures { held_as self.new ≡ with_body (with_value name.now None) (held_as self.old) }
    {
        self.attrs.unset(name);
    }
}

/// A host with its links. It stands under another one, under the container, or nowhere yet.
#[derive(Drop)]
pub struct HostEntry {
    pub parent: Option<u64>,
    pub before: Option<u64>,
    pub after: Option<u64>,
    pub first: Option<u64>,
    pub last: Option<u64>,
    pub view: HostView,
}
