// The attributes of hosts.
ghost use Rattle.std.specs.Prelude.{◌≡◌};
ghost use Rattle.std.specs.Cmp.Lexicographic.{pointwise};
ghost use Rattle.rx_elem.specs.Elements.{same_attr, same_value};

use rx_base::{Int, Name, Str};

/// The value of an attribute: a number, or a text.
#[derive(Drop, Debug)]
pub enum AttrValue {
    Number(Int),
    Text(Str),
}

/// An attribute of an element of the host.
#[derive(Drop, Debug)]
pub struct Attr {
    pub name: Name,
    pub value: AttrValue,
}

impl AttrValue {
    /// True if both are the same number or the same text.
    pub fn same(&self, other: &AttrValue) -> bool
        ensures { result ≡ same_value self.now other.now }
    {
        match (self, other) {
            (AttrValue::Number(x), AttrValue::Number(y)) => x.same(*y),
            (AttrValue::Text(s), AttrValue::Text(t)) => s.text() == t.text(),
            _ => false,
        }
    }
}

impl Attr {
    /// True if both have the same name and the same value.
    pub fn same(&self, other: &Attr) -> bool
        ensures { result ≡ same_attr self.now other.now }
    {
        self.name.text() == other.name.text() && self.value.same(&other.value)
    }
}

/// True if both lists have the same attributes, in the same order.
pub(crate) fn same_attrs(ours: &[Attr], theirs: &[Attr]) -> bool
    ensures { result ≡ pointwise same_attr ours.now theirs.now }
{
    if ours.len() != theirs.len() {
        return false;
    }
    for place in 0..ours.len() {
        if !ours[place].same(&theirs[place]) {
            return false;
        }
    }
    true
}
