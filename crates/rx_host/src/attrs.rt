// The attributes of one host.
ghost use Rattle.std.specs.Prelude.{◌≡◌, ◌≤◌, ◌+◌, [], ◌∷◌, None, MatchOption, vec_len, bytes_eq, if◌then◌else◌};
ghost use Rattle.rx_base.specs.Values as base;
ghost use Rattle.rx_forest.specs.Forests.{value_named};
ghost use Rattle.rx_host.specs.Attrs.{AreByName, with_value, without_name};

use rx_base::Name;
use rx_elem::{Attr, AttrValue};
use std::cmp::Ordering;
use std::marker::Model;
use std::mem;

/// Attributes in the order of their names, by their bytes. Each but the first stands in a cell, which is given to it.
#[cycle(attrs)]
#[derive(Drop)]
pub struct AttrList {
    link: Link,
}

#[cycle(attrs)]
#[derive(Drop)]
enum Link {
    End,
    More(Attr, Box<AttrList>),
}

impl Model for AttrList {
    ghost use Rattle.std.specs.Prelude.{List, length};
    ghost use Rattle.rx_elem.specs.declared.attr.Attr.{Attr};

    ghost Value = { List Attr };

    ghost use Rattle.rx_host.specs.Attrs.{AreByName};
    ghost use Rattle.rx_host.specs.AttrLinks.{linked};

    ghost view = { λ a. linked a.link };

    ghost invariant = { λ a. AreByName (linked a.link) };

    ghost size = { length };

    ghost use Rattle.std.proofs.Common.{arith, length-append};

    ghost size_decreases = { λ a h. Prim.grind (arith, length-append) };
}

impl AttrList {
    /// No attribute.
    pub fn new() -> AttrList
        ensures { result ≡ [] }
    {
        AttrList { link: Link::End }
    }

    /// The same attributes; their names rise.
    pub(crate) fn look_in(&self) -> &AttrList
        ensures same { result.now ≡ self.now }
        ensures by_name { AreByName self.now }
    {
        let _ = &self.link;
        self
    }

    /// The first attribute and the ones behind it.
    pub fn first(&self) -> Option<(&Attr, &AttrList)>
        ensures { MatchOption result (self.now ≡ []) (λ r. self.now ≡ r.0.now ∷ r.1.now) }
    {
        match &self.link {
            Link::End => None,
            Link::More(attr, rest) => Some((attr, rest)),
        }
    }

    /// Gives the attribute of a name its value. If there was none, it takes the last of these cells.
    pub fn set(&mut self, name: Name, value: AttrValue, cells: &mut Vec<Box<AttrList>>)
        requires room { 1 ≤ vec_len cells.old }
        ensures attrs { self.new ≡ with_value name value self.old }
        ensures room { vec_len cells.old ≤ vec_len cells.new + 1 }
    {
        match &mut self.link {
            Link::End => self.push(name, value, cells),
            Link::More(attr, rest) => match name.text().cmp(attr.name.text()) {
                Ordering::Less => self.push(name, value, cells),
                Ordering::Equal => attr.value = value,
                Ordering::Greater => rest.set(name, value, cells),
            },
        }
    }

    // Puts an attribute before the others.
    fn push(&mut self, name: Name, value: AttrValue, cells: &mut Vec<Box<AttrList>>)
        requires room { 1 ≤ vec_len cells.old }
        requires by_name { AreByName (record { name = name; value = value } ∷ self.old) }
        ensures attrs { self.new ≡ record { name = name; value = value } ∷ self.old }
        ensures room { vec_len cells.old ≡ vec_len cells.new + 1 }
    {
        if let Some(mut cell) = cells.pop() {
            let rest = mem::replace(self, AttrList::new());
            *cell = rest;
            self.link = Link::More(Attr { name, value }, cell);
        }
    }

    /// Takes away the attribute of a name.
    pub fn unset(&mut self, name: &Name)
        ensures attrs { self.new ≡ without_name name.now self.old }
        ensures values { (other : base.Name) → value_named self.new other ≡ (if bytes_eq other name.now then None else value_named self.old other) }
    {
        match &mut self.link {
            Link::End => {}
            Link::More(attr, rest) => {
                if attr.name.text() == name.text() {
                    let behind = mem::replace(&mut **rest, AttrList::new());
                    *self = behind;
                } else {
                    rest.unset(name);
                }
            }
        }
    }
}
