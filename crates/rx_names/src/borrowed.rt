// Names in order that are borrowed.
ghost use Rattle.std.specs.Prelude.{◌≡◌, ◌-◌, [], ◌∷◌, ◌++◌, OnOk, OnErr, length, take};
ghost use Rattle.rx_rules.specs.Names.{has_name};

use indexmap::IndexMap;
use std::alloc::{AllocError, Global};
use std::marker::Model;

/// Names in order that are borrowed, each found by its text. Contracts see them as the list of their bytes.
#[derive(Drop)]
pub struct BorrowedNames<'a> {
    items: Vec<&'a str>,
    /// The first place of each name.
    places: IndexMap<&'a str, usize>,
}

impl<'a> Model for BorrowedNames<'a> {
    ghost use Rattle.std.specs.Prelude.{◌≡◌, ℕ, List, bytes_eq, map};
    ghost use Rattle.std.specs.List.{position_from};
    ghost use Rattle.std.specs.HashMap.{get_by};
    ghost use Rattle.rx_base.specs.Values.{Name as Bytes};

    ghost Value = { List Bytes };

    ghost view = { λ n. map (λ t. t.now) n.items.items };

    ghost invariant = { λ n. (x : List ℕ) → get_by (λ t. bytes_eq x t.now) n.places ≡ position_from (bytes_eq x) 0 (map (λ t. t.now) n.items.items) };
}

impl<'a> BorrowedNames<'a> {
    /// No name.
    pub fn new(alloc: Global) -> BorrowedNames<'a>
        ensures { result ≡ [] }
    {
        BorrowedNames {
            items: Vec::new(alloc),
            places: IndexMap::new(alloc),
        }
    }

    /// Makes room for so many more, so that as many can be pushed without the table growing between.
    ///
    /// # Errors
    ///
    /// Only if out of memory. The names are what they were in any case.
    pub fn reserve(&mut self, more: usize) -> Result<(), AllocError>
        ensures { self.new ≡ self.old }
    {
        self.items.reserve(more)?;
        self.places.reserve(more)
    }

    /// Whether a name is one of them.
    pub fn contains(&self, name: &str) -> bool
        ensures { result ≡ has_name self.now name.now }
    {
        self.places.contains_key(name)
    }

    /// Puts a name behind the others.
    ///
    /// # Errors
    ///
    /// Only if out of memory, and then the names are what they were.
    pub fn push(&mut self, name: &'a str) -> Result<(), AllocError>
        ensures ok { OnOk result (self.new ≡ self.old ++ name.now ∷ []) }
        ensures err { OnErr result (self.new ≡ self.old) }
    {
        let place = self.items.len();
        self.places.reserve(1)?;
        self.items.push(name)?;
        if !self.places.contains_key(name) {
            self.places.insert(name, place).unwrap();
        }
        Ok(())
    }

    /// Takes the last name away, if there is one.
    pub fn pop(&mut self)
        ensures { self.new ≡ take (length self.old - 1) self.old }
    {
        if let Some(name) = self.items.pop() {
            if self.places.get(name).copied() == Some(self.items.len()) {
                self.places.swap_remove(name);
            }
        }
    }
}
