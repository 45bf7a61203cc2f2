// Names in order.
ghost use Rattle.std.specs.Prelude.{◌≡◌, List, [], ◌∷◌, ◌++◌, OnOk, OnErr, bytes_eq, position, length};
ghost use Rattle.rx_rules.specs.Names.{has_name};

use crate::short::place_from;
use indexmap::IndexMap;
use rx_base::Name;
use std::alloc::{AllocError, Global};
use std::marker::Model;

/// Names in order, each found by its text. Contracts see them as the list of their bytes.
#[derive(Debug, Drop)]
pub struct Names {
    items: Vec<Name>,
    /// The first place of each name.
    places: IndexMap<String, usize>,
}

impl Model for Names {
    ghost use Rattle.std.specs.Prelude.{◌≡◌, ℕ, List, bytes_eq};
    ghost use Rattle.std.specs.List.{position_from};
    ghost use Rattle.std.specs.HashMap.{get_by_text};
    ghost use Rattle.rx_base.specs.Values.{Name as Bytes};

    ghost Value = { List Bytes };

    ghost view = { λ n. n.items.items };

    ghost invariant = { λ n. (x : List ℕ) → get_by_text n.places x ≡ position_from (bytes_eq x) 0 n.items.items };
}

// So many names are sooner looked through than hashed.
const FEW: usize = 8;

impl Names {
    /// No name.
    pub fn new(alloc: Global) -> Names
        ensures { result ≡ [] }
    {
        Names {
            items: Vec::new(alloc),
            places: IndexMap::new(alloc),
        }
    }

    /// The names in order.
    pub fn items(&self) -> &[Name]
        ensures { result.now ≡ self.now }
    {
        &self.items
    }

    /// The place of a name among them, counted from 0; the first if it stands twice.
    pub fn position(&self, name: &str) -> Option<usize>
        ensures { result ≡ position (bytes_eq name.now) self.now }
    {
        if self.items.len() <= FEW {
            return place_from(&self.items, name.as_bytes(), 0);
        }
        self.places.get(name).copied()
    }

    /// Whether a name is one of them.
    pub fn contains(&self, name: &str) -> bool
        ensures { result ≡ has_name self.now name.now }
    {
        self.places.contains_key(name)
    }

    /// Puts a name behind the others.
    ///
    /// # Errors
    ///
    /// Only if out of memory, and then the names are what they were.
    pub fn push(&mut self, alloc: Global, name: &str) -> Result<(), AllocError>
        ensures ok { OnOk result (self.new ≡ self.old ++ name.now ∷ []) }
        ensures err { OnErr result (self.new ≡ self.old) }
    {
        let place = self.items.len();
        let item = Name::new(alloc, name)?;
        let key = String::from_str(alloc, name)?;
        self.places.reserve(1)?;
        self.items.push(item)?;
        if !self.places.contains_key(name) {
            self.places.insert(key, place).unwrap();
        }
        Ok(())
    }

    /// How many there are.
    pub fn len(&self) -> usize
        ensures { result ≡ length self.now }
    {
        self.items.len()
    }
}
