// Names by their numbers.
ghost use Rattle.std.specs.Prelude.{◌≡◌, ◌<◌, ◌^◌, bytes_eq, position, length};

use crate::names::Names;
use rx_base::Name;
use std::marker::Model;

/// Names that are numbered in order. Contracts see them as the list of their bytes.
#[derive(Debug, Drop)]
pub struct Table {
    names: Names,
}

impl Model for Table {
    ghost use Rattle.std.specs.Prelude.{◌<◌, ◌^◌, List, length};
    ghost use Rattle.rx_base.specs.Values.{Name as Bytes};

    ghost Value = { List Bytes };

    ghost view = { λ t. t.names };

    ghost invariant = { λ t. length t.names < 2 ^ 32 };
}

impl Table {
    /// The table of these names.
    pub fn new(names: Names) -> Table
        requires { length names < 2 ^ 32 }
        ensures { result ≡ names }
    {
        Table { names }
    }

    /// The names by their numbers.
    pub fn names(&self) -> &[Name]
        ensures { result.now ≡ self.now }
    {
        self.names.items()
    }

    /// The number of a name.
    pub fn number(&self, name: &str) -> Option<u32>
        ensures { result ≡ position (bytes_eq name.now) self.now }
    {
        let names = &self.names;
        match names.position(name) {
            None => None,
            Some(place) => Some(place as u32),
        }
    }
}
