// The ids of nodes.
ghost use Rattle.std.specs.Prelude.{◌≡◌, eqb};

use std::marker::Model;

/// The id of a node in its arena. Once the node is released, a new one may get it.
#[derive(Clone, Copy, Drop)]
pub struct FiberId {
    key: usize,
}

impl Model for FiberId {
    ghost use Rattle.std.specs.Prelude.{ℕ};

    ghost Value = { ℕ };

    ghost view = { λ a. a.key };

    ghost inverse = { λ n. record { key = n } };
}

impl FiberId {
    pub(crate) fn of(key: usize) -> FiberId
        ensures { result ≡ key }
    {
        FiberId { key }
    }

    pub(crate) fn key(self) -> usize
        ensures { result ≡ self }
    {
        self.key
    }

    /// Whether both are the id of one node.
    pub fn same(self, other: FiberId) -> bool
        ensures { result ≡ eqb self other }
    {
        self.key == other.key
    }
}
