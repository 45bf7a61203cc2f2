// The values of names.
ghost use Rattle.std.specs.Prelude.{◌≡◌, [], ◌∷◌};
ghost use Rattle.rx_meaning.specs.Expressions.{value_of};

use rx_base::{Int, Name};
use rx_names::same_bytes;
use std::marker::Model;

/// The values of names, the newest first. It stands on the stack of calls: each binding borrows those before it, so nothing
/// is allocated and no name is copied. Contracts see it as that list.
#[cycle(env)]
#[derive(Drop)]
pub(crate) struct Env<'a> {
    newest: Bound<'a>,
}

/// The newest of the values of names, with those before it.
#[cycle(env)]
#[derive(Drop)]
enum Bound<'a> {
    Nothing,
    Value(&'a [u8], Int, &'a Env<'a>),
}

impl<'a> Model for Env<'a> {
    ghost use Rattle.std.specs.Prelude.{length};
    ghost use Rattle.rx_meaning.specs.Expressions.{Env as Values};

    ghost Value = { Values };

    ghost use Rattle.rx_eval.specs.Envs.{env_of};

    ghost view = { λ e. env_of e.newest };

    ghost size = { length };

    ghost use Rattle.std.proofs.Common.{arith};

    ghost size_decreases = { λ a h. Prim.grind arith };
}

impl<'a> Env<'a> {
    /// No name has a value.
    pub(crate) fn new() -> Env<'a>
        ensures { result ≡ [] }
    {
        Env {
            newest: Bound::Nothing,
        }
    }

    /// One more name has a value.
    pub(crate) fn with(&'a self, name: &'a Name, value: Int) -> Env<'a>
        ensures { result ≡ (name.now, value) ∷ self.now }
    {
        Env {
            newest: Bound::Value(name.text().as_bytes(), value, self),
        }
    }

    /// The value of a name; 0 if it has none, for which no program that is accepted asks.
    pub(crate) fn value(&self, name: &Name) -> Int
        ensures { result ≡ value_of self.now name.now }
    {
        self.value_at(name.text().as_bytes())
    }

    // The value of the name with these bytes.
    fn value_at(&self, name: &[u8]) -> Int
        ensures { result ≡ value_of self.now name.now }
    {
        match &self.newest {
            Bound::Nothing => Int::of(0),
            Bound::Value(bound, value, before) => {
                if same_bytes(bound, name) {
                    *value
                } else {
                    before.value_at(name)
                }
            }
        }
    }
}
