// A list of integers.
ghost use Rattle.std.specs.Prelude.{◌≡◌};

use crate::int::Int;
use std::marker::Model;

/// A list of integers: the values of a component's hooks, or of an effect's dependencies. Contracts see it as that list.
#[derive(Debug)]
pub struct Ints {
    values: Vec<Int>,
}

impl Model for Ints {
    ghost use Rattle.std.specs.Prelude.{ℤ, List};

    ghost Value = { List ℤ };

    ghost view = { λ a. a.values.items };
}

// It is taken apart here alone, once for all crates.
impl Drop for Ints {
    fn drop(self) {
        let Ints { values: _values } = self;
    }
}

impl Ints {
    /// The list of these integers.
    pub fn new(values: Vec<Int>) -> Ints
        ensures { result ≡ values.items }
    {
        Ints { values }
    }

    /// The integers in order.
    pub fn as_slice(&self) -> &[Int]
        ensures { result.now ≡ self.now }
    {
        &self.values
    }
}
