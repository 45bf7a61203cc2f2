// A set of numbers of instances that is quick to ask and to grow.
ghost use Rattle.std.specs.Prelude.{◌≡◌, ◌||◌, ◌<◌, ◌^◌, ◌/◌, ℕ, false, nat_eq, length, OnErr, OnOk};
ghost use Rattle.std.specs.List.{list_all};
ghost use Rattle.rx_ways.specs.WaySets.{has_bit, is_put};

use rx_set::NumberSet;
use std::alloc::{AllocError, Global};

// The numbers below this have bits in a table, of at most 2 KB.
const BOUND: u64 = 16_384;

/// A set of numbers that only grows. Each small number has a bit in a table, which reaches to the greatest of them that was put;
/// the others are members of a set. To ask takes one read, and no hash unless a number is great.
#[derive(Drop)]
pub(crate) struct WaySet {
    near: Vec<u64>,
    far: NumberSet,
}

// Whether the bit of a number is set in a table.
fn has_bit(words: &[u64], number: usize) -> bool
    ensures { result ≡ has_bit words.now number }
{
    match words.get(number / 64) {
        Some(word) => *word >> (number % 64) & 1 == 1,
        None => false,
    }
}

// Makes a table reach to a place. No bit is set in what is new.
fn reach(words: &mut Vec<u64>, place: usize) -> Result<(), AllocError>
    requires { place < 2 ^ 32 }
    ensures reaches { OnOk result (place < length words.new.items) }
    ensures same { (n : ℕ) → has_bit words.new.items n ≡ has_bit words.old.items n }
{
    if place >= words.len() {
        words.resize(place + 1, 0)?;
    }
    Ok(())
}

// Sets the bit of a number in a table that reaches to it.
fn set_bit(words: &mut [u64], number: usize)
    requires { number / 64 < length words.old }
    ensures { (n : ℕ) → has_bit words.new n ≡ has_bit words.old n || nat_eq n number }
{
    words[number / 64] |= 1 << (number % 64);
}

impl WaySet {
    /// No number.
    #[tactic(auto, unfolding(crate::specs::WaySets::is_put))]
    pub(crate) fn new(alloc: Global) -> WaySet
        ensures { (n : ℕ) → is_put result n ≡ false }
    {
        WaySet {
            near: Vec::new(alloc),
            far: NumberSet::new(alloc),
        }
    }

    /// Whether a number is in the set.
    #[tactic(auto, unfolding(crate::specs::WaySets::is_put))]
    pub(crate) fn has(&self, number: u64) -> bool
        ensures { result ≡ is_put self.now number }
    {
        if number < BOUND {
            has_bit(&self.near, number as usize)
        } else {
            self.far.has(number)
        }
    }

    /// Whether each of these numbers is in the set.
    pub(crate) fn has_all(&self, numbers: &[u64]) -> bool
        ensures { result ≡ list_all (is_put self.now) numbers.now }
    {
        numbers.iter().all(|number| self.has(*number))
    }

    // Puts a small number in the set.
    #[tactic(auto, unfolding(crate::specs::WaySets::is_put))]
    fn add_near(&mut self, number: u64) -> Result<(), AllocError>
        requires { number < 16384 }
        ensures ok { OnOk result ((n : ℕ) → is_put self.new n ≡ is_put self.old n || nat_eq n number) }
        ensures err { OnErr result ((n : ℕ) → is_put self.new n ≡ is_put self.old n) }
    {
        let place = number as usize;
        reach(&mut self.near, place / 64)?;
        set_bit(&mut self.near, place);
        Ok(())
    }

    /// Puts a number in the set. An `Err` changes nothing.
    ///
    /// # Errors
    ///
    /// Only if out of memory.
    #[tactic(auto, unfolding(crate::specs::WaySets::is_put))]
    pub(crate) fn add(&mut self, number: u64) -> Result<(), AllocError>
        ensures ok { OnOk result ((n : ℕ) → is_put self.new n ≡ is_put self.old n || nat_eq n number) }
        ensures err { OnErr result ((n : ℕ) → is_put self.new n ≡ is_put self.old n) }
    {
        if number < BOUND {
            return self.add_near(number);
        }
        self.far.add(number)?;
        Ok(())
    }
}
