// A set of numbers.
ghost use Rattle.std.specs.Prelude.{◌≡◌, ◌||◌, ◌∷◌, ◌↔◌, ℕ, [], true, false, cond, nat_eq, slice_get, None, Some, IfSome, IsTrue, OnErr, OnOk};
ghost use Rattle.std.specs.List.{list_all};
ghost use Rattle.std.specs.List.Sorted.{IsPermutation};
ghost use Rattle.rx_set.specs.Sets.{IsWithout, added, holds};

use crate::places::{Places, note_moved, note_next, number_at, place_in};
use std::alloc::{AllocError, Global};
use std::marker::Model;

/// A set of numbers, as the list of its members; if they are more than a few, with the place of each: whether a small number is in
/// it takes two reads and no hash. Contracts see the members, in the order of the list.
#[derive(Drop)]
pub struct NumberSet {
    members: Vec<u64>,
    places: Places,
}

impl Model for NumberSet {
    ghost use Rattle.std.specs.Prelude.{ℕ, List};
    ghost use Rattle.rx_set.specs.Places.{AreNoted, place_in};

    ghost Value = { List ℕ };

    ghost view = { λ s. s.members.items };

    // Each member is found at its place. What is noted of other numbers is of no account: no member with that number stands there.
    ghost invariant = { λ s. AreNoted (place_in s.members.items s.places) s.members.items };
}

// Takes the number at a place out of a list. The last one takes its place.
fn take_out(members: &mut Vec<u64>, place: u32, number: u64)
    requires { slice_get members.old.items place ≡ Some number }
    ensures { IsWithout number place members.old.items members.new.items }
{
    let _ = members.swap_remove(place as usize);
}

impl NumberSet {
    /// No number.
    pub fn new(alloc: Global) -> NumberSet
        ensures { result ≡ [] }
    {
        NumberSet {
            members: Vec::new(alloc),
            places: Places::new(alloc),
        }
    }

    // Where a number stands, if it is in the set.
    fn find(&self, number: u64) -> Option<u32>
        ensures some { IfSome result (λ place. slice_get self.now place ≡ Some number) }
        ensures none { result ≡ None → holds self.now number ≡ false }
    {
        let place = place_in(&self.members, &self.places, number)?;
        if number_at(&self.members, place) == Some(number) {
            return Some(place);
        }
        None
    }

    /// Whether a number is in the set.
    pub fn has(&self, number: u64) -> bool
        ensures { result ≡ holds self.now number }
    {
        self.find(number).is_some()
    }

    /// Whether the set is empty.
    pub fn is_empty(&self) -> bool
        ensures { IsTrue result ↔ (self.now ≡ []) }
    {
        self.members.is_empty()
    }

    /// The members.
    pub fn members(&self) -> &[u64]
        ensures { result.now ≡ self.now }
    {
        &self.members
    }

    /// Whether each member is one of another set.
    pub fn is_subset(&self, other: &NumberSet) -> bool
        ensures all { result ≡ list_all (holds other.now) self.now }
        ensures each { result ≡ true → (n : ℕ) → holds self.now n ≡ true → holds other.now n ≡ true }
    {
        'comparing: for place in 0..self.members.len() {
            if !other.has(self.members[place]) {
                return false;
            }
        }
        true
    }

    /// Puts a number in the set. An `Err` changes nothing.
    ///
    /// # Errors
    ///
    /// Only if out of memory, or if there are 2^32 members.
    pub fn add(&mut self, number: u64) -> Result<(), AllocError>
        ensures members { OnOk result (self.new ≡ added number self.old) }
        ensures holds { OnOk result ((n : ℕ) → holds self.new n ≡ holds self.old n || nat_eq n number) }
        ensures err { OnErr result (self.new ≡ self.old) }
    {
        if self.has(number) {
            return Ok(());
        }
        let place = self.members.len();
        if place > u32::MAX as usize {
            return Err(AllocError);
        }
        note_next(&mut self.places, &self.members, number)?;
        self.members.push(number)?;
        Ok(())
    }

    /// Takes a number out of the set, and tells whether it was in it. The last member takes its place.
    pub fn remove(&mut self, number: u64) -> bool
        ensures was { result ≡ holds self.old number }
        ensures members { result ≡ true → IsPermutation self.old (number ∷ self.new) }
        ensures holds { (n : ℕ) → holds self.new n ≡ cond (nat_eq number n) false (holds self.old n) }
    {
        let Some(place) = self.find(number) else {
            return false;
        };
        take_out(&mut self.members, place, number);
        note_moved(&mut self.places, &self.members, place);
        true
    }
}
