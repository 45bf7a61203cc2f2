// Where each number of a set stands among its members.
ghost use Rattle.std.specs.Prelude.{◌≡◌, ◌≢◌, ◌+◌, ◌<◌, ◌≤◌, ◌^◌, ◌∷◌, ◌++◌, [], ℕ, List, false, length, nat_eq, None, Some, IsSome, OnErr, OnOk, slice_get};
ghost use Rattle.rx_set.specs.Places.{AreNoted, first_place, place_in, place_of};
ghost use Rattle.rx_set.specs.Sets.{IsWithout, holds};

use std::alloc::{AllocError, Global};
use std::collections::HashMap;

// So many members are sooner gone through than looked up.
pub(crate) const FEW: usize = 8;

// The numbers below this are found in a table.
const BOUND: u64 = 16_384;

/// The place that is noted for each number: of small numbers in a table, which reaches to the greatest that was noted, and of
/// the others by their hashes.
#[derive(Drop)]
pub(crate) struct Places {
    near: Vec<u32>,
    far: HashMap<u64, u32>,
}

// Notes a place in a table, which grows to it.
fn put_near(near: &mut Vec<u32>, slot: usize, place: u32) -> Result<(), AllocError>
    requires { slot < 2 ^ 32 }
    ensures here { OnOk result (slice_get near.new.items slot ≡ Some place) }
    ensures others { (k i : ℕ) → k ≢ slot → slice_get near.old.items k ≡ Some i → slice_get near.new.items k ≡ Some i }
    ensures absent { OnErr result (slice_get near.old.items slot ≡ None) }
{
    if slot >= near.len() {
        near.resize(slot + 1, 0)?;
    }
    near[slot] = place;
    Ok(())
}

impl Places {
    /// No place is noted.
    pub(crate) fn new(alloc: Global) -> Places {
        Places {
            near: Vec::new(alloc),
            far: HashMap::new(alloc),
        }
    }

    /// The place that is noted for a number, or what is left there of an earlier one.
    pub(crate) fn get(&self, number: u64) -> Option<u32>
        ensures { result ≡ place_of self.now number }
    {
        if number < BOUND {
            self.near.get(number as usize).copied()
        } else {
            self.far.get(&number).copied()
        }
    }

    /// Notes the place of a number. What is noted for others stays. It fails only for a number for which nothing is noted.
    pub(crate) fn put(&mut self, number: u64, place: u32) -> Result<(), AllocError>
        ensures here { OnOk result (place_of self.new number ≡ Some place) }
        ensures others { (k i : ℕ) → nat_eq number k ≡ false → place_of self.old k ≡ Some i → place_of self.new k ≡ Some i }
        ensures absent { OnErr result (place_of self.old number ≡ None) }
    {
        if number < BOUND {
            return put_near(&mut self.near, number as usize, place);
        }
        self.far.insert(number, place)?;
        Ok(())
    }
    /// Notes another place of a number for which one is noted.
    pub(crate) fn move_to(&mut self, number: u64, place: u32)
        requires { IsSome (place_of self.old number) }
        ensures here { place_of self.new number ≡ Some place }
        ensures others { (k i : ℕ) → nat_eq number k ≡ false → place_of self.old k ≡ Some i → place_of self.new k ≡ Some i }
    {
        let _ = self.put(number, place);
    }
}

/// The number at a place of a list.
pub(crate) fn number_at(members: &[u64], place: u32) -> Option<u64>
    ensures { result ≡ slice_get members.now place }
{
    members.get(place as usize).copied()
}

// The first place at which a number stands in a list, if it does.
fn first_place(members: &[u64], number: u64) -> Option<u32>
    requires { length members.now ≤ 8 }
    ensures { result ≡ first_place members.now number }
{
    'looking: for place in 0..members.len() {
        if members[place] == number {
            return Some(place as u32);
        }
    }
    None
}

/// Where a number is to be looked for among the members of a set: the place at which it is found if they are few, and else the
/// one that is noted.
pub(crate) fn place_in(members: &[u64], places: &Places, number: u64) -> Option<u32>
    ensures { result ≡ place_in members.now places.now number }
{
    if members.len() <= FEW {
        first_place(members, number)
    } else {
        places.get(number)
    }
}

// Notes the place of each of a few members.
fn note_all(places: &mut Places, members: &[u64]) -> Result<(), AllocError>
    requires few { length members.now ≤ 8 }
    requires apart { AreNoted (first_place members.now) members.now }
    ensures { OnOk result (AreNoted (place_of places.new) members.now) }
{
    'noting: for place in 0..members.len() {
        places.put(members[place], place as u32)?;
    }
    Ok(())
}

// Notes the places of a few members, and that of the next one, with which they are more.
fn note_first(places: &mut Places, members: &[u64], number: u64) -> Result<(), AllocError>
    requires few { length members.now ≡ 8 }
    requires apart { AreNoted (first_place members.now) members.now }
    requires none { holds members.now number ≡ false }
    ensures { OnOk result (AreNoted (place_in (members.now ++ number ∷ []) places.new) (members.now ++ number ∷ [])) }
{
    note_all(places, members)?;
    places.put(number, members.len() as u32)?;
    Ok(())
}

/// Notes the place of the next member, before it comes, if they are more than a few with it. If that fails, what is noted of the
/// members stays right.
pub(crate) fn note_next(places: &mut Places, members: &[u64], number: u64) -> Result<(), AllocError>
    requires small { length members.now < 2 ^ 32 }
    requires noted { AreNoted (place_in members.now places.old) members.now }
    requires none { holds members.now number ≡ false }
    ensures next { OnOk result (AreNoted (place_in (members.now ++ number ∷ []) places.new) (members.now ++ number ∷ [])) }
    ensures still { AreNoted (place_in members.now places.new) members.now }
{
    let count = members.len();
    if count < FEW {
        return Ok(());
    }
    if count == FEW {
        return note_first(places, members, number);
    }
    places.put(number, count as u32)?;
    Ok(())
}

/// Notes the new place of the member that stands where one was taken out, if they are more than a few.
pub(crate) fn note_moved(places: &mut Places, members: &[u64], place: u32)
    requires { (was : List ℕ) × (n : ℕ) × AreNoted (place_in was places.old) was × (slice_get was place ≡ Some n) × IsWithout n place was members.now }
    ensures { AreNoted (place_in members.now places.new) members.now }
{
    if members.len() <= FEW {
        return;
    }
    if let Some(moved) = number_at(members, place) {
        places.move_to(moved, place);
    }
}
