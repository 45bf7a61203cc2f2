// Which children are those of before, which moved, and which are gone.
ghost use Rattle.std.specs.Prelude.{◌≡◌, ℕ, ◌+◌, ◌<◌, ◌≤◌, ◌^◌, ◌&&◌, true, false, not, IfOk, length, max, nat_eq, nat_lt, slice_set, slice_index_or};
ghost use Rattle.std.specs.Option.{option_map_or};
ghost use Rattle.rx_elem.specs.Elements.{is_present};
ghost use Rattle.rx_elem.specs.Identity.{is_reused, moves, old_places, removed_places};
ghost use Rattle.rx_keys.specs.Found.{gone_places, moves_below};

use crate::aligned::{have_same_keys, places_beside};
use crate::dense::{places_by, table_by_key};
use crate::known::Known;
use rx_elem::Element;
use std::alloc::{AllocError, Global};

// So many children are sooner compared one by one than marked.
const FEW: usize = 4;

/// What becomes of a list of children.
#[derive(Drop, Debug)]
pub struct Matching {
    /// For each new child the place of the old child that it is, if it is one.
    pub places: Vec<Option<u32>>,
    /// For each new child whether it moved.
    pub moved: Vec<bool>,
    /// The places of the old children that are gone, in order.
    pub removed: Vec<u32>,
}

fn is_moved(place: Option<u32>, behind: u64) -> bool
    ensures { result ≡ option_map_or (λ p. nat_lt (p + 1) behind) place false }
{
    match place {
        Some(place) => u64::from(place) + 1 < behind,
        None => false,
    }
}

fn behind_also(place: Option<u32>, behind: u64) -> u64
    requires { behind ≤ 2 ^ 32 }
    ensures after { result ≡ option_map_or (λ p. max behind (p + 1)) place behind }
    ensures small { result ≤ 2 ^ 32 }
{
    match place {
        Some(place) => behind.max(u64::from(place) + 1),
        None => behind,
    }
}

// Whether each child moved, by the old places.
fn moves_of(alloc: Global, places: &[Option<u32>]) -> Result<Vec<bool>, AllocError>
    ensures { IfOk result (λ moved. moved.items ≡ moves_below 0 places.now) }
{
    let mut moved = Vec::with_capacity(alloc, places.len())?;
    let mut behind = 0;
    for place in places {
        moved.push(is_moved(*place, behind))?;
        behind = behind_also(*place, behind);
    }
    Ok(moved)
}

fn mark(marks: &mut [bool], place: Option<u32>)
    ensures { marks.new ≡ option_map_or (λ p. slice_set marks.old p true) place marks.old }
{
    if let Some(place) = place
        && (place as usize) < marks.len()
    {
        marks[place as usize] = true;
    }
}

// For each old child whether it is one of the new ones.
fn reused_of(alloc: Global, count: usize, places: &[Option<u32>]) -> Result<Vec<bool>, AllocError>
    ensures len { IfOk result (λ marks. length marks.items ≡ count) }
    ensures marks { IfOk result (λ marks. (p : ℕ) → p < count → slice_index_or marks.items p false ≡ is_reused places.now p) }
{
    let mut marks = vec![in alloc; false; count]?;
    for place in places {
        mark(&mut marks, *place);
    }
    Ok(marks)
}

fn is_gone(child: &Element, reused: bool) -> bool
    ensures { result ≡ (is_present child.now && not reused) }
{
    !reused && child.is_present()
}

// Whether the old child at a place is one of the new ones.
fn is_reused(places: &[Option<u32>], place: usize) -> bool
    ensures { result ≡ is_reused places.now place }
{
    match places.split_first() {
        None => false,
        Some((first, others)) => is_at(*first, place) || is_reused(others, place),
    }
}

fn is_at(found: Option<u32>, place: usize) -> bool
    ensures { result ≡ option_map_or (nat_eq place) found false }
{
    match found {
        None => false,
        Some(found) => place == found as usize,
    }
}

// The places of the old children that are gone, for lists so short that no marks are made of them.
fn removed_of_few(
    alloc: Global,
    old: &[Element],
    places: &[Option<u32>],
) -> Result<Vec<u32>, AllocError>
    requires { length old.now < 2 ^ 32 }
    ensures { IfOk result (λ removed. removed.items ≡ gone_places old.now places.now) }
{
    let mut removed = Vec::new(alloc);
    for place in 0..old.len() {
        if is_gone(&old[place], is_reused(places, place)) {
            removed.push(place as u32)?;
        }
    }
    Ok(removed)
}

// The places of the old children that are gone.
fn removed_of(
    alloc: Global,
    old: &[Element],
    places: &[Option<u32>],
) -> Result<Vec<u32>, AllocError>
    requires { length old.now < 2 ^ 32 }
    ensures { IfOk result (λ removed. removed.items ≡ gone_places old.now places.now) }
{
    if old.len() <= FEW && places.len() <= FEW {
        return removed_of_few(alloc, old, places);
    }
    let reused = reused_of(alloc, old.len(), places)?;
    let mut removed = Vec::new(alloc);
    for place in 0..old.len() {
        if is_gone(&old[place], reused[place]) {
            removed.push(place as u32)?;
        }
    }
    Ok(removed)
}

/// For each new child the place of the old child that it is, if it is one (react.dev, Preserving and Resetting State): without a
/// table if the keys are the same, and without hashes if the old keys are small whole numbers, each once; in time in proportion to
/// both lists.
///
/// # Errors
///
/// Only if out of memory.
pub fn places_of(
    alloc: Global,
    old: &[Element],
    new: &[Element],
) -> Result<Vec<Option<u32>>, AllocError>
    requires few_old { length old.now < 2 ^ 32 }
    requires few_new { length new.now < 2 ^ 32 }
    ensures { IfOk result (λ places. places.items ≡ old_places old.now new.now) }
{
    if have_same_keys(old, new) {
        return places_beside(alloc, old, new);
    }
    match table_by_key(alloc, old)? {
        Some(table) => places_by(alloc, table, old, new),
        None => Known::new(alloc, old)?.places_of(alloc, new),
    }
}

/// Which of the new children is which old one, which of them moved, and which old ones are gone (react.dev, Preserving and
/// Resetting State), in time in proportion to both lists.
///
/// # Errors
///
/// Only if out of memory.
pub fn match_children(
    alloc: Global,
    old: &[Element],
    new: &[Element],
) -> Result<Matching, AllocError>
    requires few_old { length old.now < 2 ^ 32 }
    requires few_new { length new.now < 2 ^ 32 }
    ensures places { IfOk result (λ m. m.places.items ≡ old_places old.now new.now) }
    ensures moved { IfOk result (λ m. m.moved.items ≡ moves (old_places old.now new.now)) }
    ensures removed { IfOk result (λ m. m.removed.items ≡ removed_places old.now new.now) }
{
    let places = places_of(alloc, old, new)?;
    let moved = moves_of(alloc, &places)?;
    let removed = removed_of(alloc, old, &places)?;
    Ok(Matching {
        places,
        moved,
        removed,
    })
}
