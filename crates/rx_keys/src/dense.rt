// Children whose keys are small whole numbers, found by a table with a place for each number.
ghost use Rattle.std.specs.Prelude.{◌≡◌, ℤ, ◌+◌, ◌<◌, ◌^◌, ◌++◌, ◌∷◌, [], List, Some, None, true, IfOk, length, position, if◌then◌else◌};
ghost use Rattle.std.specs.Ordering.{int_eq};
ghost use Rattle.rx_elem.specs.Elements as elements;
ghost use Rattle.rx_elem.specs.Elements.{key_of};
ghost use Rattle.rx_elem.specs.Identity.{Identity, at_index, identified, identities, identity_after, is_same_child, old_places};
ghost use Rattle.rx_keys.specs.Dense.{FindsKeys, FindsNext, HasKeysOnce, entry_at, slot_of};
ghost use Rattle.rx_keys.specs.Found.{found_in};

use rx_elem::Element;
use std::alloc::{AllocError, Global};

// Where a key stands in a table, unless it is negative.
fn slot_of(key: i64) -> Option<usize>
    ensures { result ≡ slot_of key }
{
    if key < 0 {
        return None;
    }
    Some(key as usize)
}

// Takes the place that the table has for a key.
fn take_entry(table: &mut [Option<u32>], key: i64) -> Option<u32>
    ensures result { result ≡ entry_at table.old key }
    ensures taken { (k : ℤ) → entry_at table.new k ≡ (if int_eq key k then None else entry_at table.old k) }
{
    let slot = slot_of(key)?;
    if slot >= table.len() {
        return None;
    }
    let entry = table[slot];
    table[slot] = None;
    entry
}

// Notes the place of a key, unless the table has no room for the key or has one already.
fn note_entry(table: &mut [Option<u32>], key: i64, place: u32) -> bool
    ensures free { result ≡ true → entry_at table.old key ≡ None }
    ensures noted { result ≡ true → (k : ℤ) → entry_at table.new k ≡ (if int_eq key k then Some place else entry_at table.old k) }
{
    match slot_of(key) {
        Some(slot) if slot < table.len() && table[slot].is_none() => {
            table[slot] = Some(place);
            true
        }
        _ => false,
    }
}

// Notes the next child of a list, if it has a key.
fn note_child(table: &mut [Option<u32>], place: usize, child: &Element) -> bool
    requires { place < 2 ^ 32 }
    ensures { (earlier : List elements.Element) → length earlier ≡ place → FindsKeys earlier table.old → result ≡ true → FindsKeys (earlier ++ child.now ∷ []) table.new }
{
    match child.key() {
        None => true,
        Some(key) => note_entry(table, key.value(), place as u32),
    }
}

/// The place of the child with each key, if no key occurs twice and each is a number below twice the number of the children.
///
/// # Errors
///
/// Only if out of memory.
pub(crate) fn table_by_key(
    alloc: Global,
    children: &[Element],
) -> Result<Option<Vec<Option<u32>>>, AllocError>
    requires { length children.now < 2 ^ 32 }
    ensures { IfOk result (λ found. (table : _) → found ≡ Some table → FindsKeys children.now table.items) }
{
    let mut table = vec![in alloc; None; children.len() * 2]?;
    for place in 0..children.len() {
        if !note_child(&mut table, place, &children[place]) {
            return Ok(None);
        }
    }
    Ok(Some(table))
}

// Where the child with this position as its identity is found.
fn unkeyed_at(old: &[Element], place: usize) -> Option<u32>
    requires { place < 2 ^ 32 }
    ensures { result ≡ found_in (identities old.now) (at_index place) }
{
    if place < old.len() && old[place].key().is_none() {
        return Some(place as u32);
    }
    None
}

// Where the next new child is found by its key, else by its position.
fn find_next(
    table: &mut [Option<u32>],
    old: &[Element],
    place: usize,
    child: &Element,
) -> Option<u32>
    requires few { place < 2 ^ 32 }
    requires once { HasKeysOnce old.now }
    ensures found { (earlier : List elements.Element) → length earlier ≡ place → FindsNext old.now table.old earlier → result ≡ found_in (identities old.now) (identity_after earlier (key_of child.now)) }
    ensures next { (earlier : List elements.Element) → FindsNext old.now table.old earlier → FindsNext old.now table.new (earlier ++ child.now ∷ []) }
{
    match child.key() {
        None => unkeyed_at(old, place),
        Some(key) => take_entry(table, key.value()),
    }
}

// The place where a child was found, if the old child there is of the same kind.
fn of_same_kind(old: &[Element], found: Option<u32>, child: &Element) -> Option<u32>
    requires { (x : Identity) × (found ≡ found_in (identities old.now) x) }
    ensures { (x : Identity) → found ≡ found_in (identities old.now) x → result ≡ position (is_same_child (record { identity = x; element = child.now })) (identified old.now) }
{
    match found {
        None => None,
        Some(place) => child.is_same_kind(&old[place as usize]).then_some(place),
    }
}

/// Where each new child was, if it is an old one, by a table of the old ones.
///
/// # Errors
///
/// Only if out of memory.
pub(crate) fn places_by(
    alloc: Global,
    mut table: Vec<Option<u32>>,
    old: &[Element],
    new: &[Element],
) -> Result<Vec<Option<u32>>, AllocError>
    requires few { length new.now < 2 ^ 32 }
    requires finds { FindsKeys old.now table.items }
    ensures { IfOk result (λ places. places.items ≡ old_places old.now new.now) }
{
    let mut places = Vec::with_capacity(alloc, new.len())?;
    for place in 0..new.len() {
        let child = &new[place];
        let found = find_next(&mut table, old, place, child);
        places.push(of_same_kind(old, found, child))?;
    }
    Ok(places)
}
