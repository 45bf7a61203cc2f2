// Children that have the keys of the old ones, place by place.
ghost use Rattle.std.specs.Prelude.{◌≡◌, ◌<◌, ◌^◌, true, length, map, IfOk};
ghost use Rattle.rx_elem.specs.Elements.{key_of};
ghost use Rattle.rx_elem.specs.Identity.{old_places};

use rx_elem::Element;
use std::alloc::{AllocError, Global};

/// Whether two lists have the same keys, place by place: then each child of the one can only be the child of the other at its
/// place.
pub(crate) fn have_same_keys(old: &[Element], new: &[Element]) -> bool
    ensures { result ≡ true → map key_of old.now ≡ map key_of new.now }
{
    if old.len() != new.len() {
        return false;
    }
    for place in 0..new.len() {
        if old[place].key() != new[place].key() {
            return false;
        }
    }
    true
}

/// Where each new child was, if it is an old one, for lists with the same keys.
///
/// # Errors
///
/// Only if out of memory.
pub(crate) fn places_beside(
    alloc: Global,
    old: &[Element],
    new: &[Element],
) -> Result<Vec<Option<u32>>, AllocError>
    requires few { length new.now < 2 ^ 32 }
    requires keys { map key_of old.now ≡ map key_of new.now }
    ensures { IfOk result (λ places. places.items ≡ old_places old.now new.now) }
{
    let mut places = Vec::with_capacity(alloc, new.len())?;
    for place in 0..new.len() {
        let is_same = new[place].is_same_kind(&old[place]);
        places.push(is_same.then_some(place as u32))?;
    }
    Ok(places)
}
