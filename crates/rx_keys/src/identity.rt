// How a child is known among its siblings.
ghost use Rattle.std.specs.Prelude.{◌≡◌, ◌+◌, ◌<◌, ◌^◌, ◌++◌, ◌∷◌, [], List, IfOk, OnOk, length, map};
ghost use Rattle.rx_elem.specs.Elements as elements;
ghost use Rattle.rx_elem.specs.Elements.{key_of};
ghost use Rattle.rx_elem.specs.Identity.{identities, identity_after};
ghost use Rattle.rx_keys.specs.IdentityView.{identity_seen};
ghost use Rattle.rx_keys.specs.Found.{CountsKeys};

use rx_base::Int;
use rx_elem::Element;
use std::alloc::{AllocError, Global};
use std::collections::HashMap;

/// How a child is known among its siblings: by its key and the number of earlier siblings with that key, or else by its
/// position (react.dev, Preserving and Resetting State).
#[derive(Clone, Copy, Debug, PartialEq, Eq)]
pub enum Identity {
    Key(Int, u32),
    Index(u32),
}

// No key is counted, with room for so many.
pub(crate) fn no_counts(alloc: Global, keys: usize) -> Result<HashMap<i64, u32>, AllocError>
    ensures { IfOk result (λ counts. CountsKeys counts []) }
{
    HashMap::with_capacity(alloc, keys)
}

// The identity of the next child of a list, once the keys of its earlier siblings are counted. Its own key is counted then.
pub(crate) fn next_identity(
    counts: &mut HashMap<i64, u32>,
    place: usize,
    child: &Element,
) -> Result<Identity, AllocError>
    requires few { place + 1 < 2 ^ 32 }
    requires counted { (earlier : List elements.Element) × (length earlier ≡ place) × CountsKeys counts.old earlier }
    ensures identity { (earlier : List elements.Element) → length earlier ≡ place → CountsKeys counts.old earlier → IfOk result (λ id. identity_seen id ≡ identity_after earlier (key_of child.now)) }
    ensures counted { (earlier : List elements.Element) → CountsKeys counts.old earlier → OnOk result (CountsKeys counts.new (earlier ++ child.now ∷ [])) }
{
    match child.key() {
        None => Ok(Identity::Index(place as u32)),
        Some(key) => {
            let earlier = counts.get(&key.value()).copied().unwrap_or(0);
            counts.insert(key.value(), earlier + 1)?;
            Ok(Identity::Key(key, earlier))
        }
    }
}

/// The identity of each child of a list.
///
/// # Errors
///
/// Only if out of memory.
pub fn identities(alloc: Global, children: &[Element]) -> Result<Vec<Identity>, AllocError>
    requires { length children.now < 2 ^ 32 }
    ensures { IfOk result (λ ids. map identity_seen ids.items ≡ identities children.now) }
{
    let mut counts = no_counts(alloc, children.len())?;
    let mut ids = Vec::with_capacity(alloc, children.len())?;
    for place in 0..children.len() {
        let id = next_identity(&mut counts, place, &children[place])?;
        ids.push(id)?;
    }
    Ok(ids)
}
