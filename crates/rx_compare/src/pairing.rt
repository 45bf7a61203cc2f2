// How an old list of children and the new one stand beside each other.
ghost use Rattle.std.specs.Prelude.{◌≡◌, ◌∷◌, ◌+◌, ◌<◌, List, Option, IfOk, drop, length, filter_map};
ghost use Rattle.rx_elem.specs.Trees.{Node, Forest, forest, elements_in};
ghost use Rattle.rx_elem.specs.Compare.{pasts, node_at, gone_nodes};
ghost use Rattle.rx_compare.specs.ComparedView.{past_seen};
ghost use Rattle.rx_compare.specs.Pairs.{IsPairing};

use crate::change::Past;
use crate::lists::{are_in_place, match_nodes, node_at};
use rx_keys::Matching;
use rx_node as node;
use std::alloc::{AllocError, Global};

/// How the children of an old list and of the new one stand beside each other: each new child is the old one at its place, or
/// they were matched.
#[derive(Drop)]
pub enum Pairing {
    InPlace,
    Matched(Matching),
}

/// How the children of two lists stand beside each other. Most often each stands where it stood, and then nothing is matched.
///
/// # Errors
///
/// Only if out of memory.
pub fn pair_nodes(
    alloc: Global,
    old: &[Option<node::Node>],
    new: &[Option<node::Node>],
) -> Result<Pairing, AllocError>
    ensures { IfOk result (IsPairing (forest old.now) (forest new.now)) }
{
    if are_in_place(old, new) {
        return Ok(Pairing::InPlace);
    }
    Ok(Pairing::Matched(match_nodes(alloc, old, new)?))
}

impl Pairing {
    /// What is known of the new child at a place.
    pub fn past<'a>(&self, old: &'a [Option<node::Node>], place: usize) -> Past<'a>
        requires { (new : List (Option Node)) × (IsPairing (forest old.now) (forest new) self.now × (place < length new)) }
        ensures { (new : List (Option Node)) → IsPairing (forest old.now) (forest new) self.now → place < length new → drop place (pasts (forest old.now) (elements_in (forest new))) ≡ past_seen result ∷ drop (place + 1) (pasts (forest old.now) (elements_in (forest new))) }
    {
        match self {
            Pairing::InPlace => Past {
                old: old[place].as_ref(),
                moved: false,
            },
            Pairing::Matched(matching) => Past {
                old: node_at(old, matching.places[place]),
                moved: matching.moved[place],
            },
        }
    }

    /// The places of the old children that are gone, in order.
    pub fn gone(&self) -> &[u32]
        ensures { (old new : Forest) → IsPairing old new self.now → filter_map (node_at old) result.now ≡ gone_nodes old (elements_in new) }
    {
        match self {
            Pairing::InPlace => &[],
            Pairing::Matched(matching) => &matching.removed,
        }
    }
}
