//! Which children of a list are those of before, and which moved.
#![tactic(auto)]

mod aligned;
mod dense;
mod identity;
mod known;
mod matching;

pub use identity::{Identity, identities};
pub use matching::{Matching, match_children, places_of};
