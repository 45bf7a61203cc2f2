//! A new tree beside the old one: what each node was before, which nodes moved, which are gone, and what becomes of a render.
#![tactic(auto)]

mod around;
mod caught;
mod change;
mod lists;
mod outcome;
mod pairing;

pub use around::Around;
pub use change::{Change, Past};
pub use lists::{are_in_place, children_if, elements_of, fallback_if, match_nodes, node_at};
pub use outcome::{Outcome, outcome_of};
pub use pairing::{Pairing, pair_nodes};
