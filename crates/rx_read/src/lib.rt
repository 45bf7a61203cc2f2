//! A finished tree of fibers: read as a plain tree, and numbered.
#![tactic(auto)]

mod laws;
mod numbering;
mod reading;

pub use laws::current_trees_have_numbers;
pub use numbering::{Numbers, made_child, number_made};
pub use reading::{NodeLists, lists_of, read_current, read_fiber, read_in_progress};
