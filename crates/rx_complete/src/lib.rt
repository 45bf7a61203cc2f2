//! Where a render goes from a place: a node is completed or passed, or a wait or a throw goes out to the nearest boundary.
#![tactic(auto)]

mod completing;
mod outwards;

pub use completing::{Next, complete, pass};
pub use outwards::{unwind_to_boundary, unwind_to_catch};
