//! Laws of how much room a render in progress takes: it never has more places at once than a tree of its program.
#![tactic(auto)]

mod laws;

pub use laws::{cursors_have_room, fibers_have_room};
