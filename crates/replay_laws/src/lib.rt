//! The law of replay: the operations of a commit make the new tree of hosts of the old one.
#![tactic(auto)]

mod laws;

pub use laws::{each_render_is_a_commit, operations_are_made, replay};
