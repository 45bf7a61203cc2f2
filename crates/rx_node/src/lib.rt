//! Finished trees as plain values.
#![tactic(auto)]

mod mark;
mod node;

pub use mark::{Instance, InstanceParts, Mark};
pub use node::Node;
