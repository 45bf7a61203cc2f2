//! What the hosts of a tree are, and what operations make of them.
#![tactic(auto)]

mod op;

pub use op::HostOp;
