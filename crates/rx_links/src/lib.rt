//! Two linked trees of fibers, the current one and the one in progress, seen as two trees of plain data.
#![tactic(auto)]

mod tree;

pub use rx_arena::FiberId;
pub use rx_lists::{Give, Mark};
pub use tree::FiberTree;
