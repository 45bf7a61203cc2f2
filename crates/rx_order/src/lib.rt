//! Numbers that lead to one another: an order in which they are finished, and the first that leads to itself.
#![tactic(auto)]

mod graph;
mod order;

pub use graph::{Row, first_cycle};
pub use order::{Order, finishing_order};
