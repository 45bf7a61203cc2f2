//! The nodes of fibers under ids, with child, sibling, return and alternate links.
#![tactic(auto)]

mod arena;
mod id;

pub use arena::{Arena, Node};
pub use id::FiberId;
