//! The values of the contexts at a place of a tree.
#![tactic(auto)]

mod stack;

pub use stack::ContextStack;
