//! The updates of one hook: which a render includes, and the state that they give.
#![tactic(auto)]

mod entry;
mod fold;
mod queue;
mod update;

pub use entry::{Entry, Standing};
pub use fold::Fold;
pub use queue::{Processed, Queue, Work};
pub use update::{Op, Update};
