//! From the bytes of an input to what is accepted, or why it is refused.
#![tactic(auto)]

mod accepting;
mod cause;
pub mod laws;
mod lines;
mod program;
mod verdict;

pub use accepting::{accept, accept_parts};
pub use verdict::Verdict;
