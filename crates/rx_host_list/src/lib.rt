//! The hosts of a tree in progress, listed from its fibers.
#![tactic(auto)]

mod beside;
mod listing;

pub use beside::hosts_beside;
pub use listing::hosts_in_progress;
