//! Two trees beside each other without what stayed the same.
#![tactic(auto)]

mod beside;

pub use beside::Beside;
