//! A finished tree of fibers read beside the tree before, in time of what was made.
#![tactic(auto)]

mod beside;
mod children;
mod lists;
mod marks;
mod pairs;
mod places;
mod taking;

pub use beside::read_beside;
