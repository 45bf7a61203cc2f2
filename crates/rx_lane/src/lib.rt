//! The lanes of updates and renders, and sets of lanes.
#![tactic(auto)]

mod lane;
mod lanes;

pub use lane::Lane;
pub use lanes::Lanes;
