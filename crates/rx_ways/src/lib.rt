//! On which ways down a committed tree a render may find a cause.
#![tactic(auto)]

mod finding;
mod way_set;
mod ways;

pub use finding::find_ways;
pub use ways::Ways;
