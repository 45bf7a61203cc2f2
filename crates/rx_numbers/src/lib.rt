//! What a commit makes of a finished tree of nodes: what is new in it gets a number, and the vacant places at the ends of its lists
//! go.
#![tactic(auto)]

mod numbering;
mod trimming;

pub use numbering::{Numbers, number};
pub use trimming::trim;
