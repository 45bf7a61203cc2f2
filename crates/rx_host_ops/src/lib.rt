//! The hosts of a tree, and the operations that make those of a new tree out of those of the old one.
#![tactic(auto)]

mod attrs;
mod between;
mod content;
mod host;
mod known;
mod placing;
mod reading;
mod table;

pub use between::{have_same_numbers, ops_among, ops_between, ops_in_place};
pub use host::Host;
pub use placing::placed_parents;
pub use reading::{add_host, concealed_below, hosts, parent_below};
