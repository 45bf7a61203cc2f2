//! What is read of a committed tree from its fibers: the instance that a path leads to, the lines that show the hooks of all
//! instances, what its boundaries wait for, and how much there is of the tree.
#![tactic(auto)]

mod awaits;
mod counts;
mod find;
mod mounted;
mod show;

pub use awaits::awaited;
pub use counts::{hidden_count, node_count};
pub use find::{Found, find_instance};
pub use show::show_hooks;
