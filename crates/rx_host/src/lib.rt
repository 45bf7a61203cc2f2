//! The tree of hosts, and the operations on it.
#![tactic(auto)]

mod attrs;
mod entry;
mod replaying;
mod table;
mod tree;

pub use attrs::AttrList;
pub use entry::{HostKind, HostView};
pub use replaying::{apply_all, replay};
pub use tree::HostTree;
