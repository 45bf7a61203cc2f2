//! What is read of a committed tree of nodes: the instance that a path leads to, and the lines that show the hooks of all
//! instances and the hosts.
#![tactic(auto)]

mod hooks;
mod hosts;
mod paths;

pub use hooks::show_hooks;
pub use hosts::show_hosts;
pub use paths::find;
