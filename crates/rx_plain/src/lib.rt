//! A plain machine, without fibers: a tree of nodes that is rendered anew at each commit.
#![tactic(auto)]

mod clock;
mod commits;
mod dispatching;
mod plain;
mod resolving;
mod showing;
mod turns;

pub use plain::Plain;
