//! Examples of the machine, each proved by computing its definitions.
#![tactic(auto)]

mod examples;

pub use examples::{
    boundaries, children, contexts, effects, mounting, queues, slices, sync, throws, transitions,
};
