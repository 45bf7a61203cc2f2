//! The hooks of the mounted instances, by the numbers of the instances.
#![tactic(auto)]

mod busy;
mod laws;
mod store;

pub use laws::{
    committed_keeps_hooks, hooks_are_there, keeps_give, links_are_below, what_is_kept_stays,
};
pub use store::HookStore;
