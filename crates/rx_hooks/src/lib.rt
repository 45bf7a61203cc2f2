//! The hooks of a component instance, each by its queue.
#![tactic(auto)]

mod hook;
mod hooks;
mod work;

pub use hooks::Hooks;
