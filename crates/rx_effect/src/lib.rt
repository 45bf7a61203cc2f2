//! The effects of instances.
#![tactic(auto)]

mod changes;
mod log;

pub use changes::{differ, effect_changes};
pub use log::LogLine;
