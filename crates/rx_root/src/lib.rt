//! The machine: a root of a program, with a call for each thing that may happen to it, and the steps of a script over these
//! calls.
#![tactic(auto)]

mod errors;
mod events;
mod laws;
mod render;
mod root;
mod seen;
mod step;
mod turns;

pub use errors::{DispatchError, ResolveError};
pub use laws::steps_can_be_taken;
pub use root::Root;
pub use seen::InProgress;
