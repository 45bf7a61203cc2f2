//! The state of an error boundary, and the boundaries around a place.
#![tactic(auto)]

mod handlers;
mod state;

pub use handlers::{Handler, Handlers};
pub use state::{CatchState, after};
