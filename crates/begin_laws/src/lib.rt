//! Laws of what the beginning of a place costs, and of flags: which lists of fibers lie below a place with a cause.
#![tactic(auto)]

mod flags;
mod laws;

pub use flags::flags_are_kept;
pub use laws::{hooks_tell_causes, places_cost};
