//! Work that is done in units, driven to its end or to the end of a slice.
#![tactic(auto)]

mod turn;
mod work;

pub use turn::{Driven, drive};
pub use work::{Unit, Units};
