//! Sets of numbers that are asked without hashing.
#![tactic(auto)]

mod places;
mod set;

pub use set::NumberSet;
