//! One unit of a render that begins the place of a fiber.
#![tactic(auto)]

mod before;
mod beginning;
mod body;
mod place;

pub use beginning::begin;
