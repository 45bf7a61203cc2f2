//! Reads what a component shows: elements with their attributes, children, slots, and the body that it returns.
#![tactic(auto)]

mod attributes;
mod bodies;
mod elements;
mod repetitions;
mod slots;

pub use bodies::body;
