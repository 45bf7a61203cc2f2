//! Laws of what a render comes to: its elements fit a program that is accepted, and what holds of each instance that it
//! begins holds of each that it gives.
#![tactic(auto)]

mod laws;

pub use laws::{bodies_are_drawn, cursors_are_drawn, instances_are_made};
