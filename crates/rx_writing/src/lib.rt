//! Lines behind those that a report has: effects, operations on hosts and what error boundaries catch, one after another; and what
//! was written, taken back.
#![tactic(auto)]

mod writing;

pub use writing::{add_caught, add_effects, add_lines, add_ops, cut_back};
