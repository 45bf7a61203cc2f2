//! A report that was made elsewhere: its lines, one after another, and what a line tells.
#![tactic(auto)]

mod counts;
mod passing;

pub use counts::{Counts, counts_behind};
pub use passing::{Place, is_at_end, next_line, pass};
