//! A generated program with its script, which measure the machine, the line that sums up their run, and the law that the input is accepted.
#![tactic(auto)]

mod laws;
mod pieces;
mod rounds;
mod summing;

pub use laws::generated_input_is_accepted;
pub use rounds::generate;
pub use summing::summary;
