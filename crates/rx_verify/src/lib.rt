//! The checker of reports: whether a report that was made elsewhere is that of a run of the machine, and if not, the first line
//! that no report has.
#![tactic(auto)]

mod ends;
mod judging;
mod knowing;
mod laws;
mod steps;
mod turns;
mod verdict;

pub use judging::verify;
pub use laws::verdict_is_one;
pub use verdict::Verdict;
