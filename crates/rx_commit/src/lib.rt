//! What is shown of a committed tree, and a commit as one change of it.
#![tactic(auto)]

mod deferring;
mod placing;
mod prepared;
mod shown;

pub use deferring::deferral;
pub use placing::parents_of_placed;
pub use prepared::Prepared;
pub use shown::Shown;
