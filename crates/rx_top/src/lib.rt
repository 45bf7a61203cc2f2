//! The top call: from the words and the bytes that come in to the bytes that go out.
#![tactic(auto)]

mod answer;
mod call;
mod laws;
mod lines;
mod run;
mod status;
mod summary;

pub use call::top;
pub use laws::{summary_is_one, what_is_reported_is_verified};
pub use status::Status;
