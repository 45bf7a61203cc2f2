//! The words of the command line, and what they ask for; `clap` reads them.
#![tactic(auto)]

mod reading;
mod rounds;
mod spelling;
mod task;

pub use reading::read_words;
pub use task::{Reading, Task};
