//! The page of a run: a section for each step, and the script beside them, with marks for what is committed, deferred and left
//! unfinished.
#![tactic(auto)]

mod book;
mod facts;
mod frame;
mod lanes;
mod marks;
mod section;
mod told;
mod view;

pub use book::Book;
pub use frame::{SCRIPT, STYLE, page};
pub use view::{Facts, Rendering, View};
