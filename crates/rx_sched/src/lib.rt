//! The scheduler: which lanes are pending, and what is rendered next.
#![tactic(auto)]

mod choice;
mod deadlines;
mod event;
mod links;
mod root_lanes;
mod waiting;

pub use choice::Choice;
pub use event::Event;
pub use root_lanes::RootLanes;
