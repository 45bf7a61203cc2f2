//! What every layer speaks of: integers, names, texts, sets of resources, and the counter of evaluated bodies.
#![tactic(auto)]

mod awaits;
mod cut;
mod int;
mod ints;
mod name;
mod steps;
mod str;
mod width;

pub use awaits::Awaits;
pub use cut::Cut;
pub use int::Int;
pub use ints::Ints;
pub use name::Name;
pub use steps::Steps;
pub use str::{Str, quote};
pub use width::Width;
