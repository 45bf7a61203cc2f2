//! The resources of a root: their versions and the values of these.
#![tactic(auto)]

pub mod laws;
mod resource;
mod seen;
mod store;

pub use resource::{Asked, Resource};
pub use seen::Seen;
pub use store::ResourceStore;
