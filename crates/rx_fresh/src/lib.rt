//! The whole tree rendered anew, without fibers: each body is evaluated, and no subtree is taken over.
#![tactic(auto)]

mod body;
mod evaluations;
mod given;
mod instance;
mod lists;
mod nodes;
mod place;
mod render;
mod roots;
mod snapshot;

pub use evaluations::Evaluations;
pub use place::Place;
pub use render::fresh;
pub use snapshot::Snapshot;
