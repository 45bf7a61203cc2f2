//! What a fiber holds, and which trees the fibers stand for.
#![tactic(auto)]

mod fiber;
mod old;
mod stage;
mod subtree;

pub use fiber::Fiber;
pub use old::{
    OldChildren, falls, hides, is_fallback, kids_subtree, old_children, old_fallback, old_primary,
};
pub use stage::{Origin, Stage, StageChange};
pub use subtree::Subtree;
