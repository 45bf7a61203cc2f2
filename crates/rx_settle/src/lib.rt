//! What a commit does with the hooks of the instances.
#![tactic(auto)]

mod gone;
mod keeping;
mod made;
mod rendering;
mod settling;
mod working;

pub use settling::{settle_all, settle_hooks};
