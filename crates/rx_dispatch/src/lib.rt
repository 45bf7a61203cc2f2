//! What a dispatch is for and what it does, and the names of components and of their hooks.
#![tactic(auto)]

mod dispatch;
mod names;

pub use dispatch::{
    dispatch_event, dispatch_hook, dispatch_op, dispatch_path, dispatch_word, is_refresh, is_start,
};
pub use names::{hook_place, hooks_at, name_of};
