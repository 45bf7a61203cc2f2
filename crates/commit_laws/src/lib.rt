//! Laws on taking over what has no cause, and on what a commit leaves.
#![tactic(auto)]

mod laws;

pub use laws::{
    awaited_has_no_value, error_boundaries_catch, hidden_waits_again, idle_trees_stay,
    nothing_new_comes, quiet_trees_stay, soundness_is_kept, untouched_is_told,
};
