//! Laws of each state that a run comes to.
#![tactic(auto)]

mod laws;

pub use laws::{
    carried_along_runs, error_boundaries_catch, hidden_waits_are_kept, idle_trees_are_kept,
    kept_facts, premises_are_met, progress_makes_turns, quiet_ends, renders_are_bounded,
    unsliced_runs_end_alike,
};
