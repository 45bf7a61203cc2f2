//! Laws of a render in progress: what it gives, how long it takes, how many nodes it begins.
#![tactic(auto)]

mod laws;

pub use laws::{
    attempts_are_bounded, begun_nodes_are_bounded, bodies_are_counted, depth_suffices,
    levels_suffice, nodes_are_bounded, old_nodes_are_settled, progress_is_kept,
    touched_are_evaluated, units_are_bounded, units_give_fresh,
};
