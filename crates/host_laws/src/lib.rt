//! The laws of identities, of moves, and of the operations on hosts.
#![tactic(auto)]

mod laws;

pub use laws::{
    commit_can_be_made, commit_replays, identities_are_distinct, moves_exactly_the_passed,
    no_child_is_reused_twice, operations_can_be_made, operations_have_one_result,
    operations_make_the_new_forest, placements_settle_the_children, removals_leave_the_rest,
    siblings_tell_the_placements, the_same_child_is_found, the_unmoved_rise,
};
