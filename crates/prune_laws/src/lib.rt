//! Laws of trees without what stayed the same: how they compare, their instances, and the operations on their hosts.
#![tactic(auto)]

mod instances;
mod laws;
mod operations;

pub use instances::pruned_alike;
pub use laws::pruned_trees_compare_alike;
pub use operations::{hosts_that_stay_need_nothing, placed_hosts_are_left};
