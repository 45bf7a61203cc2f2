//! The fibers that are made for a list of children, and a node that is begun over them.
#![tactic(auto)]

mod children;
mod clones;
mod generation;
mod kind;
mod node;
mod origin;

pub use children::make_children;
pub use clones::clone_children;
pub use generation::{generation_below, own_generation};
pub use kind::{Parts, begun_children, begun_stage, enter, fallback_list, is_component, parts_of};
pub use node::{
    Begun, begun_from, keep_node, keeps_children, old_caught, old_host, old_instance, open_clones,
    open_list, open_node, take_node,
};
pub use origin::{gives_another, is_again, is_hidden_again, is_steady, takes_over};
