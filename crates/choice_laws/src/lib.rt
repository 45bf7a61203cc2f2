//! Laws of what a run may choose: how far a render goes in a turn, and how many bodies it evaluates. They say that a report
//! with counts tells the one, and that the other can always be chosen to fit.
#![tactic(auto)]

mod laws;

pub use laws::{
    any_bodies_fit, finishes_tell, no_other_choice_fits, same_but_for_bodies, some_counts_fit,
    turns_but_for_bodies,
};
