//! Laws on the ends of lists: nothing that a render or a commit answers depends on the vacant places there.
#![tactic(auto)]

mod laws;

pub use laws::{
    ends_are_not_compared, ends_are_not_numbered, ends_are_not_read, ends_are_not_rendered,
};
