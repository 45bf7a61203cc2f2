//! How many nodes and levels a program has at most, what waits, and what its expressions cost.
#![tactic(auto)]

mod costs;
mod figures;
mod held;

pub use costs::cost_over;
pub use figures::{Figures, has_throw, root_figures};
pub use held::held_sum;
