//! Laws of what a render costs: it evaluates the bodies of components that have a cause, and of those whose element is another one.
#![tactic(auto)]

mod examples;
mod laws;

pub use examples::equal_inputs_spare_bodies;
pub use laws::bodies_are_counted;
