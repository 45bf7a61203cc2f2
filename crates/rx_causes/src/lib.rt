//! Which causes there are to render the tree of an old node: what its current fiber keeps, and walks over those below.
#![tactic(auto)]

mod hidden;
mod idle;
mod reading;
mod scene;

pub use hidden::waits_still;
pub use idle::is_idle;
pub use reading::{read_another, reads_nothing, uses_nothing};
pub use scene::Scene;
