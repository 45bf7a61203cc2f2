//! What a new tree changes beside the old one, found in one walk of both: the effects that a commit destroys and creates, the
//! hosts that it places, what error boundaries catch, and what the boundaries wait for that it hides.
#![tactic(auto)]

mod changes;
mod line;
mod own;
mod past;
mod step;
mod walk;

pub use changes::{Changes, Lines};
pub use walk::changes_between;
