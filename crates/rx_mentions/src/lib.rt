//! What a program mentions, in the order of its text.
#![tactic(auto)]

mod bodies;
mod count;
mod leading;
mod mention;
mod scope;
mod slots;
mod walk;

pub use bodies::{component_mentions_of, function_mentions_of, mentions_of};
pub use count::Count;
pub use leading::{calls_of, places_of};
pub use mention::{Mention, MentionKind, names_given};
pub use walk::Walk;
