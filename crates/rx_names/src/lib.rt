//! Names of a program, and their numbers in order of declaration.
#![tactic(auto)]

mod borrowed;
mod index;
mod listing;
mod names;
mod short;
mod table;

pub use borrowed::BorrowedNames;
pub use index::Index;
pub use listing::{Listing, names_of};
pub use names::Names;
pub use short::same_bytes;
pub use table::Table;
