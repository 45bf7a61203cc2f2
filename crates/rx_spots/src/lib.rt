//! What can be read of a committed tree: its instances, what its boundaries wait for, and how much there is of it.
#![tactic(auto)]

mod alike;
mod around;
mod boundaries;
mod counts;
mod instance;
mod listing;
mod numbers;
mod picking;

pub use alike::have_same_instances;
pub use around::Around;
pub use boundaries::awaited;
pub use counts::{hidden_count, node_count};
pub use instance::Mounted;
pub use listing::mounted;
pub use numbers::mounted_numbers;
pub use picking::mounted_among;
