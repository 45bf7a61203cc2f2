//! The fallback of a boundary opens, of Suspense or of errors, as one unit of a render.
#![tactic(auto)]

mod opening;

pub use opening::{Opened, open_caught, open_fallback, open_old_fallback};
