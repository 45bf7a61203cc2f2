//! A render in progress, driven unit by unit.
#![tactic(auto)]

mod advance;
mod at;
mod laws;
mod renderer;
mod roots;
mod settle;

pub use at::At;
pub use laws::{later_renders, renders_are_bounded, renders_end, renders_stay};
pub use renderer::Renderer;
