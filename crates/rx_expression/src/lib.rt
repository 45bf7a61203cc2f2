//! Reads expressions: the next token of a list, operators, and what stands between them. Lists of what is read.
#![tactic(auto)]

pub mod beside;
pub mod expressions;
pub mod fault;
pub mod lists;
mod operators;
pub mod steps;
