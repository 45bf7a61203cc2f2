//! Reads the program that a list of tokens has.
#![tactic(auto)]

mod declarations;
mod error;
mod parser;
mod statements;

pub use error::ParseError;
pub use parser::parse;
