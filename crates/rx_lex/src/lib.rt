//! Cuts a program's text into tokens.
#![tactic(auto)]

mod error;
mod gaps;
pub mod laws;
mod lexer;
mod signs;
mod spans;
mod strings;
mod token;
mod words;

pub use error::LexError;
pub use lexer::lex;
pub use spans::{Rest, Shape, Span, Tokens};
pub use token::{Keyword, Kind, Sign, Token};
