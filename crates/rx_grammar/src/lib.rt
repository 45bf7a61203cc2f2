//! The grammar as it is read: which program stands at the front of a list of tokens, and at which token none goes on.
#![tactic(auto)]

pub mod laws;
