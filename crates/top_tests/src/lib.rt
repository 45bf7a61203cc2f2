//! Tests of the top call: what goes out, for words, an input, and reads and writes that fail.
#![tactic(auto)]

#[cfg(test)]
mod rows;
