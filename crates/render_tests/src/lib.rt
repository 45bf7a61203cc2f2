//! Tests of a first render and of a first commit, through the calls that their crates offer.
#![tactic(auto)]

#[cfg(test)]
mod committing;
#[cfg(test)]
mod rendering;
