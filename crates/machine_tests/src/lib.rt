//! Tests of what stands beside the fibers: hooks, instances, and a tree that is read, through the calls that their crates offer.
#![tactic(auto)]

#[cfg(test)]
mod fibers;
#[cfg(test)]
mod hook_store;
#[cfg(test)]
mod instances;
#[cfg(test)]
mod reading;
#[cfg(test)]
mod settling;
