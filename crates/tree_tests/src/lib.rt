//! Tests of the crates that speak of elements and finished trees, of hosts and of reports, through the calls that they offer.
#![tactic(auto)]

#[cfg(test)]
mod comparing;
#[cfg(test)]
mod evaluating;
#[cfg(test)]
mod hosts;
#[cfg(test)]
mod logging;
#[cfg(test)]
mod nodes;
#[cfg(test)]
mod operations;
#[cfg(test)]
mod reports;
#[cfg(test)]
mod spots;
