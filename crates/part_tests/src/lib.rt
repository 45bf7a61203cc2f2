//! Tests of the small crates below the machine and of pages, through the calls that they offer.
#![tactic(auto)]

#[cfg(test)]
mod arena;
#[cfg(test)]
mod base;
#[cfg(test)]
mod catching;
#[cfg(test)]
mod contexts;
#[cfg(test)]
mod effects;
#[cfg(test)]
mod elements;
#[cfg(test)]
mod hooks;
#[cfg(test)]
mod html;
#[cfg(test)]
mod io;
#[cfg(test)]
mod keys;
#[cfg(test)]
mod lanes;
#[cfg(test)]
mod links;
#[cfg(test)]
mod lists;
#[cfg(test)]
mod pages;
#[cfg(test)]
mod queues;
#[cfg(test)]
mod resources;
#[cfg(test)]
mod scheduling;
#[cfg(test)]
mod syntax;
#[cfg(test)]
mod turns;
