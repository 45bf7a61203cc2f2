//! Tests of the crates between the bytes of an input and the machine, through the calls that they offer.
#![tactic(auto)]

#[cfg(test)]
mod accepting;
#[cfg(test)]
mod cases;
#[cfg(test)]
mod checking;
#[cfg(test)]
mod figures;
#[cfg(test)]
mod generated;
#[cfg(test)]
mod lexing;
#[cfg(test)]
mod naming;
#[cfg(test)]
mod parsing;
#[cfg(test)]
mod printing;
#[cfg(test)]
mod scripts;
#[cfg(test)]
mod words;
