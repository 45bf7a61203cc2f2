//! The text of each line of a report.
#![tactic(auto)]
