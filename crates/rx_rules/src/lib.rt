//! What the names of a program stand for, how large its trees get at most, and where keys and contexts stand.
#![tactic(auto)]
