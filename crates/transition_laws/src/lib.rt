//! The law of `useTransition`: a flag shows exactly whether a transition of it is pending.
#![tactic(auto)]

mod laws;

pub use laws::flags_show_what_is_pending;
