// The log of effects.
use rx_base::{Ints, Str};

/// An effect that was created or destroyed, with its instance. At its destruction the values are those of its creation.
#[derive(Drop, Debug)]
pub struct LogLine {
    pub passive: bool,
    pub created: bool,
    pub instance: u64,
    pub label: Str,
    pub values: Ints,
}
