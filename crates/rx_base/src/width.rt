// How wide the integers of a program are.

/// How many bits the integers of a program have: 32 in version 1 of the language, 64 in version 2.
#[derive(Clone, Copy, Debug, PartialEq, Eq)]
pub enum Width {
    W32,
    W64,
}
