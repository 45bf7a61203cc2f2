// Why the text of a program is refused.
use rx_check::Refusal;

/// Why the text of a program is refused. Places are in bytes from its start.
#[derive(Debug, Drop)]
pub(crate) enum Cause {
    /// A sequence of bytes that is not UTF-8 begins at this place, and none before it.
    NotUtf8 { at: usize },
    /// No token covers the byte at this place, and it is the first such place.
    NoToken { at: usize },
    /// No program goes on with the token at this place.
    NoProgram { at: usize },
    /// The program does not meet a check.
    Unmet(Refusal),
    /// Out of memory.
    OutOfMemory,
}
