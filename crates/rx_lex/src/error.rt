// Why a text has no tokens.

ghost use Rattle.std.specs.Prelude.{◌≡◌};
ghost use Rattle.rx_lex.specs.declared.error.LexError.TheVariants.{OutOfMemory};

use std::alloc::AllocFailed;
use std::error::Error;
use std::fmt;

/// Why a text is not cut into tokens.
#[derive(Clone, Copy, Debug, PartialEq, Eq)]
pub enum LexError {
    /// No token covers the byte at this place, and it is the first such place.
    Lex { at: usize },
    /// Out of memory.
    OutOfMemory,
}

impl fmt::Display for LexError {
    fn fmt<W: fmt::Write>(&self, f: &mut fmt::Formatter<W>) -> fmt::Result {
        match self {
            LexError::Lex { at } => write!(f, "no token at byte {at}"),
            LexError::OutOfMemory => write!(f, "out of memory"),
        }
    }
}

impl Error for LexError {}

impl<T: Drop> From<AllocFailed<T>> for LexError {
    ghost from_gives = { λ _ e. e ≡ OutOfMemory };

    fn from(_failed: AllocFailed<T>) -> LexError {
        LexError::OutOfMemory
    }
}
