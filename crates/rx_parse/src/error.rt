// Why tokens have no program.
ghost use Rattle.std.specs.Prelude.{◌≡◌};
ghost use Rattle.rx_parse.specs.declared.error.ParseError.TheVariants.{OutOfMemory};

use std::alloc::AllocError;
use std::error::Error;
use std::fmt;

/// Why no program is answered.
#[derive(Clone, Copy, Debug, PartialEq, Eq)]
pub enum ParseError {
    /// No program begins with the tokens up to and with the one at this place, and one begins with those before it.
    Syntax { at: usize },
    /// Out of memory.
    OutOfMemory,
}

impl fmt::Display for ParseError {
    fn fmt<W: fmt::Write>(&self, f: &mut fmt::Formatter<W>) -> fmt::Result {
        match self {
            ParseError::Syntax { at } => write!(f, "no program goes on at byte {at}"),
            ParseError::OutOfMemory => write!(f, "out of memory"),
        }
    }
}

impl Error for ParseError {}

impl From<AllocError> for ParseError {
    ghost from_gives = { λ _ e. e ≡ OutOfMemory };

    fn from(_error: AllocError) -> ParseError {
        ParseError::OutOfMemory
    }
}
