// Why a root refuses a call.
ghost use Rattle.std.specs.Prelude.{◌≡◌};
ghost use Rattle.rx_root.specs.declared.errors.DispatchError.TheVariants.{OutOfMemory};
ghost use Rattle.rx_root.specs.declared.errors.ResolveError.TheVariants.{Already};

use rx_base::Int;
use std::alloc::AllocError;
use std::error::Error;
use std::fmt;

/// Why no update was accepted.
#[derive(Clone, Copy, Debug, PartialEq, Eq)]
pub enum DispatchError {
    /// The path leads to no instance of the committed tree.
    NoInstance,
    /// Out of memory.
    OutOfMemory,
}

impl fmt::Display for DispatchError {
    fn fmt<W: fmt::Write>(&self, f: &mut fmt::Formatter<W>) -> fmt::Result {
        match self {
            DispatchError::NoInstance => write!(f, "there is no such instance"),
            DispatchError::OutOfMemory => write!(f, "out of memory"),
        }
    }
}

impl Error for DispatchError {}

impl From<AllocError> for DispatchError {
    ghost from_gives = { λ _ e. e ≡ OutOfMemory };

    fn from(_error: AllocError) -> DispatchError {
        DispatchError::OutOfMemory
    }
}

/// Why a resource did not get a value.
#[derive(Clone, Copy, Debug, PartialEq, Eq)]
pub enum ResolveError {
    /// It has this value already.
    Already { value: Int },
}

impl ResolveError {
    /// The value that the resource has.
    pub fn value(&self) -> Int
        ensures { self.now ≡ Already result }
    {
        match self {
            ResolveError::Already { value } => *value,
        }
    }
}

impl fmt::Display for ResolveError {
    fn fmt<W: fmt::Write>(&self, f: &mut fmt::Formatter<W>) -> fmt::Result {
        write!(f, "the resource has the value {}", self.value().value())
    }
}

impl Error for ResolveError {}
