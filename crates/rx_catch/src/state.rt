// The state of an error boundary.
ghost use Rattle.std.specs.Prelude.{◌≡◌};
ghost use Rattle.rx_catch.specs.Catching.{after, caught_of, has_caught};

use rx_base::Int;

/// An error boundary shows its children, or its fallback since something below it threw a value (react.dev, Catching
/// rendering errors with an error boundary).
#[derive(Clone, Copy, Debug, PartialEq, Eq)]
pub enum CatchState {
    Fine,
    Caught { value: Int },
}

impl CatchState {
    /// The value that it has caught, if it has.
    pub fn caught(&self) -> Option<Int>
        ensures { result ≡ caught_of self.now }
    {
        match self {
            CatchState::Fine => None,
            CatchState::Caught { value } => Some(*value),
        }
    }

    /// True if it has caught a value.
    pub fn has_caught(&self) -> bool
        ensures { result ≡ has_caught self.now }
    {
        match self {
            CatchState::Fine => false,
            CatchState::Caught { .. } => true,
        }
    }
}

/// What an error boundary is once its children are tried, which threw this value, if they did: one that has caught keeps
/// its value for good.
pub fn after(old: CatchState, thrown: Option<Int>) -> CatchState
    ensures { result ≡ after old thrown }
{
    match old {
        CatchState::Caught { .. } => old,
        CatchState::Fine => match thrown {
            Some(value) => CatchState::Caught { value },
            None => CatchState::Fine,
        },
    }
}
