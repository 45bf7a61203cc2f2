// Why a program is refused.

use rx_base::Name;
use rx_mentions::Count;
use std::alloc::AllocError;

/// Why a program is refused.
#[derive(Debug, Drop)]
pub enum Refusal {
    /// A name that is declared or bound twice, or stands twice on an element; `key` for a second key of a child list.
    Duplicate(Name),
    /// A name that is not known as what it stands for.
    Unknown(Name),
    /// A function or a component that is given another number of parts than it takes.
    Arity(Name),
    /// A function that reaches itself by calls.
    FunctionCycle(Name),
    /// A component that reaches itself by the elements in its body.
    ComponentCycle(Name),
    /// A component whose resources make the root wait, which no boundary catches (react.dev, Suspense).
    UseOutside(Name),
    /// A component whose throws reach the root, which no error boundary catches.
    ThrowOutside(Name),
    /// There is no component `App`, or it has parameters.
    NoApp,
    /// More of a thing than the limit.
    Count { what: Count, found: u64, limit: u64 },
    /// The node bound is over its limit.
    TreeBound(u64),
    /// The cost of a declaration is over its limit.
    Cost(u64),
    /// No memory is left.
    OutOfMemory,
}

impl From<AllocError> for Refusal {
    ghost use Rattle.std.specs.Prelude.{◌≡◌};
    ghost use Rattle.rx_check.specs.declared.refusal.Refusal.TheVariants.{OutOfMemory};

    ghost from_gives = { λ _ e. e ≡ OutOfMemory };

    fn from(_: AllocError) -> Refusal {
        Refusal::OutOfMemory
    }
}
