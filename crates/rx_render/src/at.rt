// What the next unit of a render does.
ghost use Rattle.std.specs.Prelude.{◌≡◌};
ghost use Rattle.rx_render.specs.LastUnit.{unit_before, is_over};

use rx_links::FiberId;
use rx_loop::Unit;

/// What the next unit of a render does.
#[derive(Clone, Copy)]
pub enum At {
    /// It begins the place of this fiber.
    Begins(FiberId),
    /// It completes the node of this fiber, whose children are done.
    Completes(FiberId),
    /// No unit is left.
    Over,
}

// Whether more units follow the one that has come there.
pub(crate) fn unit_before(at: &At) -> Unit
    ensures { result ≡ unit_before at.now }
{
    match at {
        At::Over => Unit::Last,
        _ => Unit::More,
    }
}

// Whether no unit is left.
pub(crate) fn is_over(at: &At) -> bool
    ensures { result ≡ is_over at.now }
{
    matches!(at, At::Over)
}
