// A place that begins, beside its current fiber.
use rx_fiber::Origin;

/// What is known of a place that begins.
#[derive(Clone, Copy)]
pub(crate) struct Place {
    /// What its fiber waits with.
    pub origin: Origin,
    /// Whether its element is that of its current fiber, given again, or an equal one of a component.
    pub again: bool,
    /// Whether its current fiber is shown, and no context has another value at the place than in the committed tree.
    pub stood: bool,
    /// Whether the old children are shown.
    pub steady: bool,
    /// Of which generation children are that are made anew.
    pub generation: u32,
}
