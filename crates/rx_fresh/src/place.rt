// What places give.
use rx_base::{Awaits, Int};
use rx_node::Node;

/// What one place of a tree gives: nothing, a node, a wait for resources (react.dev, Suspense), or a thrown value (react.dev,
/// Catching rendering errors with an error boundary).
#[derive(Drop)]
pub enum Place {
    Empty,
    Made(Node),
    Waits(Awaits),
    Throws(Int),
}

// What a list of places gives: its children, or what the first gives that waits or throws.
#[derive(Drop)]
pub(crate) enum Places {
    AllMade(Vec<Option<Node>>),
    OneWaits(Awaits),
    OneThrows(Int),
}
