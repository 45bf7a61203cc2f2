// A node of a new tree beside its past.
use crate::around::Around;
use rx_node::Node;

/// What is known of a new child: the old node that it is, if it is one, and whether it moved.
#[derive(Clone, Copy)]
pub struct Past<'a> {
    pub old: Option<&'a Node>,
    pub moved: bool,
}

/// A node of a new tree beside its past.
#[derive(Drop)]
pub struct Change<'a> {
    /// The old node that it is, if it is one.
    pub old: Option<&'a Node>,
    pub new: &'a Node,
    /// The old node was visible.
    pub was_visible: bool,
    /// What surrounds the node in the new tree.
    pub around: Around,
    /// A node from this one up to its host parent is new or moved.
    pub displaced: bool,
}
