// A finished tree beside the committed one.
use rx_node::Node;

/// The committed tree and a finished one, both without some children that stayed the same: what a commit compares (react.dev,
/// Render and Commit).
#[derive(Drop)]
pub struct Beside {
    /// The committed tree without those children, if there is one.
    pub pruned_old: Option<Node>,
    /// The finished tree without those children.
    pub pruned_new: Node,
}
