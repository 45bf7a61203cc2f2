// Links of links.
ghost use Rattle.std.specs.Prelude.{◌≡◌, None, Some, IfSome, Option};
ghost use Rattle.rx_arena.specs.Nodes.{IsLive};
ghost use Rattle.rx_lists.specs.Reads.{alternate_at};
ghost use Rattle.rx_lists.specs.Links.{child_under};

use rx_arena::{Arena, FiberId};

/// The first child of a node's alternate, if it has one.
pub fn old_children<F>(nodes: &Arena<F>, id: FiberId) -> Option<FiberId>
    requires { IsLive nodes.now id }
    ensures { result ≡ child_under nodes.now (alternate_at nodes.now id) }
{
    let old = nodes.alternate_of(id);
    child_of_link(nodes, old)
}

/// The first child of the node that a link leads to, if it has one.
pub(crate) fn child_of_link<F>(nodes: &Arena<F>, link: Option<FiberId>) -> Option<FiberId>
    requires { IfSome link (IsLive nodes.now) }
    ensures { result ≡ child_under nodes.now link }
{
    match link {
        Some(id) => nodes.child_of(id),
        None => None,
    }
}
