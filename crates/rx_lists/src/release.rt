// Releasing lists of fibers.
ghost use Rattle.std.specs.Prelude.{◌≡◌, IfSome, Option};
ghost use Rattle.rx_arena.specs.Nodes.{IsLive};
ghost use Rattle.rx_lists.specs.Shapes.{Holds};
ghost use Rattle.rx_lists.specs.Links.{same_link};
ghost use Rattle.rx_lists.specs.Freed.{own_in, own_link, own_list, IsReady, Frees};

use crate::links::child_of_link;
use rx_arena::{Arena, FiberId, Node};

fn same(a: &Option<FiberId>, b: &Option<FiberId>) -> bool
    ensures { result ≡ same_link a.now b.now }
{
    match (a, b) {
        (Some(a), Some(b)) => a.same(*b),
        (None, None) => true,
        _ => false,
    }
}

/// The first child of this node, if its children are not also those of its alternate.
pub(crate) fn own_of<F>(nodes: &Arena<F>, node: &Node<F>) -> Option<FiberId>
    requires { IfSome node.now.alternate (IsLive nodes.now) }
    ensures { result ≡ own_in nodes.now node.now }
{
    let kids = node.child();
    let old = child_of_link(nodes, node.alternate());
    if same(&kids, &old) { None } else { kids }
}

/// The first child of a node, if its children are not also those of its alternate. That both have the same children is how
/// React knows that a render took them over (`bailoutOnAlreadyFinishedWork`).
pub fn own_children<F>(nodes: &Arena<F>, id: FiberId) -> Option<FiberId>
    requires { IsLive nodes.now id }
    ensures { result ≡ own_link nodes.now id }
{
    own_of(nodes, nodes.node(id))
}

/// Releases a list with all below, but not the children that an alternate has too.
pub fn release_list<F: Drop>(nodes: &mut Arena<F>, link: Option<FiberId>)
    requires { IsReady nodes.old link }
    ensures { Frees nodes.old nodes.new (Holds (own_list nodes.old link)) }
{
    let mut next = link;
    while let Some(id) = next {
        let node = nodes.node(id);
        let rest = node.sibling();
        let kids = own_of(nodes, node);
        release_list(nodes, kids);
        nodes.release(id);
        next = rest;
    }
}
