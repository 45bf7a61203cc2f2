// New nodes, each the alternate of an old one or of none.
ghost use Rattle.std.specs.Prelude.{◌≢◌, Some, IfSome, Option};
ghost use Rattle.slab.specs.Slab.{HasRoomFor};
ghost use Rattle.rx_arena.specs.Nodes.{IsLive};
ghost use Rattle.rx_lists.specs.Changes.{IsAlone, Grows, Inserts, Adds};

use rx_arena::{Arena, FiberId};

/// A node that stands alone, the alternate of the old one.
#[inline(always)]
pub fn make_root<F>(nodes: &mut Arena<F>, old: Option<FiberId>, value: F) -> FiberId
    requires room { HasRoomFor nodes.old 1 }
    requires old_live { IfSome old (IsLive nodes.old) }
    requires old_alone { IfSome old (IsAlone nodes.old) }
    ensures { Adds nodes.old nodes.new result value old }
{
    nodes.alloc_linked(value, None, None, old)
}

/// A first child of a node, the alternate of the old one.
#[inline(always)]
pub fn make_child<F>(
    nodes: &mut Arena<F>,
    parent: FiberId,
    old: Option<FiberId>,
    value: F,
) -> FiberId
    requires room { HasRoomFor nodes.old 1 }
    requires parent_live { IsLive nodes.old parent }
    requires old_live { IfSome old (IsLive nodes.old) }
    requires old_alone { IfSome old (IsAlone nodes.old) }
    requires differ { old ≢ Some parent }
    ensures { Grows nodes.old nodes.new parent result value old }
{
    let first = nodes.child_of(parent);
    let id = nodes.alloc_linked(value, first, Some(parent), old);
    nodes.link_child(parent, Some(id));
    id
}

/// The sibling right behind a node, the alternate of the old one.
#[inline(always)]
pub fn make_behind<F>(
    nodes: &mut Arena<F>,
    sibling: FiberId,
    old: Option<FiberId>,
    value: F,
) -> FiberId
    requires room { HasRoomFor nodes.old 1 }
    requires sibling_live { IsLive nodes.old sibling }
    requires old_live { IfSome old (IsLive nodes.old) }
    requires old_alone { IfSome old (IsAlone nodes.old) }
    requires differ { old ≢ Some sibling }
    ensures { Inserts nodes.old nodes.new sibling result value old }
{
    let node = nodes.node(sibling);
    let rest = node.sibling();
    let parent = node.up();
    let id = nodes.alloc_linked(value, rest, parent, old);
    nodes.link_sibling(sibling, Some(id));
    id
}
