// Values that are given something, and marks on a way or on a list.
ghost use Rattle.std.specs.Prelude.{◌≡◌, Some, IfSome, Option};
ghost use Rattle.rx_arena.specs.Nodes.{IsLive, Changes};
ghost use Rattle.rx_lists.specs.Reads.{limit, shape_of};
ghost use Rattle.rx_lists.specs.Shapes.{is_among, holds};
ghost use Rattle.rx_lists.specs.Ways.{ups, IsWay};
ghost use Rattle.rx_lists.specs.Marks.{touched, revalued, Revalues, Touches, CanMark};

use rx_arena::{Arena, FiberId};

/// What a mark changes in a value, as the lanes of an update do in each fiber from its own up to the root
/// (`markUpdateLaneFromFiberToRoot` of React).
pub trait Mark<L> {
    ghost marked: { L → Self → Self };

    fn mark(&mut self, by: &L)
        ensures { self.new ≡ marked by.now self.old };
}

/// What a value becomes when it is given something that it keeps, as a fiber the stage that it has come to.
pub trait Give<L> {
    ghost given: { L → Self → Self };

    fn give(&mut self, what: L)
        ensures { self.new ≡ given what self.old };
}

/// Marks one node.
pub fn mark_one<L, F: Mark<L>>(nodes: &mut Arena<F>, id: FiberId, by: &L)
    requires { IsLive nodes.old id }
    ensures { Changes (revalued (F.marked by.now)) nodes.old nodes.new id }
{
    let value = nodes.get_mut(id);
    value.mark(by);
}

/// Gives something to the value of one node.
pub fn give_one<L, F: Give<L>>(nodes: &mut Arena<F>, id: FiberId, what: L)
    requires { IsLive nodes.old id }
    ensures { Changes (revalued (F.given what)) nodes.old nodes.new id }
{
    let value = nodes.get_mut(id);
    value.give(what);
}

fn mark_link<L, F: Mark<L>>(nodes: &mut Arena<F>, link: Option<FiberId>, by: &L)
    requires { IfSome link (IsLive nodes.old) }
    ensures { Touches nodes.old nodes.new link (F.marked by.now) }
{
    if let Some(id) = link {
        mark_one(nodes, id, by);
    }
}

/// Marks a node and those above it, each with its alternate.
pub fn mark_up<L, F: Mark<L>>(nodes: &mut Arena<F>, from: Option<FiberId>, by: &L)
    requires { IsWay nodes.old from }
    ensures { Revalues nodes.old nodes.new (touched nodes.old (is_among (ups limit nodes.old from)) (F.marked by.now)) }
{
    let mut next = from;
    while let Some(id) = next {
        next = nodes.return_of(id);
        let alternate = nodes.alternate_of(id);
        mark_one(nodes, id, by);
        mark_link(nodes, alternate, by);
    }
}

/// Marks a list with all below, each with its alternate.
pub fn mark_list<L, F: Mark<L>>(nodes: &mut Arena<F>, link: Option<FiberId>, by: &L)
    requires { CanMark nodes.old link }
    ensures { Revalues nodes.old nodes.new (touched nodes.old (holds (shape_of limit nodes.old link)) (F.marked by.now)) }
{
    let mut next = link;
    while let Some(id) = next {
        let rest = nodes.sibling_of(id);
        let kids = nodes.child_of(id);
        let other = nodes.alternate_of(id);
        mark_one(nodes, id, by);
        mark_link(nodes, other, by);
        mark_list(nodes, kids, by);
        next = rest;
    }
}
