// What the visible boundaries among the current fibers wait for.
ghost use Rattle.std.specs.Prelude.{◌≡◌, ℕ, IfSome, Option, Some};
ghost use Rattle.std.specs.List.{list_any};
ghost use Rattle.rx_base.specs.Awaits.{awaits_where};
ghost use Rattle.rx_queue.specs.Pairs.{in_versions};
ghost use Rattle.rx_base.specs.declared.cut.Cut as cut;
ghost use Rattle.rx_elem.specs.Trees as trees;
ghost use Rattle.rx_lists.specs.Shapes.{Holds};
ghost use Rattle.rx_links.specs.Readers.{list_from};
ghost use Rattle.rx_fiber.specs.FiberView.{stage_seen};
ghost use Rattle.rx_fiber.specs.Reading.{IsTreeOf};
ghost use Rattle.rx_fiber.specs.Subtrees.{IsGathered};
ghost use Rattle.rx_meaning.specs.Outcome.{visible_awaits};
ghost use Rattle.rx_queue.specs.Journal.{Journal, resolved_since};
ghost use Rattle.rx_spots.specs.Waits.{AreWithinReach, all_awaited};
ghost use Rattle.rx_instances.specs.AwaitedFibers.{stage_awaits, visible_kids, waits_first, waits_list};

use crate::mounted::keeps;
use rx_base::Awaits;
use rx_fiber::{Fiber, Stage};
use rx_links::{FiberId, FiberTree};
use rx_node::Mark;

// What a fiber of this stage waits for.
fn stage_awaits(stage: &Stage) -> Awaits
    ensures { result ≡ stage_awaits (stage_seen stage.now) }
{
    match stage {
        Stage::Begun(Mark::Boundary(state)) => state.awaits(),
        _ => Awaits::none(),
    }
}

// The first visible child of a fiber: none if it keeps its children behind its fallback.
fn visible_child(tree: &FiberTree<Fiber>, id: FiberId) -> Option<FiberId>
    requires { Holds tree.now.current id }
    ensures held { IfSome result (Holds tree.now.current) }
    ensures list { list_from tree.now.current result ≡ visible_kids (list_from tree.now.current (Some id)) }
{
    tree.facts();
    if keeps(tree, tree.next_sibling(id)) {
        return None;
    }
    tree.first_child(id)
}

// What a visible fiber and those below it that are visible wait for. It is passed if no hidden boundary is at or below it.
#[cycle(awaiting)]
fn awaits_at(tree: &FiberTree<Fiber>, id: FiberId) -> Awaits
    requires held { Holds tree.now.current id }
    requires gathered { IsGathered tree.now.current }
    ensures { result ≡ awaits_where (waits_first (list_from tree.now.current (Some id))) }
{
    tree.facts();
    let fiber = tree.value(id);
    if !fiber.subtree().hides {
        return Awaits::none();
    }
    let own = stage_awaits(fiber.stage());
    own.union(awaits_in(tree, visible_child(tree, id)))
}

// What the visible fibers of a list and those below that are visible wait for.
#[cycle(awaiting)]
fn awaits_in(tree: &FiberTree<Fiber>, first: Option<FiberId>) -> Awaits
    requires held { IfSome first (Holds tree.now.current) }
    requires gathered { IsGathered tree.now.current }
    ensures { result ≡ awaits_where (waits_list (list_from tree.now.current first)) }
{
    tree.facts();
    let mut awaits = Awaits::none();
    let mut next = first;
    'siblings: while let Some(id) = next {
        awaits = awaits.union(awaits_at(tree, id));
        next = tree.next_sibling(id);
    }
    awaits
}

/// The resources that the visible hidden boundaries of the committed tree wait for (react.dev, Suspense), read from the current
/// fibers; those that have no hidden boundary at or below them are passed. When one of them gets its value, there is something
/// to retry.
pub fn awaited(tree: &FiberTree<Fiber>) -> Awaits
    requires gathered { IsGathered tree.now.current }
    ensures are { (y : Option trees.Node) → IsTreeOf y tree.now.current → result ≡ all_awaited y }
    ensures resolved { (y : Option trees.Node) (version : ℕ → ℕ) (c : cut.Cut) (j : Journal) → IsTreeOf y tree.now.current → AreWithinReach j
        → resolved_since c j (in_versions version result) ≡ list_any (λ waits. resolved_since c j (in_versions version waits)) (visible_awaits y) }
{
    tree.facts();
    awaits_in(tree, tree.current())
}
