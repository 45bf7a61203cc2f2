// How much there is of the current fibers.
ghost use Rattle.std.specs.Prelude.{◌≡◌, ◌^◌, ◌-◌, true, IfSome, Option, Some, min};
ghost use Rattle.rx_elem.specs.ElementSize.{held};
ghost use Rattle.rx_elem.specs.Spots as spots;
ghost use Rattle.rx_elem.specs.Trees as trees;
ghost use Rattle.rx_lists.specs.Shapes.{Holds};
ghost use Rattle.rx_links.specs.Readers.{list_from};
ghost use Rattle.rx_fiber.specs.FiberView.{stage_seen};
ghost use Rattle.rx_fiber.specs.Reading.{IsTreeOf};
ghost use Rattle.rx_fiber.specs.Subtrees.{IsGathered};
ghost use Rattle.rx_instances.specs.CountedFibers.{counted_first, counted_list, stage_count};

use rx_fiber::{Fiber, Stage};
use rx_links::{FiberId, FiberTree};

// 1 for a fiber of this stage that is counted.
fn stage_count(stage: &Stage, only_hidden: bool) -> u64
    ensures { result ≡ stage_count only_hidden (stage_seen stage.now) }
{
    match stage {
        Stage::Begun(mark) => u64::from(mark.is_hidden() || !only_hidden),
        Stage::Waiting(_) | Stage::Trying(_) | Stage::Guarding | Stage::Fallback(_) => 0,
    }
}

// How many are counted of a fiber and below. When hidden boundaries alone are counted it is passed if none is there.
#[cycle(counting)]
fn count_at(tree: &FiberTree<Fiber>, id: FiberId, only_hidden: bool) -> u64
    requires held { Holds tree.now.current id }
    requires gathered { only_hidden ≡ true → IsGathered tree.now.current }
    ensures { result ≡ held (counted_first only_hidden (list_from tree.now.current (Some id))) }
{
    tree.facts();
    let fiber = tree.value(id);
    if only_hidden && !fiber.subtree().hides {
        return 0;
    }
    let own = stage_count(fiber.stage(), only_hidden);
    own.saturating_add(count_in(tree, tree.first_child(id), only_hidden))
}

// How many are counted of a list of fibers and below.
#[cycle(counting)]
fn count_in(tree: &FiberTree<Fiber>, first: Option<FiberId>, only_hidden: bool) -> u64
    requires held { IfSome first (Holds tree.now.current) }
    requires gathered { only_hidden ≡ true → IsGathered tree.now.current }
    ensures { result ≡ held (counted_list only_hidden (list_from tree.now.current first)) }
{
    tree.facts();
    let mut count: u64 = 0;
    let mut next = first;
    'siblings: while let Some(id) = next {
        count = count.saturating_add(count_at(tree, id, only_hidden));
        next = tree.next_sibling(id);
    }
    count
}

/// How many nodes the committed tree has, counted by its fibers; held at the greatest `u64`.
pub fn node_count(tree: &FiberTree<Fiber>) -> u64
    ensures { (y : Option trees.Node) → IsTreeOf y tree.now.current → result ≡ held (spots.node_count y) }
{
    tree.facts();
    count_in(tree, tree.current(), false)
}

/// How many boundaries of the committed tree hide their children behind their fallbacks (react.dev, Suspense), counted by its
/// fibers; held at the greatest `u32`. Fibers that have no hidden boundary at or below them are passed.
pub fn hidden_count(tree: &FiberTree<Fiber>) -> u32
    requires gathered { IsGathered tree.now.current }
    ensures { (y : Option trees.Node) → IsTreeOf y tree.now.current → result ≡ min (spots.hidden_count y) (2 ^ 32 - 1) }
{
    tree.facts();
    count_in(tree, tree.current(), true).min(4_294_967_295) as u32
}
