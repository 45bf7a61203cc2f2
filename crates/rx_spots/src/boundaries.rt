// What visible boundaries wait for.
ghost use Rattle.std.specs.Prelude.{◌≡◌, ℕ};
ghost use Rattle.std.specs.List.{list_any};
ghost use Rattle.std.specs.Option.{option_copied};
ghost use Rattle.rx_base.specs.Awaits.{awaits_where};
ghost use Rattle.rx_queue.specs.Pairs.{in_versions};
ghost use Rattle.rx_base.specs.declared.cut.Cut as cut;
ghost use Rattle.rx_elem.specs.Trees.{awaits_in, forest, is_hidden};
ghost use Rattle.rx_meaning.specs.Outcome.{visible_awaits};
ghost use Rattle.rx_node.specs.MarkView.{mark_seen};
ghost use Rattle.rx_queue.specs.Journal.{Journal, resolved_since};
ghost use Rattle.rx_spots.specs.Waits.{AreWithinReach, all_awaited, waits_from, waits_in};

use rx_base::Awaits;
use rx_node::{Mark, Node};

// What a node with this mark waits for.
fn own_awaits(mark: &Mark) -> Awaits
    ensures { result ≡ awaits_in (mark_seen mark.now) }
{
    match mark {
        Mark::Boundary(state) => state.awaits(),
        _ => Awaits::none(),
    }
}

// True for a boundary that is hidden.
fn hides(mark: &Mark) -> bool
    ensures { result ≡ is_hidden (mark_seen mark.now) }
{
    match mark {
        Mark::Boundary(state) => state.hides(),
        _ => false,
    }
}

// What a visible node and those below it that are visible wait for. Where no boundary is hidden no walk is taken.
#[cycle(awaiting)]
fn awaits_from(node: &Node) -> Awaits
    ensures { result ≡ awaits_where (waits_from node.now) }
{
    if !node.hides() {
        return Awaits::none();
    }
    let own = own_awaits(node.mark());
    let behind = awaits_in(node.fallback());
    if hides(node.mark()) {
        return own.union(behind);
    }
    own.union(awaits_in(node.children())).union(behind)
}

#[cycle(awaiting)]
fn awaits_in(places: &[Option<Node>]) -> Awaits
    ensures { result ≡ awaits_where (waits_in (forest places.now)) }
{
    let mut awaits = Awaits::none();
    for place in places {
        if let Some(node) = place {
            awaits = awaits.union(awaits_from(node));
        }
    }
    awaits
}

/// The resources that the visible hidden boundaries of a tree wait for (react.dev, Suspense). When one of them gets its
/// value, there is something to retry.
pub fn awaited(tree: Option<&Node>) -> Awaits
    ensures are { result ≡ all_awaited (option_copied tree.entry) }
    ensures resolved { (version : ℕ → ℕ) (c : cut.Cut) (j : Journal) → AreWithinReach j
        → resolved_since c j (in_versions version result) ≡ list_any (λ waits. resolved_since c j (in_versions version waits)) (visible_awaits (option_copied tree.entry)) }
{
    match tree {
        None => Awaits::none(),
        Some(node) => awaits_from(node),
    }
}
