// How much there is of a tree.
ghost use Rattle.std.specs.Prelude.{◌≡◌, ◌^◌, ◌-◌, min};
ghost use Rattle.std.specs.Option.{option_copied};
ghost use Rattle.rx_elem.specs.ElementSize.{held};
ghost use Rattle.rx_elem.specs.Spots as spots;
ghost use Rattle.rx_elem.specs.Trees.{forest};
ghost use Rattle.rx_node.specs.MarkView.{mark_seen};
ghost use Rattle.rx_spots.specs.Counts.{counted_from, counted_in, own_count};

use rx_node::{Mark, Node};

// 1 for the mark of a node that is counted.
fn own_count(mark: &Mark, only_hidden: bool) -> u64
    ensures { result ≡ own_count only_hidden (mark_seen mark.now) }
{
    match mark {
        Mark::Boundary(state) => u64::from(state.hides() || !only_hidden),
        _ => u64::from(!only_hidden),
    }
}

// How many nodes there are from one on, or how many that hide their children.
#[cycle(counting)]
fn counted_from(node: &Node, only_hidden: bool) -> u64
    ensures { result ≡ held (counted_from only_hidden node.now) }
{
    let own = own_count(node.mark(), only_hidden);
    let inside = counted_in(node.children(), only_hidden);
    let behind = counted_in(node.fallback(), only_hidden);
    own.saturating_add(inside).saturating_add(behind)
}

#[cycle(counting)]
fn counted_in(places: &[Option<Node>], only_hidden: bool) -> u64
    ensures { result ≡ held (counted_in only_hidden (forest places.now)) }
{
    let mut count: u64 = 0;
    for place in places {
        if let Some(node) = place {
            count = count.saturating_add(counted_from(node, only_hidden));
        }
    }
    count
}

/// How many nodes a tree has; held at the greatest `u64`.
pub fn node_count(tree: Option<&Node>) -> u64
    ensures { result ≡ held (spots.node_count (option_copied tree.entry)) }
{
    match tree {
        None => 0,
        Some(node) => counted_from(node, false),
    }
}

/// How many boundaries of a tree hide their children behind their fallbacks (react.dev, Suspense); held at the greatest
/// `u32`.
pub fn hidden_count(tree: Option<&Node>) -> u32
    ensures { result ≡ min (spots.hidden_count (option_copied tree.entry)) (2 ^ 32 - 1) }
{
    match tree {
        None => 0,
        Some(node) => counted_from(node, true).min(4_294_967_295) as u32,
    }
}
