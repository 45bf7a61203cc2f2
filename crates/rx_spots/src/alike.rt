// Whether two trees have the same instances.
ghost use Rattle.std.specs.Prelude.{◌≡◌, true};
ghost use Rattle.std.specs.Option.{option_copied};
ghost use Rattle.rx_elem.specs.Spots.{mounted, numbers_of};
ghost use Rattle.rx_elem.specs.Trees.{forest};
ghost use Rattle.rx_spots.specs.Places.{HaveSame, HaveSameIn, StandAlike, StandAlikeAt, StandAlikeIn, mounting_at};

use rx_node::Node;

// The node at a place of a list, if an instance is at it or below.
fn mounting_at(places: &[Option<Node>], place: usize) -> Option<&Node>
    ensures { option_copied result ≡ mounting_at places.now place }
{
    match places.get(place) {
        Some(Some(node)) => { if node.mounts() { Some(node) } else { None } }
        _ => None,
    }
}

// Whether the instances of two nodes and below are found to have the same numbers.
#[cycle(comparing)]
fn are_alike(old: &Node, new: &Node) -> bool
    ensures same { result ≡ true → HaveSame old.now new.now }
    ensures alike { StandAlike old.now new.now → result ≡ true }
{
    if old.mark().instance_number() != new.mark().instance_number() {
        return false;
    }
    are_alike_in(old.children(), new.children()) && are_alike_in(old.fallback(), new.fallback())
}

// The same of two lists. A place where there are none stands for one that is vacant.
#[cycle(comparing)]
fn are_alike_in(old: &[Option<Node>], new: &[Option<Node>]) -> bool
    ensures same { result ≡ true → HaveSameIn (forest old.now) (forest new.now) }
    ensures alike { StandAlikeIn old.now new.now → result ≡ true }
{
    'pairing: for place in 0..old.len().max(new.len()) {
        match (mounting_at(old, place), mounting_at(new, place)) {
            (None, None) => {}
            (Some(old), Some(new)) => {
                if !are_alike(old, new) {
                    return false;
                }
            }
            _ => return false,
        }
    }
    true
}

/// Whether the instances of two trees are found to have the same numbers, in the same order: they are if each stands at the
/// same place in both. Then a commit mounts none and drops none (react.dev, Preserving and Resetting State).
pub fn have_same_instances(old: Option<&Node>, new: Option<&Node>) -> bool
    ensures same { result ≡ true → numbers_of (mounted (option_copied old.entry)) ≡ numbers_of (mounted (option_copied new.entry)) }
    ensures alike { StandAlikeAt (option_copied old.entry) (option_copied new.entry) → result ≡ true }
{
    match (old, new) {
        (None, None) => true,
        (Some(old), Some(new)) => are_alike(old, new),
        _ => false,
    }
}
