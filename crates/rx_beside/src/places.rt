// The children of a made fiber beside those of its alternate, where each stands in place.
ghost use Rattle.std.specs.Prelude.{◌≡◌, ℕ, false, true, All, Some, IfSome, IfOk, is_some};
ghost use Rattle.rx_elem.specs.Elements.{is_present};
ghost use Rattle.rx_elem.specs.Trees as trees;
ghost use Rattle.rx_elem.specs.Trees.{element_of};
ghost use Rattle.rx_lists.specs.Shapes.{Holds};
ghost use Rattle.rx_links.specs.Drafts.{Makes, clone_of, old_of};
ghost use Rattle.rx_links.specs.Readers.{IsIn};
ghost use Rattle.rx_compare.specs.InPlace.{IsInPlace};
ghost use Rattle.rx_read.specs.Lists.{list_of};
ghost use Rattle.rx_read.specs.Places.{mark_in, places_in, first_places, first_node};
ghost use Rattle.rx_beside.specs.Alike.{AllTakeAlike};
ghost use Rattle.rx_beside.specs.Pairs.{IsPair, IsPairIn, StandAt, Goes, AreInPlace};

use crate::children::{fill, is_begun, is_last, next_node};
use crate::taking::is_kept;
use rx_elem::Element;
use rx_fiber::Fiber;
use rx_links::{FiberId, FiberTree};
use std::alloc::{AllocError, Global};

// A made fiber and its alternate, the current one that it was made for.
#[derive(Drop)]
pub(crate) struct Pair {
    pub old: FiberId,
    pub new: FiberId,
}

// Where a list of made children begins, and that of the alternate of their parent.
#[derive(Drop)]
pub(crate) struct Heads {
    pub old: Option<FiberId>,
    pub new: Option<FiberId>,
}

// Whether the alternate of a fiber is this one.
pub(crate) fn is_alternate(tree: &FiberTree<Fiber>, pair: &Pair) -> bool
    requires { IsIn tree.now pair.now.new }
    ensures current { result ≡ true → Holds tree.now.current pair.now.new → clone_of tree.now.draft pair.now.new ≡ Some pair.now.old }
    ensures made { result ≡ true → Makes tree.now.draft pair.now.new → old_of tree.now.draft pair.now.new ≡ Some pair.now.old }
{
    match tree.alternate(pair.new) {
        Some(old) => old.same(pair.old),
        None => false,
    }
}

// Whether a made fiber was made for this current one.
pub(crate) fn is_made_for(tree: &FiberTree<Fiber>, pair: &Pair) -> bool
    requires { Makes tree.now.draft pair.now.new }
    ensures { result ≡ true → old_of tree.now.draft pair.now.new ≡ Some pair.now.old }
{
    is_alternate(tree, pair)
}

// The place at which a made fiber and its alternate both stand for nodes.
fn common_place(tree: &FiberTree<Fiber>, pair: &Pair) -> Option<u32>
    requires old { IsIn tree.now pair.now.old }
    requires made { Makes tree.now.draft pair.now.new }
    ensures pair { IfSome result (λ k. IsPair tree.now pair.now) }
    ensures stand { IfSome result (StandAt tree.now pair.now) }
{
    tree.facts();
    let was = tree.value(pair.old);
    let is = tree.value(pair.new);
    let place = is.place();
    if was.place() == place
        && is_begun(was.stage())
        && is_begun(is.stage())
        && is_made_for(tree, pair)
    {
        Some(place)
    } else {
        None
    }
}

// Whether a new child is the old one at its place.
fn is_same_child(old: &Element, new: &Element) -> bool
    ensures { result ≡ true → IsInPlace old.now new.now }
{
    old.key() == new.key() && new.is_same_kind(old)
}

// Whether a made fiber and a current one each are the last of their lists.
pub(crate) fn are_last(tree: &FiberTree<Fiber>, pair: &Pair) -> bool
    requires old { IsIn tree.now pair.now.old }
    requires new { IsIn tree.now pair.now.new }
    ensures old { result ≡ true → (n : ℕ) → places_in n (list_of tree.now (Some pair.now.old)) ≡ first_places n (list_of tree.now (Some pair.now.old)) }
    ensures new { result ≡ true → (n : ℕ) → places_in n (list_of tree.now (Some pair.now.new)) ≡ first_places n (list_of tree.now (Some pair.now.new)) }
{
    is_last(tree, pair.old) && is_last(tree, pair.new)
}

// Whether a fiber stands for the node at the first place.
fn stands_first(fiber: &Fiber) -> bool
    ensures place { result ≡ true → fiber.now.place ≡ 0 }
    ensures begun { result ≡ true → is_some (mark_in fiber.now.stage) ≡ true }
{
    fiber.place() == 0 && is_begun(fiber.stage())
}

// Whether two fibers stand for the nodes at the first places of their lists, and the one is the other in place.
pub(crate) fn stand_first(was: &Fiber, is: &Fiber) -> bool
    ensures old { result ≡ true → (was.now.place ≡ 0) × (is_some (mark_in was.now.stage) ≡ true) }
    ensures new { result ≡ true → (is.now.place ≡ 0) × (is_some (mark_in is.now.stage) ≡ true) }
    ensures same { result ≡ true → IsInPlace was.now.element is.now.element }
{
    stands_first(was) && stands_first(is) && is_same_child(was.element(), is.element())
}

// Whether a made fiber is of the element that its alternate was of.
fn is_same(tree: &FiberTree<Fiber>, pair: &Pair) -> bool
    requires { IsPair tree.now pair.now }
    ensures { result ≡ true → (o n : trees.Node) → first_node (list_of tree.now (Some pair.now.old)) ≡ Some o → first_node (list_of tree.now (Some pair.now.new)) ≡ Some n → IsInPlace (element_of o) (element_of n) }
{
    tree.facts();
    is_same_child(
        tree.value(pair.old).element(),
        tree.value(pair.new).element(),
    )
}

// Whether a made fiber stands for the node that its alternate stands for, which can be left out: neither it nor anything up to its
// host is new or moved. It took its children over, or it is a text that was evaluated anew and came out the same.
pub(crate) fn is_left(tree: &FiberTree<Fiber>, pair: &Pair, displaced: bool) -> bool
    requires pair { IsPair tree.now pair.now }
    requires alike { AllTakeAlike tree.now.current tree.now.draft }
    ensures still { result ≡ true → displaced ≡ false }
    ensures same { result ≡ true → first_node (list_of tree.now (Some pair.now.new)) ≡ first_node (list_of tree.now (Some pair.now.old)) }
    ensures present { result ≡ true → (o : trees.Node) → first_node (list_of tree.now (Some pair.now.old)) ≡ Some o → is_present (element_of o) ≡ true }
{
    !displaced && is_kept(tree, pair)
}

// Goes on with a child of a made fiber and one of its alternate, behind so many places, unless it is to be left out. Returns how
// many places there are then; nothing if the one is not the other in place.
fn add_pair(
    tree: &FiberTree<Fiber>,
    pair: &Pair,
    place: usize,
    displaced: bool,
    pairs: &mut Vec<Option<Pair>>,
) -> Result<Option<usize>, AllocError>
    requires old { IsIn tree.now pair.now.old }
    requires made { Makes tree.now.draft pair.now.new }
    requires alike { AllTakeAlike tree.now.current tree.now.draft }
    ensures { IfOk result (λ r. IfSome r (λ at. Goes tree.now displaced pair.now place at pairs.old.items pairs.new.items)) }
{
    let Some(at) = common_place(tree, pair) else {
        return Ok(None);
    };
    let at = at as usize;
    if at < place {
        return Ok(None);
    }
    if is_left(tree, pair, displaced) {
        fill(pairs, at - place)?;
        return Ok(Some(at + 1));
    }
    if !is_same(tree, pair) {
        return Ok(None);
    }
    fill(pairs, at - place)?;
    pairs.push(Some(Pair {
        old: pair.old,
        new: pair.new,
    }))?;
    Ok(Some(at + 1))
}

// The children of two lists, place by place, without those that are to be left out; nothing if they are to be matched: if not each
// stands in place, or one is gone.
pub(crate) fn pairs_in_place(
    alloc: Global,
    tree: &FiberTree<Fiber>,
    heads: &Heads,
    displaced: bool,
) -> Result<Option<Vec<Option<Pair>>>, AllocError>
    requires old { IfSome heads.now.old (IsIn tree.now) }
    requires made { IfSome heads.now.new (Makes tree.now.draft) }
    requires alike { AllTakeAlike tree.now.current tree.now.draft }
    ensures stand { IfOk result (λ r. IfSome r (λ v. AreInPlace tree.now displaced (places_in 0 (list_of tree.now heads.now.old)) (places_in 0 (list_of tree.now heads.now.new)) v.items)) }
    ensures pairs { IfOk result (λ r. IfSome r (λ v. All (λ o. IfSome o (IsPairIn tree.now heads.now.new)) v.items)) }
{
    let mut pairs = Vec::new(alloc);
    let (mut was, mut next) = (heads.old, heads.new);
    let mut place = 0;
    'going: while let Some(new) = next {
        let Some(old) = was else {
            return Ok(None);
        };
        let Some(behind) = add_pair(tree, &Pair { old, new }, place, displaced, &mut pairs)? else {
            return Ok(None);
        };
        place = behind;
        was = next_node(tree, old);
        next = next_node(tree, new);
    }
    match was {
        Some(_) => Ok(None),
        None => Ok(Some(pairs)),
    }
}
