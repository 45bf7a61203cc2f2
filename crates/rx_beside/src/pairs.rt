// A made fiber beside its alternate: what is left of the nodes that both stand for.
ghost use Rattle.std.specs.Prelude.{◌≡◌, true, false, ◌||◌, ◌∷◌, [], ◌<◌, IfSome, IfOk, OnOk, None, Some};
ghost use Rattle.rx_elem.specs.Trees.{forest, host_number, shows_fallback};
ghost use Rattle.rx_node.specs.MarkView.{mark_seen};
ghost use Rattle.rx_lists.specs.Shapes.{size};
ghost use Rattle.rx_links.specs.Drafts.{Makes, grafted, old_kids, old_of};
ghost use Rattle.rx_links.specs.Readers.{IsIn, made_kids_of};
ghost use Rattle.rx_read.specs.Lists.{list_of};
ghost use Rattle.rx_read.specs.Places.{places_in, first_node};
ghost use Rattle.rx_pruned.specs.Pruned.{GoesOn, StaysBare, displaced_below, PrunedInPlace};
ghost use Rattle.rx_beside.specs.Alike.{AllTakeAlike};
ghost use Rattle.rx_beside.specs.Children.{IsNode};
ghost use Rattle.rx_beside.specs.Pairs.{AreBare, AreSame, IsAlone, IsBare, IsOnly, IsPair, StandsInPlace, PassesTo, IsPruned, AddsPruned};
ghost use Rattle.rx_beside.specs.Slots.{IsSlot, AreLists};

use crate::children::fibers_of;
use crate::lists::{
    PrunedLists, PrunedNodes, Slot, fiber_in, match_fibers, no_lists, node_over, one_each,
    over_same, read_wholes, replace, vacant_places, with_gone,
};
use crate::marks::came_out_same;
use crate::places::{
    Heads, Pair, are_last, is_alternate, is_left, is_made_for, pairs_in_place, stand_first,
};
use crate::taking::takes_over;
use rx_fiber::{Fiber, Stage};
use rx_links::{FiberId, FiberTree};
use rx_node::Mark;
use rx_read::{made_child, read_fiber};
use rx_set::NumberSet;
use std::alloc::{AllocError, Global};
use std::rc::Rc;

// The number of a host or a text.
fn host_number(mark: &Mark) -> Option<u64>
    ensures { result ≡ host_number (mark_seen mark.now) }
{
    match mark {
        Mark::Host(number) => *number,
        _ => None,
    }
}

// Whether what is below an old node and the new one can be gone through.
fn goes_on(old: &Mark, new: &Mark) -> bool
    ensures goes { result ≡ true → GoesOn (mark_seen old.now) (mark_seen new.now) }
    ensures shown { result ≡ true → (shows_fallback (mark_seen old.now) ≡ false) × (shows_fallback (mark_seen new.now) ≡ false) }
{
    !old.is_hidden()
        && !new.is_hidden()
        && !old.is_caught()
        && !new.is_caught()
        && old.is_host() == new.is_host()
        && host_number(old) == host_number(new)
}

// Whether an instance stands as it did, and was not rendered anew: it has the parts themselves that it had.
fn is_untouched(old: &Mark, new: &Mark) -> bool {
    let Mark::Instance(was) = old else {
        return false;
    };
    match new {
        Mark::Instance(is) => Rc::ptr_eq(&was.parts, &is.parts),
        _ => false,
    }
}

// Whether a node that had the one mark and has the other is an instance that stays, and had and has no effects. One that was
// rendered anew is not taken for such: its hooks may have had work, and a commit looks for those among what it compares.
fn stays_bare(old: &Mark, new: &Mark) -> bool
    ensures bare { result ≡ true → StaysBare (mark_seen old.now) (mark_seen new.now) }
    ensures shown { result ≡ true → (shows_fallback (mark_seen old.now) ≡ false) × (shows_fallback (mark_seen new.now) ≡ false) }
{
    if !is_untouched(old, new) {
        return false;
    }
    let Some(number) = new.instance_number() else {
        return false;
    };
    old.instance_number() == Some(number) && old.effects().is_empty() && new.effects().is_empty()
}

// Whether a node from one up to the host above the children of a node is new or moved.
fn displaced_below(displaced: bool, mark: &Mark) -> bool
    ensures { result ≡ displaced_below displaced (mark_seen mark.now) }
{
    !mark.is_host() && displaced
}

// Whether a node from a child up to the host above it is new or moved.
fn or_moved(displaced: bool, moved: bool) -> bool
    ensures { result ≡ (displaced || moved) }
{
    displaced || moved
}

// An only child beside its alternate, which was an only child too; and whether a commit has nothing to do for it itself: it is an
// instance that stays and has no effects.
#[derive(Drop)]
struct Only {
    pair: Pair,
    bare: bool,
}

// Whether two fibers stand for an instance that stays, and had and has no effects.
fn are_bare(was: &Fiber, is: &Fiber) -> bool
    ensures { result ≡ true → AreBare was.now is.now }
{
    if let Stage::Begun(had) = was.stage()
        && let Stage::Begun(mark) = is.stage()
    {
        return stays_bare(had, mark);
    }
    false
}

// Whether a made fiber and its alternate are only children, and the one is the other in place; and if so, whether they are bare. The
// value of each is read once.
fn stand_alone(tree: &FiberTree<Fiber>, pair: &Pair) -> Option<bool>
    requires old { IsIn tree.now pair.now.old }
    requires made { Makes tree.now.draft pair.now.new }
    requires is_for { old_of tree.now.draft pair.now.new ≡ Some pair.now.old }
    ensures alone { IfSome result (λ b. IsAlone tree.now pair.now) }
    ensures bare { IfSome result (λ b. b ≡ true → IsBare tree.now pair.now) }
{
    tree.facts();
    if !are_last(tree, pair) {
        return None;
    }
    let was = tree.value(pair.old);
    let is = tree.value(pair.new);
    if !stand_first(was, is) {
        return None;
    }
    Some(are_bare(was, is))
}

// The only children of two lists, if the one is the other in place.
fn only_pair(tree: &FiberTree<Fiber>, heads: &Heads) -> Option<Only>
    requires old { IfSome heads.now.old (IsIn tree.now) }
    requires made { IfSome heads.now.new (Makes tree.now.draft) }
    ensures only { IfSome result (λ o. IsOnly tree.now heads.now o.pair) }
    ensures bare { IfSome result (λ o. o.bare ≡ true → IsBare tree.now o.pair) }
{
    let old = heads.old?;
    let new = heads.new?;
    let pair = Pair { old, new };
    if !is_made_for(tree, &pair) {
        return None;
    }
    let bare = stand_alone(tree, &pair)?;
    Some(Only { pair, bare })
}

// The only child of an instance that stays and has no effects, and that of its alternate, if the one is the other in place. A
// commit has nothing to do for the instance itself. A first child whose alternate is the old first child was made, not taken over.
fn below_bare(tree: &FiberTree<Fiber>, only: &Only) -> Option<Only>
    requires pair { IsPair tree.now only.now.pair }
    requires stands { StandsInPlace tree.now only.now.pair }
    requires bare { only.now.bare ≡ true → IsBare tree.now only.now.pair }
    ensures passes { IfSome result (λ o. PassesTo tree.now false only.now.pair o.pair) }
    ensures bare { IfSome result (λ o. o.bare ≡ true → IsBare tree.now o.pair) }
    ensures lower { IfSome result (λ o. size (list_of tree.now (Some o.pair.new)) < size (list_of tree.now (Some only.now.pair.new))) }
{
    if !only.bare {
        return None;
    }
    tree.facts();
    let old = tree.first_child(only.pair.old)?;
    let new = tree.first_child(only.pair.new)?;
    let pair = Pair { old, new };
    if !is_alternate(tree, &pair) {
        return None;
    }
    let bare = stand_alone(tree, &pair)?;
    Some(Only { pair, bare })
}

// Where a chain of such instances ends that begins with an only child, unless something from it up to its host is new or moved.
fn end_of_chain(tree: &FiberTree<Fiber>, only: &Only, displaced: bool) -> Pair
    requires pair { IsPair tree.now only.now.pair }
    requires stands { StandsInPlace tree.now only.now.pair }
    requires bare { only.now.bare ≡ true → IsBare tree.now only.now.pair }
    ensures { PassesTo tree.now displaced only.now.pair result }
{
    let pair = Pair {
        old: only.pair.old,
        new: only.pair.new,
    };
    if displaced {
        return pair;
    }
    let mut end = Only {
        pair,
        bare: only.bare,
    };
    'passing: while let Some(below) = below_bare(tree, &end) {
        end = below;
    }
    let Only { pair, bare: _bare } = end;
    pair
}

// A made fiber beside this current one, if it was made for that.
fn pair_of(tree: &FiberTree<Fiber>, old: Option<FiberId>, new: FiberId) -> Option<Pair>
    requires made { Makes tree.now.draft new }
    requires was { IfSome old (IsNode tree.now) }
    requires is { IsNode tree.now new }
    ensures pair { IfSome result (IsPair tree.now) }
    ensures old { IfSome result (λ p. old ≡ Some p.old) }
    ensures new { IfSome result (λ p. p.new ≡ new) }
{
    let pair = Pair { old: old?, new };
    if is_made_for(tree, &pair) {
        Some(pair)
    } else {
        None
    }
}

// What is left of the nodes that a made fiber and its alternate stand for: nothing if they are the same, so that a commit has
// nothing to do there or below, unless something up to their host is new or moved.
#[cycle(pair)]
fn read_pair(
    alloc: Global,
    tree: &FiberTree<Fiber>,
    pair: &Pair,
    displaced: bool,
    working: &NumberSet,
) -> Result<Option<PrunedNodes>, AllocError>
    requires pair { IsPair tree.now pair.now }
    requires alike { AllTakeAlike tree.now.current tree.now.draft }
    ensures pruned { IfOk result (λ r. IfSome r (λ p. IsPruned tree.now displaced pair.now p.old p.new)) }
    ensures still { IfOk result (λ r. r ≡ None → displaced ≡ false) }
    ensures same { IfOk result (λ r. r ≡ None → AreSame tree.now pair.now) }
{
    if is_left(tree, pair, displaced) {
        return Ok(None);
    }
    tree.facts();
    let was = tree.value(pair.old);
    let is = tree.value(pair.new);
    if let Stage::Begun(had) = was.stage()
        && let Stage::Begun(mark) = is.stage()
        && goes_on(had, mark)
        && let Some(lists) = read_lists(
            alloc,
            tree,
            pair,
            displaced_below(displaced, mark),
            working,
        )?
    {
        if !displaced
            && lists.same
            && came_out_same(had, mark, working)
            && is.element().same(was.element())
        {
            return Ok(None);
        }
        return Ok(Some(PrunedNodes {
            old: node_over(alloc, was.element(), had, lists.old)?,
            new: node_over(alloc, is.element(), mark, lists.new)?,
        }));
    }
    let wholes = read_wholes(alloc, tree, pair)?;
    Ok(Some(wholes))
}

// The same where nothing is left out of a list: nodes that are the same are there without their children.
#[cycle(pair)]
pub(crate) fn read_kept(
    alloc: Global,
    tree: &FiberTree<Fiber>,
    pair: &Pair,
    displaced: bool,
    working: &NumberSet,
) -> Result<PrunedNodes, AllocError>
    requires pair { IsPair tree.now pair.now }
    requires alike { AllTakeAlike tree.now.current tree.now.draft }
    ensures { IfOk result (λ p. IsPruned tree.now displaced pair.now p.old p.new) }
{
    match read_pair(alloc, tree, pair, displaced, working)? {
        Some(nodes) => Ok(nodes),
        None => {
            let bare = over_same(alloc, tree, pair)?;
            Ok(bare)
        }
    }
}

// Their lists of children: if these were taken over, both are left out, but below what moved they stay whole.
#[cycle(pair)]
fn read_lists(
    alloc: Global,
    tree: &FiberTree<Fiber>,
    pair: &Pair,
    displaced: bool,
    working: &NumberSet,
) -> Result<Option<PrunedLists>, AllocError>
    requires pair { IsPair tree.now pair.now }
    requires alike { AllTakeAlike tree.now.current tree.now.draft }
    ensures lists { IfOk result (λ r. IfSome r (λ l. AreLists displaced (forest (places_in 0 (old_kids tree.now pair.now.new))) (forest (places_in 0 (grafted (made_kids_of tree.now.draft pair.now.new)))) (forest l.old.items) (forest l.new.items))) }
    ensures same { IfOk result (λ r. IfSome r (λ l. l.same ≡ true → places_in 0 (grafted (made_kids_of tree.now.draft pair.now.new)) ≡ places_in 0 (old_kids tree.now pair.now.new))) }
{
    tree.facts();
    let first = made_child(tree, pair.new);
    if !takes_over(tree, pair.new, first.is_some()) {
        let heads = Heads {
            old: tree.first_child(pair.old),
            new: first,
        };
        let lists = read_made(alloc, tree, &heads, displaced, working)?;
        return Ok(Some(lists));
    }
    if displaced {
        Ok(None)
    } else {
        Ok(Some(no_lists(alloc, true)))
    }
}

// Two lists of children, of which the new one was made beside the old one.
#[cycle(pair)]
fn read_made(
    alloc: Global,
    tree: &FiberTree<Fiber>,
    heads: &Heads,
    displaced: bool,
    working: &NumberSet,
) -> Result<PrunedLists, AllocError>
    requires old { IfSome heads.now.old (IsIn tree.now) }
    requires made { IfSome heads.now.new (Makes tree.now.draft) }
    requires alike { AllTakeAlike tree.now.current tree.now.draft }
    ensures lists { IfOk result (λ l. AreLists displaced (forest (places_in 0 (list_of tree.now heads.now.old))) (forest (places_in 0 (list_of tree.now heads.now.new))) (forest l.old.items) (forest l.new.items)) }
    ensures same { IfOk result (λ l. l.same ≡ true → places_in 0 (list_of tree.now heads.now.new) ≡ places_in 0 (list_of tree.now heads.now.old)) }
{
    match only_pair(tree, heads) {
        Some(only) => {
            let alone = read_alone(alloc, tree, &only, displaced, working)?;
            Ok(alone)
        }
        None => {
            let listed = read_listed(alloc, tree, heads, displaced, working)?;
            Ok(listed)
        }
    }
}

// The same if there are more of them, or the only one does not stand where the old one did.
#[cycle(pair)]
fn read_listed(
    alloc: Global,
    tree: &FiberTree<Fiber>,
    heads: &Heads,
    displaced: bool,
    working: &NumberSet,
) -> Result<PrunedLists, AllocError>
    requires old { IfSome heads.now.old (IsIn tree.now) }
    requires made { IfSome heads.now.new (Makes tree.now.draft) }
    requires alike { AllTakeAlike tree.now.current tree.now.draft }
    ensures lists { IfOk result (λ l. AreLists displaced (forest (places_in 0 (list_of tree.now heads.now.old))) (forest (places_in 0 (list_of tree.now heads.now.new))) (forest l.old.items) (forest l.new.items)) }
    ensures same { IfOk result (λ l. l.same ≡ true → places_in 0 (list_of tree.now heads.now.new) ≡ places_in 0 (list_of tree.now heads.now.old)) }
{
    match read_in_place(alloc, tree, heads, displaced, working)? {
        Some(lists) => Ok(lists),
        None => {
            let matched = read_matched(alloc, tree, heads, displaced, working)?;
            Ok(matched)
        }
    }
}

// The same of an only child that stands where the old one did, which was an only child too. If it is an instance that stays and has
// no effects, and the same holds of its own children, its only child stands in its place: so of a chain of components what stands
// at its end is compared.
#[cycle(pair)]
fn read_alone(
    alloc: Global,
    tree: &FiberTree<Fiber>,
    only: &Only,
    displaced: bool,
    working: &NumberSet,
) -> Result<PrunedLists, AllocError>
    requires pair { IsPair tree.now only.now.pair }
    requires stands { StandsInPlace tree.now only.now.pair }
    requires bare { only.now.bare ≡ true → IsBare tree.now only.now.pair }
    requires alike { AllTakeAlike tree.now.current tree.now.draft }
    ensures lists { IfOk result (λ l. PrunedInPlace displaced (forest (first_node (list_of tree.now (Some only.now.pair.old)) ∷ [])) (forest (first_node (list_of tree.now (Some only.now.pair.new)) ∷ [])) (forest l.old.items) (forest l.new.items)) }
    ensures same { IfOk result (λ l. l.same ≡ true → AreSame tree.now only.now.pair) }
{
    let end = end_of_chain(tree, only, displaced);
    match read_pair(alloc, tree, &end, displaced, working)? {
        Some(nodes) => {
            let lists = one_each(alloc, nodes)?;
            Ok(lists)
        }
        None => Ok(no_lists(alloc, end.new.same(only.pair.new))),
    }
}

// The same if each child is the old one at its place, and none is gone; nothing if not.
#[cycle(pair)]
fn read_in_place(
    alloc: Global,
    tree: &FiberTree<Fiber>,
    heads: &Heads,
    displaced: bool,
    working: &NumberSet,
) -> Result<Option<PrunedLists>, AllocError>
    requires old { IfSome heads.now.old (IsIn tree.now) }
    requires made { IfSome heads.now.new (Makes tree.now.draft) }
    requires alike { AllTakeAlike tree.now.current tree.now.draft }
    ensures lists { IfOk result (λ r. IfSome r (λ l. AreLists displaced (forest (places_in 0 (list_of tree.now heads.now.old))) (forest (places_in 0 (list_of tree.now heads.now.new))) (forest l.old.items) (forest l.new.items))) }
    ensures same { IfOk result (λ r. IfSome r (λ l. l.same ≡ true → places_in 0 (list_of tree.now heads.now.new) ≡ places_in 0 (list_of tree.now heads.now.old))) }
{
    let Some(pairs) = pairs_in_place(alloc, tree, heads, displaced)? else {
        return Ok(None);
    };
    let mut lists = no_lists(alloc, true);
    'going: for i in 0..pairs.len() {
        add_place(alloc, tree, &pairs[i], displaced, working, &mut lists)?;
    }
    Ok(Some(lists))
}

// Goes on with what is left of a place where each stands in place, or with two vacant places.
#[cycle(pair)]
fn add_place(
    alloc: Global,
    tree: &FiberTree<Fiber>,
    place: &Option<Pair>,
    displaced: bool,
    working: &NumberSet,
    lists: &mut PrunedLists,
) -> Result<(), AllocError>
    requires pair { IfSome place.now (IsPair tree.now) }
    requires alike { AllTakeAlike tree.now.current tree.now.draft }
    ensures { OnOk result (AddsPruned tree.now displaced place.now lists.entry.now lists.exit.now) }
{
    match place {
        Some(pair) => {
            if let Some(nodes) = read_pair(alloc, tree, pair, displaced, working)? {
                lists.old.push(Some(nodes.old))?;
                lists.new.push(Some(nodes.new))?;
                lists.same = false;
            }
        }
        None => {
            lists.old.push(None)?;
            lists.new.push(None)?;
        }
    }
    Ok(())
}

// The same if they are to be matched.
#[cycle(pair)]
fn read_matched(
    alloc: Global,
    tree: &FiberTree<Fiber>,
    heads: &Heads,
    displaced: bool,
    working: &NumberSet,
) -> Result<PrunedLists, AllocError>
    requires old { IfSome heads.now.old (IsIn tree.now) }
    requires made { IfSome heads.now.new (Makes tree.now.draft) }
    requires alike { AllTakeAlike tree.now.current tree.now.draft }
    ensures lists { IfOk result (λ l. AreLists displaced (forest (places_in 0 (list_of tree.now heads.now.old))) (forest (places_in 0 (list_of tree.now heads.now.new))) (forest l.old.items) (forest l.new.items)) }
    ensures same { IfOk result (λ l. l.same ≡ true → places_in 0 (list_of tree.now heads.now.new) ≡ places_in 0 (list_of tree.now heads.now.old)) }
{
    let olds = fibers_of(alloc, tree, heads.old)?;
    let news = fibers_of(alloc, tree, heads.new)?;
    let matching = match_fibers(alloc, tree, &olds, &news)?;
    let mut kept = vacant_places(alloc, olds.len())?;
    let mut nodes = Vec::with_capacity(alloc, news.len())?;
    'going: for i in 0..news.len() {
        let place = matching.places[i];
        let was = fiber_in(&olds, place);
        let moved = or_moved(displaced, matching.moved[i]);
        let slot = read_slot(alloc, tree, was, news[i], moved, working)?;
        replace(&mut kept, place, slot.old);
        nodes.push(slot.new)?;
    }
    Ok(PrunedLists {
        old: with_gone(alloc, tree, &kept, &olds)?,
        new: nodes,
        same: false,
    })
}

// What stands at a place of the new list, beside the old child that it was, if it was one.
#[cycle(pair)]
fn read_slot(
    alloc: Global,
    tree: &FiberTree<Fiber>,
    old: Option<FiberId>,
    child: Option<FiberId>,
    displaced: bool,
    working: &NumberSet,
) -> Result<Slot, AllocError>
    requires was { IfSome old (IsNode tree.now) }
    requires is { IfSome child (IsNode tree.now) }
    requires made { IfSome child (Makes tree.now.draft) }
    requires alike { AllTakeAlike tree.now.current tree.now.draft }
    ensures { IfOk result (λ s. IsSlot displaced (first_node (list_of tree.now old)) (first_node (list_of tree.now child)) s.old s.new) }
{
    let Some(new) = child else {
        return Ok(Slot {
            old: None,
            new: None,
        });
    };
    match pair_of(tree, old, new) {
        Some(pair) => {
            let nodes = read_kept(alloc, tree, &pair, displaced, working)?;
            Ok(Slot {
                old: Some(nodes.old),
                new: Some(nodes.new),
            })
        }
        None => Ok(Slot {
            old: None,
            new: read_fiber(alloc, tree, new)?,
        }),
    }
}
