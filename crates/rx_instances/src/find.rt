// The instance that a path leads to.
ghost use Rattle.std.specs.Prelude.{◌≡◌, ◌<◌, ℕ, suc, true, None, Option, Some, [], ◌∷◌, IfSome, if◌then◌else◌, length, option_map, option_and_then, slice_get, take};
ghost use Rattle.std.specs.Option.{option_copied};
ghost use Rattle.commit_laws.specs.HiddenWaits.{IfNumbered};
ghost use Rattle.rx_elem.specs.Trees as trees;
ghost use Rattle.rx_elem.specs.Trees.{mark_of};
ghost use Rattle.rx_elem.specs.Spots.{Mounted};
ghost use Rattle.rx_lists.specs.Shapes.{Holds};
ghost use Rattle.rx_links.specs.Readers.{list_from};
ghost use Rattle.rx_fiber.specs.OldLists.{primary_list};
ghost use Rattle.rx_fiber.specs.Reading.{IsOld, IsTreeOf};
ghost use Rattle.rx_fiber.specs.Subtrees.{IsGathered};
ghost use Rattle.rx_meaning.specs.Settled.{HasOwnNumbers, number_of};
ghost use Rattle.rx_model.specs.State.{instance_found};
ghost use Rattle.rx_node.specs.MarkView.{instance_seen};
ghost use Rattle.rx_instances.specs.Nearest.{found_as};
ghost use Rattle.rx_instances.specs.NearFibers.{Counts, IsFoundAt, found_by, instance_at, near_fibers, near_first, told_in};
ghost use Rattle.rx_ways.specs.Walk.{hinted};
ghost use Rattle.rx_ways.specs.Ways.{is_way};

use rx_base::Name;
use rx_check::Checked;
use rx_dispatch::name_of;
use rx_fiber::{Fiber, Stage, old_primary};
use rx_links::{FiberId, FiberTree};
use rx_names::same_bytes;
use rx_node::{Instance, Mark};
use rx_ways::Ways;

/// An instance of the committed tree: its number; its component, by its number in the order of the text; and its current fiber.
#[derive(Clone, Copy)]
pub struct Found {
    pub number: u64,
    pub component: u32,
    pub fiber: FiberId,
}

// The instance of which a fiber is, if it is of one.
pub(crate) fn instance_of(fiber: &Fiber) -> Option<&Instance>
    ensures { option_map instance_seen (option_copied result) ≡ instance_at fiber.now.stage }
{
    match fiber.stage() {
        Stage::Begun(Mark::Instance(instance)) => Some(instance),
        _ => None,
    }
}

// What is told of a fiber that is of an instance, from its first commit on.
fn told(id: FiberId, fiber: &Fiber) -> Option<Found>
    ensures { result ≡ option_and_then (found_by id) (instance_at fiber.now.stage) }
{
    let instance = instance_of(fiber)?;
    Some(Found {
        number: instance.number?,
        component: instance.parts.component,
        fiber: id,
    })
}

// Finds this fiber if it counts and none is left to come before it.
fn count(id: FiberId, counts: bool, left: &mut u64) -> Option<FiberId>
    ensures { Counts (if counts then (id ∷ []) else []) result left.old left.new }
{
    if !counts {
        return None;
    }
    if *left == 0 {
        return Some(id);
    }
    *left -= 1;
    None
}

// Looks at a fiber itself if it is of an instance, and else for the nearest ones below it. It is passed if no instance is
// at or below it.
#[cycle(looking)]
fn look_at(
    checked: &Checked,
    tree: &FiberTree<Fiber>,
    id: FiberId,
    name: &Name,
    left: &mut u64,
) -> Option<FiberId>
    requires held { Holds tree.now.current id }
    requires gathered { IsGathered tree.now.current }
    ensures held { IfSome result (Holds tree.now.current) }
    ensures counts { Counts (near_first checked.now name.now (list_from tree.now.current (Some id))) result left.old left.new }
{
    tree.facts();
    let fiber = tree.value(id);
    if !fiber.subtree().instances {
        return None;
    }
    match instance_of(fiber) {
        Some(instance) => {
            let named = name_of(checked, instance.parts.component);
            let counts = same_bytes(named.as_bytes(), name.text().as_bytes());
            count(id, counts, left)
        }
        None => look_in(checked, tree, tree.first_child(id), name, left),
    }
}

// Looks for an instance of a component of this name among the nearest ones in a list of current fibers: the one that so many
// come before. The fiber of a fallback comes right behind that of its boundary, so that tree order is the order of the links.
#[cycle(looking)]
fn look_in(
    checked: &Checked,
    tree: &FiberTree<Fiber>,
    first: Option<FiberId>,
    name: &Name,
    left: &mut u64,
) -> Option<FiberId>
    requires held { IfSome first (Holds tree.now.current) }
    requires gathered { IsGathered tree.now.current }
    ensures held { IfSome result (Holds tree.now.current) }
    ensures counts { Counts (near_fibers checked.now name.now (list_from tree.now.current first)) result left.old left.new }
{
    tree.facts();
    let mut next = first;
    'siblings: while let Some(id) = next {
        if let Some(found) = look_at(checked, tree, id, name, left) {
            return Some(found);
        }
        next = tree.next_sibling(id);
    }
    None
}

// The fiber of the instance that the first part of a path leads to.
fn first(checked: &Checked, tree: &FiberTree<Fiber>, part: &(Name, u64)) -> Option<FiberId>
    requires gathered { IsGathered tree.now.current }
    ensures held { IfSome result (Holds tree.now.current) }
    ensures at { result ≡ slice_get (near_fibers checked.now part.now.0 tree.now.current) part.now.1 }
{
    tree.facts();
    let (name, number) = part;
    let mut left = *number;
    look_in(checked, tree, tree.current(), name, &mut left)
}

// The fiber of the instance that a further part of a path leads to, from that of the one before it.
fn next(
    checked: &Checked,
    tree: &FiberTree<Fiber>,
    id: FiberId,
    part: &(Name, u64),
) -> Option<FiberId>
    requires held { Holds tree.now.current id }
    requires gathered { IsGathered tree.now.current }
    ensures held { IfSome result (Holds tree.now.current) }
    ensures at { result ≡ slice_get (near_fibers checked.now part.now.0 (primary_list (list_from tree.now.current (Some id)))) part.now.1 }
{
    let (name, number) = part;
    let mut left = *number;
    look_in(checked, tree, old_primary(tree, Some(id)), name, &mut left)
}

// Puts the instance of a fiber on the ways, from its first commit on, unless it is known to be on one.
fn put(tree: &FiberTree<Fiber>, id: FiberId, known: &Ways, sent: &mut Ways)
    requires { Holds tree.now.current id }
    ensures here { (x : trees.Node) (n : ℕ) → IsOld tree.now.current (Some id) (Some x) → number_of (mark_of x) ≡ Some n → hinted known.now sent.new n ≡ true }
    ensures others { (n : ℕ) → is_way sent.old n ≡ true → is_way sent.new n ≡ true }
{
    let Some(found) = told(id, tree.value(id)) else {
        return;
    };
    if !known.has(found.number) {
        sent.add(found.number);
    }
}

/// The instance that a path leads to: from the root, each part names the so-many-th instance of a component right below the
/// one before, counted from 0 in tree order. It goes over the current fibers, and tells the one of the instance. It puts each
/// instance on the way, itself too, that is not known to be on one, on the ways that updates were sent along. A fiber that has
/// no instance at or below it is passed, with all below it (React: `subtreeFlags`). It takes at most time in proportion to what
/// is rendered by the bodies of the instances on the way, however large the tree is.
pub fn find_instance(
    checked: &Checked,
    tree: &FiberTree<Fiber>,
    path: &[(Name, u64)],
    known: &Ways,
    sent: &mut Ways,
) -> Option<Found>
    requires gathered { IsGathered tree.now.current }
    ensures found { (y : Option trees.Node) (next : ℕ) → IsTreeOf y tree.now.current → IfNumbered y → HasOwnNumbers next y
        → option_map told_in result ≡ option_map found_as (instance_found checked.now y path.now) }

    // Its fiber is the current one of the node that the path leads to.
    ensures fiber { (y : Option trees.Node) → IsTreeOf y tree.now.current → IfSome result (IsFoundAt checked.now y path.now tree.now.current) }
    ensures grows { (n : ℕ) → is_way sent.old n ≡ true → is_way sent.new n ≡ true }

    // Also if the whole path leads nowhere, each instance is put or known that its first parts lead to.
    ensures way { (y : Option trees.Node) (next k : ℕ) (m : Mounted) → IsTreeOf y tree.now.current → IfNumbered y → HasOwnNumbers next y → k < length path.now
        → instance_found checked.now y (take (suc k) path.now) ≡ Some m → hinted known.now sent.new m.number ≡ true }
{
    tree.facts();
    let (part, rest) = path.split_first()?;
    let mut id = first(checked, tree, part)?;
    put(tree, id, known, sent);
    'walking: for part in rest {
        id = next(checked, tree, id, part)?;
        put(tree, id, known, sent);
    }
    told(id, tree.value(id))
}
