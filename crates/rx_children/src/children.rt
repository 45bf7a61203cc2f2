// The fibers of a list of children.
ghost use Rattle.std.specs.Prelude.{◌≡◌, ◌<◌, ◌^◌, ◌∷◌, [], None, Some, true, false, if◌then◌else◌, length, map, slice_get, OnOk, IfOk, IfSome};
ghost use Rattle.std.specs.Option.{option_and_then, option_flatten};
ghost use Rattle.rx_elem.specs.Identity.{old_places};
ghost use Rattle.rx_lists.specs.Shapes.{Holds, IsTop};
ghost use Rattle.rx_links.specs.Drafts.{IsOpen, IsUnused, old_kids};
ghost use Rattle.rx_links.specs.Readers.{list_from};
ghost use Rattle.rx_fiber.specs.Fibers.{as_matched};
ghost use Rattle.rx_fiber.specs.OldLists.{matched};
ghost use Rattle.rx_children.specs.Children.{IsAlone, HasRoomFor, HasAdded, HasMadeFrom};
ghost use Rattle.rx_children.specs.Nodes.{IsBareBeside};

use rx_elem::Element;
use rx_fiber::{Fiber, Origin, Stage, is_fallback, old_children};
use rx_keys::places_of;
use rx_links::{FiberId, FiberTree};
use std::alloc::{AllocError, Global};

// There are few enough children that each has a place.
fn count_places(count: usize) -> Result<(), AllocError>
    ensures { OnOk result (count < 2 ^ 32) }
{
    match u32::try_from(count) {
        Ok(_) => Ok(()),
        Err(_) => Err(AllocError),
    }
}

// The old fiber at a place of an old list.
fn fiber_of(fibers: &[Option<FiberId>], place: Option<u32>) -> Option<FiberId>
    ensures { result ≡ option_and_then (λ p. option_flatten (slice_get fibers.now p)) place }
{
    match fibers.get(place? as usize) {
        Some(fiber) => *fiber,
        None => None,
    }
}

// The old fibers at these places.
fn fibers_at(
    alloc: Global,
    fibers: &[Option<FiberId>],
    places: &[Option<u32>],
) -> Result<Vec<Option<FiberId>>, AllocError>
    ensures { IfOk result (λ v. v.items ≡ map (option_and_then (λ p. option_flatten (slice_get fibers.now p))) places.now) }
{
    places
        .iter()
        .map(|place| fiber_of(fibers, *place))
        .collect(alloc)
}

// For each new child the current fiber of the old child that it is, if it is one.
fn match_fibers(
    alloc: Global,
    tree: &FiberTree<Fiber>,
    elements: &[Element],
    first_old: Option<FiberId>,
) -> Result<Vec<Option<FiberId>>, AllocError>
    requires { IfSome first_old (Holds tree.now.current) }
    ensures few { OnOk result (length elements.now < 2 ^ 32) }
    ensures fibers { IfOk result (λ v. v.items ≡ matched (list_from tree.now.current first_old) elements.now) }
{
    let known = old_children(alloc, tree, first_old, elements.len())?;
    count_places(known.elements.len())?;
    count_places(elements.len())?;
    let places = places_of(alloc, &known.elements, elements)?;
    fibers_at(alloc, &known.fibers, &places)
}

// Makes the fiber of one child in front of those that are made, of which so much is known; `null` has none.
fn make_one(
    tree: &mut FiberTree<Fiber>,
    at: FiberId,
    place: u32,
    element: &Element,
    old: Option<FiberId>,
    origin: Origin,
) -> Result<(), AllocError>
    requires open { IsOpen tree.old.draft at }
    requires old_child { IfSome old (IsTop (old_kids tree.old at)) }
    requires unused { IfSome old (IsUnused tree.old.draft) }
    requires anew { origin.cloned ≡ false }
    ensures added { OnOk result (HasAdded origin tree.old tree.new at place element.now old) }
    ensures current { tree.new.current ≡ tree.old.current }
{
    if element.is_present() {
        let fiber = Fiber::new(place, element.copy()?, Stage::Waiting(origin));
        tree.child(at, old, fiber)?;
    }
    Ok(())
}

// Makes the fibers of children from the last to the first, each for its old one, of which so much is known.
fn make_all(
    tree: &mut FiberTree<Fiber>,
    at: FiberId,
    elements: &[Element],
    olds: &[Option<FiberId>],
    origin: Origin,
) -> Result<(), AllocError>
    requires room { HasRoomFor tree.old at olds.now }
    requires few { length elements.now < 2 ^ 32 }
    requires same { length olds.now ≡ length elements.now }
    requires anew { origin.cloned ≡ false }
    ensures made { OnOk result (HasMadeFrom origin 0 tree.old tree.new at elements.now olds.now) }
    ensures current { tree.new.current ≡ tree.old.current }
{
    let mut place = elements.len();
    'making: while place > 0 {
        place -= 1;
        tree.place_facts();
        make_one(
            tree,
            at,
            place as u32,
            &elements[place],
            olds[place],
            origin,
        )?;
    }
    Ok(())
}

// Makes the fibers of a list of children, which are matched first with those of the old list.
fn make_list(
    alloc: Global,
    tree: &mut FiberTree<Fiber>,
    at: FiberId,
    elements: &[Element],
    first_old: Option<FiberId>,
    visible: bool,
    generation: u32,
) -> Result<(), AllocError>
    requires held { IfSome first_old (Holds tree.old.current) }
    requires beside { IsBareBeside tree.old at first_old }
    ensures made { OnOk result (HasMadeFrom (as_matched visible generation) 0 tree.old tree.new at elements.now (matched (list_from tree.old.current first_old) elements.now)) }
    ensures current { tree.new.current ≡ tree.old.current }
{
    tree.facts();
    let olds = match_fibers(alloc, tree, elements, first_old)?;
    let origin = Origin {
        cloned: false,
        visible,
        generation,
    };
    make_all(tree, at, elements, &olds, origin)
}

// Whether an old list has no place but the first.
fn stands_alone(tree: &FiberTree<Fiber>, first_old: &Option<FiberId>) -> bool
    requires { IfSome first_old.now (Holds tree.now.current) }
    ensures { result ≡ true → IsAlone tree.now.current first_old.now }
{
    tree.facts();
    let Some(id) = *first_old else {
        return true;
    };
    let fiber = tree.value(id);
    fiber.place() == 0 && !is_fallback(fiber.stage()) && tree.next_sibling(id).is_none()
}

// Whether there is one child alone, beside an old list that has no place but the first.
fn is_only(tree: &FiberTree<Fiber>, elements: &[Element], first_old: &Option<FiberId>) -> bool
    requires { IfSome first_old.now (Holds tree.now.current) }
    ensures one { result ≡ true → length elements.now ≡ 1 }
    ensures alone { result ≡ true → IsAlone tree.now.current first_old.now }
{
    elements.len() == 1 && stands_alone(tree, first_old)
}

// Whether an only child is the one of before.
fn is_same_only(old: &Element, new: &Element) -> bool
    ensures { old_places (old.now ∷ []) (new.now ∷ []) ≡ (if result then Some 0 else None) ∷ [] }
{
    if old.key() != new.key() {
        return false;
    }
    new.is_same_kind(old)
}

// The old fiber of an only child, if it is the one of before.
fn match_only(
    tree: &FiberTree<Fiber>,
    element: &Element,
    first_old: Option<FiberId>,
) -> Option<FiberId>
    requires held { IfSome first_old (Holds tree.now.current) }
    requires alone { IsAlone tree.now.current first_old }
    ensures { matched (list_from tree.now.current first_old) (element.now ∷ []) ≡ result ∷ [] }
{
    tree.facts();
    let id = first_old?;
    let is_same = is_same_only(tree.value(id).element(), element);
    is_same.then_some(id)
}

// Makes the fiber of an only child beside an old list of no place but the first: nothing is listed.
fn make_only(
    tree: &mut FiberTree<Fiber>,
    at: FiberId,
    element: &Element,
    first_old: Option<FiberId>,
    visible: bool,
    generation: u32,
) -> Result<(), AllocError>
    requires held { IfSome first_old (Holds tree.old.current) }
    requires beside { IsBareBeside tree.old at first_old }
    requires alone { IsAlone tree.old.current first_old }
    ensures made { OnOk result (HasMadeFrom (as_matched visible generation) 0 tree.old tree.new at (element.now ∷ []) (matched (list_from tree.old.current first_old) (element.now ∷ []))) }
    ensures current { tree.new.current ≡ tree.old.current }
{
    tree.facts();
    tree.place_facts();
    let old = match_only(tree, element, first_old);
    let origin = Origin {
        cloned: false,
        visible,
        generation,
    };
    make_one(tree, at, 0, element, old, origin)
}

// The same for a list that has this child alone.
fn make_first(
    tree: &mut FiberTree<Fiber>,
    at: FiberId,
    elements: &[Element],
    first_old: Option<FiberId>,
    visible: bool,
    generation: u32,
) -> Result<(), AllocError>
    requires held { IfSome first_old (Holds tree.old.current) }
    requires beside { IsBareBeside tree.old at first_old }
    requires one { length elements.now ≡ 1 }
    requires alone { IsAlone tree.old.current first_old }
    ensures made { OnOk result (HasMadeFrom (as_matched visible generation) 0 tree.old tree.new at elements.now (matched (list_from tree.old.current first_old) elements.now)) }
    ensures current { tree.new.current ≡ tree.old.current }
{
    match elements.split_first() {
        Some((element, _)) => make_only(tree, at, element, first_old, visible, generation),
        None => Ok(()),
    }
}

/// Makes the fibers of a list of children below a made fiber that has none: each element that is not `null` gets one, at its
/// place, for the old child of its identity and type in the current list that begins with a fiber, or a new one. They are made
/// from the last to the first (react.dev, Preserving and Resetting State). `visible` tells whether the old ones are shown; the
/// elements are of this generation.
///
/// # Errors
///
/// Only if out of memory, or more children than a list has places. What was made then stays below the fiber.
pub fn make_children(
    alloc: Global,
    tree: &mut FiberTree<Fiber>,
    at: FiberId,
    elements: &[Element],
    first_old: Option<FiberId>,
    visible: bool,
    generation: u32,
) -> Result<(), AllocError>
    requires held { IfSome first_old (Holds tree.old.current) }
    requires beside { IsBareBeside tree.old at first_old }
    ensures made { OnOk result (HasMadeFrom (as_matched visible generation) 0 tree.old tree.new at elements.now (matched (list_from tree.old.current first_old) elements.now)) }
    ensures current { tree.new.current ≡ tree.old.current }
{
    if elements.is_empty() {
        return Ok(());
    }
    if is_only(tree, elements, &first_old) {
        make_first(tree, at, elements, first_old, visible, generation)
    } else {
        make_list(alloc, tree, at, elements, first_old, visible, generation)
    }
}
