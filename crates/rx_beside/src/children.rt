// The children of a fiber, place by place.
ghost use Rattle.std.specs.Prelude.{◌≡◌, true, ℕ, ◌+◌, ◌<◌, ◌++◌, All, None, Some, IfSome, IfOk, OnOk, Option, is_some, length, map};
ghost use Rattle.rx_lists.specs.Shapes.{size};
ghost use Rattle.rx_links.specs.Drafts.{Makes};
ghost use Rattle.rx_links.specs.Readers.{IsIn};
ghost use Rattle.rx_fiber.specs.FiberView.{stage_seen};
ghost use Rattle.rx_fiber.specs.OldLists.{filled};
ghost use Rattle.rx_read.specs.Lists.{list_of};
ghost use Rattle.rx_read.specs.Places.{mark_in, places_in, first_places, first_node};
ghost use Rattle.rx_beside.specs.Children.{IsNode, IsMadeIn};

use rx_fiber::{Fiber, Stage};
use rx_links::{FiberId, FiberTree};
use std::alloc::{AllocError, Global};

// Whether a fiber of this stage stands for a node.
pub(crate) fn is_begun(stage: &Stage) -> bool
    ensures { result ≡ is_some (mark_in (stage_seen stage.now)) }
{
    matches!(stage, Stage::Begun(_))
}

// The next sibling of a fiber that stands for a node: the fiber of a boundary's fallback, right behind that of the boundary, has no
// place of its own.
pub(crate) fn next_node(tree: &FiberTree<Fiber>, id: FiberId) -> Option<FiberId>
    requires { IsIn tree.now id }
    ensures places { (n : ℕ) → places_in n (list_of tree.now (Some id)) ≡ first_places n (list_of tree.now (Some id)) ++ places_in (n + length (first_places n (list_of tree.now (Some id)))) (list_of tree.now result) }
    ensures inside { IfSome result (IsIn tree.now) }
    ensures made { Makes tree.now.draft id → IfSome result (Makes tree.now.draft) }
    ensures lower { size (list_of tree.now result) < size (list_of tree.now (Some id)) }
{
    tree.facts();
    let next = tree.next_sibling(id)?;
    if is_begun(tree.value(next).stage()) {
        Some(next)
    } else {
        tree.next_sibling(next)
    }
}

// Whether a fiber is the last of its list.
pub(crate) fn is_last(tree: &FiberTree<Fiber>, id: FiberId) -> bool
    requires { IsIn tree.now id }
    ensures { result ≡ true → (n : ℕ) → places_in n (list_of tree.now (Some id)) ≡ first_places n (list_of tree.now (Some id)) }
{
    tree.facts();
    tree.next_sibling(id).is_none()
}

// Goes on with so many vacant places.
pub(crate) fn fill<T>(places: &mut Vec<Option<T>>, count: usize) -> Result<(), AllocError>
where
    T: Drop,
    ensures { OnOk result (places.new.items ≡ places.old.items ++ filled count None) }
{
    'filling: for _done in 0..count {
        places.push(None)?;
    }
    Ok(())
}

// Goes on with a fiber at its place, if it stands for a node.
fn add_fiber(
    tree: &FiberTree<Fiber>,
    id: FiberId,
    fibers: &mut Vec<Option<FiberId>>,
) -> Result<(), AllocError>
    requires { IsIn tree.now id }
    ensures places { OnOk result (map (λ o. first_node (list_of tree.now o)) fibers.new.items ≡ map (λ o. first_node (list_of tree.now o)) fibers.old.items ++ first_places (length fibers.old.items) (list_of tree.now (Some id))) }
    ensures nodes { All (λ o. IfSome o (IsNode tree.now)) fibers.old.items → OnOk result (All (λ o. IfSome o (IsNode tree.now)) fibers.new.items) }
    ensures made { (first : Option ℕ) → IsMadeIn tree.now first id → All (λ o. IfSome o (IsMadeIn tree.now first)) fibers.old.items → OnOk result (All (λ o. IfSome o (IsMadeIn tree.now first)) fibers.new.items) }
{
    tree.facts();
    let fiber = tree.value(id);
    if is_begun(fiber.stage()) {
        fill(
            fibers,
            (fiber.place() as usize).saturating_sub(fibers.len()),
        )?;
        fibers.push(Some(id))?;
    }
    Ok(())
}

// The fibers of a list that stand for nodes, place by place.
pub(crate) fn fibers_of(
    alloc: Global,
    tree: &FiberTree<Fiber>,
    first: Option<FiberId>,
) -> Result<Vec<Option<FiberId>>, AllocError>
    requires { IfSome first (IsIn tree.now) }
    ensures places { IfOk result (λ v. map (λ o. first_node (list_of tree.now o)) v.items ≡ places_in 0 (list_of tree.now first)) }
    ensures nodes { IfOk result (λ v. All (λ o. IfSome o (IsNode tree.now)) v.items) }
    ensures made { IfSome first (Makes tree.now.draft) → IfOk result (λ v. All (λ o. IfSome o (IsMadeIn tree.now first)) v.items) }
{
    let mut fibers = Vec::new(alloc);
    let mut next = first;
    'going: while let Some(id) = next {
        add_fiber(tree, id, &mut fibers)?;
        next = next_node(tree, id);
    }
    Ok(fibers)
}
