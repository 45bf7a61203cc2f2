// A boundary that is hidden in the committed tree may wait still.
ghost use Rattle.std.specs.Prelude.{◌≡◌, ◌<◌, ℕ, true, false, Option, Some, None, IfSome, slice_index_or};
ghost use Rattle.rx_base.specs.Awaits.{Awaits as AwaitsSeen, has, resource_limit};
ghost use Rattle.rx_susp.specs.declared.boundary.BoundaryState.TheVariants.{Hidden};
ghost use Rattle.rx_elem.specs.Trees.{Node, children_of, mark_of, of_boundary};
ghost use Rattle.rx_lists.specs.Shapes.{Holds};
ghost use Rattle.rx_links.specs.Readers.{list_from};
ghost use Rattle.rx_meaning.specs.Fresh.{Sight};
ghost use Rattle.rx_fiber.specs.FiberView.{stage_seen};
ghost use Rattle.rx_fiber.specs.Reading.{IsOld};
ghost use Rattle.rx_hook_store.specs.Store.{kept_hooks};
ghost use Rattle.rx_causes.specs.Marks.{begun_mark, mark_at};
ghost use Rattle.rx_causes.specs.Scenes.{IsSceneOf, KeepsHooks, TellsNews, number_in};
ghost use Rattle.rx_causes.specs.Hidden.{ForEachFiber, ForEachIn, ForSomeFiber, GivesHooksIn, HasCauseToTry, HasNews, HasNoNews, HasValueOf, KeepsOld, WaitsStill, instance_at};

use crate::scene::Scene;
use rx_base::{Awaits, Int};
use rx_fiber::{Fiber, Stage, old_primary};
use rx_hook_store::HookStore;
use rx_links::{FiberId, FiberTree};
use rx_node::Mark;
use rx_susp::BoundaryState;

// Whether one of some resources has a value; a program names no more than 64.
fn has_value(awaits: Awaits, resources: &[Option<Int>]) -> bool
    ensures none { result ≡ false → (r : ℕ) → r < resource_limit → has awaits r ≡ true → slice_index_or resources.now r None ≡ None }
    ensures some { result ≡ true → HasValueOf resources.now awaits }
{
    'resolving: for resource in 0..64 {
        if awaits.has(resource) && matches!(resources.get(resource as usize), Some(Some(_))) {
            return true;
        }
    }
    false
}

// The number of the instance of a fiber, if it is one of a component.
fn number_of(stage: &Stage) -> Option<u64>
    ensures { result ≡ number_in (instance_at (stage_seen stage.now)) }
{
    match stage {
        Stage::Begun(mark) => mark.instance_number(),
        _ => None,
    }
}

// Whether the instance of a fiber has news.
fn has_news(stage: &Stage, scene: &Scene, hooks: &HookStore) -> bool
    requires { KeepsHooks (kept_hooks hooks.now) (instance_at (stage_seen stage.now)) }
    ensures none { result ≡ false → HasNoNews (kept_hooks hooks.now) scene.now.lanes scene.now.cut (instance_at (stage_seen stage.now)) }
    ensures some { result ≡ true → HasNews (kept_hooks hooks.now) scene.now.lanes scene.now.cut (instance_at (stage_seen stage.now)) }
{
    match number_of(stage) {
        Some(number) => hooks.has_news(number, scene.lanes, scene.cut),
        None => false,
    }
}

// Whether an instance in a current list or below has news.
fn any_news(
    tree: &FiberTree<Fiber>,
    first: Option<FiberId>,
    scene: &Scene,
    hooks: &HookStore,
) -> bool
    requires held { IfSome first (Holds tree.now.current) }
    requires kept { ForEachFiber (KeepsHooks (kept_hooks hooks.now)) (list_from tree.now.current first) }
    ensures none { result ≡ false → ForEachFiber (HasNoNews (kept_hooks hooks.now) scene.now.lanes scene.now.cut) (list_from tree.now.current first) }
    ensures some { result ≡ true → ForSomeFiber (HasNews (kept_hooks hooks.now) scene.now.lanes scene.now.cut) (list_from tree.now.current first) }
{
    tree.facts();
    let mut next = first;
    'walking: while let Some(id) = next {
        if has_news(tree.value(id).stage(), scene, hooks)
            || any_news(tree, tree.first_child(id), scene, hooks)
        {
            return true;
        }
        next = tree.next_sibling(id);
    }
    false
}

// What a boundary's fiber waits for, if the boundary is hidden.
fn awaits_of(stage: &Stage) -> Option<Awaits>
    ensures hidden { IfSome result (λ a. begun_mark (stage_seen stage.now) ≡ Some (of_boundary (Hidden a))) }
    ensures none { result ≡ None → (a : AwaitsSeen) → begun_mark (stage_seen stage.now) ≡ Some (of_boundary (Hidden a)) → ⊥ }
{
    match stage {
        Stage::Begun(Mark::Boundary(BoundaryState::Hidden(awaits))) => Some(*awaits),
        _ => None,
    }
}

/// What an old boundary waits for, by its current fiber, if it is hidden and waits still: none of it has a value, no resource has
/// another version than the last commit showed, nothing may throw anew, and nothing new has come for what the boundary keeps. Then
/// its children would wait for the same again (react.dev, Suspense).
pub fn waits_still(
    tree: &FiberTree<Fiber>,
    old: Option<FiberId>,
    scene: &Scene,
    hooks: &HookStore,
) -> Option<Awaits>
    requires held { IfSome old (Holds tree.now.current) }
    requires kept { KeepsOld (kept_hooks hooks.now) tree.now.current old }
    ensures hidden { IfSome result (λ a. mark_at tree.now.current old ≡ Some (of_boundary (Hidden a))) }
    ensures waits { IfSome result (λ a. (s : Sight) (x : Node) → IsSceneOf scene.now s → IsOld tree.now.current old (Some x) → GivesHooksIn s (kept_hooks hooks.now) (children_of x) → WaitsStill s a x) }
    ensures news { IfSome result (λ a. (x : Node) → IsOld tree.now.current old (Some x) → ForEachIn (λ i. TellsNews (kept_hooks hooks.now) scene.now.lanes scene.now.cut i false) (children_of x)) }
    // It answers nothing only if there is a cause to try the children again.
    ensures tries { result ≡ None → (x : Node) (a : AwaitsSeen) → IsOld tree.now.current old (Some x) → mark_of x ≡ of_boundary (Hidden a) → HasCauseToTry scene.now (kept_hooks hooks.now) a x }
{
    if scene.refreshes {
        return None;
    }
    if scene.throws {
        return None;
    }
    tree.facts();
    let id = old?;
    let awaits = awaits_of(tree.value(id).stage())?;
    let _accepted = scene.checked.program();
    let kept = old_primary(tree, Some(id));
    if has_value(awaits, scene.resources) || any_news(tree, kept, scene, hooks) {
        None
    } else {
        Some(awaits)
    }
}
