// What an old node's current fiber and those below it have as a cause to be rendered.
ghost use Rattle.std.specs.Prelude.{◌≡◌, true, false, Some, ◌⊎◌, IfSome, IsSome, option_and_then, option_map};
ghost use Rattle.rx_elem.specs.Trees.{Node, instance_in};
ghost use Rattle.rx_lists.specs.Shapes.{first, Holds};
ghost use Rattle.rx_links.specs.Drafts.{kids_of};
ghost use Rattle.rx_links.specs.Readers.{list_from, value_of};
ghost use Rattle.rx_meaning.specs.Fresh.{Sight};
ghost use Rattle.rx_meaning.specs.Settled.{number_of};
ghost use Rattle.commit_laws.specs.Idle.{IsIdle, IsIdleMark};
ghost use Rattle.rx_fiber.specs.Fibers as fibers;
ghost use Rattle.rx_fiber.specs.FiberView.{stage_seen};
ghost use Rattle.rx_node.specs.MarkView.{mark_seen};
ghost use Rattle.rx_fiber.specs.Reading.{IsOld};
ghost use Rattle.rx_fiber.specs.Subtrees.{IsGathered};
ghost use Rattle.rx_ways.specs.Ways.{Covers, is_way};
ghost use Rattle.rx_hook_store.specs.Store.{kept_hooks};
ghost use Rattle.rx_causes.specs.declared.idle.Turn.TheVariants as turn;
ghost use Rattle.rx_causes.specs.Marks.{begun_mark, keeps_children, mark_at, EachBut, EachFiberBut, IsFreeOver, SomeFiber, is_free, is_passed};
ghost use Rattle.rx_causes.specs.Scenes.{GivesHooks, IsSceneOf, KeepsHooks, TellsCalm};
ghost use Rattle.rx_causes.specs.Hidden.{ForEach, ForEachFiber, instance_at};
ghost use Rattle.rx_causes.specs.Idle.{HasCause, HasCauseAt, HasCauseIn, LeadsAt, HasNoCause, HasNoCauseAt, KeepsTree, Rests, is_anew};

use crate::reading::read_another;
use crate::scene::Scene;
use rx_base::Int;
use rx_fiber::{Fiber, Stage, Subtree};
use rx_hook_store::HookStore;
use rx_links::{FiberId, FiberTree};
use rx_node::Mark;

// Whether a node has a cause to be rendered, by its mark: its instance has work, or it is a hidden boundary.
fn mark_has_cause(mark: &Mark, scene: &Scene, hooks: &HookStore) -> bool
    requires { KeepsHooks (kept_hooks hooks.now) (instance_in (mark_seen mark.now)) }
    ensures none { result ≡ false → HasNoCause (kept_hooks hooks.now) scene.now.lanes scene.now.cut (mark_seen mark.now) }
    ensures some { result ≡ true → HasCause (kept_hooks hooks.now) scene.now.lanes scene.now.cut (mark_seen mark.now) }
{
    match mark {
        Mark::Instance(instance) => match instance.number {
            Some(number) => hooks.has_work(number, scene.lanes, scene.cut),
            None => true,
        },
        Mark::Boundary(state) => state.hides(),
        Mark::Host(_) | Mark::Catch(_) | Mark::Plain => false,
    }
}

// The same of the node of a fiber; a fiber that is not begun has none.
fn has_cause(stage: &Stage, scene: &Scene, hooks: &HookStore) -> bool
    requires { KeepsHooks (kept_hooks hooks.now) (instance_at (stage_seen stage.now)) }
    ensures none { result ≡ false → HasNoCauseAt (kept_hooks hooks.now) scene.now.lanes scene.now.cut (begun_mark (stage_seen stage.now)) }
    ensures some { result ≡ true → HasCauseAt (kept_hooks hooks.now) scene.now.lanes scene.now.cut (begun_mark (stage_seen stage.now)) }
{
    match stage {
        Stage::Begun(mark) => mark_has_cause(mark, scene, hooks),
        _ => false,
    }
}

// Whether the instance of a fiber stands on a way, if it has a number.
fn on_way(stage: &Stage, scene: &Scene) -> Option<bool>
    ensures { result ≡ option_map (is_way scene.now.ways.now) (option_and_then number_of (begun_mark (stage_seen stage.now))) }
{
    match stage {
        Stage::Begun(Mark::Instance(instance)) => Some(scene.ways.has(instance.number?)),
        _ => None,
    }
}

// Whether neither an instance nor a hidden boundary is at or below a fiber that keeps this.
fn is_free(below: Subtree) -> bool
    ensures { result ≡ is_free below }
{
    !(below.instances || below.hides)
}

// How the walk for a cause goes on at a fiber.
enum Turn {
    // The fiber is passed, with all below it.
    Pass,
    // It leads to a cause.
    Cause,
    // It has no cause itself, and what is below it is looked at.
    Below,
}

// Which turn is taken at a fiber. It is passed if neither an instance nor a hidden boundary is at or below it, or its instance stands
// on no way; and it leads to a cause if its instance stands on a way, or it has one itself.
fn turn_at(fiber: &Fiber, scene: &Scene, hooks: &HookStore) -> Turn
    requires { KeepsHooks (kept_hooks hooks.now) (instance_at fiber.now.stage) }
    ensures passed { result ≡ turn.Pass → is_passed (is_way scene.now.ways.now) fiber.now ≡ true }
    ensures leads { result ≡ turn.Cause → LeadsAt (is_way scene.now.ways.now) (kept_hooks hooks.now) scene.now.lanes scene.now.cut (begun_mark fiber.now.stage) }
    ensures none { result ≡ turn.Below → HasNoCauseAt (kept_hooks hooks.now) scene.now.lanes scene.now.cut (begun_mark fiber.now.stage) }
{
    if is_free(fiber.subtree()) {
        return Turn::Pass;
    }
    match on_way(fiber.stage(), scene) {
        Some(false) => Turn::Pass,
        Some(true) => Turn::Cause,
        None if has_cause(fiber.stage(), scene, hooks) => Turn::Cause,
        None => Turn::Below,
    }
}

// Whether a fiber in a current list or below leads to a cause. Those are passed of instances that stand on no way, and such as
// have no instance and no hidden boundary at or below them; and what is below one that leads to a cause is not looked at.
fn any_cause(
    tree: &FiberTree<Fiber>,
    first: Option<FiberId>,
    scene: &Scene,
    hooks: &HookStore,
) -> bool
    requires held { IfSome first (Holds tree.now.current) }
    requires gathered { IsGathered tree.now.current }
    requires kept { ForEachFiber (KeepsHooks (kept_hooks hooks.now)) (list_from tree.now.current first) }
    ensures none { result ≡ false → EachFiberBut (is_way scene.now.ways.now) (HasNoCauseAt (kept_hooks hooks.now) scene.now.lanes scene.now.cut) (list_from tree.now.current first) }
    ensures some { result ≡ true → SomeFiber (LeadsAt (is_way scene.now.ways.now) (kept_hooks hooks.now) scene.now.lanes scene.now.cut) (list_from tree.now.current first) }
{
    tree.facts();
    let mut next = first;
    'walking: while let Some(id) = next {
        let fiber = tree.value(id);
        let found = match turn_at(fiber, scene, hooks) {
            Turn::Pass => false,
            Turn::Cause => true,
            Turn::Below => any_cause(tree, tree.first_child(id), scene, hooks),
        };
        if found {
            return true;
        }
        next = tree.next_sibling(id);
    }
    false
}

// Whether a current fiber or one below it leads to a cause. What is free has none; an instance on a way leads to one, and one on no way
// has none below it, so that its own work alone is asked for.
fn leads_to_cause(tree: &FiberTree<Fiber>, id: FiberId, scene: &Scene, hooks: &HookStore) -> bool
    requires held { Holds tree.now.current id }
    requires gathered { IsGathered tree.now.current }
    requires own { (v : fibers.Fiber) → Some v ≡ value_of tree.now.current id → KeepsHooks (kept_hooks hooks.now) (instance_at v.stage) }
    requires below { ForEachFiber (KeepsHooks (kept_hooks hooks.now)) (list_from tree.now.current (first (kids_of tree.now.current id))) }
    ensures none { result ≡ false → (v : fibers.Fiber) → Some v ≡ value_of tree.now.current id
        → IsFreeOver (is_way scene.now.ways.now) (HasNoCauseAt (kept_hooks hooks.now) scene.now.lanes scene.now.cut) (begun_mark v.stage) (list_from tree.now.current (first (kids_of tree.now.current id))) }
    ensures some { result ≡ true → (v : fibers.Fiber) → Some v ≡ value_of tree.now.current id
        → LeadsAt (is_way scene.now.ways.now) (kept_hooks hooks.now) scene.now.lanes scene.now.cut (begun_mark v.stage)
        ⊎ SomeFiber (LeadsAt (is_way scene.now.ways.now) (kept_hooks hooks.now) scene.now.lanes scene.now.cut) (list_from tree.now.current (first (kids_of tree.now.current id))) }
{
    tree.facts();
    let fiber = tree.value(id);
    if is_free(fiber.subtree()) {
        return false;
    }
    match on_way(fiber.stage(), scene) {
        Some(true) => true,
        Some(false) => has_cause(fiber.stage(), scene, hooks),
        None if has_cause(fiber.stage(), scene, hooks) => true,
        None => any_cause(tree, tree.first_child(id), scene, hooks),
    }
}

// Whether the instance of a fiber read a context that has another value here, or a resource that the render sees in another version;
// a component's place is anew if it has none.
fn is_anew(stage: &Stage, component: bool, scene: &Scene, contexts: &[Int]) -> bool
    ensures { result ≡ is_anew scene.now component contexts.now (instance_at (stage_seen stage.now)) }
{
    match stage {
        Stage::Begun(Mark::Instance(instance)) => read_another(instance, scene, contexts),
        _ => component,
    }
}

/// Whether nothing in the tree of an old node, by its current fiber, has a cause to be rendered here: the node's own instance
/// reads what it read, has no work and stands on no way, no instance below stands on a way, and no boundary there is hidden.
/// Instances on no way are passed, with all below them: if the ways cover the tree, there is no cause there. So is what has no
/// instance and no hidden boundary at or below it, as its fiber keeps (React: `subtreeFlags`). An instance on a way has a cause
/// at it or below, and is looked at no further. It answers false if there is no old node.
pub fn is_idle(
    tree: &FiberTree<Fiber>,
    old: Option<FiberId>,
    component: bool,
    scene: &Scene,
    hooks: &HookStore,
    contexts: &[Int],
) -> bool
    requires held { IfSome old (Holds tree.now.current) }
    requires gathered { IsGathered tree.now.current }
    requires kept { KeepsTree (kept_hooks hooks.now) tree.now.current old }
    ensures there { result ≡ true → IsSome (mark_at tree.now.current old) }
    ensures shown { result ≡ true → keeps_children true (mark_at tree.now.current old) ≡ true }
    ensures idle { result ≡ true → (s : Sight) (x : Node) → IsSceneOf scene.now s → IsOld tree.now.current old (Some x) → ForEach (GivesHooks s (kept_hooks hooks.now)) x → Covers (is_way scene.now.ways.now) (IsIdleMark s) x → IsIdle s x }
    ensures rest { result ≡ true → (x : Node) → IsOld tree.now.current old (Some x) → EachBut (is_way scene.now.ways.now) (Rests (kept_hooks hooks.now) scene.now.lanes scene.now.cut) x }
    ensures calm { result ≡ true → component ≡ true → TellsCalm scene.now (kept_hooks hooks.now) contexts.now (option_and_then instance_in (mark_at tree.now.current old)) true }
    ensures cause { result ≡ false → HasCauseIn scene.now (kept_hooks hooks.now) contexts.now component tree.now.current old }
{
    tree.facts();
    match old {
        Some(id) => {
            let stage = tree.value(id).stage();
            !leads_to_cause(tree, id, scene, hooks) && !is_anew(stage, component, scene, contexts)
        }
        None => false,
    }
}
