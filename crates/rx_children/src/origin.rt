// What is known of a place's fiber beside the current one, and whether it takes the old children over.
ghost use Rattle.std.specs.Prelude.{◌≡◌, ◌&&◌, ℕ, true, false, not, Some, IfSome, IsSome, option_and_then};
ghost use Rattle.std.specs.Option.{option_map_or};
ghost use Rattle.rx_elem.specs.Elements.{kind_of, same_kind};
ghost use Rattle.rx_elem.specs.Trees.{Node, instance_in, is_hidden};
ghost use Rattle.rx_ctx.specs.Contexts.{values_at};
ghost use Rattle.rx_lists.specs.Shapes.{Holds};
ghost use Rattle.rx_links.specs.Drafts.{old_of};
ghost use Rattle.rx_links.specs.Readers.{made_value_of};
ghost use Rattle.rx_meaning.specs.Fresh.{Contexts, Sight};
ghost use Rattle.commit_laws.specs.Idle.{IsIdle, IsIdleMark};
ghost use Rattle.rx_fiber.specs.Fibers as fibers;
ghost use Rattle.rx_fiber.specs.Reading.{IsOld};
ghost use Rattle.rx_fiber.specs.Subtrees.{IsGathered, subtree_at};
ghost use Rattle.rx_fiber.specs.Stood.{gave, gives_another};
ghost use Rattle.rx_fiber.specs.Surround.{IsElementOf};
ghost use Rattle.rx_ways.specs.Ways.{Covers, is_way};
ghost use Rattle.rx_hook_store.specs.Store.{kept_hooks};
ghost use Rattle.rx_causes.specs.Marks.{EachBut, keeps_children, mark_at};
ghost use Rattle.rx_causes.specs.Scenes.{GivesHooks, IsSceneOf, TellsCalm};
ghost use Rattle.rx_causes.specs.Hidden.{ForEach};
ghost use Rattle.rx_causes.specs.Idle.{KeepsTree, Rests};
ghost use Rattle.rx_causes.specs.Reads.{ContextsHold, VersionsHold};
ghost use Rattle.rx_children.specs.Nodes.{IsBareAt};
ghost use Rattle.rx_children.specs.Origins.{HasCauseToBegin, KnowsClone, TellsAgain, TellsSteady};

use crate::kind::{given_in, same_given};
use crate::node::keeps_children;
use rx_base::Int;
use rx_causes::{Scene, is_idle, reads_nothing, uses_nothing};
use rx_ctx::ContextStack;
use rx_elem::Element;
use rx_fiber::{Fiber, hides};
use rx_hook_store::HookStore;
use rx_links::{FiberId, FiberTree};

// Whether an element is equal to that of the current fiber for which a place's fiber was made.
fn is_equal(tree: &FiberTree<Fiber>, at: FiberId, element: &Element) -> bool
    requires { IsBareAt tree.now at }
    ensures same { result ≡ true → IsElementOf tree.now.current (old_of tree.now.draft at) element.now }
    ensures all { IsElementOf tree.now.current (old_of tree.now.draft at) element.now → result ≡ true }
{
    tree.place_facts();
    tree.facts();
    match tree.alternate(at) {
        Some(old) => element.same(tree.value(old).element()),
        None => false,
    }
}

/// Whether the element of a place's fiber is that of the current fiber for which it was made, given again: no body on the way to
/// it was evaluated, or each gave again what it was given, as a component gives its `children`. An equal one that a body made
/// anew is another, unless it is a component's (`component`): that is compared by value, as if each were declared by `memo`
/// (react.dev, memo).
pub fn is_again(tree: &FiberTree<Fiber>, at: FiberId, component: bool) -> bool
    requires bare { IsBareAt tree.now at }
    requires clone { KnowsClone tree.now at }
    ensures { (v : fibers.Fiber) → Some v ≡ made_value_of tree.now.draft at → TellsAgain component tree.now.current (old_of tree.now.draft at) v result }
{
    tree.place_facts();
    let fiber = tree.value(at);
    if fiber.is_cloned() {
        return true;
    }
    if !component && fiber.generation() != 0 {
        return false;
    }
    is_equal(tree, at, fiber.element())
}

/// Whether a place is that of a hidden boundary, and its element is given again or equal to the current one (react.dev,
/// Suspense): it is not tried again only because what is around it was evaluated.
pub fn is_hidden_again(tree: &FiberTree<Fiber>, at: FiberId, element: &Element, again: bool) -> bool
    requires bare { IsBareAt tree.now at }
    requires again { again ≡ true → IsElementOf tree.now.current (old_of tree.now.draft at) element.now }
    ensures same { result ≡ true → IsElementOf tree.now.current (old_of tree.now.draft at) element.now }
    ensures all { IsElementOf tree.now.current (old_of tree.now.draft at) element.now → keeps_children true (mark_at tree.now.current (old_of tree.now.draft at)) ≡ false → result ≡ true }
{
    tree.place_facts();
    if keeps_children(tree, tree.alternate(at), true) {
        return false;
    }
    if again {
        return true;
    }
    is_equal(tree, at, element)
}

// What the current fiber gives for which a place's fiber was made, if it is there.
fn gave(tree: &FiberTree<Fiber>, at: FiberId) -> Option<(u32, Int)>
    requires { IsBareAt tree.now at }
    ensures { result ≡ gave tree.now.current (old_of tree.now.draft at) }
{
    tree.place_facts();
    tree.facts();
    match tree.alternate(at) {
        Some(old) => given_in(tree.value(old).element()),
        None => None,
    }
}

/// Whether an element gives a context another value than the current fiber for which a place's fiber was made, or there is none
/// that gives it one.
pub fn gives_another(tree: &FiberTree<Fiber>, at: FiberId, element: &Element) -> bool
    requires { IsBareAt tree.now at }
    ensures { result ≡ gives_another tree.now.current (old_of tree.now.draft at) element.now }
{
    !same_given(given_in(element), gave(tree, at))
}

// Whether an element is of the kind of the current fiber's. They are not compared if it is known to be that one (`again`).
fn is_of_kind(again: bool, element: &Element, current: &Element) -> bool
    requires { again ≡ true → element.now ≡ current.now }
    ensures { result ≡ same_kind (kind_of element.now) (kind_of current.now) }
{
    if again && element.is_present() {
        true
    } else {
        element.is_same_kind(current)
    }
}

/// Whether a place is steady: its current fiber is shown, is of the kind of its element, and hides nothing. Then the children of
/// that one are shown, and the children of the place stand below providers of the same contexts. Kinds are not compared if the element
/// is known to be that of the current fiber (`again`).
pub fn is_steady(tree: &FiberTree<Fiber>, at: FiberId, again: bool) -> bool
    requires bare { IsBareAt tree.now at }
    requires again { (v : fibers.Fiber) → Some v ≡ made_value_of tree.now.draft at → again ≡ true → IsElementOf tree.now.current (old_of tree.now.draft at) v.element }
    ensures { (v : fibers.Fiber) → Some v ≡ made_value_of tree.now.draft at → TellsSteady tree.now.current (old_of tree.now.draft at) v result }
{
    tree.place_facts();
    tree.facts();
    let fiber = tree.value(at);
    match tree.alternate(at) {
        Some(old) => {
            let current = tree.value(old);
            fiber.is_visible()
                && !hides(current.stage())
                && is_of_kind(again, fiber.element(), current.element())
        }
        None => false,
    }
}

// Whether what is read of the contexts at or below an old node is the same: it is shown and no context has another value there, or
// nothing there reads one.
fn reads_the_same(tree: &FiberTree<Fiber>, old: Option<FiberId>, stood: bool) -> bool
    requires held { IfSome old (Holds tree.now.current) }
    requires gathered { IsGathered tree.now.current }
    requires shown { option_map_or is_hidden (mark_at tree.now.current old) false ≡ false }
    ensures holds { result ≡ true → stood ≡ false → (cs : Contexts) (x : Node) → IsOld tree.now.current old (Some x) → ContextsHold cs x }
    ensures other { result ≡ false → (stood ≡ false) × ((subtree_at tree.now.current old).reads ≡ true) }
{
    stood || reads_nothing(tree, old)
}

// Whether what is read of the resources there is the same: it stood so, and no resource has another version, or nothing there
// reads one.
fn uses_the_same(tree: &FiberTree<Fiber>, old: Option<FiberId>, stood: bool, scene: &Scene) -> bool
    requires held { IfSome old (Holds tree.now.current) }
    requires gathered { IsGathered tree.now.current }
    requires shown { option_map_or is_hidden (mark_at tree.now.current old) false ≡ false }
    ensures holds { result ≡ true → (stood && not scene.now.refreshes) ≡ false → (version : ℕ → ℕ) (x : Node) → IsOld tree.now.current old (Some x) → VersionsHold version x }
    ensures other { result ≡ false → ((stood && not scene.now.refreshes) ≡ false) × ((subtree_at tree.now.current old).uses ≡ true) }
{
    (stood && !scene.refreshes) || uses_nothing(tree, old)
}

/// Whether a fiber takes over the old children: its element is given again, nothing in the tree of its old node has a cause to be
/// rendered, and what is read there is the same: it is shown and no context has another value there (`stood`), or nothing there reads
/// a context; and it stood so, and no resource has another version, or nothing there reads a resource.
pub fn takes_over(
    tree: &FiberTree<Fiber>,
    at: FiberId,
    again: bool,
    stood: bool,
    component: bool,
    scene: &Scene,
    hooks: &HookStore,
    contexts: &ContextStack,
) -> bool
    requires bare { IsBareAt tree.now at }
    requires gathered { IsGathered tree.now.current }
    requires kept { KeepsTree (kept_hooks hooks.now) tree.now.current (old_of tree.now.draft at) }
    ensures again { result ≡ true → again ≡ true }
    ensures there { result ≡ true → IsSome (mark_at tree.now.current (old_of tree.now.draft at)) }
    ensures shown { result ≡ true → keeps_children true (mark_at tree.now.current (old_of tree.now.draft at)) ≡ true }
    ensures idle { result ≡ true → (s : Sight) (x : Node) → IsSceneOf scene.now s → IsOld tree.now.current (old_of tree.now.draft at) (Some x) → ForEach (GivesHooks s (kept_hooks hooks.now)) x → Covers (is_way scene.now.ways.now) (IsIdleMark s) x → IsIdle s x }
    ensures rest { result ≡ true → (x : Node) → IsOld tree.now.current (old_of tree.now.draft at) (Some x) → EachBut (is_way scene.now.ways.now) (Rests (kept_hooks hooks.now) scene.now.lanes scene.now.cut) x }
    ensures reads { result ≡ true → stood ≡ false → (x : Node) → IsOld tree.now.current (old_of tree.now.draft at) (Some x) → ContextsHold (values_at contexts.now) x }
    ensures uses { result ≡ true → (stood && not scene.now.refreshes) ≡ false → (version : ℕ → ℕ) (x : Node) → IsOld tree.now.current (old_of tree.now.draft at) (Some x) → VersionsHold version x }
    ensures calm { result ≡ true → component ≡ true → TellsCalm scene.now (kept_hooks hooks.now) (values_at contexts.now) (option_and_then instance_in (mark_at tree.now.current (old_of tree.now.draft at))) true }
    ensures cause { again ≡ true → result ≡ false → HasCauseToBegin scene.now (kept_hooks hooks.now) (values_at contexts.now) component stood tree.now.current (old_of tree.now.draft at) }
{
    if !again {
        return false;
    }
    tree.place_facts();
    if !is_idle(
        tree,
        tree.alternate(at),
        component,
        scene,
        hooks,
        contexts.values(),
    ) {
        return false;
    }
    if !reads_the_same(tree, tree.alternate(at), stood) {
        return false;
    }
    uses_the_same(tree, tree.alternate(at), stood, scene)
}
