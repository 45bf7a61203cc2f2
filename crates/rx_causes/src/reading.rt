// What instances read of the contexts and the resources.
ghost use Rattle.std.specs.Prelude.{◌≡◌, ℕ, true, false, not, Some, IfSome, nat_eq, slice_index_or};
ghost use Rattle.std.specs.Option.{option_map_or};
ghost use Rattle.rx_elem.specs.Trees.{Node, is_hidden};
ghost use Rattle.rx_lists.specs.Shapes.{Holds};
ghost use Rattle.rx_meaning.specs.Fresh.{Contexts};
ghost use Rattle.rx_meaning.specs.Settled.{read_anew, refreshed};
ghost use Rattle.rx_meaning.specs.Touched.{is_read_anew};
ghost use Rattle.rx_node.specs.MarkView.{instance_seen};
ghost use Rattle.rx_fiber.specs.Reading.{IsOld};
ghost use Rattle.rx_fiber.specs.Subtrees.{IsGathered, subtree_at};
ghost use Rattle.rx_causes.specs.Marks.{mark_at};
ghost use Rattle.rx_causes.specs.Scenes.{read_another};
ghost use Rattle.rx_causes.specs.Reads.{ContextsHold, VersionsHold};

use crate::scene::Scene;
use rx_base::Int;
use rx_elem::{ContextRead, VersionRead};
use rx_fiber::Fiber;
use rx_links::{FiberId, FiberTree};
use rx_node::Instance;

// Whether a context has another value than the one that was read.
fn is_read_anew(read: &ContextRead, contexts: &[Int]) -> bool
    ensures { result ≡ is_read_anew contexts.now read.now }
{
    match contexts.get(read.context as usize) {
        Some(value) => !value.same(read.value),
        None => true,
    }
}

// Whether one of these contexts has another value than the one that was read. One that there is no value of counts as changed.
fn read_anew(reads: &[ContextRead], contexts: &[Int]) -> bool
    ensures { result ≡ read_anew contexts.now reads.now }
{
    reads.iter().any(|read| is_read_anew(read, contexts))
}

// Whether a resource has another version than the one that was read.
fn is_refreshed(read: &VersionRead, versions: &[u64]) -> bool
    ensures { result ≡ not (nat_eq (slice_index_or versions.now read.now.resource 0) read.now.version) }
{
    match versions.get(read.resource as usize) {
        Some(version) => *version != read.version,
        None => read.version != 0,
    }
}

// Whether one of these resources has another version than the one that was read. One that there is no version of is in its first.
fn refreshed(reads: &[VersionRead], versions: &[u64]) -> bool
    ensures { result ≡ refreshed (λ r. slice_index_or versions.now r 0) reads.now }
{
    reads.iter().any(|read| is_refreshed(read, versions))
}

/// Whether an instance read a context that has another value here, or a resource that the render sees in another version.
pub fn read_another(instance: &Instance, scene: &Scene, contexts: &[Int]) -> bool
    ensures { result ≡ read_another scene.now contexts.now (instance_seen instance.now) }
{
    read_anew(&instance.parts.reads, contexts)
        || refreshed(&instance.parts.versions, scene.versions)
}

/// Whether no instance at or below the node of a current fiber reads a context, what a hidden boundary below keeps included, by
/// what is kept on the fiber. It answers true if there is none.
pub fn reads_nothing(tree: &FiberTree<Fiber>, old: Option<FiberId>) -> bool
    requires held { IfSome old (Holds tree.now.current) }
    requires gathered { IsGathered tree.now.current }
    requires shown { option_map_or is_hidden (mark_at tree.now.current old) false ≡ false }
    ensures some { result ≡ false → (subtree_at tree.now.current old).reads ≡ true }
    ensures holds { result ≡ true → (cs : Contexts) (x : Node) → IsOld tree.now.current old (Some x) → ContextsHold cs x }
{
    tree.facts();
    match old {
        Some(id) => !tree.value(id).subtree().reads,
        None => true,
    }
}

/// Whether no instance at or below the node of a current fiber reads a resource, what a hidden boundary below keeps included, by
/// what is kept on the fiber. It answers true if there is none.
pub fn uses_nothing(tree: &FiberTree<Fiber>, old: Option<FiberId>) -> bool
    requires held { IfSome old (Holds tree.now.current) }
    requires gathered { IsGathered tree.now.current }
    requires shown { option_map_or is_hidden (mark_at tree.now.current old) false ≡ false }
    ensures some { result ≡ false → (subtree_at tree.now.current old).uses ≡ true }
    ensures holds { result ≡ true → (version : ℕ → ℕ) (x : Node) → IsOld tree.now.current old (Some x) → VersionsHold version x }
{
    tree.facts();
    match old {
        Some(id) => !tree.value(id).subtree().uses,
        None => true,
    }
}
