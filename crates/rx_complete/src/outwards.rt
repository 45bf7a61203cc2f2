// A wait goes outwards, or what a body throws.
ghost use Rattle.std.specs.Prelude.{◌≡◌, ℕ, ℤ, List, Option, Some, None, MatchOption};
ghost use Rattle.rx_links.specs.Drafts.{Draft, taken, made};
ghost use Rattle.rx_links.specs.Places.{Around, placed};
ghost use Rattle.rx_lists.specs.Shapes.{none};
ghost use Rattle.rx_meaning.specs.Fresh.{waits};
ghost use Rattle.rx_meaning.specs.Cursor.{Frame, ended, unwind, unwind_throw};
ghost use Rattle.rx_fiber.specs.FiberView.{stage_seen};
ghost use Rattle.rx_fiber.specs.Unwound.{IsWithin, is_guarding, is_trying, passed_on, IsCaughtAt, IsLeftAt};
ghost use Rattle.rx_complete.specs.Ends.{IsGuardedAt, IsOpenBelow, Outer, nearest, nearest_catch};

use crate::completing::leave;
use rx_base::Awaits;
use rx_ctx::ContextStack;
use rx_fiber::{Fiber, Stage};
use rx_links::{FiberId, FiberTree};
use rx_node::Mark;

// What is waited for outside of a fiber of this stage.
fn past(stage: &Stage, awaits: Awaits) -> Awaits
    ensures { result ≡ passed_on (stage_seen stage.now) awaits }
{
    match stage {
        Stage::Begun(Mark::Boundary(state)) if state.hides() => state.awaits().union(awaits),
        Stage::Fallback(own) => own.union(awaits),
        _ => awaits,
    }
}

fn tries(stage: &Stage) -> bool
    ensures { result ≡ is_trying (stage_seen stage.now) }
{
    matches!(stage, Stage::Trying(_))
}

// The nearest boundary above a fiber that tries its children.
fn find_boundary(
    tree: &FiberTree<Fiber>,
    at: FiberId,
    contexts: &mut ContextStack,
    awaits: &mut Awaits,
) -> Option<FiberId>
    requires { IsOpenBelow tree.now contexts.old at }
    ensures left { (levels : ℕ) (fs : List Frame) → IsWithin tree.now contexts.old at fs → MatchOption result (unwind levels fs awaits.old ≡ ended (waits awaits.new)) (λ q. (kids : Draft Fiber) × IsLeftAt tree.now contexts.new q kids awaits.new (unwind levels fs awaits.old)) }
    ensures nearest { (k : Around Fiber) (v : Fiber) (o : Option ℕ) (ks rs : Draft Fiber) → tree.now.draft ≡ placed k (made at v o ks rs) → MatchOption result (nearest k ≡ None) (λ q. (u : Outer) × (nearest k ≡ Some u) × (u.id ≡ q) × (kids : Draft Fiber) × (tree.now.draft ≡ placed u.around (made q u.value u.old kids u.rest))) }
{
    tree.place_facts();
    tree.facts();
    let mut here = at;
    'outwards: while let Some(outer) = tree.parent(here) {
        let fiber = tree.value(outer);
        if tries(fiber.stage()) {
            return Some(outer);
        }
        *awaits = past(fiber.stage(), *awaits);
        leave(fiber.element(), contexts);
        here = outer;
    }
    None
}

/// A place waits: the attempts around it are given up, up to the nearest boundary that tries its children. What that one made
/// below it is released, and its fallback is to open next. The resources grow by what each fallback on the way waits for, and
/// each provider on the way is left. `None` if no boundary stands above: then the tree waits, and all fibers stay.
pub fn unwind_to_boundary(
    tree: &mut FiberTree<Fiber>,
    at: FiberId,
    contexts: &mut ContextStack,
    awaits: &mut Awaits,
) -> Option<FiberId>
    requires { IsOpenBelow tree.old contexts.old at }
    ensures left { (levels : ℕ) (fs : List Frame) → IsWithin tree.old contexts.old at fs → MatchOption result ((unwind levels fs awaits.old ≡ ended (waits awaits.new)) × (tree.new ≡ tree.old)) (λ q. IsLeftAt tree.new contexts.new q (taken none) awaits.new (unwind levels fs awaits.old)) }
    ensures current { tree.new.current ≡ tree.old.current }
    ensures nearest { (k : Around Fiber) (v : Fiber) (o : Option ℕ) (ks rs : Draft Fiber) → tree.old.draft ≡ placed k (made at v o ks rs) → MatchOption result (nearest k ≡ None) (λ q. (u : Outer) × (nearest k ≡ Some u) × (u.id ≡ q) × (tree.new.draft ≡ placed u.around (made q u.value u.old (taken none) u.rest))) }
{
    let boundary = find_boundary(tree, at, contexts, awaits)?;
    tree.place_facts();
    tree.drop_children(boundary);
    Some(boundary)
}

fn guards(stage: &Stage) -> bool
    ensures { result ≡ is_guarding (stage_seen stage.now) }
{
    matches!(stage, Stage::Guarding)
}

// The nearest error boundary above a fiber that tries its children.
fn find_catch(tree: &FiberTree<Fiber>, at: FiberId, contexts: &mut ContextStack) -> FiberId
    requires below { IsOpenBelow tree.now contexts.old at }
    requires guarded { IsGuardedAt tree.now at }
    ensures caught { (x : ℤ) (levels : ℕ) (fs : List Frame) → IsWithin tree.now contexts.old at fs → (kids : Draft Fiber) × IsCaughtAt tree.now contexts.new result kids x (unwind_throw levels fs x) }
    ensures nearest { (k : Around Fiber) (v : Fiber) (o : Option ℕ) (ks rs : Draft Fiber) → tree.now.draft ≡ placed k (made at v o ks rs) → (u : Outer) × (nearest_catch k ≡ Some u) × (u.id ≡ result) × (kids : Draft Fiber) × (tree.now.draft ≡ placed u.around (made result u.value u.old kids u.rest)) }
{
    tree.place_facts();
    tree.facts();
    let mut here = at;
    'outwards: while let Some(outer) = tree.parent(here) {
        let fiber = tree.value(outer);
        if guards(fiber.stage()) {
            return outer;
        }
        leave(fiber.element(), contexts);
        here = outer;
    }
    unreachable!()
}

/// A body throws: the attempts around it are given up, up to the nearest error boundary that tries its children. What that one
/// made below it is released, and its fallback is to open next. Each provider on the way is left.
pub fn unwind_to_catch(
    tree: &mut FiberTree<Fiber>,
    at: FiberId,
    contexts: &mut ContextStack,
) -> FiberId
    requires below { IsOpenBelow tree.old contexts.old at }
    requires guarded { IsGuardedAt tree.old at }
    ensures caught { (x : ℤ) (levels : ℕ) (fs : List Frame) → IsWithin tree.old contexts.old at fs → IsCaughtAt tree.new contexts.new result (taken none) x (unwind_throw levels fs x) }
    ensures current { tree.new.current ≡ tree.old.current }
    ensures nearest { (k : Around Fiber) (v : Fiber) (o : Option ℕ) (ks rs : Draft Fiber) → tree.old.draft ≡ placed k (made at v o ks rs) → (u : Outer) × (nearest_catch k ≡ Some u) × (u.id ≡ result) × (tree.new.draft ≡ placed u.around (made result u.value u.old (taken none) u.rest)) }
{
    let boundary = find_catch(tree, at, contexts);
    tree.place_facts();
    tree.drop_children(boundary);
    boundary
}
