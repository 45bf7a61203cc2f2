// A node is completed.
ghost use Rattle.std.specs.Prelude.{◌≡◌, ℕ, ℤ, Bool, List, ◌∷◌, Option, Some};
ghost use Rattle.rx_ctx.specs.Contexts.{Stack, moves_by};
ghost use Rattle.rx_elem.specs.Trees.{Node};
ghost use Rattle.rx_links.specs.Drafts.{Makes, grafted, valued};
ghost use Rattle.rx_links.specs.Readers.{made_kids_of};
ghost use Rattle.rx_meaning.specs.Fresh.{Sight, Contexts};
ghost use Rattle.rx_meaning.specs.Cursor.{Open, Frame, arrive, at_end, unit};
ghost use Rattle.rx_fiber.specs.FiberView.{changed};
ghost use Rattle.rx_fiber.specs.declared.stage.StageChange.TheVariants as change;
ghost use Rattle.rx_fiber.specs.Passed.{IsPassed};
ghost use Rattle.rx_fiber.specs.Stood.{given_in};
ghost use Rattle.rx_fiber.specs.Surround.{open_element};
ghost use Rattle.rx_fiber.specs.Standing.{StandsAt, IsStack};
ghost use Rattle.rx_fiber.specs.Subtrees.{subtrees_of};
ghost use Rattle.rx_complete.specs.Ends.{IsAtEnd, HasMadeList, fiber_in, next_after, LeadsTo};

use rx_ctx::ContextStack;
use rx_elem::{Element, ElementKind};
use rx_fiber::{Fiber, StageChange, Subtree};
use rx_links::{FiberId, FiberTree};

/// The fiber to which a render comes from a node that is done.
#[derive(Clone, Copy)]
pub enum Next {
    /// The next sibling, which begins next.
    Sibling(FiberId),
    /// The parent of the last sibling, which is completed next.
    Parent(FiberId),
    /// The root is done.
    Done,
}

// At the end of a provider its context has the value from outside again.
pub(crate) fn leave(element: &Element, contexts: &mut ContextStack)
    ensures stack { (x : Open) (cs : Contexts) (xs : List (Open × Contexts)) → element.now ≡ open_element x → IsStack contexts.old ((x, cs) ∷ xs) → IsStack contexts.new xs }
    ensures moves { (g : Option (ℕ × ℤ)) (moves : List (ℕ × Bool)) → contexts.old.moves ≡ moves_by (given_in element.now) g moves → contexts.new.moves ≡ moves }
{
    if let ElementKind::Provider(_, _, _, _) = element.kind() {
        contexts.pop();
    }
}

fn next_of(tree: &FiberTree<Fiber>, at: FiberId) -> Next
    requires { Makes tree.now.draft at }
    ensures { result ≡ next_after tree.now.draft at }
{
    if let Some(id) = tree.next_sibling(at) {
        return Next::Sibling(id);
    }
    match tree.parent(at) {
        Some(id) => Next::Parent(id),
        None => Next::Done,
    }
}

// What is kept on the children of a fiber, all of which are made, taken together.
fn gather(tree: &FiberTree<Fiber>, at: FiberId) -> Subtree
    requires { HasMadeList tree.now at }
    ensures { result ≡ subtrees_of (grafted (made_kids_of tree.now.draft at)) }
{
    tree.place_facts();
    let mut below = Subtree::nothing();
    let mut next = tree.first_child(at);
    'gathering: while let Some(id) = next {
        below = below.join(tree.value(id).subtree());
        next = tree.next_sibling(id);
    }
    below
}

/// Completes the node of a fiber whose children are done, as one unit of a render: a boundary whose children were tried is
/// shown, an error boundary has caught nothing, a provider is left, and the render comes to the next sibling, or else to the parent. What is at or below the children
/// is gathered on the fiber (React: `bubbleProperties`). Takes no memory, and leaves the current tree as it is.
pub fn complete(tree: &mut FiberTree<Fiber>, at: FiberId, contexts: &mut ContextStack) -> Next
    requires { IsAtEnd tree.old contexts.old at }
    ensures stands { (s : Sight) (levels : ℕ) (fs : List Frame) (x : Open) (done : List (Option Node)) → StandsAt tree.old contexts.old (Some at) (at_end levels fs x done) → StandsAt tree.new contexts.new (fiber_in result) (unit s (at_end levels fs x done)) }
    ensures leads { (s : Sight) (levels : ℕ) (fs : List Frame) (x : Open) (done : List (Option Node)) → StandsAt tree.old contexts.old (Some at) (at_end levels fs x done) → LeadsTo result (unit s (at_end levels fs x done)) }
    ensures next { result ≡ next_after tree.old.draft at }
    ensures current { tree.new.current ≡ tree.old.current }
    ensures marked { tree.new ≡ record tree.old { draft = valued at (changed (change.Complete (subtrees_of (grafted (made_kids_of tree.old.draft at))))) tree.old.draft } }
{
    tree.place_facts();
    leave(tree.value(at).element(), contexts);
    let below = gather(tree, at);
    tree.mark_made(at, &StageChange::Complete(below));
    tree.place_facts();
    next_of(tree, at)
}

/// Passes the node of a fiber that took its old children over (React's bailout): the render comes to the next sibling, or
/// else to the parent. Changes nothing.
pub fn pass(tree: &FiberTree<Fiber>, at: FiberId) -> Next
    requires { Makes tree.now.draft at }
    ensures stands { (st : Stack) (levels : ℕ) (fs : List Frame) (x : Node) → IsPassed tree.now st at fs x → StandsAt tree.now st (fiber_in result) (arrive levels fs (Some x)) }
    ensures leads { (st : Stack) (levels : ℕ) (fs : List Frame) (x : Node) → IsPassed tree.now st at fs x → LeadsTo result (arrive levels fs (Some x)) }
    ensures next { result ≡ next_after tree.now.draft at }
{
    tree.place_facts();
    next_of(tree, at)
}
