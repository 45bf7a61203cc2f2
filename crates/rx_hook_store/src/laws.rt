// Laws of what is kept.
ghost use Rattle.std.specs.Prelude.{◌≡◌, ◌<◌, ◌≤◌, ℕ, ℤ, List, Option, Some, IsSome, IsSomeAnd, length, slice_get};
ghost use Rattle.rx_base.specs.declared.cut.Cut.{Cut};
ghost use Rattle.rx_lane.specs.Lanes.{Lanes};
ghost use Rattle.rx_ast.specs.Syntax.{Program};
ghost use Rattle.rx_step.specs.declared.step.LaneWord.{LaneWord};
ghost use Rattle.rx_elem.specs.Numbers.{Numbers, numbered};
ghost use Rattle.rx_elem.specs.Trees.{Node};
ghost use Rattle.rx_elem.specs.Spots.{Mounted, mounted};
ghost use Rattle.rx_queue.specs.declared.update.Op.{Op};
ghost use Rattle.rx_queue.specs.Journal.{hook};
ghost use Rattle.rx_hooks.specs.declared.hook.Hook.{Hook};
ghost use Rattle.rx_meaning.specs.Settled.{DoneBefore, HasOwnNumbers, TargetsBelow};
ghost use Rattle.rx_model.specs.State.{State, Progress, opening};
ghost use Rattle.rx_model.specs.Accepting.{dispatched_for};
ghost use Rattle.rx_model.specs.Committing.{sight_of, committed_state};
ghost use Rattle.rx_model.specs.HooksOf.{KeepsAllHooks};
ghost use Rattle.rx_hook_store.specs.Gives.{GivesValues};
ghost use Rattle.rx_hook_store.specs.Rendered.{IsRendered, KeepsInstance};
ghost use Rattle.rx_hook_store.specs.Commits.{LinksBelow, SettlesHooks};

/// Hooks that stand for the machine's state give a render the values of each mounted instance if what is done lies
/// before its cut.
pub fn keeps_give()
    ensures mounted { (p : Program) (s : State) (g : Progress) (kept : ℕ → Option (List Hook)) → KeepsAllHooks p s kept
        → DoneBefore g.cut s.journal.updates → (k : ℕ) (m : Mounted) → slice_get (mounted s.tree) k ≡ Some m
        → GivesValues (sight_of p s g) kept m.number m.initials }
    ensures instance { (p : Program) (s : State) (g : Progress) (kept : ℕ → Option (List Hook)) (k : ℕ) (initials : List ℤ)
        → DoneBefore g.cut s.journal.updates → KeepsInstance p s kept k initials → GivesValues (sight_of p s g) kept k initials }
{}

/// Hooks that stand for the machine's state are there: those of each mounted instance, one for each of its initial values.
pub fn hooks_are_there()
    ensures mounted { (p : Program) (s : State) (kept : ℕ → Option (List Hook)) → KeepsAllHooks p s kept
        → (k : ℕ) (m : Mounted) → slice_get (mounted s.tree) k ≡ Some m → KeepsInstance p s kept m.number m.initials }
    ensures instance { (p : Program) (s : State) (kept : ℕ → Option (List Hook)) (k : ℕ) (initials : List ℤ)
        → KeepsInstance p s kept k initials → IsSome (kept k) }
    ensures hook { (p : Program) (s : State) (kept : ℕ → Option (List Hook)) (k place : ℕ) (initials : List ℤ)
        → place < length initials → KeepsInstance p s kept k initials → IsSomeAnd (kept k) (λ hooks. place < length hooks) }
{}

/// If no update comes, no lane is linked, and what is kept stays, it stands for the machine's state as before. So it is
/// over a resolution, a slice of a render that renders nothing, and each other step but a dispatch and a commit.
pub fn what_is_kept_stays()
    ensures all { (p : Program) (s t : State) (old new : ℕ → Option (List Hook)) → t.journal.updates ≡ s.journal.updates
        → t.linked ≡ s.linked → t.tree ≡ s.tree → ((n : ℕ) → new n ≡ old n) → KeepsAllHooks p s old → KeepsAllHooks p t new }
    ensures instance { (p : Program) (s t : State) (old new : ℕ → Option (List Hook)) (k : ℕ) (initials : List ℤ)
        → t.journal.updates ≡ s.journal.updates → t.linked ≡ s.linked → new k ≡ old k
        → KeepsInstance p s old k initials → KeepsInstance p t new k initials }
    ensures rendered { (p : Program) (s t : State) (lanes : Lanes) (cut : Cut) (old new : ℕ → Option (List Hook)) (k : ℕ) (initials : List ℤ)
        → t.journal.updates ≡ s.journal.updates → t.linked ≡ s.linked → new k ≡ old k
        → IsRendered p s lanes cut old k initials → IsRendered p t lanes cut new k initials }
{}

/// A commit that settles the hooks of each instance of its tree leaves what stands for the machine's state after it.
pub fn committed_keeps_hooks()
    ensures { (p : Program) (s : State) (g : Progress) (fixed : Numbers × Node) (old new : ℕ → Option (List Hook))
        → TargetsBelow s.numbers.instance s.journal.updates → LinksBelow s → HasOwnNumbers fixed.0.instance (Some fixed.1)
        → ((k : ℕ) (m : Mounted) → slice_get (mounted (Some fixed.1)) k ≡ Some m → SettlesHooks p s g old new m)
        → KeepsAllHooks p (committed_state s g fixed) new }
{}

/// No hook of an instance that has yet to come links a lane: at the start, after a dispatch to an instance that is mounted,
/// after a commit, and if no lane is linked.
pub fn links_are_below()
    ensures start { LinksBelow opening }
    ensures dispatch { (s : State) (w : LaneWord) (i k : ℕ) (o : Op) → i < s.numbers.instance → LinksBelow s
        → LinksBelow (dispatched_for s w (hook i k) o) }
    ensures mounted { (next : ℕ) (tree : Option Node) (k : ℕ) (m : Mounted) → HasOwnNumbers next tree
        → slice_get (mounted tree) k ≡ Some m → m.number < next }
    ensures commit { (s : State) (g : Progress) (new : Node) → LinksBelow s → LinksBelow (committed_state s g (numbered s.numbers new)) }
    ensures other { (s t : State) → t.linked ≡ s.linked → s.numbers.instance ≤ t.numbers.instance → LinksBelow s → LinksBelow t }
{}
