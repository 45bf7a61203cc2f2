// Laws of runs.
ghost use Rattle.std.specs.Prelude.{◌≡◌, ℕ, ◌+◌, ◌-◌, ◌<◌, ◌≤◌, ◌++◌, [], false, IfSome, List, Option, Some, length};
ghost use Rattle.rx_base.specs.Awaits.{resource_limit};
ghost use Rattle.rx_lane.specs.Lanes.{Lanes};
ghost use Rattle.rx_ast.specs.Syntax.{Program, contexts};
ghost use Rattle.rx_rules.specs.Bounds.{depth_bound, node_bound};
ghost use Rattle.rx_rules.specs.Names.{resources};
ghost use Rattle.rx_rules.specs.Reads.{ReadsDeclared};
ghost use Rattle.rx_elem.specs.Trees.{Node};
ghost use Rattle.rx_queue.specs.Journal.{Posted, Resolution};
ghost use Rattle.rx_meaning.specs.Fresh.{Contexts, Sight, default_contexts, depth_limit, made};
ghost use Rattle.rx_meaning.specs.Cursor.{Cursor, ended, is_over};
ghost use Rattle.rx_meaning.specs.Counts.{each_unit, whole};
ghost use Rattle.render_laws.specs.InProgress.{InProgress};
ghost use Rattle.render_laws.specs.SameSight.{AllAfter};
ghost use Rattle.rx_meaning.specs.Again.{AllOpen};
ghost use Rattle.commit_laws.specs.Idle.{IsIdle};
ghost use Rattle.commit_laws.specs.WaitsAgain.{IfWaitsAgain};
ghost use Rattle.rx_model.specs.State.{State, Progress};
ghost use Rattle.rx_model.specs.Committing.{sight_of, starting};
ghost use Rattle.rx_model.specs.Committing as committing;
ghost use Rattle.rx_model.specs.Turns.{AnyRender, unit_bound, Finishes, Yields, gone_on};
ghost use Rattle.rx_model.specs.Laws.{IsBounded, NodeBound, CatchLaw, Always, KeptFacts, QuietLaw};
ghost use Rattle.run_laws.specs.Carried.{IsCarried, RestsOnSettled};
ghost use Rattle.run_laws.specs.Unsliced.{UnslicedLaw};

/// Some program is within all bounds: one with a choice of boundaries around keyed leaves, which has twelve nodes at most.
pub fn premises_are_met()
    ensures { (p : Program) × IsBounded p × (node_bound p ≡ 12) }
{}

/// Each render of a program that is accepted ends below the bound of the machine, and its tree and its attempts are
/// within the node bound.
pub fn renders_are_bounded()
    ensures units { (s : Sight) → IsBounded s.program → (old : Option Node) → whole each_unit s old < unit_bound s.program }
    ensures bound { (p : Program) → NodeBound p }
{}

/// A render in progress makes the turns of the machine: one that has ended in a node finishes, and one that hasn't when
/// its slice is used up yields.
pub fn progress_makes_turns()
    ensures finishes { (p : Program) → IsBounded p → (s : State) (g : Progress) (slice : Option ℕ) (units bodies : ℕ) (tree : Node)
        → InProgress (sight_of p s g) s.tree units bodies (ended (made tree)) → g.units < units
        → IfSome slice (λ n. units ≤ g.units + n) → g.bodies ≤ bodies → bodies - g.bodies ≤ units - g.units
        → Finishes p s g slice (committing.ended s g (record { units = units; bodies = bodies }) tree) }
    ensures yields { (p : Program) → IsBounded p → (s : State) (g : Progress) (budget bodies : ℕ) (c : Cursor)
        → InProgress (sight_of p s g) s.tree (g.units + budget) (g.bodies + bodies) c → is_over c ≡ false
        → bodies ≤ budget
        → Yields p s g (Some budget) (record { lines = []; bodies = bodies; after = record s { progress = Some (gone_on g budget bodies) } }) }
{}

/// In each state of each run what is kept of the committed tree holds, and what a render in progress needs to take over
/// what has no cause, and to leave alone what waits.
pub fn carried_along_runs()
    ensures carried { (p : Program) → Always p (IsCarried p) }
    ensures rests { (p : Program) → Always p (RestsOnSettled p) }
    ensures declared { (p : Program) → 0 < length (contexts p) → ReadsDeclared p }
{}

/// The hidden boundaries of the committed tree wait again in each render that starts now, in the one in progress, and
/// over a longer journal of which all that is new is open.
pub fn hidden_waits_are_kept()
    ensures starts { (p : Program) → depth_bound p ≤ depth_limit → length (resources p) ≤ resource_limit
        → (s : State) → IsCarried p s → (lanes : Lanes)
        → IfWaitsAgain (sight_of p s (starting s lanes)) (default_contexts p) s.tree }
    ensures in_progress { (p : Program) → depth_bound p ≤ depth_limit → length (resources p) ≤ resource_limit
        → (s : State) → IsCarried p s → (g : Progress) → s.progress ≡ Some g
        → IfWaitsAgain (sight_of p s g) (default_contexts p) s.tree }
    ensures longer { (s : Sight) (new : List Posted) (more : List Resolution) → AllAfter s.cut.updates new → AllOpen new
        → s.cut.resolutions ≤ length s.journal.resolutions
        → (cs : Contexts) (tree : Option Node) → IfWaitsAgain s cs tree
        → IfWaitsAgain (record s { journal = record { updates = s.journal.updates ++ new; resolutions = s.journal.resolutions ++ more } }) cs tree }
{}

/// A tree that is idle for a render stays so while updates are accepted behind its cut.
pub fn idle_trees_are_kept()
    ensures longer { (s : Sight) (new : List Posted) (more : List Resolution) → AllAfter s.cut.updates new → AllOpen new → (x : Node) → IsIdle s x
        → IsIdle (record s { journal = record { updates = s.journal.updates ++ new; resolutions = s.journal.resolutions ++ more } }) x }
{}

/// What each step keeps, in each state of each run: pending lanes are a set, updates are numbered as they came and none
/// of a mounted instance is lost, a render in progress is due, what is suspended is a pending transition and waits for
/// what has no value, what is resolved is retried, and the tree and each render that may come are within the bound.
pub fn kept_facts()
    ensures { (p : Program) → KeptFacts p }
{}

/// A quiet state shows everything: each hook all its updates in the order in which they came, and the tree what a
/// render with all lanes would give.
pub fn quiet_ends()
    ensures { (p : Program) → QuietLaw p }
{}

/// Two runs of a script without sliced work, from the same state, end in the same state and write the same lines but for the
/// counts: a turn that isn't sliced can only finish, and the tree that it finishes is one.
pub fn unsliced_runs_end_alike()
    ensures { (p : Program) → UnslicedLaw AnyRender AnyRender p }
{}

/// In a tree that a render gives, and in the one that it becomes at its commit, each visible error boundary has caught what
/// it had caught, or else what its children throw.
pub fn error_boundaries_catch()
    ensures { (p : Program) → CatchLaw p }
{}
