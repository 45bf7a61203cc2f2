// A render in progress.
ghost use Rattle.std.specs.Prelude.{◌≡◌, ◌+◌, ◌*◌, ◌<◌, ◌≤◌, ◌^◌, ℕ, ℤ, true, false, List, [], Option, None, Some, length, slice_get, IfOk, OnOk, OnErr, IsOk, IsSomeAnd, if◌then◌else◌};
ghost use Rattle.rx_ast.specs.Syntax.{Program};
ghost use Rattle.rx_check.specs.Checks.{unknowns};
ghost use Rattle.rx_elem.specs.Numbers.{numbered};
ghost use Rattle.rx_elem.specs.Spots.{Mounted, mounted, node_count};
ghost use Rattle.rx_elem.specs.Trees as trees;
ghost use Rattle.rx_forest.specs.Hosts.{hosts};
ghost use Rattle.host_laws.specs.Commits.{IsSound};
ghost use Rattle.host_laws.specs.Siblings.{TellPlaces};
ghost use Rattle.rx_set.specs.Sets.{holds};
ghost use Rattle.rx_loop.specs.Ends.{MatchUnit};
ghost use Rattle.rx_rules.specs.Bounds.{node_bound};
ghost use Rattle.rx_lists.specs.Shapes.{none, size};
ghost use Rattle.rx_links.specs.Drafts.{taken, made_size, grafted};
ghost use Rattle.rx_queue.specs.Journal.{hook};
ghost use Rattle.rx_hooks.specs.Hooks.{changed_at};
ghost use Rattle.rx_model.specs.State.{State, Progress, linked_lanes, opening};
ghost use Rattle.rx_model.specs.Accepting.{dispatched_for, lane_of};
ghost use Rattle.rx_meaning.specs.Fresh.{IsTree, Sight};
ghost use Rattle.rx_meaning.specs.Settled.{DoneBefore, HasOwnNumbers};
ghost use Rattle.rx_meaning.specs.Touched.{may_throw_anew};
ghost use Rattle.commit_laws.specs.HiddenWaits.{IfNumbered};
ghost use Rattle.commit_laws.specs.Idle.{IsIdleMark};
ghost use Rattle.cost_laws.specs.Undue.{IsUndue};
ghost use Rattle.rx_ways.specs.Ways.{CoversIf, is_way};
ghost use Rattle.rx_model.specs.Committing.{committed_state, sight_of, starting};
ghost use Rattle.rx_model.specs.Laws.{IsBounded};
ghost use Rattle.rx_model.specs.Turns.{unit_bound};
ghost use Rattle.rx_model.specs.HooksOf.{KeepsAllHooks};
ghost use Rattle.rx_node.specs.Hides.{hides_within};
ghost use Rattle.rx_fiber.specs.Reading.{IsTreeOf};
ghost use Rattle.rx_fiber.specs.Subtrees.{IsGathered};
ghost use Rattle.rx_pruned.specs.Besides.{IsBeside};
ghost use Rattle.end_laws.specs.Trimmed.{trimmed, trimmed_if};
ghost use Rattle.rx_read.specs.NumbersView.{numbers_seen};
ghost use Rattle.rx_read.specs.Numbering.{numbered_draft, IsAllNumbered};
ghost use Rattle.rx_hook_store.specs.Store.{hook_room, kept_hooks};
ghost use Rattle.rx_hook_store.specs.Changing.{ChangesHooks, dispatched_hook, lanes_linked};
ghost use Rattle.rx_hook_store.specs.Rendered.{IsRendered, KeepsInstance};
ghost use Rattle.rx_settle.specs.Passes.{has_instance};
ghost use Rattle.rx_render.specs.declared.at.At.TheVariants.{Over};
ghost use Rattle.rx_render.specs.LastUnit.{is_over};
ghost use Rattle.rx_render.specs.Rendering.{HasNoRender, IfLeft, left_of};
ghost use Rattle.rx_render.specs.Settling.{IsAtHand};
ghost use Rattle.rx_render.specs.Renders.{CanStart, GivesAll, IsStartOf, IsUnderWay, LeadsToWork, Renders, with_hooks};
ghost use Rattle.rx_render.specs.Turning.{Proceeds, GivesUp, UnitBreaksOff};
ghost use Rattle.rx_render.specs.TurningLaws.{proceeds_same, proceeds_join, gives_up_after};

use crate::advance::advance;
use crate::at::{At, is_over, unit_before};
use crate::roots::{default_contexts, root_element};
use crate::settle::settle_finished;
use draw_laws::cursors_are_drawn;
use render_laws::nodes_are_bounded;
use room_laws::fibers_have_room;
use rx_base::{Cut, Int, Steps};
use rx_beside::read_beside;
use rx_causes::Scene;
use rx_check::Checked;
use rx_ctx::ContextStack;
use rx_fiber::{Fiber, Origin, Stage};
use rx_hook_store::HookStore;
use rx_host_list::hosts_beside;
use rx_host_ops::Host;
use rx_lane::Lanes;
use rx_links::FiberTree;
use rx_loop::{Unit, Units};
use rx_node::Node;
use rx_pruned::Beside;
use rx_queue::Update;
use rx_read::{Numbers, number_made, read_in_progress};
use rx_resources::Seen;
use rx_set::NumberSet;
use rx_step::LaneWord;
use rx_ways::{Ways, find_ways};
use std::alloc::{AllocError, Global};
use std::marker::Model;
use std::sync::ledger::Ledger;

/// The two trees of a root and its hooks, with the render that is in progress: what it sees, where it stands, and how many
/// units and bodies it has taken (react.dev, Render and Commit).
pub struct Renderer {
    alloc: Global,
    checked: Checked,
    fibers: FiberTree<Fiber>,
    hooks: HookStore,
    contexts: ContextStack,
    resources: Seen,
    lanes: Lanes,
    cut: Cut,
    ways: Ways,
    hints: Option<Ways>,
    at: At,
    units: u64,
    bodies: u64,
    // How many resolutions the last commit saw.
    seen: u64,
    // Whether the render that started last may come to throw for a resolution that is new to it.
    throws: bool,
}

impl Model for Renderer {
    ghost use Rattle.rx_render.specs.Rendering.{Rendering};
    ghost use Rattle.rx_render.specs.Renders.{IsRendering};
    ghost use Rattle.std.specs.Coded.{codes};
    ghost use Rattle.rx_ast.specs.ProgramCodes.{program_code};
    ghost use Rattle.rx_render.specs.TreesCode.{fiber_trees_code};

    ghost Value = { Rendering };

    ghost coded = { Prim.hlevel (codes, program_code, fiber_trees_code) };

    ghost view = { λ r. record { program = r.checked; trees = r.fibers; hooks = r.hooks; contexts = r.contexts; resources = r.resources; lanes = r.lanes; cut = r.cut; ways = r.ways; at = r.at; units = r.units; bodies = r.bodies; seen = r.seen; throws = r.throws } };

    ghost invariant = { λ r. IsRendering (record { program = r.checked; trees = r.fibers; hooks = r.hooks; contexts = r.contexts; resources = r.resources; lanes = r.lanes; cut = r.cut; ways = r.ways; at = r.at; units = r.units; bodies = r.bodies; seen = r.seen; throws = r.throws }) };
}

// It is taken apart here alone, once for all crates.
impl Drop for Renderer {
    fn drop(self) {
        let Renderer {
            alloc: _alloc,
            checked: _checked,
            fibers: _fibers,
            hooks: _hooks,
            contexts: _contexts,
            resources: _resources,
            lanes: _lanes,
            cut: _cut,
            ways: _ways,
            hints: _hints,
            at: _at,
            units: _units,
            bodies: _bodies,
            seen: _seen,
            throws: _throws,
        } = self;
    }
}

// How many bodies were evaluated.
fn one_if(evaluated: bool) -> u64
    ensures { result ≡ (if evaluated then 1 else 0) }
{
    if evaluated { 1 } else { 0 }
}

impl Renderer {
    /// A program before its first render: no trees, no hooks, nothing in progress.
    ///
    /// # Errors
    ///
    /// Only if out of memory.
    pub fn new(alloc: Global, checked: Checked) -> Result<Renderer, AllocError>
        ensures program { IfOk result (λ r. r.program ≡ checked) }
        ensures current { IfOk result (λ r. r.trees.current ≡ none) }
        ensures hooks { IfOk result (λ r. KeepsAllHooks r.program opening (kept_hooks r.hooks)) }
        ensures idle { IfOk result (λ r. HasNoRender r) }
        ensures seen { IfOk result (λ r. r.seen ≡ 0) }
    {
        checked.program();
        let contexts = ContextStack::new(alloc, &[])?;
        Ok(Renderer {
            alloc,
            checked,
            fibers: FiberTree::new(alloc),
            hooks: HookStore::new(alloc),
            contexts,
            resources: Seen {
                versions: Vec::new(alloc),
                values: Vec::new(alloc),
                refreshes: false,
            },
            lanes: Lanes::none(),
            cut: Cut {
                updates: 0,
                resolutions: 0,
            },
            ways: Ways::new(alloc),
            hints: None,
            at: At::Over,
            units: 0,
            bodies: 0,
            seen: 0,
            throws: false,
        })
    }

    /// What always holds: the program is accepted, and no more units are left than a render may take.
    pub fn facts(&self)
        ensures known { unknowns self.now.program ≡ [] }
        ensures bounded { IsBounded self.now.program }
        ensures few { left_of self.now < 2 ^ 64 }
        ensures within { left_of self.now ≤ unit_bound self.now.program }
    {
        let _ = &self.units;
    }

    /// The program.
    pub fn checked(&self) -> &Checked
        ensures { result.now ≡ self.now.program }
    {
        &self.checked
    }

    /// The two trees of fibers: the current one, and the one in progress. The current ones keep what is at or below them.
    pub fn fibers(&self) -> &FiberTree<Fiber>
        ensures trees { result.now ≡ self.now.trees }
        ensures gathered { IsGathered result.now.current }
    {
        &self.fibers
    }

    /// The hooks of the mounted instances.
    pub fn hooks(&self) -> &HookStore
        ensures { result.now ≡ self.now.hooks }
    {
        &self.hooks
    }

    /// Whether no unit is left: nothing is in progress, or the tree in progress is finished.
    pub fn is_over(&self) -> bool
        ensures value { result ≡ is_over self.now.at }
        ensures over { result ≡ true → self.now.at ≡ Over }
        ensures left { result ≡ false → 0 < left_of self.now }
    {
        is_over(&self.at)
    }

    /// The lanes of the render that started last.
    pub fn lanes(&self) -> Lanes
        ensures { result ≡ self.now.lanes }
    {
        self.lanes
    }

    /// The cut of the render that started last: what it sees of the journal.
    pub fn cut(&self) -> Cut
        ensures { result ≡ self.now.cut }
    {
        self.cut
    }

    /// What it sees of the resources.
    pub fn resources(&self) -> &Seen
        ensures { result.now ≡ self.now.resources }
    {
        &self.resources
    }

    /// How many units it has taken so far.
    pub fn units(&self) -> u64
        ensures { result ≡ self.now.units }
    {
        self.units
    }

    /// How many fibers there are: those of the current tree, and those that are made for the tree in progress. A render over
    /// a tree of the program never has more than three for each node of the bound.
    pub fn live(&self) -> u64
        ensures value { result ≡ size self.now.trees.current + made_size self.now.trees.draft }
        ensures few { (st : State) (g : Progress) → Renders self.now.program st g self.now → IsTree self.now.program st.tree
            → result ≤ 3 * node_bound self.now.program }
        ensures under_way { (way : IsUnderWay self.now) → IsTree self.now.program way.tree → result ≤ 3 * node_bound self.now.program }
        ensures idle { (tree : Option trees.Node) → self.now.trees.draft ≡ taken none → IsTreeOf tree self.now.trees.current
            → IsTree self.now.program tree → result ≤ 2 * node_bound self.now.program }
    {
        nodes_are_bounded();
        fibers_have_room();
        self.fibers.live()
    }

    /// How many bodies it has evaluated so far.
    pub fn bodies(&self) -> u64
        ensures { result ≡ self.now.bodies }
    {
        self.bodies
    }

    /// Discards what is in progress. The current tree and the hooks stay.
    pub fn discard(&mut self)
        ensures { self.new ≡ record self.old { trees = record self.old.trees { draft = taken none }; at = Over } }
    {
        self.fibers.discard();
        self.at = At::Over;
    }

    // Whether something may throw in a render at this cut for a resolution that the last commit has not seen.
    fn may_throw_anew(&self, cut: Cut) -> bool
        ensures { (s : Sight) → s.program ≡ self.now.program → s.seen ≡ self.now.seen → s.cut ≡ cut → result ≡ may_throw_anew s }
    {
        self.checked.may_throw() && self.seen < cut.resolutions
    }

    /// The ways that led to all instances that might have queued updates when the last render started: if it had work in each, its
    /// own. The next start takes hints from them, and trusts none.
    pub fn hints(&self) -> &Ways {
        match &self.hints {
            Some(hints) => hints,
            None => &self.ways,
        }
    }

    // The ways to all instances that may have queued updates, unless a render for these lanes at this cut has work in each: since the
    // last render started updates were sent along these. A render only takes hints from them.
    fn find_hints(&self, lanes: Lanes, cut: Cut, sent: &Ways) -> Result<Option<Ways>, AllocError> {
        let Some(stirred) = self.hooks.stirred() else {
            return Ok(Some(Ways::everything(self.alloc)));
        };
        let working = self.hooks.working(self.alloc, lanes, cut)?;
        if stirred.is_subset(&working) {
            return Ok(None);
        }
        let hints = find_ways(self.alloc, &self.fibers, stirred, self.hints(), sent)?;
        Ok(Some(hints))
    }

    // The ways on which a render for these lanes at this cut finds a cause: the hints, and what updates were sent along, may lead there.
    fn find_ways(&self, sent: &Ways, lanes: Lanes, cut: Cut) -> Result<Ways, AllocError>
        ensures idle { IfOk result (λ w. (s : Sight) (tree : Option trees.Node) (next : ℕ) → s.lanes ≡ lanes → s.cut ≡ cut → GivesAll s tree (kept_hooks self.now.hooks)
            → IsTreeOf tree self.now.trees.current → IfNumbered tree → HasOwnNumbers next tree → CoversIf (is_way w) (IsIdleMark s) tree) }
        ensures undue { IfOk result (λ w. (p : Program) (st : State) (g : Progress) (next : ℕ) → g.lanes ≡ lanes → g.cut ≡ cut → KeepsAllHooks p st (kept_hooks self.now.hooks)
            → IsTreeOf st.tree self.now.trees.current → IfNumbered st.tree → HasOwnNumbers next st.tree → CoversIf (is_way w) (IsUndue (sight_of p st g)) st.tree) }
        ensures lead { IfOk result (λ w. (tree : Option trees.Node) (n : ℕ) → IsTreeOf tree self.now.trees.current → is_way w n ≡ true → LeadsToWork lanes cut (kept_hooks self.now.hooks) n tree) }
    {
        let working = self.hooks.working(self.alloc, lanes, cut)?;
        find_ways(self.alloc, &self.fibers, &working, self.hints(), sent)
    }

    /// Discards what is in progress, and starts a render with these lanes at this cut, which sees this of the
    /// resources: the next unit begins the root. Since the last render started updates were sent along these
    /// ways.
    ///
    /// # Errors
    ///
    /// Only if out of memory. Then nothing is in progress.
    pub fn start(
        &mut self,
        lanes: Lanes,
        cut: Cut,
        resources: Seen,
        sent: &Ways,
    ) -> Result<(), AllocError>
        requires { CanStart lanes cut resources self.old }
        ensures started { OnOk result ((st : State) → IsStartOf st lanes cut resources self.old → Renders self.old.program st (starting st lanes) self.new) }
        ensures units { OnOk result (self.new.units ≡ 0) }
        ensures bodies { OnOk result (self.new.bodies ≡ 0) }
        ensures left { OnOk result (0 < left_of self.new) }
        ensures program { self.new.program ≡ self.old.program }
        ensures current { self.new.trees.current ≡ self.old.trees.current }
        ensures hooks { self.new.hooks ≡ self.old.hooks }
        ensures seen { self.new.seen ≡ self.old.seen }

        // An instance stands on a way only if it, or one below it, has work for this render, or a boundary there is hidden.
        ensures ways { OnOk result ((tree : Option trees.Node) (n : ℕ) → IsTreeOf tree self.old.trees.current → is_way self.new.ways n ≡ true → LeadsToWork lanes cut (kept_hooks self.old.hooks) n tree) }
        ensures idle { OnErr result (HasNoRender self.new) }
    {
        self.discard();
        let throws = self.may_throw_anew(cut);
        let hints = self.find_hints(lanes, cut, sent)?;
        let ways = self.find_ways(sent, lanes, cut)?;
        let defaults = default_contexts(self.alloc, &self.checked)?;
        let contexts = ContextStack::new(self.alloc, &defaults)?;
        let root = root_element(self.alloc, &self.checked)?;
        let cloned = self.fibers.current().is_some();
        let origin = Origin {
            cloned,
            visible: true,
            generation: 0,
        };
        let id = self
            .fibers
            .start(Fiber::new(0, root, Stage::Waiting(origin)))?;
        cursors_are_drawn();
        self.contexts = contexts;
        self.resources = resources;
        self.lanes = lanes;
        self.cut = cut;
        self.throws = throws;
        self.ways = ways;
        self.hints = hints;
        self.at = At::Begins(id);
        self.units = 0;
        self.bodies = 0;
        Ok(())
    }

    /// The current tree and the finished one, both without what stayed the same (react.dev, Render and Commit), without the vacant
    /// places at the ends of their lists, of which fibers do not tell. Takes time for what the render made and for what is gone, and
    /// none for what is below a list that was taken over. An instance in whose hooks the render has work is there though it came out
    /// the same.
    ///
    /// # Errors
    ///
    /// Only if out of memory.
    pub fn finished(&self) -> Result<Beside, AllocError>
        requires finished { (x : trees.Node) × IsTreeOf (Some x) (grafted self.now.trees.draft) }
        requires current { (y : Option trees.Node) × IsTreeOf y self.now.trees.current }
        ensures { IfOk result (λ b. (y : Option trees.Node) (x : trees.Node) → IsTreeOf y self.now.trees.current → IsTreeOf (Some x) (grafted self.now.trees.draft) → IsBeside (trimmed_if y) (trimmed x) b) }
    {
        let working = self.hooks.working(self.alloc, self.lanes, self.cut)?;
        read_beside(self.alloc, &self.fibers, &working)
    }

    /// The finished tree as a plain tree, without the vacant places at the ends of its lists. Takes time for the whole tree.
    ///
    /// # Errors
    ///
    /// Only if out of memory.
    pub fn finished_tree(&self) -> Result<Node, AllocError>
        requires { (x : trees.Node) × IsTreeOf (Some x) (grafted self.now.trees.draft) }
        ensures { IfOk result (λ n. (x : trees.Node) → IsTreeOf (Some x) (grafted self.now.trees.draft) → n ≡ trimmed x) }
    {
        read_in_progress(self.alloc, &self.fibers)
    }

    /// Hosts of the finished tree, in tree order, that tell where a commit places those with these parents (0 is the container).
    /// Takes time for what was made, and for all that is below these parents down to the next hosts.
    ///
    /// # Errors
    ///
    /// Only if out of memory.
    pub fn hosts_below(&self, parents: &NumberSet) -> Result<Vec<Host>, AllocError>
        ensures { IfOk result (λ told. (x : trees.Node) → IsTreeOf (Some x) (grafted self.now.trees.draft) → IsSound x → TellPlaces (holds parents.now) told.items (hosts (Some x))) }
    {
        hosts_beside(self.alloc, &self.fibers, parents)
    }

    /// Whether a boundary of the finished tree hides its children (react.dev, Suspense), told by the fiber of its root.
    pub fn hides(&self) -> bool
        requires over { self.now.at ≡ Over }
        ensures { (x : trees.Node) → IsTreeOf (Some x) (grafted self.now.trees.draft) → result ≡ hides_within x }
    {
        self.fibers.facts();
        match self.fibers.in_progress() {
            Some(root) => self.fibers.value(root).subtree().hides,
            None => false,
        }
    }

    /// Gives each instance and each host of the finished tree that is new its number, in tree order, as its commit begins.
    /// Returns the numbers that come next.
    pub fn number(&mut self, next: Numbers) -> Numbers
        requires over { self.old.at ≡ Over }
        requires instances { next.instance < 2 ^ 62 }
        requires hosts { next.host < 2 ^ 62 }
        requires few { (x : trees.Node) × IsTreeOf (Some x) (grafted self.old.trees.draft) × (node_count (Some x) < 2 ^ 32) }
        ensures draft { self.new ≡ record self.old { trees = record self.old.trees { draft = (numbered_draft (numbers_seen next) self.old.trees.draft).1 } } }
        ensures next { numbers_seen result ≡ (numbered_draft (numbers_seen next) self.old.trees.draft).0 }
        ensures tree { (x : trees.Node) → IsTreeOf (Some x) (grafted self.old.trees.draft) → IsAllNumbered self.old.trees
            → IsTreeOf (Some (numbered (numbers_seen next) x).1) (grafted self.new.trees.draft) }
        ensures numbers { (x : trees.Node) → IsTreeOf (Some x) (grafted self.old.trees.draft) → IsAllNumbered self.old.trees → numbers_seen result ≡ (numbered (numbers_seen next) x).0 }
    {
        number_made(&mut self.fibers, next)
    }

    /// Settles the hooks of each instance of the finished tree at its commit (react.dev, State as a Snapshot): the finished tree has its
    /// numbers, `beside` is what is left of it and of the current one, and new instances have numbers from the first on. Takes time
    /// for the whole of both trees only if an instance with work is left out.
    ///
    /// # Errors
    ///
    /// Only if out of memory. The hooks then stand for whatever they stood for, and the render is still finished.
    pub fn settle(&mut self, beside: &Beside, first: u64) -> Result<(), AllocError>
        requires over { self.old.at ≡ Over }
        requires at_hand { (s : State) × (g : Progress) × (x : trees.Node) × IsAtHand s g x first beside.now self.old }
        ensures same { self.new ≡ with_hooks self.old self.new.hooks }

        // What is kept stands for the machine's state after the commit.
        ensures settled { OnOk result ((s : State) (g : Progress) (x : trees.Node) → IsAtHand s g x first beside.now self.old
            → KeepsAllHooks self.old.program (committed_state s g (numbered s.numbers x)) (kept_hooks self.new.hooks)) }
        ensures gone { OnOk result ((s : State) (g : Progress) (x : trees.Node) (k : ℕ) (m : Mounted) → IsAtHand s g x first beside.now self.old
            → slice_get (mounted (trimmed_if s.tree)) k ≡ Some m → has_instance (mounted (Some (trimmed (numbered s.numbers x).1))) m.number ≡ false
            → kept_hooks self.new.hooks m.number ≡ None) }
        ensures err { OnErr result ((s : State) → DoneBefore self.old.cut s.journal.updates → KeepsAllHooks self.old.program s (kept_hooks self.old.hooks)
            → KeepsAllHooks self.old.program s (kept_hooks self.new.hooks)) }
        ensures stays { OnErr result ((p : Program) (s : State) (g : Progress) → Renders p s g self.old → Renders p s g self.new) }
    {
        settle_finished(
            self.alloc,
            &mut self.hooks,
            &self.checked,
            &self.fibers,
            beside,
            first,
            self.lanes,
            self.cut,
        )
    }

    /// The finished tree becomes the current one, and nothing is in progress (react.dev, Render and Commit).
    pub fn commit(&mut self)
        requires { self.old.at ≡ Over }
        ensures { self.new ≡ record self.old { trees = record { current = grafted self.old.trees.draft; draft = taken none }; at = Over; seen = self.old.cut.resolutions } }
    {
        self.fibers.swap();
        self.at = At::Over;
        self.seen = self.cut.resolutions;
    }

    /// Makes room for so many updates more of a hook of an instance, by its place from 0. It changes nothing of what the hooks
    /// stand for.
    ///
    /// # Errors
    ///
    /// Only if out of memory.
    pub fn reserve(&mut self, instance: u64, place: u32, more: usize) -> Result<(), AllocError>
        requires { IsSomeAnd (kept_hooks self.old.hooks instance) (λ hooks. place < length hooks) }
        ensures same { self.new ≡ with_hooks self.old self.new.hooks }
        ensures ok { OnOk result (more ≤ hook_room instance place (kept_hooks self.new.hooks)) }
        ensures err { OnErr result ((n : ℕ) → kept_hooks self.new.hooks n ≡ kept_hooks self.old.hooks n) }
        ensures spare { self.new.hooks.spare ≡ self.old.hooks.spare }

        // What is kept stands for the machine's state as before, and what a render has rendered stays so.
        ensures states { (p : Program) (s : State) → KeepsAllHooks p s (kept_hooks self.old.hooks) → KeepsAllHooks p s (kept_hooks self.new.hooks) }
        ensures rendered { (p : Program) (s : State) (lanes : Lanes) (cut : Cut) (k : ℕ) (initials : List ℤ) → IsRendered p s lanes cut (kept_hooks self.old.hooks) k initials
            → IsRendered p s lanes cut (kept_hooks self.new.hooks) k initials }

        // A render that is in progress still is.
        ensures renders { (p : Program) (s : State) (g : Progress) → Renders p s g self.old → Renders p s g self.new }
    {
        self.hooks.reserve_updates(instance, place, more)
    }

    /// Sends an update to a hook of an instance, by its place from 0; the update lies behind the cut of a render in progress.
    /// If the hook has room for it, it succeeds. A transition also links the update's lane with those lanes of the hook that
    /// are still pending, and gives all of them (react.dev, useTransition). An `Err` changes nothing of what the hooks stand
    /// for.
    ///
    /// # Errors
    ///
    /// Only if out of memory.
    pub fn dispatch(
        &mut self,
        instance: u64,
        place: u32,
        word: LaneWord,
        update: Update,
        pending: Lanes,
    ) -> Result<Option<Lanes>, AllocError>
        requires hook { IsSomeAnd (kept_hooks self.old.hooks instance) (λ hooks. place < length hooks) }
        requires behind { IfLeft self.old.at (self.old.cut.updates ≤ update.number) }
        ensures same { self.new ≡ with_hooks self.old self.new.hooks }
        ensures ok { OnOk result (ChangesHooks (changed_at place (dispatched_hook word update pending)) instance (kept_hooks self.old.hooks) (kept_hooks self.new.hooks)) }
        ensures err { OnErr result ((n : ℕ) → kept_hooks self.new.hooks n ≡ kept_hooks self.old.hooks n) }
        ensures spare { self.new.hooks.spare ≡ self.old.hooks.spare }

        // What is kept stands for the machine's state after the dispatch, if this is the next update that it accepts.
        ensures states { OnOk result ((p : Program) (s : State) → update.number ≡ length s.journal.updates → update.lane ≡ lane_of s word → pending ≡ s.schedule.pending
            → KeepsAllHooks p s (kept_hooks self.old.hooks) → KeepsAllHooks p (dispatched_for s word (hook instance place) update.op) (kept_hooks self.new.hooks)) }
        ensures links { IfOk result (λ lanes. (p : Program) (s : State) (initials : List ℤ) → KeepsInstance p s (kept_hooks self.old.hooks) instance initials
            → lanes ≡ lanes_linked word update pending (linked_lanes s.linked (hook instance place))) }
        ensures rendered { OnOk result ((p : Program) (s : State) (lanes : Lanes) (cut : Cut) (k : ℕ) (initials : List ℤ) → update.number ≡ length s.journal.updates
            → update.lane ≡ lane_of s word → pending ≡ s.schedule.pending → cut.updates ≤ update.number → IsRendered p s lanes cut (kept_hooks self.old.hooks) k initials
            → IsRendered p (dispatched_for s word (hook instance place) update.op) lanes cut (kept_hooks self.new.hooks) k initials) }

        // A render that is in progress still is.
        ensures renders { OnOk result ((p : Program) (s : State) (g : Progress) → update.number ≡ length s.journal.updates → update.lane ≡ lane_of s word → pending ≡ s.schedule.pending
            → Renders p s g self.old → Renders p (dispatched_for s word (hook instance place) update.op) g self.new) }
        ensures stays { OnErr result ((p : Program) (s : State) (g : Progress) → Renders p s g self.old → Renders p s g self.new) }

        // It succeeds if there is room, and takes no more of it than for one update.
        ensures succeeds { 0 < hook_room instance place (kept_hooks self.old.hooks) → IsOk result }
        ensures room { hook_room instance place (kept_hooks self.old.hooks) ≤ hook_room instance place (kept_hooks self.new.hooks) + 1 }
    {
        self.hooks.dispatch(instance, place, word, update, pending)
    }

    // Does one unit. If memory runs out no unit is left.
    fn try_unit<L: Ledger>(&mut self, steps: &mut Steps<L>) -> Result<Unit, AllocError>
        requires { 0 < left_of self.old }
        ensures falls { OnOk result (left_of self.new < left_of self.old) }
        ensures last { IfOk result (λ u. MatchUnit u (left_of self.new ≡ 0) (0 < left_of self.new)) }
        ensures counts { OnOk result (self.new.units ≡ self.old.units + 1) }
        ensures ticks { OnOk result (steps.new + self.old.bodies ≡ steps.old + self.new.bodies) }
        ensures each { OnOk result (self.new.bodies ≤ self.old.bodies + 1) }
        ensures onward { OnOk result (Proceeds self.old self.new) }
        ensures stopped { OnErr result (UnitBreaksOff self.old self.new) }
        ensures rises { steps.old ≤ steps.new }
        ensures at_most_one { steps.new ≤ steps.old + 1 }
    {
        cursors_are_drawn();
        let at = self.at;
        self.at = At::Over;
        let seen = &self.resources;
        let scene = Scene {
            checked: &self.checked,
            versions: &seen.versions,
            resources: &seen.values,
            refreshes: seen.refreshes,
            throws: self.throws,
            lanes: self.lanes,
            cut: self.cut,
            ways: &self.ways,
        };
        let (next, evaluated) = advance(
            self.alloc,
            &mut self.fibers,
            at,
            &scene,
            &mut self.hooks,
            &mut self.contexts,
            steps,
        )?;
        self.at = next;
        self.units += 1;
        self.bodies += one_if(evaluated);
        Ok(unit_before(&self.at))
    }
}

/// A unit begins the place of a fiber or completes its node. If memory runs out the render is given up.
impl Units for Renderer {
    ghost left = { left_of };

    ghost done = { λ v. v.units };

    ghost bodies = { λ v. v.bodies };

    ghost goes_on = { Proceeds };

    ghost gives_up = { GivesUp };

    fn unit<L: Ledger>(&mut self, steps: &mut Steps<L>) -> Result<Unit, AllocError> {
        match self.try_unit(steps) {
            Ok(unit) => Ok(unit),
            Err(error) => {
                self.discard();
                Err(error)
            }
        }
    }

    ghost starts = { proceeds_same };

    ghost joins = { proceeds_join };

    ghost breaks_off = { gives_up_after };
}
