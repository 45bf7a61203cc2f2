// The machine: a program, and its state between two steps.
ghost use Rattle.std.specs.Prelude.{◌≡◌, ◌∷◌, ◌+◌, ◌*◌, ◌≤◌, ◌↔◌, [], true, None, Some, IfOk, IsTrue, OnErr, OnOk, bytes_eq, is_some, length, position};
ghost use Rattle.rx_rules.specs.Bounds.{node_bound};
ghost use Rattle.rx_rules.specs.Names.{resources};
ghost use Rattle.rx_elem.specs.Spots.{hidden_count as hidden_in, node_count};
ghost use Rattle.rx_lists.specs.Shapes.{none, size};
ghost use Rattle.rx_links.specs.Drafts.{made_size, taken};
ghost use Rattle.rx_fiber.specs.Reading.{IsTreeOf};
ghost use Rattle.rx_model.specs.State as machine;
ghost use Rattle.rx_model.specs.State.{Progress, State, opening};
ghost use Rattle.rx_model.specs.Committing.{sight_of};
ghost use Rattle.rx_model.specs.Laws.{ShowsEverything};
ghost use Rattle.rx_render.specs.Renders.{HasCome};
ghost use Rattle.rx_writing.specs.Written.{with_lines};
ghost use Rattle.rx_step.specs.declared.step.Step.TheVariants as steps;
ghost use Rattle.rx_root.specs.Stands.{HasRoomFor, Stands, StandsForSome};
ghost use Rattle.rx_kept.specs.Taking.{CanTake};

use crate::turns::FLUSH_LIMIT;
use room_laws::fibers_have_room;
use run_laws::quiet_ends;
use rx_base::Name;
use rx_check::Checked;
use rx_commit::Shown;
use rx_fiber::Fiber;
use rx_hook_store::links_are_below;
use rx_instances as instances;
use rx_lane::{Lane, Lanes};
use rx_links::FiberTree;
use rx_read::Numbers;
use rx_render::Renderer;
use rx_report::Report;
use rx_resources::ResourceStore;
use rx_sched::{Event, RootLanes};
use rx_script::{dispatch_fits, step_fits};
use rx_step::{Dispatch, Step};
use rx_ways::Ways;
use std::alloc::{AllocError, Global};
use std::marker::Model;

// The numbers of a root stay below this one.
const NUMBER_LIMIT: u64 = 1 << 62;

// No tree of a program of either version has more nodes.
const NODE_LIMIT: u64 = 65_536;

/// A root (react.dev, createRoot): a program with its committed tree, the hooks of its instances, what is pending, and the
/// render in progress, if there is one.
pub struct Root {
    pub(crate) alloc: Global,
    pub(crate) renderer: Renderer,
    pub(crate) shown: Shown,
    pub(crate) lanes: RootLanes,
    pub(crate) commits: u64,
    pub(crate) updates: u64,
    pub(crate) resolutions: u64,
    // What is kept of the resources, by their numbers.
    pub(crate) resources: ResourceStore,
    pub(crate) now: u64,
    // The event that goes on.
    pub(crate) event: Event,
    // The numbers of the next new instance and the next new host.
    pub(crate) numbers: Numbers,
    // The lanes of the updates since the render in progress began.
    pub(crate) later: Lanes,
    // The instances to which updates were sent since then, and those above them, save those that the renderer has hints of.
    pub(crate) sent: Ways,
}

impl Model for Root {
    ghost use Rattle.rx_root.specs.Rooted.{Rooted};
    ghost use Rattle.rx_read.specs.NumbersView.{numbers_seen};
    ghost use Rattle.std.specs.Coded.{codes};
    ghost use Rattle.rx_ast.specs.ProgramCodes.{program_code};
    ghost use Rattle.rx_node.specs.NodeCode.{node_code};
    ghost use Rattle.rx_render.specs.TreesCode.{fiber_trees_code};

    ghost Value = { Rooted };

    ghost coded = { Prim.hlevel (codes, program_code, node_code, fiber_trees_code) };

    ghost view = { λ r. record { rendering = r.renderer; shown = r.shown; schedule = r.lanes; commits = r.commits; updates = r.updates; resolutions = r.resolutions; resources = r.resources; now = r.now; event = r.event; numbers = numbers_seen r.numbers; later = r.later } };
}

// It is taken apart here alone, once for all crates.
impl Drop for Root {
    fn drop(self) {
        let Root {
            alloc: _alloc,
            renderer: _renderer,
            shown: _shown,
            lanes: _lanes,
            commits: _commits,
            updates: _updates,
            resolutions: _resolutions,
            resources: _resources,
            now: _now,
            event: _event,
            numbers: _numbers,
            later: _later,
            sent: _sent,
        } = self;
    }
}

impl Root {
    /// A root before its first render (react.dev, createRoot): there is no tree, and `Default` is pending. It has the room for
    /// the first values of all resources of the program.
    ///
    /// # Errors
    ///
    /// Only if out of memory.
    pub fn new(alloc: Global, checked: Checked) -> Result<Root, AllocError>
        ensures stands { IfOk result (λ r. Stands checked opening r) }
        ensures program { IfOk result (λ r. r.rendering.program ≡ checked) }
        ensures resources { IfOk result (λ r. length r.resources ≡ length (resources checked)) }
        ensures some { IfOk result (λ r. StandsForSome r) }
    {
        links_are_below();
        let resources = ResourceStore::new(alloc, checked.resources().len())?;
        let renderer = Renderer::new(alloc, checked)?;
        Ok(Root {
            alloc,
            renderer,
            shown: Shown::new(alloc),
            lanes: RootLanes::new(),
            commits: 0,
            updates: 0,
            resolutions: 0,
            resources,
            now: 0,
            event: Event::new(false),
            numbers: Numbers {
                instance: 1,
                host: 1,
            },
            later: Lanes::none(),
            sent: Ways::new(alloc),
        })
    }

    /// Whether one more step may be taken: the numbers that come next stay below 2 to the 62nd power with all that one step may
    /// add to them. Those are two updates, or one resolution, or 24 commits, each of at most 65,536 new instances and hosts. No script
    /// comes near that.
    pub fn has_room(&self) -> bool
        ensures { IsTrue result ↔ HasRoomFor 1 self.entry.now }
    {
        let nodes = NODE_LIMIT * FLUSH_LIMIT;
        self.updates < NUMBER_LIMIT - 2
            && self.resolutions < NUMBER_LIMIT - 1
            && self.commits < NUMBER_LIMIT - FLUSH_LIMIT
            && self.numbers.instance < NUMBER_LIMIT - nodes
            && self.numbers.host < NUMBER_LIMIT - nodes
    }

    /// Whether a dispatch is one for this program: its path names components from `App` on, the last of which has the hook, of
    /// the kind that the dispatch wants; its function takes a state and an argument; and no place in the path is above 4,095, or
    /// 65,535 in version 2. Its number is an integer of the program. Whether there is such an instance, `dispatch` tells.
    pub fn can_dispatch(&self, dispatch: &Dispatch) -> bool
        ensures { IsTrue result ↔ CanTake self.entry.now.rendering.program (steps.Dispatch dispatch.now) }
    {
        dispatch_fits(self.renderer.checked(), dispatch)
    }

    /// Whether the program has a resource of this name.
    pub fn has_resource(&self, name: &Name) -> bool
        ensures { result ≡ is_some (position (bytes_eq name.now) (resources self.entry.now.rendering.program)) }
    {
        self.renderer.checked().resource(name.text()).is_some()
    }

    /// Whether a step is one for this program: all that it names is there, and its numbers are in their bounds (the time of a
    /// tick up to 1,000,000, the budget of a turn from 1 to that).
    pub fn can_take(&self, step: &Step) -> bool
        ensures { IsTrue result ↔ CanTake self.entry.now.rendering.program step.now }
    {
        step_fits(self.renderer.checked(), step)
    }

    /// The lanes that have something to render.
    pub fn pending(&self) -> Lanes
        ensures { (s : State) → Stands self.entry.now.rendering.program s self.entry.now → result ≡ s.schedule.pending }
    {
        self.lanes.pending()
    }

    /// The pending lanes that wait: their last render was deferred, since it would hide what is shown (react.dev, Suspense).
    pub fn suspended(&self) -> Lanes
        ensures { (s : State) → Stands self.entry.now.rendering.program s self.entry.now → result ≡ s.schedule.suspended }
    {
        self.lanes.suspended()
    }

    /// How many boundaries of the committed tree hide their children behind their fallbacks (react.dev, Suspense).
    pub fn hidden_count(&self) -> u32
        ensures { (s : State) → Stands self.entry.now.rendering.program s self.entry.now → result ≡ hidden_in s.tree }
    {
        self.renderer.facts();
        instances::hidden_count(self.renderer.fibers())
    }

    /// How many nodes the committed tree has.
    pub fn nodes(&self) -> u64
        ensures { (s : State) → Stands self.entry.now.rendering.program s self.entry.now → result ≡ node_count s.tree }
    {
        self.renderer.facts();
        instances::node_count(self.renderer.fibers())
    }

    /// The two trees of fibers (react.dev, Render and Commit): the current one stands for the committed tree, and the other one
    /// stands where the render in progress stands, if there is one. If there is none, there is no fiber but the current ones.
    pub fn fibers(&self) -> &FiberTree<Fiber>
        ensures trees { result.now ≡ self.entry.now.rendering.trees }
        ensures current { (s : State) → Stands self.entry.now.rendering.program s self.entry.now → IsTreeOf s.tree result.now.current }
        ensures in_progress { (s : State) (g : Progress) → Stands self.entry.now.rendering.program s self.entry.now → s.progress ≡ Some g
            → HasCome (sight_of self.entry.now.rendering.program s g) s.tree self.entry.now.rendering }
        ensures at_rest { (s : State) → Stands self.entry.now.rendering.program s self.entry.now → s.progress ≡ None → result.now.draft ≡ taken none }
    {
        self.renderer.fibers()
    }

    /// How many fibers there are, those of a render in progress too: never more than three for each node of the bound, and if
    /// no render is in progress at most two for each node of the committed tree.
    pub fn live(&self) -> u64
        ensures live { result ≡ size self.entry.now.rendering.trees.current + made_size self.entry.now.rendering.trees.draft }
        ensures few { (s : State) → Stands self.entry.now.rendering.program s self.entry.now → result ≤ 3 * node_bound self.entry.now.rendering.program }
        ensures at_rest { (s : State) → Stands self.entry.now.rendering.program s self.entry.now → s.progress ≡ None → result ≤ 2 * node_count s.tree }
    {
        fibers_have_room();
        self.renderer.live()
    }

    /// True if no lane is pending and no boundary is hidden. Then each hook holds all its updates in the order in which they
    /// came, and the tree is what a render with all lanes would give.
    pub fn is_quiet(&self) -> bool
        ensures quiet { (s : State) → Stands self.entry.now.rendering.program s self.entry.now → result ≡ machine.is_quiet s }
        ensures shows { (s : State) → Stands self.entry.now.rendering.program s self.entry.now → result ≡ true → ShowsEverything self.entry.now.rendering.program s }
    {
        self.renderer.facts();
        quiet_ends();
        self.pending().is_none() && self.hidden_count() == 0
    }

    /// How many commits there were.
    pub fn commits(&self) -> u64
        ensures { result ≡ self.entry.now.commits }
    {
        self.commits
    }

    /// How many updates were accepted.
    pub fn updates(&self) -> u64
        ensures { result ≡ self.entry.now.updates }
    {
        self.updates
    }

    /// Writes the last line of a report, by what is pending and hidden.
    ///
    /// # Errors
    ///
    /// Only if out of memory; the report is then as it was.
    pub fn end_line(&self, log: &mut Report) -> Result<(), AllocError>
        ensures ok { OnOk result ((s : State) → Stands self.entry.now.rendering.program s self.entry.now → log.new ≡ with_lines log.old (machine.end_line s ∷ [])) }
        ensures err { OnErr result (log.new ≡ log.old) }
    {
        self.renderer.facts();
        log.end_line(self.pending(), self.hidden_count())
    }
}
