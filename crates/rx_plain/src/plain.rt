// The plain machine.
ghost use Rattle.std.specs.Prelude.{IfOk};
ghost use Rattle.rx_model.specs.State.{opening};
ghost use Rattle.rx_plain.specs.Stands.{StandsFor};

use rx_base::Cut;
use rx_changes::Lines;
use rx_check::Checked;
use rx_fresh::Evaluations;
use rx_hook_store::{HookStore, links_are_below};
use rx_lane::Lanes;
use rx_node::Node;
use rx_numbers::Numbers;
use rx_resources::{ResourceStore, Seen};
use rx_sched::{Event, RootLanes};
use std::alloc::{AllocError, Global};
use std::marker::Model;

/// A render in progress: nothing of it is kept but how far it has come. How many bodies it evaluated is not known.
#[derive(Drop)]
pub struct Going {
    pub(crate) lanes: Lanes,
    pub(crate) cut: Cut,
    pub(crate) seen: Seen,
    pub(crate) units: u64,
    // The lanes of the updates since it began.
    pub(crate) later: Lanes,
}

impl Model for Going {
    ghost use Rattle.rx_plain.specs.Plained as plained;

    ghost Value = { plained.Going };

    ghost view = { λ g. record { lanes = g.lanes; cut = g.cut; seen = g.seen; units = g.units; later = g.later } };
}

/// The state of a program's machine between two steps (react.dev, createRoot), for each number of bodies that its render in
/// progress may have evaluated: the committed tree of nodes, the hooks of its instances, and what is pending. It keeps no fiber,
/// and no update that is done.
pub struct Plain {
    pub(crate) alloc: Global,
    // Without the vacant places at the ends of its lists.
    pub(crate) tree: Option<Node>,
    pub(crate) hooks: HookStore,
    // What the last evaluations of bodies gave.
    pub(crate) evaluations: Evaluations,
    pub(crate) lanes: RootLanes,
    pub(crate) commits: u64,
    // How many resolutions the last commit saw.
    pub(crate) seen: u64,
    pub(crate) updates: u64,
    pub(crate) resolutions: u64,
    pub(crate) resources: ResourceStore,
    pub(crate) now: u64,
    pub(crate) event: Event,
    pub(crate) numbers: Numbers,
    pub(crate) passive: Lines,
    pub(crate) going: Option<Going>,
}

impl Model for Plain {
    ghost use Rattle.rx_plain.specs.Plained.{Plained};
    ghost use Rattle.rx_numbers.specs.Room.{numbers_seen};
    ghost use Rattle.rx_changes.specs.ChangesView.{passive_seen};
    ghost use Rattle.std.specs.Coded.{codes};
    ghost use Rattle.rx_node.specs.NodeCode.{node_code};
    ghost use Rattle.rx_elem.specs.ElementCode.{element_code};

    ghost Value = { Plained };

    ghost coded = { Prim.hlevel (codes, node_code, element_code) };

    ghost view = { λ m. record { tree = m.tree; hooks = m.hooks; evaluations = m.evaluations; schedule = m.lanes; commits = m.commits; seen = m.seen; updates = m.updates; resolutions = m.resolutions; resources = m.resources; now = m.now; event = m.event; numbers = numbers_seen m.numbers; passive = passive_seen m.passive; going = m.going } };
}

// It is taken apart here alone, once for all crates.
impl Drop for Plain {
    fn drop(self) {
        let Plain {
            alloc: _alloc,
            tree: _tree,
            hooks: _hooks,
            evaluations: _evaluations,
            lanes: _lanes,
            commits: _commits,
            seen: _seen,
            updates: _updates,
            resolutions: _resolutions,
            resources: _resources,
            now: _now,
            event: _event,
            numbers: _numbers,
            passive: _passive,
            going: _going,
        } = self;
    }
}

impl Plain {
    /// The machine before its first render: there is no tree, and `Default` is pending.
    ///
    /// # Errors
    ///
    /// Only if out of memory.
    pub fn new(alloc: Global, checked: &Checked) -> Result<Plain, AllocError>
        ensures { IfOk result (λ m. StandsFor checked.now opening m) }
    {
        links_are_below();
        let resources = ResourceStore::new(alloc, checked.resources().len())?;
        Ok(Plain {
            alloc,
            tree: None,
            hooks: HookStore::new(alloc),
            evaluations: Evaluations::new(alloc),
            lanes: RootLanes::new(),
            commits: 0,
            seen: 0,
            updates: 0,
            resolutions: 0,
            resources,
            now: 0,
            event: Event::new(false),
            numbers: Numbers {
                instance: 1,
                host: 1,
            },
            passive: Lines::new(alloc),
            going: None,
        })
    }
}
