// What a page shows of a step.
use rx_lane::Lanes;
use rx_sched::Choice;

/// A render in progress: its lanes, and the units and bodies that it has used so far.
#[derive(Clone, Copy, Debug, PartialEq, Eq)]
pub struct Rendering {
    pub lanes: Lanes,
    pub units: u64,
    pub bodies: u64,
}

/// What the table of a section shows of a state.
#[derive(Clone, Copy, Debug, PartialEq, Eq)]
pub struct Facts {
    /// The lanes that have something to render.
    pub pending: Lanes,
    /// Those of them whose last render was deferred.
    pub suspended: Lanes,
    /// The lanes of transitions and retries that have waited too long.
    pub expired: Lanes,
    /// The render in progress, if there is one.
    pub rendering: Option<Rendering>,
    /// What the next turn does.
    pub next: Choice,
    /// How many boundaries are hidden.
    pub hidden: u64,
    /// The clock.
    pub time: u64,
}

/// What a page shows of a step: the step itself, the lines that it writes, and the state after it.
#[derive(Drop)]
pub struct View {
    /// The step, as a line of a script.
    pub title: Vec<u8>,
    /// The lines of the report that it writes.
    pub lines: Vec<u8>,
    /// Whether a turn yields in it.
    pub yields: bool,
    /// The tree of hosts, as a report has it.
    pub tree: Vec<u8>,
    /// The hooks of all instances, as a report has them.
    pub hooks: Vec<u8>,
    /// What the table shows.
    pub facts: Facts,
}
