// Whole lines, each with its end.
ghost use Rattle.std.specs.Prelude.{◌≡◌, List, [], ◌∷◌, ◌++◌, ◌&&◌, nat_eq, map, OnOk};
ghost use Rattle.std.specs.List.{zip};
ghost use Rattle.rx_elem.specs.Trees.{Node};
ghost use Rattle.rx_forest.specs.Forests.{forest_of};
ghost use Rattle.rx_forest.specs.Hosts.{Host};
ghost use Rattle.rx_host.specs.Kept.{forest_kept};
ghost use Rattle.rx_lane.specs.Lanes.{has, is_empty, lanes_where};
ghost use Rattle.rx_lines.specs.Lines.{Options};
ghost use Rattle.rx_lines.specs.Lines as report;
ghost use Rattle.rx_report.specs.TreeOrder.{AreInTreeOrder};

use crate::draft::Draft;
use rx_base::{Int, Name, Str};
use rx_effect::LogLine;
use rx_forest::HostOp;
use rx_host::HostTree;
use rx_lane::Lanes;
use std::alloc::AllocError;

impl Draft {
    /// A commit.
    pub fn put_commit_line(
        &mut self,
        counts: bool,
        number: u64,
        lanes: Lanes,
        units: u64,
        bodies: u64,
    ) -> Result<(), AllocError>
        ensures put { (tree : Node) → OnOk result (self.new.begun ≡ self.old.begun ++ report.line_text counts (report.committed number (lanes_where (has lanes)) (record { units = units; bodies = bodies }) tree) ++ 10 ∷ []) }
        ensures done { self.new.done ≡ self.old.done }
    {
        self.put(b"commit ")?;
        self.put_number(number)?;
        self.put(b" ")?;
        self.put_lanes(lanes)?;
        self.put_counts(counts, units, bodies)?;
        self.put(b"\n")
    }

    /// An operation on the tree of hosts.
    pub fn put_op_line(&mut self, counts: bool, op: &HostOp) -> Result<(), AllocError>
        ensures put { OnOk result (self.new.begun ≡ self.old.begun ++ report.line_text counts (report.operated op.now) ++ 10 ∷ []) }
        ensures done { self.new.done ≡ self.old.done }
    {
        self.put(b"op ")?;
        self.put_op(op)?;
        self.put(b"\n")
    }

    /// A value that an error boundary caught.
    pub fn put_caught_line(&mut self, counts: bool, value: Int) -> Result<(), AllocError>
        ensures put { OnOk result (self.new.begun ≡ self.old.begun ++ report.line_text counts (report.caught value) ++ 10 ∷ []) }
        ensures done { self.new.done ≡ self.old.done }
    {
        self.put(b"caught ")?;
        self.put_int(value)?;
        self.put(b"\n")
    }

    // What is done with an effect.
    fn put_change(&mut self, passive: bool, created: bool) -> Result<(), AllocError>
        ensures put { OnOk result (self.new.begun ≡ self.old.begun ++ report.phase_text passive ++ report.change_text created) }
        ensures done { self.new.done ≡ self.old.done }
    {
        let word: &[u8] = match (passive, created) {
            (true, true) => b"passive + ",
            (true, false) => b"passive - ",
            (false, true) => b"layout + ",
            (false, false) => b"layout - ",
        };
        self.put(word)
    }

    /// An effect that was created or destroyed.
    pub fn put_log_line(&mut self, counts: bool, line: &LogLine) -> Result<(), AllocError>
        ensures put { OnOk result (self.new.begun ≡ self.old.begun ++ report.line_text counts (report.logged line.now) ++ 10 ∷ []) }
        ensures done { self.new.done ≡ self.old.done }
    {
        self.put_change(line.passive, line.created)?;
        self.put_instance(line.instance)?;
        self.put(b" ")?;
        self.put_quoted(&line.label)?;
        self.put_values(line.values.as_slice())?;
        self.put(b"\n")
    }

    /// The tree of hosts: its head, and a line for each host, in tree order.
    pub fn put_tree_lines(&mut self, hosts: &HostTree) -> Result<(), AllocError>
        ensures put { (o : Options) (all : List Host) → AreInTreeOrder all → forest_kept hosts.now ≡ forest_of all → OnOk result (self.new.begun ≡ self.old.begun ++ report.report_bytes o (report.tree_lines all)) }
        ensures done { self.new.done ≡ self.old.done }
    {
        self.put(b"tree\n")?;
        self.put_host_lines(hosts)
    }

    /// A deferred render.
    pub fn put_defer_line(
        &mut self,
        counts: bool,
        lanes: Lanes,
        units: u64,
        bodies: u64,
    ) -> Result<(), AllocError>
        ensures put { OnOk result (self.new.begun ≡ self.old.begun ++ report.line_text counts (report.deferred (lanes_where (has lanes)) (record { units = units; bodies = bodies })) ++ 10 ∷ []) }
        ensures done { self.new.done ≡ self.old.done }
    {
        self.put(b"defer ")?;
        self.put_lanes(lanes)?;
        self.put_counts(counts, units, bodies)?;
        self.put(b"\n")
    }

    /// A dispatch whose path leads to no instance.
    pub fn put_no_instance_line(
        &mut self,
        counts: bool,
        path: &[(Name, u64)],
    ) -> Result<(), AllocError>
        ensures put { OnOk result (self.new.begun ≡ self.old.begun ++ report.line_text counts (report.no_instance path.now) ++ 10 ∷ []) }
        ensures done { self.new.done ≡ self.old.done }
    {
        self.put(b"no-instance ")?;
        self.put_path(path)?;
        self.put(b"\n")
    }

    /// A resource that has a value already.
    pub fn put_already_line(
        &mut self,
        counts: bool,
        name: &Name,
        value: Int,
    ) -> Result<(), AllocError>
        ensures put { OnOk result (self.new.begun ≡ self.old.begun ++ report.line_text counts (report.already name.now value) ++ 10 ∷ []) }
        ensures done { self.new.done ≡ self.old.done }
    {
        self.put(b"already ")?;
        self.put_name(name)?;
        self.put(b" ")?;
        self.put_int(value)?;
        self.put(b"\n")
    }

    /// An instance with its hooks.
    pub fn put_state_line(
        &mut self,
        counts: bool,
        instance: u64,
        name: &Name,
        hooks: &[Name],
        values: &[Int],
        hidden: bool,
    ) -> Result<(), AllocError>
        ensures put { OnOk result (self.new.begun ≡ self.old.begun ++ report.line_text counts (report.state_of instance name.now (map (λ x. record { name = x.0; value = x.1 }) (zip hooks.now values.now)) hidden) ++ 10 ∷ []) }
        ensures done { self.new.done ≡ self.old.done }
    {
        self.put(b"  ")?;
        self.put_instance(instance)?;
        self.put(b" ")?;
        self.put_name(name)?;
        self.put_hooks(hooks, values)?;
        self.put_hidden(hidden)?;
        self.put(b"\n")
    }

    /// The end, if something is left to do.
    fn put_pending_line(
        &mut self,
        counts: bool,
        pending: Lanes,
        hidden: u32,
    ) -> Result<(), AllocError>
        ensures put { OnOk result (self.new.begun ≡ self.old.begun ++ report.line_text counts (report.end_pending (lanes_where (has pending)) hidden) ++ 10 ∷ []) }
        ensures done { self.new.done ≡ self.old.done }
    {
        self.put(b"end pending ")?;
        self.put_lanes(pending)?;
        self.put(b" suspended ")?;
        self.put_number(hidden as u64)?;
        self.put(b"\n")
    }

    /// The end.
    pub fn put_end_line(
        &mut self,
        counts: bool,
        pending: Lanes,
        hidden: u32,
    ) -> Result<(), AllocError>
        ensures put { OnOk result (self.new.begun ≡ self.old.begun ++ report.line_text counts (report.last_line (lanes_where (has pending)) hidden) ++ 10 ∷ []) }
        ensures done { self.new.done ≡ self.old.done }
    {
        if is_quiet(pending, hidden) {
            return self.put(b"end quiet\n");
        }
        self.put_pending_line(counts, pending, hidden)
    }
}

// Whether nothing is left to do.
fn is_quiet(pending: Lanes, hidden: u32) -> bool
    ensures { result ≡ (is_empty (lanes_where (has pending)) && nat_eq hidden 0) }
{
    pending.is_none() && hidden == 0
}
