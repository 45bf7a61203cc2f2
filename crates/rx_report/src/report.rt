// A report that grows line by line.
ghost use Rattle.std.specs.Prelude.{◌≡◌, List, [], ◌++◌, take, length, map, OnOk, OnErr};
ghost use Rattle.std.specs.List.{zip};
ghost use Rattle.rx_elem.specs.Trees.{Node};
ghost use Rattle.rx_forest.specs.Forests.{forest_of};
ghost use Rattle.rx_forest.specs.Hosts.{Host};
ghost use Rattle.rx_host.specs.Kept.{forest_kept};
ghost use Rattle.rx_lane.specs.Lanes.{has, lanes_where};
ghost use Rattle.rx_lines.specs.Lines as report;
ghost use Rattle.rx_report.specs.TreeOrder.{AreInTreeOrder};

use crate::draft::Draft;
use rx_base::{Int, Name, Str};
use rx_effect::LogLine;
use rx_forest::HostOp;
use rx_host::HostTree;
use rx_lane::Lanes;
use std::alloc::{AllocError, Global};
use std::marker::Model;

/// A report: its lines so far, as bytes. Contracts see these bytes, and what the report shows beside its other lines.
///
/// Each call that writes a line fails only if out of memory, and then leaves the report as it was. Lanes are
/// printed by falling priority.
#[derive(Drop)]
pub struct Report {
    draft: Draft,
    counts: bool,
    ops: bool,
}

impl Model for Report {
    ghost use Rattle.std.specs.Prelude.{◌++◌};
    ghost use Rattle.rx_lines.specs.Lines.{Written};

    ghost Value = { Written };

    ghost view = { λ r. record { options = record { counts = r.counts; ops = r.ops }; bytes = r.draft.done ++ r.draft.begun } };
}

impl Report {
    /// A report without a line. It shows how many units and bodies each render took if `counts`, and the operations on
    /// the tree of hosts if `ops`.
    pub fn new(alloc: Global, counts: bool, ops: bool) -> Report
        ensures { result ≡ record { options = record { counts = counts; ops = ops }; bytes = [] } }
    {
        Report {
            draft: Draft::new(alloc),
            counts,
            ops,
        }
    }

    /// The bytes so far.
    pub fn bytes(&self) -> &[u8]
        ensures { result.now ≡ self.now.bytes }
    {
        self.draft.bytes()
    }

    /// The number of bytes so far.
    pub fn len(&self) -> u64
        ensures { result ≡ length self.now.bytes }
    {
        self.draft.bytes().len() as u64
    }

    /// Keeps so many bytes from the front.
    pub fn cut(&mut self, len: u64)
        ensures { self.new ≡ record { options = self.old.options; bytes = take len self.old.bytes } }
    {
        self.draft.cut(len);
    }

    /// A commit with its number, from 1, and with the lanes of its render. The tree that it commits shows in no text.
    pub fn commit_line(
        &mut self,
        number: u64,
        lanes: Lanes,
        units: u64,
        bodies: u64,
    ) -> Result<(), AllocError>
        ensures written { (tree : Node) → OnOk result (self.new ≡ report.with_line self.old (report.committed number (lanes_where (has lanes)) (record { units = units; bodies = bodies }) tree)) }
        ensures unchanged { OnErr result (self.new ≡ self.old) }
    {
        self.draft.begin();
        let written = self
            .draft
            .put_commit_line(self.counts, number, lanes, units, bodies);
        self.draft.end(written)
    }

    /// A deferred render, by its lanes.
    pub fn defer_line(&mut self, lanes: Lanes, units: u64, bodies: u64) -> Result<(), AllocError>
        ensures written { OnOk result (self.new ≡ report.with_line self.old (report.deferred (lanes_where (has lanes)) (record { units = units; bodies = bodies }))) }
        ensures unchanged { OnErr result (self.new ≡ self.old) }
    {
        self.draft.begin();
        let written = self.draft.put_defer_line(self.counts, lanes, units, bodies);
        self.draft.end(written)
    }

    /// An operation on the tree of hosts, if the report shows them.
    pub fn op_line(&mut self, op: &HostOp) -> Result<(), AllocError>
        ensures written { OnOk result (self.new ≡ report.with_line self.old (report.operated op.now)) }
        ensures unchanged { OnErr result (self.new ≡ self.old) }
    {
        if !self.ops {
            return Ok(());
        }
        self.draft.begin();
        let written = self.draft.put_op_line(self.counts, op);
        self.draft.end(written)
    }

    /// A value that an error boundary caught (react.dev, Catching rendering errors with an error boundary).
    pub fn caught_line(&mut self, value: Int) -> Result<(), AllocError>
        ensures written { OnOk result (self.new ≡ report.with_line self.old (report.caught value)) }
        ensures unchanged { OnErr result (self.new ≡ self.old) }
    {
        self.draft.begin();
        let written = self.draft.put_caught_line(self.counts, value);
        self.draft.end(written)
    }

    /// An effect that was created or destroyed.
    pub fn log_line(&mut self, line: &LogLine) -> Result<(), AllocError>
        ensures written { OnOk result (self.new ≡ report.with_line self.old (report.logged line.now)) }
        ensures unchanged { OnErr result (self.new ≡ self.old) }
    {
        self.draft.begin();
        let written = self.draft.put_log_line(self.counts, line);
        self.draft.end(written)
    }

    /// A dispatch whose path leads to no instance.
    pub fn no_instance_line(&mut self, path: &[(Name, u64)]) -> Result<(), AllocError>
        ensures written { OnOk result (self.new ≡ report.with_line self.old (report.no_instance path.now)) }
        ensures unchanged { OnErr result (self.new ≡ self.old) }
    {
        self.draft.begin();
        let written = self.draft.put_no_instance_line(self.counts, path);
        self.draft.end(written)
    }

    /// A resource that has a value already, with that value.
    pub fn already_line(&mut self, name: &Name, value: Int) -> Result<(), AllocError>
        ensures written { OnOk result (self.new ≡ report.with_line self.old (report.already name.now value)) }
        ensures unchanged { OnErr result (self.new ≡ self.old) }
    {
        self.draft.begin();
        let written = self.draft.put_already_line(self.counts, name, value);
        self.draft.end(written)
    }

    /// The head of the lines of all instances.
    pub fn state_head(&mut self) -> Result<(), AllocError>
        ensures written { OnOk result (self.new ≡ report.with_line self.old report.state_head) }
        ensures unchanged { OnErr result (self.new ≡ self.old) }
    {
        self.draft.begin();
        let written = self.draft.put(b"state\n");
        self.draft.end(written)
    }

    /// An instance with its number and its component's name, and each of its hooks with its value, in statement order.
    pub fn state_line(
        &mut self,
        instance: u64,
        name: &Name,
        hooks: &[Name],
        values: &[Int],
        hidden: bool,
    ) -> Result<(), AllocError>
        ensures written { OnOk result (self.new ≡ report.with_line self.old (report.state_of instance name.now (map (λ x. record { name = x.0; value = x.1 }) (zip hooks.now values.now)) hidden)) }
        ensures unchanged { OnErr result (self.new ≡ self.old) }
    {
        self.draft.begin();
        let written = self
            .draft
            .put_state_line(self.counts, instance, name, hooks, values, hidden);
        self.draft.end(written)
    }

    /// The tree of hosts, if hosts in tree order are what it stands for: its head, and a line for each of them, two spaces
    /// further in for each level, with its attributes by name.
    pub fn tree_lines(&mut self, hosts: &HostTree) -> Result<(), AllocError>
        ensures written { (all : List Host) → AreInTreeOrder all → forest_kept hosts.now ≡ forest_of all → OnOk result (self.new ≡ record { options = self.old.options; bytes = self.old.bytes ++ report.report_bytes self.old.options (report.tree_lines all) }) }
        ensures unchanged { OnErr result (self.new ≡ self.old) }
    {
        self.draft.begin();
        let written = self.draft.put_tree_lines(hosts);
        self.draft.end(written)
    }

    /// The last line, with the lanes that are pending and the number of hidden boundaries.
    pub fn end_line(&mut self, pending: Lanes, hidden: u32) -> Result<(), AllocError>
        ensures written { OnOk result (self.new ≡ report.with_line self.old (report.last_line (lanes_where (has pending)) hidden)) }
        ensures unchanged { OnErr result (self.new ≡ self.old) }
    {
        self.draft.begin();
        let written = self.draft.put_end_line(self.counts, pending, hidden);
        self.draft.end(written)
    }
}
