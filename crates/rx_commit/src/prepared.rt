// A commit that is prepared.
ghost use Rattle.std.specs.Prelude.{◌≡◌, ◌∷◌, ◌++◌, [], Option, Some, IfOk, OnErr, OnOk, map};
ghost use Rattle.std.specs.Option.{option_copied};
ghost use Rattle.rx_elem.specs.Compare.{changes, compare_trees};
ghost use Rattle.rx_elem.specs.Trees.{Node};
ghost use Rattle.rx_forest.specs.Hosts.{hosts};
ghost use Rattle.rx_forest.specs.HostOps.{host_ops, ops_between, placed_hosts};
ghost use Rattle.rx_host_ops.specs.Among.{ops_among};
ghost use Rattle.rx_lane.specs.Lanes.{has, lanes_where};
ghost use Rattle.rx_lines.specs.Lines.{caught, committed, logged, operated};
ghost use Rattle.rx_pruned.specs.Besides.{IsBeside};
ghost use Rattle.end_laws.specs.Trimmed.{trimmed, trimmed_if};
ghost use Rattle.host_laws.specs.Commits.{IsCommit};
ghost use Rattle.host_laws.specs.Related.{AreDistinct};
ghost use Rattle.prune_laws.specs.Present.{IfHasNoNull};
ghost use Rattle.prune_laws.specs.Staying.{AreOfCommit};
ghost use Rattle.rx_changes.specs.ChangesView.{changes_seen};
ghost use Rattle.rx_changes.specs.Found.{found_in};
ghost use Rattle.rx_commit.specs.Shown.{Prepares, TellsWhere};
ghost use Rattle.rx_commit.specs.Written.{lines_of, sync_lines};
ghost use Rattle.rx_writing.specs.Written.{GoesOn, with_lines};

use prune_laws::{hosts_that_stay_need_nothing, pruned_trees_compare_alike};
use rx_base::Int;
use rx_changes::{Changes, Lines};
use rx_forest::HostOp;
use rx_host_ops::{
    Host, have_same_numbers, hosts as listed, ops_among as among_all, ops_between as between,
    ops_in_place,
};
use rx_lane::{Lane, Lanes};
use rx_node as node;
use rx_pruned::Beside;
use rx_report::Report;
use rx_writing::{add_caught, add_lines, add_ops, cut_back};
use std::alloc::{AllocError, Global};
use std::marker::Model;

/// What a commit does, all of it prepared (react.dev, Render and Commit): the operations on the hosts, what error boundaries catch,
/// the layout effects, and the passive effects that it leaves pending.
#[derive(Drop)]
pub struct Prepared {
    pub(crate) ops: Vec<HostOp>,
    caught: Vec<Int>,
    layout: Lines,
    pub(crate) passive: Lines,
}

impl Model for Prepared {
    ghost use Rattle.std.specs.Prelude.{◌++◌};
    ghost use Rattle.rx_commit.specs.Shown as shown;
    ghost use Rattle.rx_changes.specs.ChangesView.{passive_seen};

    ghost Value = { shown.Prepared };

    ghost view = { λ p. record { ops = p.ops.items; caught = p.caught.items; layout = p.layout.destroyed.items ++ p.layout.created.items; passive = passive_seen p.passive } };
}

// The operations from the hosts of a tree to those of another, if hosts of these numbers are placed among those that are told.
fn ops_from(
    alloc: Global,
    old: Option<&node::Node>,
    after: &[Host],
    told: &[Host],
    placed: &[u64],
) -> Result<Vec<HostOp>, AllocError>
    ensures { IfOk result (λ ops. ops.items ≡ ops_among (hosts (option_copied old.entry)) after.now told.now placed.now) }
{
    let before = listed(alloc, old)?;
    among_all(alloc, &before, after, told, placed)
}

// The operations from the hosts of a tree to those of another, if none is placed. Most often each host stands where it stood.
fn changes_from(
    alloc: Global,
    old: Option<&node::Node>,
    after: &[Host],
) -> Result<Vec<HostOp>, AllocError>
    ensures { IfOk result (λ ops. AreDistinct (hosts (option_copied old.entry)) → ops.items ≡ ops_between (hosts (option_copied old.entry)) after.now []) }
{
    let before = listed(alloc, old)?;
    if have_same_numbers(&before, after) {
        return ops_in_place(alloc, &before, after);
    }
    between(alloc, &before, after, &[])
}

// The operations of a commit, between the hosts of the trees without what stayed. A host that is placed goes before its next
// sibling, and that one may have stayed: only where such ones go is told by other hosts of the new tree.
fn ops_beside(
    alloc: Global,
    beside: &Beside,
    after: &[Host],
    placed: &[u64],
    told: &[Host],
) -> Result<Vec<HostOp>, AllocError>
    requires after { after.now ≡ hosts (Some beside.now.pruned_new) }
    requires placed { placed.now ≡ placed_hosts (changes (compare_trees beside.now.pruned_old beside.now.pruned_new)) }
    ensures { IfOk result (λ ops. (old : Option Node) (new : Node) → IsBeside old new beside.now → IfHasNoNull old → AreOfCommit old new → TellsWhere placed.now told.now new → ops.items ≡ host_ops old new) }
{
    pruned_trees_compare_alike();
    hosts_that_stay_need_nothing();
    let before = beside.pruned_old.as_ref();
    if placed.is_empty() {
        changes_from(alloc, before, after)
    } else {
        ops_from(alloc, before, after, told, placed)
    }
}

impl Prepared {
    // The commit of a finished tree after the one that is shown, by what these change without what stayed the same.
    pub(crate) fn new(
        alloc: Global,
        beside: &Beside,
        changes: Changes,
        after: &[Host],
        told: &[Host],
    ) -> Result<Prepared, AllocError>
        requires after { after.now ≡ hosts (Some beside.now.pruned_new) }
        requires changes { changes_seen changes ≡ found_in (compare_trees beside.now.pruned_old beside.now.pruned_new) }
        ensures { IfOk result (λ x. (old : Option Node) (new : Node) → IsBeside (trimmed_if old) (trimmed new) beside.now → IfHasNoNull old → IsCommit old new → TellsWhere changes.placed.items told.now new → Prepares old new x) }
    {
        pruned_trees_compare_alike();
        let Changes {
            layout,
            passive,
            placed,
            caught,
            hidden: _hidden,
        } = changes;
        Ok(Prepared {
            ops: ops_beside(alloc, beside, after, &placed, told)?,
            caught,
            layout,
            passive,
        })
    }

    /// Writes what the commit does: its own line with its number, from 1, its lanes and its counts, then the operations, what error
    /// boundaries catch, and the layout effects. A commit with the lane Sync runs its passive effects itself, and they come behind.
    ///
    /// # Errors
    ///
    /// Only if out of memory; the report is then as it was.
    pub fn write(
        &self,
        log: &mut Report,
        number: u64,
        lanes: Lanes,
        units: u64,
        bodies: u64,
    ) -> Result<(), AllocError>
        ensures written { (old : Option Node) (new : Node) → Prepares old new self.now → OnOk result (log.new ≡ with_lines log.old (lines_of number (lanes_where (has lanes)) (record { units = units; bodies = bodies }) old new)) }
        ensures unchanged { OnErr result (log.new ≡ log.old) }
    {
        let len = log.len();
        let written = self.write_all(log, number, lanes, units, bodies);
        cut_back(log, len, written)
    }

    // The same, without taking back what was written if memory runs out.
    fn write_all(
        &self,
        log: &mut Report,
        number: u64,
        lanes: Lanes,
        units: u64,
        bodies: u64,
    ) -> Result<(), AllocError>
        ensures written { (old : Option Node) (new : Node) → Prepares old new self.now → OnOk result (log.new ≡ with_lines log.old (lines_of number (lanes_where (has lanes)) (record { units = units; bodies = bodies }) old new)) }
        ensures goes_on { GoesOn log.old log.new }
    {
        self.write_own(log, number, lanes, units, bodies)?;
        self.write_sync(log, lanes)
    }

    // Its line, the operations, what error boundaries catch, and the layout effects.
    fn write_own(
        &self,
        log: &mut Report,
        number: u64,
        lanes: Lanes,
        units: u64,
        bodies: u64,
    ) -> Result<(), AllocError>
        ensures written { (new : Node) → OnOk result (log.new ≡ with_lines log.old (committed number (lanes_where (has lanes)) (record { units = units; bodies = bodies }) new ∷ (map operated self.now.ops ++ (map caught self.now.caught ++ map logged self.now.layout)))) }
        ensures goes_on { GoesOn log.old log.new }
    {
        log.commit_line(number, lanes, units, bodies)?;
        add_ops(log, &self.ops)?;
        add_caught(log, &self.caught)?;
        add_lines(log, &self.layout)
    }

    // The passive effects, if the commit runs them itself.
    fn write_sync(&self, log: &mut Report, lanes: Lanes) -> Result<(), AllocError>
        ensures written { OnOk result (log.new ≡ with_lines log.old (sync_lines lanes self.now.passive)) }
        ensures goes_on { GoesOn log.old log.new }
    {
        if lanes.has(Lane::Sync) {
            return add_lines(log, &self.passive);
        }
        Ok(())
    }
}
