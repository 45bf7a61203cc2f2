// What is shown.
ghost use Rattle.std.specs.Prelude.{◌≡◌, Option, Some, None, IfOk, OnErr, OnOk};
ghost use Rattle.rx_elem.specs.Trees.{Node};
ghost use Rattle.rx_elem.specs.Compare.{compare_trees};
ghost use Rattle.rx_effect.specs.EffectLog as effects;
ghost use Rattle.rx_effect.specs.EffectLog.{no_passive, passive_of};
ghost use Rattle.rx_forest.specs.Forests.{forest_of};
ghost use Rattle.rx_forest.specs.Hosts.{hosts};
ghost use Rattle.rx_host.specs.Kept.{forest_kept};
ghost use Rattle.rx_lines.specs.Lines.{tree_lines};
ghost use Rattle.rx_report.specs.TreeOrder.{AreInTreeOrder};
ghost use Rattle.rx_pruned.specs.Besides.{IsBeside};
ghost use Rattle.end_laws.specs.Trimmed.{trimmed, trimmed_if};
ghost use Rattle.host_laws.specs.Commits.{IsCommit, TextsAreLeaves};
ghost use Rattle.prune_laws.specs.Present.{IfHasNoNull};
ghost use Rattle.rx_changes.specs.ChangesView.{changes_seen};
ghost use Rattle.rx_changes.specs.Found.{found_in};
ghost use Rattle.rx_commit.specs.Shown.{CanCommit, Prepares, Shows, TellsWhere};
ghost use Rattle.rx_writing.specs.Written.{passive_lines, with_lines};

use crate::prepared::Prepared;
use rx_changes::{Changes, Lines};
use rx_host::{HostTree, apply_all};
use rx_host_ops::Host;
use rx_pruned::Beside;
use rx_report::Report;
use rx_writing::{add_lines, cut_back};
use std::alloc::{AllocError, Global};
use std::marker::Model;

/// What is shown of the committed tree: its hosts, and the passive effects that are pending (react.dev, Render and Commit).
/// Contracts see the hosts as a forest with room for more, and the effects as lists.
pub struct Shown {
    hosts: HostTree,
    passive: Lines,
}

impl Model for Shown {
    ghost use Rattle.rx_commit.specs.Shown as shown;
    ghost use Rattle.rx_changes.specs.ChangesView.{passive_seen};

    ghost Value = { shown.Shown };

    ghost view = { λ s. record { hosts = s.hosts; passive = passive_seen s.passive } };
}

// It is taken apart here alone, once for all crates.
impl Drop for Shown {
    fn drop(self) {
        let Shown {
            hosts: _hosts,
            passive: _passive,
        } = self;
    }
}

impl Shown {
    /// Nothing: no host, and no effect is pending.
    pub fn new(alloc: Global) -> Shown
        ensures { Shows None no_passive result }
    {
        Shown {
            hosts: HostTree::new(alloc),
            passive: Lines::new(alloc),
        }
    }

    /// Prepares the commit of a finished tree, by what it changes beside the committed one: it takes all the memory that the commit
    /// needs, and shows nothing of it. `after` are the hosts that are left of the finished tree without what stayed, and `told` those
    /// of the whole one that tell where the placed ones go.
    ///
    /// # Errors
    ///
    /// Only if out of memory.
    pub fn prepare(
        &mut self,
        alloc: Global,
        beside: &Beside,
        changes: Changes,
        after: &[Host],
        told: &[Host],
    ) -> Result<Prepared, AllocError>
        requires after { after.now ≡ hosts (Some beside.now.pruned_new) }
        requires changes { changes_seen changes ≡ found_in (compare_trees beside.now.pruned_old beside.now.pruned_new) }
        ensures prepares { IfOk result (λ x. (old : Option Node) (new : Node) → IsBeside (trimmed_if old) (trimmed new) beside.now → IfHasNoNull old → IsCommit old new → TellsWhere changes.placed.items told.now new → Prepares old new x) }
        ensures ready { IfOk result (λ x. (old : Option Node) (passive : effects.Passive) (new : Node) → Shows old passive self.old → IsCommit old new → TextsAreLeaves new → Prepares old new x → CanCommit self.new x) }
        ensures hosts { forest_kept self.new.hosts ≡ forest_kept self.old.hosts }
        ensures passive { self.new.passive ≡ self.old.passive }
        ensures same { (tree : Option Node) (passive : effects.Passive) → Shows tree passive self.old → Shows tree passive self.new }
    {
        let prepared = Prepared::new(alloc, beside, changes, after, told)?;
        self.hosts.reserve(prepared.ops.len() as u64)?;
        Ok(prepared)
    }

    /// Commits: what is shown is that of the new tree, and its passive effects are pending. It takes no memory and cannot fail.
    pub fn commit(&mut self, prepared: Prepared)
        requires { CanCommit self.old prepared }
        ensures { (tree : Option Node) (next : Node) → forest_kept self.old.hosts ≡ forest_of (hosts tree) → IsCommit tree next → Prepares tree next prepared → Shows (Some next) (passive_of (compare_trees tree next)) self.new }
    {
        apply_all(&mut self.hosts, prepared.ops);
        self.passive = prepared.passive;
    }

    /// Runs the pending passive effects: they are written, destructions before creations (react.dev, useEffect), and none is
    /// pending any more.
    ///
    /// # Errors
    ///
    /// Only if out of memory; the report and what is shown are then as they were.
    pub fn flush_passive(&mut self, log: &mut Report) -> Result<(), AllocError>
        ensures written { OnOk result (log.new ≡ with_lines log.old (passive_lines self.old.passive)) }
        ensures ended { OnOk result (self.new ≡ record self.old { passive = no_passive }) }
        ensures unchanged { OnErr result (log.new ≡ log.old) }
        ensures same { OnErr result (self.new ≡ self.old) }
    {
        self.write_passive(log)?;
        self.end_passive();
        Ok(())
    }

    // Writes the pending passive effects.
    fn write_passive(&self, log: &mut Report) -> Result<(), AllocError>
        ensures written { OnOk result (log.new ≡ with_lines log.old (passive_lines self.now.passive)) }
        ensures unchanged { OnErr result (log.new ≡ log.old) }
    {
        let len = log.len();
        let written = add_lines(log, &self.passive);
        cut_back(log, len, written)
    }

    /// No passive effect is pending any more: they have run.
    pub fn end_passive(&mut self)
        ensures { self.new ≡ record self.old { passive = no_passive } }
    {
        self.passive.destroyed.clear();
        self.passive.created.clear();
    }

    /// Writes the tree of hosts.
    ///
    /// # Errors
    ///
    /// Only if out of memory; the report is then as it was.
    pub fn write_tree(&self, log: &mut Report) -> Result<(), AllocError>
        ensures written { (tree : Option Node) (passive : effects.Passive) → Shows tree passive self.now → AreInTreeOrder (hosts tree) → OnOk result (log.new ≡ with_lines log.old (tree_lines (hosts tree))) }
        ensures unchanged { OnErr result (log.new ≡ log.old) }
    {
        log.tree_lines(&self.hosts)
    }
}
