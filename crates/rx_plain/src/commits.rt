// The end of a render: it is committed, or deferred (react.dev, Render and Commit).
ghost use Rattle.std.specs.Prelude.{◌≡◌, ◌+◌, ◌<◌, ◌^◌, Some, None, false, IfOk, OnOk};
ghost use Rattle.rx_effect.specs.EffectLog.{layout_log, passive_log};
ghost use Rattle.rx_elem.specs.Compare.{compare_trees};
ghost use Rattle.rx_elem.specs.Numbers as numbers;
ghost use Rattle.rx_elem.specs.Numbers.{numbered};
ghost use Rattle.rx_elem.specs.Trees as trees;
ghost use Rattle.rx_lane.specs.Lanes.{has, lanes_where};
ghost use Rattle.rx_meaning.specs.Fresh.{fresh, made};
ghost use Rattle.rx_meaning.specs.Outcome.{newly_caught, outcome, still_pending};
ghost use Rattle.rx_model.specs.Committing.{commit_lines, committed_as, committed_state, deferred_as, ended, schedule_deferred, sight_of};
ghost use Rattle.rx_model.specs.HooksOf.{KeepsAllHooks};
ghost use Rattle.rx_model.specs.Laws.{IsReached};
ghost use Rattle.rx_model.specs.State.{Progress, State};
ghost use Rattle.rx_queue.specs.Journal.{resolved_since, version_of};
ghost use Rattle.rx_queue.specs.Pairs.{in_versions};
ghost use Rattle.end_laws.specs.Trimmed.{trimmed, trimmed_if};
ghost use Rattle.rx_changes.specs.ChangesView.{passive_seen};
ghost use Rattle.rx_hook_store.specs.Store.{kept_hooks};
ghost use Rattle.rx_numbers.specs.Room.{FitIn};
ghost use Rattle.rx_settle.specs.Settling.{CanSettle, IsSettlingOf};
ghost use Rattle.rx_writing.specs.Written.{with_lines};
ghost use Rattle.rx_plain.specs.Doing.{HasDone, IsAtEnd, IsAtTrimmedEnd, IsCommitting, KnowsSince, KnowsSinceSome, outcome_as};
ghost use Rattle.rx_plain.specs.Stands.{HasRoomForTurns, LeavesRoom, StandsWith};

use crate::plain::{Going, Plain};
use end_laws::{ends_are_not_compared, ends_are_not_numbered, ends_are_not_read};
use rx_base::{Awaits, Int};
use rx_changes::{Changes, Lines, changes_between};
use rx_check::Checked;
use rx_compare::{Outcome, outcome_of};
use rx_lane::{Lane, Lanes};
use rx_node::Node;
use rx_numbers::{number, trim};
use rx_report::Report;
use rx_settle::settle_all;
use rx_spots::awaited;
use rx_writing::{add_caught, add_lines};
use std::alloc::AllocError;

// Writes what a commit does, but for the passive effects: its line, what error boundaries catch, and the layout effects. The report
// shows no operations on hosts.
fn write_commit(
    log: &mut Report,
    commit: u64,
    lanes: Lanes,
    units: u64,
    bodies: u64,
    caught: &[Int],
    layout: &Lines,
) -> Result<(), AllocError>
    requires { log.old.options.ops ≡ false }
    ensures { OnOk result ((s : State) (g : Progress) (new : trees.Node) → commit ≡ s.commits + 1 → lanes_where (has lanes) ≡ g.lanes
        → caught.now ≡ newly_caught s.tree new → passive_log (passive_seen layout.now) ≡ layout_log (compare_trees s.tree new)
        → log.new ≡ with_lines log.old (commit_lines s g (record { units = units; bodies = bodies }) new)) }
{
    log.commit_line(commit, lanes, units, bodies)?;
    add_caught(log, caught)?;
    add_lines(log, layout)
}

impl Plain {
    // What a finished render waits for, if it is deferred: only transitions may be (react.dev, useTransition).
    fn deferral(&self, going: &Going, tree: &Node) -> Result<Option<Awaits>, AllocError>
        ensures { IfOk result (λ waits. (s : State) (x : trees.Node) → self.entry.now.tree ≡ trimmed_if s.tree → tree.now ≡ trimmed x
            → outcome_as x waits ≡ outcome going.now.lanes s.tree x) }
    {
        ends_are_not_compared();
        if !going.lanes.only_transitions() {
            return Ok(None);
        }
        let changes = changes_between(self.alloc, self.tree.as_ref(), tree)?;
        match outcome_of(going.lanes, changes.hidden) {
            Outcome::Commit => Ok(None),
            Outcome::Defer(awaits) => Ok(Some(awaits)),
        }
    }

    // Whether one of these resources, in the version that a render in progress sees, got its value since it began.
    fn is_resolved_since(&self, checked: &Checked, going: &Going, waits: &Awaits) -> bool
        requires { KnowsSinceSome checked.now going.now self.now }
        ensures { (s : State) (g : Progress) → KnowsSince checked.now s g going.now self.entry.now
            → result ≡ resolved_since g.cut s.journal (in_versions (version_of g.lanes g.cut s.journal) waits.now) }
    {
        checked.program();
        self.resources.is_new(&going.seen, waits)
    }

    // Suspends the lanes of a deferred render, unless something that it waits for has its value by now.
    fn suspend(&mut self, checked: &Checked, going: &Going, waits: &Awaits)
        requires { KnowsSinceSome checked.now going.now self.old }
        ensures deferred { (s : State) (g : Progress) → KnowsSince checked.now s g going.now self.old → self.old.schedule ≡ s.schedule → self.old.now ≡ s.now
            → self.new ≡ record self.old { schedule = schedule_deferred s g waits.now } }
        ensures rest { self.new ≡ record self.old { schedule = self.new.schedule } }
    {
        if self.is_resolved_since(checked, going, waits) {
            return;
        }
        self.lanes
            .deferred(going.lanes, waits, &going.seen.versions, self.now);
    }

    // Defers a finished render until what it waits for has a value.
    fn defer(
        &mut self,
        checked: &Checked,
        going: &Going,
        waits: Awaits,
        units: u64,
        bodies: u64,
        log: &mut Report,
    ) -> Result<(), AllocError>
        requires knows { KnowsSinceSome checked.now going.now self.old }
        requires idle { self.old.going ≡ None }
        ensures done { OnOk result ((s : State) (g : Progress) → StandsWith checked.now s (Some g) (record self.old { going = Some going.now })
            → IsReached checked.now (deferred_as s g (record { units = units; bodies = bodies }) waits).after
            → HasDone checked.now (deferred_as s g (record { units = units; bodies = bodies }) waits) self.new log.old log.new) }
        ensures rest { OnOk result (self.new ≡ record self.old { schedule = self.new.schedule }) }
    {
        log.defer_line(going.lanes, units, bodies)?;
        self.suspend(checked, going, &waits);
        Ok(())
    }

    // The lanes that are pending again after the commit of this tree: those of later updates, and Retry if there is something to
    // retry.
    fn still(&self, checked: &Checked, going: &Going, tree: &Node) -> Lanes
        requires { KnowsSinceSome checked.now going.now self.now }
        ensures { (s : State) (g : Progress) (x : trees.Node) → KnowsSince checked.now s g going.now self.entry.now → tree.now ≡ trimmed x
            → result ≡ still_pending g.lanes g.cut s.journal x }
    {
        ends_are_not_read();
        checked.program();
        let later = going.lanes.intersection(going.later);
        let retry = if self.is_resolved_since(checked, going, &awaited(Some(tree))) {
            Lanes::one(Lane::Retry)
        } else {
            Lanes::none()
        };
        later.union(retry)
    }

    // The tree, in which each new instance and each new host has a number: the next ones.
    fn number_new(&mut self, tree: &Node) -> Result<Node, AllocError>
        requires { FitIn (numbered self.old.numbers tree.now).0 }
        ensures tree { IfOk result (λ n. n ≡ (numbered self.old.numbers tree.now).1) }
        ensures next { OnOk result (self.new ≡ record self.old { numbers = (numbered self.old.numbers tree.now).0 }) }
    {
        number(self.alloc, tree, &mut self.numbers)
    }

    // Writes what a commit does, whose tree has its numbers. A commit with the lane Sync runs its passive effects itself; else they
    // are pending now.
    fn show_commit(
        &mut self,
        going: &Going,
        next: &Node,
        units: u64,
        bodies: u64,
        log: &mut Report,
    ) -> Result<(), AllocError>
        requires ops { log.old.options.ops ≡ false }
        requires room { self.old.commits + 1 < 2 ^ 64 }
        ensures written { OnOk result ((s : State) (g : Progress) (fixed : numbers.Numbers × trees.Node) → IsCommitting s g fixed.1 next.now going.now self.old
            → log.new ≡ with_lines log.old (committed_as s g (record { units = units; bodies = bodies }) fixed).lines) }
        ensures left { OnOk result ((s : State) (g : Progress) (fixed : numbers.Numbers × trees.Node) → IsCommitting s g fixed.1 next.now going.now self.old
            → self.new ≡ record self.old { passive = (committed_as s g (record { units = units; bodies = bodies }) fixed).after.passive }) }
        ensures rest { OnOk result (self.new ≡ record self.old { passive = self.new.passive }) }
    {
        ends_are_not_compared();
        let Changes {
            layout,
            passive,
            placed: _placed,
            caught,
            hidden: _hidden,
        } = changes_between(self.alloc, self.tree.as_ref(), next)?;
        let number = self.commits + 1;
        write_commit(log, number, going.lanes, units, bodies, &caught, &layout)?;
        self.passive = passive;
        if going.lanes.has(Lane::Sync) {
            return self.flush_passive(log);
        }
        Ok(())
    }

    // Settles the hooks at a commit, whose new instances have numbers from the first on.
    fn settle(
        &mut self,
        checked: &Checked,
        going: &Going,
        next: &Node,
        first: u64,
    ) -> Result<(), AllocError>
        requires { CanSettle checked.now (kept_hooks self.old.hooks) self.old.tree next.now first going.now.lanes going.now.cut }
        ensures settled { OnOk result ((s : State) (g : Progress) (x : trees.Node)
            → IsSettlingOf checked.now (kept_hooks self.old.hooks) self.old.tree next.now first going.now.lanes going.now.cut s g x
            → KeepsAllHooks checked.now (committed_state s g (numbered s.numbers x)) (kept_hooks self.new.hooks)) }
        ensures rest { self.new ≡ record self.old { hooks = self.new.hooks } }
    {
        let old = self.tree.as_ref();
        settle_all(
            self.alloc,
            &mut self.hooks,
            checked,
            old,
            next,
            first,
            going.lanes,
            going.cut,
        )
    }

    // Commits a finished render, whose tree is this, without the vacant places at the ends of its lists: what is new in it gets its
    // numbers; the report gets the lines of the commit, and of the passive effects if it has the lane Sync; and the hooks, the
    // resources and the lanes go on from it.
    fn commit(
        &mut self,
        checked: &Checked,
        going: &Going,
        tree: &Node,
        units: u64,
        bodies: u64,
        log: &mut Report,
    ) -> Result<(), AllocError>
        requires at_end { IsAtTrimmedEnd checked.now tree.now (record self.old { going = Some going.now }) }
        requires idle { self.old.going ≡ None }
        requires ops { log.old.options.ops ≡ false }
        requires room { HasRoomForTurns 1 self.old }
        ensures done { OnOk result ((s : State) (g : Progress) (x : trees.Node) → StandsWith checked.now s (Some g) (record self.old { going = Some going.now }) → fresh (sight_of checked.now s g) s.tree ≡ made x
            → tree.now ≡ trimmed x → IsReached checked.now (committed_as s g (record { units = units; bodies = bodies }) (numbered s.numbers x)).after
            → HasDone checked.now (committed_as s g (record { units = units; bodies = bodies }) (numbered s.numbers x)) self.new log.old log.new) }
        ensures leaves { OnOk result (LeavesRoom 1 self.old self.new) }
    {
        checked.program();
        ends_are_not_numbered();
        let first = self.numbers.instance;
        let next = self.number_new(tree)?;
        let still = self.still(checked, going, &next);
        self.show_commit(going, &next, units, bodies, log)?;
        self.settle(checked, going, &next, first)?;
        self.resources.commit(going.lanes, going.cut);
        self.lanes.finished(going.lanes, still, self.now);
        self.commits += 1;
        self.seen = going.cut.resolutions;
        self.tree = Some(next);
        Ok(())
    }

    // Ends a finished render, whose tree is this, without the vacant places at the ends of its lists: it is committed, or deferred.
    fn end_render(
        &mut self,
        checked: &Checked,
        going: &Going,
        tree: &Node,
        units: u64,
        bodies: u64,
        log: &mut Report,
    ) -> Result<(), AllocError>
        requires at_end { IsAtTrimmedEnd checked.now tree.now (record self.old { going = Some going.now }) }
        requires idle { self.old.going ≡ None }
        requires ops { log.old.options.ops ≡ false }
        requires room { HasRoomForTurns 1 self.old }
        ensures done { OnOk result ((s : State) (g : Progress) (x : trees.Node) → StandsWith checked.now s (Some g) (record self.old { going = Some going.now }) → fresh (sight_of checked.now s g) s.tree ≡ made x
            → tree.now ≡ trimmed x → IsReached checked.now (ended s g (record { units = units; bodies = bodies }) x).after
            → HasDone checked.now (ended s g (record { units = units; bodies = bodies }) x) self.new log.old log.new) }
        ensures leaves { OnOk result (LeavesRoom 1 self.old self.new) }
    {
        match self.deferral(going, tree)? {
            None => self.commit(checked, going, tree, units, bodies, log),
            Some(waits) => self.defer(checked, going, waits, units, bodies, log),
        }
    }

    /// Ends the render in progress, whose tree is this, with these counts in all: it is committed, or deferred. The report gets its
    /// lines.
    ///
    /// # Errors
    ///
    /// Only if out of memory; the machine and the report are then of no use.
    pub fn finish(
        &mut self,
        checked: &Checked,
        tree: &Node,
        units: u64,
        bodies: u64,
        log: &mut Report,
    ) -> Result<(), AllocError>
        requires at_end { IsAtEnd checked.now tree.now self.old }
        requires ops { log.old.options.ops ≡ false }
        requires room { HasRoomForTurns 1 self.old }
        ensures done { OnOk result ((s : State) (g : Progress) (x : trees.Node) → StandsWith checked.now s (Some g) self.old → fresh (sight_of checked.now s g) s.tree ≡ made x → trimmed tree.now ≡ trimmed x
            → IsReached checked.now (ended s g (record { units = units; bodies = bodies }) x).after
            → HasDone checked.now (ended s g (record { units = units; bodies = bodies }) x) self.new log.old log.new) }
        ensures leaves { OnOk result (LeavesRoom 1 self.old self.new) }
    {
        let Some(going) = self.going.take() else {
            unreachable!();
        };
        let next = trim(self.alloc, tree)?;
        self.end_render(checked, &going, &next, units, bodies, log)
    }
}
