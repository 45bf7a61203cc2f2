// Turns of rendering.
ghost use Rattle.std.specs.Prelude.{◌≡◌, ◌≢◌, ◌⊎◌, ◌+◌, ◌<◌, ◌≤◌, ◌^◌, false, Option, Some, None, IfOk, IfSome, OnErr, OnOk};
ghost use Rattle.rx_base.specs.Awaits as awaits;
ghost use Rattle.rx_queue.specs.Pairs.{in_versions};
ghost use Rattle.rx_ast.specs.Syntax as syntax;
ghost use Rattle.rx_check.specs.Accepted.{IsAccepted};
ghost use Rattle.rx_elem.specs.Trees as trees;
ghost use Rattle.rx_elem.specs.Numbers.{numbered};
ghost use Rattle.rx_elem.specs.Compare.{changes, compare_trees};
ghost use Rattle.rx_effect.specs.EffectLog as effects;
ghost use Rattle.rx_effect.specs.EffectLog.{passive_of};
ghost use Rattle.rx_forest.specs.HostOps.{placed_hosts};
ghost use Rattle.rx_forest.specs.Hosts as listed;
ghost use Rattle.host_laws.specs.Commits.{IsSound};
ghost use Rattle.rx_lane.specs.Lanes.{has, lanes_where};
ghost use Rattle.rx_queue.specs.Journal.{resolved_since, version_of};
ghost use Rattle.rx_loop.specs.Ends.{MatchDriven};
ghost use Rattle.rx_meaning.specs.Outcome.{awaits_resolved, outcome, still_pending};
ghost use Rattle.rx_model.specs.State.{State, Progress};
ghost use Rattle.rx_model.specs.Committing.{passive_run, starting, committed_as, committed_state, schedule_deferred, deferred_as, ended};
ghost use Rattle.rx_model.specs.HooksOf.{KeepsAllHooks};
ghost use Rattle.rx_model.specs.Stretch.{silent};
ghost use Rattle.rx_sched.specs.Events.{no_event};
ghost use Rattle.rx_sched.specs.declared.choice.Choice.TheVariants as choices;
ghost use Rattle.rx_hook_store.specs.Store.{kept_hooks};
ghost use Rattle.rx_model.specs.Breaking.{FlushBreaksOff, HasBegun, TurnBreaksOff};
ghost use Rattle.rx_model.specs.Turns.{GoesOn, Turn, choice_of, slice_of, unit_bound};
ghost use Rattle.rx_model.specs.Machine.{FlushWithin};
ghost use Rattle.rx_model.specs.Kept.{IsSet};
ghost use Rattle.rx_model.specs.Laws.{IsBounded, IsReached};
ghost use Rattle.rx_links.specs.Drafts.{grafted};
ghost use Rattle.rx_fiber.specs.Reading.{IsTreeOf};
ghost use Rattle.rx_pruned.specs.Besides.{IsBeside};
ghost use Rattle.rx_pruned.specs.declared.beside.Beside as besides;
ghost use Rattle.end_laws.specs.Trimmed.{trimmed, trimmed_if};
ghost use Rattle.rx_commit.specs.Shown.{Prepares, Shows, TellsWhere, outcome_as};
ghost use Rattle.rx_commit.specs.Written.{lines_of};
ghost use Rattle.rx_writing.specs.Written.{passive_lines, with_lines};
ghost use Rattle.rx_render.specs.declared.at.At.TheVariants.{Over};
ghost use Rattle.rx_render.specs.Renders.{with_hooks};
ghost use Rattle.rx_render.specs.Settling.{IsAtHand};
ghost use Rattle.rx_render.specs.Turning.{GivesUp, KeepsHooks, Proceeds};
ghost use Rattle.rx_root.specs.Stands.{Stands, StandsWith};
ghost use Rattle.rx_root.specs.Paying.{Pays};
ghost use Rattle.rx_root.specs.Turning.{CanFollow, CanShow, FlushesFrom, GaveUp, HasBroken, HasDone, HasFinished, HasNumbered, HasRoomForTurns, HasSomeProgress, HasYielded, IsAtSomeEnd, IsPrepared, IsPreparedFor, KeepsShown, KnowsSince, KnowsSinceSome, LeadsOn, LeavesRoom, StandsAtEnd, StandsBetween, Takes, counts_of, passive_left};

use crate::root::Root;
use rx_base::{Awaits, Cut, Steps};
use rx_changes::changes_between;
use rx_commit::{Prepared, Shown, deferral, parents_of_placed};
use rx_host_ops::{Host, hosts};
use rx_lane::{Lane, Lanes};
use rx_loop::{Driven, drive};
use rx_pruned::Beside;
use rx_report::Report;
use rx_sched::Choice;
use rx_spots::awaited;
use rx_ways::Ways;
use rx_writing::cut_back;
use std::alloc::{AllocError, Global};
use std::sync::ledger::Ledger;

// No flush finishes more renders.
pub(crate) const FLUSH_LIMIT: u64 = 24;

// A commit with the lane Sync has run its passive effects itself (react.dev, flushSync).
fn end_passive_of(shown: &mut Shown, lanes: Lanes)
    ensures { (tree : Option trees.Node) (passive : effects.Passive) → Shows tree passive shown.old → Shows tree (passive_left lanes passive) shown.new }
{
    if lanes.has(Lane::Sync) {
        shown.end_passive();
    }
}

impl Root {
    // What holds of the program: it meets every check.
    pub(crate) fn facts(&self)
        ensures accepted { IsAccepted self.entry.now.rendering.program }
        ensures bounded { IsBounded self.entry.now.rendering.program }
    {
        self.renderer.facts();
        self.renderer.checked().program();
    }

    // The slice of a turn with this budget: it counts only if the render in progress is cut into slices.
    fn slice(&self, budget: Option<u64>) -> Option<u64>
        ensures slice { (p : syntax.Program) (s : State) (g : Progress) → StandsWith p s (Some g) self.entry.now → result ≡ slice_of s g budget }
        ensures positive { IfSome budget (λ n. 0 < n) → IfSome result (λ n. 0 < n) }
    {
        let units = budget?;
        if self.lanes.sliced(self.renderer.lanes(), self.now) {
            Some(units)
        } else {
            None
        }
    }

    // Begins a render with these lanes; one that was in progress is discarded. Pending passive effects run first
    // (react.dev, useEffect).
    fn start(&mut self, lanes: Lanes, log: &mut Report) -> Result<(), AllocError>
        requires { StandsBetween self.old }
        ensures starts { OnOk result ((p : syntax.Program) (s : State) → Stands p s self.old → s.event ≡ no_event → IsSet lanes
            → StandsWith p (passive_run s).after (Some (starting s lanes)) self.new) }
        ensures written { OnOk result (log.new ≡ with_lines log.old (passive_lines self.old.shown.passive)) }
        ensures rest { self.new ≡ record self.old { rendering = self.new.rendering; shown = self.new.shown; later = self.new.later } }
        ensures broken { OnErr result ((p : syntax.Program) (s : State) → Stands p s self.old → s.event ≡ no_event → HasBroken p (λ r. (r ≡ silent s) ⊎ (r ≡ passive_run s)) self.new log.old log.new) }
    {
        self.facts();
        self.shown.flush_passive(log)?;
        let cut = Cut {
            updates: self.updates,
            resolutions: self.resolutions,
        };
        let seen = self.resources.seen(self.alloc, lanes, cut)?;
        self.renderer.start(lanes, cut, seen, &self.sent)?;
        self.later = Lanes::none();
        self.sent = Ways::new(self.alloc);
        Ok(())
    }

    // Drives the render in progress to its end, or to the end of the slice.
    fn drive<L: Ledger>(
        &mut self,
        slice: Option<u64>,
        steps: &mut Steps<L>,
    ) -> Result<Driven, AllocError>
        requires goes_on { HasSomeProgress self.old }
        requires positive { IfSome slice (λ n. 0 < n) }
        ensures ends { IfOk result (λ d. MatchDriven d
            (λ used. (p : syntax.Program) (s : State) (g : Progress) → StandsWith p s (Some g) self.old → HasFinished p s g slice self.new steps.old steps.new)
            (λ used. (p : syntax.Program) (s : State) (g : Progress) → StandsWith p s (Some g) self.old → HasYielded p s g slice self.new steps.old steps.new)) }
        ensures rest { self.new ≡ record self.old { rendering = self.new.rendering } }
        ensures onward { OnOk result (Proceeds self.old.rendering self.new.rendering) }
        ensures given_up { OnErr result (GivesUp self.old.rendering self.new.rendering) }
        ensures rises { steps.old ≤ steps.new }
        ensures few { steps.new ≤ steps.old + unit_bound self.old.rendering.program }
    {
        self.renderer.facts();
        drive(
            &mut self.renderer,
            slice.unwrap_or(1),
            slice.is_some(),
            steps,
        )
    }

    // Whether one of these resources, in the version that the render in progress sees, got its value since the render began.
    fn is_resolved_since(&self, waits: &Awaits) -> bool
        requires { KnowsSinceSome self.now }
        ensures { (p : syntax.Program) (s : State) (g : Progress) → KnowsSince p s g self.entry.now → result ≡ resolved_since g.cut s.journal (in_versions (version_of g.lanes g.cut s.journal) waits.now) }
    {
        self.facts();
        self.resources.is_new(self.renderer.resources(), waits)
    }

    // What a finished render waits for, if it is deferred: only transitions may be (react.dev, useTransition), and only if they
    // leave a boundary hidden.
    fn deferral(&self) -> Result<Option<Awaits>, AllocError>
        requires { IsAtSomeEnd self.now }
        ensures { IfOk result (λ waits. (p : syntax.Program) (s : State) (g : Progress) (tree : trees.Node) → StandsAtEnd p s g tree self.entry.now → outcome_as tree waits ≡ outcome g.lanes s.tree tree) }
    {
        let lanes = self.renderer.lanes();
        if !lanes.only_transitions() {
            return Ok(None);
        }
        if !self.renderer.hides() {
            return Ok(None);
        }
        deferral(self.alloc, &self.renderer.finished()?, lanes)
    }

    // Suspends the lanes of a deferred render, unless something that it waits for has its value by now.
    fn suspend(&mut self, waits: &Awaits)
        requires { KnowsSinceSome self.old }
        ensures { (p : syntax.Program) (s : State) (g : Progress) → KnowsSince p s g self.old → self.old.schedule ≡ s.schedule → self.old.now ≡ s.now
            → self.new ≡ record self.old { schedule = schedule_deferred s g waits.now } }
    {
        if self.is_resolved_since(waits) {
            return;
        }
        let versions = &self.renderer.resources().versions;
        self.lanes
            .deferred(self.renderer.lanes(), waits, versions, self.now);
    }

    // Defers a finished render until what it waits for has a value.
    fn defer(&mut self, waits: Awaits, log: &mut Report) -> Result<(), AllocError>
        requires { IsAtSomeEnd self.old }
        ensures same { OnErr result (self.new ≡ self.old) }
        ensures unchanged { OnErr result (log.new ≡ log.old) }
        ensures done { OnOk result ((p : syntax.Program) (s : State) (g : Progress) (tree : trees.Node) → StandsAtEnd p s g tree self.old
            → IsReached p (deferred_as s g (counts_of self.old) waits).after → HasDone p (deferred_as s g (counts_of self.old) waits) self.new log.old log.new) }
    {
        let lanes = self.renderer.lanes();
        log.defer_line(lanes, self.renderer.units(), self.renderer.bodies())?;
        self.suspend(&waits);
        self.renderer.discard();
        Ok(())
    }

    // Whether any resource, in the version that the render in progress sees, got its value since the render began.
    fn is_any_resolved_since(&self) -> bool
        requires { KnowsSinceSome self.now }
        ensures { (p : syntax.Program) (s : State) (g : Progress) → KnowsSince p s g self.entry.now → result ≡ false
            → (waits : awaits.Awaits) → resolved_since g.cut s.journal (in_versions (version_of g.lanes g.cut s.journal) waits) ≡ false }
    {
        self.facts();
        self.resources.is_any_new(self.renderer.resources())
    }

    // Whether a visible boundary of the finished tree waits for a resource that got its value since the render in progress began. The
    // tree is read only if there is such a resource, and a boundary that hides its children.
    fn has_retry(&self) -> Result<bool, AllocError>
        requires over { self.now.rendering.at ≡ Over }
        requires finished { (x : trees.Node) × IsTreeOf (Some x) (grafted self.now.rendering.trees.draft) }
        requires since { KnowsSinceSome self.now }
        ensures { IfOk result (λ retry. (p : syntax.Program) (s : State) (g : Progress) (tree : trees.Node) → KnowsSince p s g self.entry.now
            → IsTreeOf (Some tree) (grafted self.entry.now.rendering.trees.draft) → retry ≡ awaits_resolved g.lanes g.cut s.journal tree) }
    {
        self.facts();
        if !self.is_any_resolved_since() {
            return Ok(false);
        }
        if !self.renderer.hides() {
            return Ok(false);
        }
        let tree = self.renderer.finished_tree()?;
        Ok(self.is_resolved_since(&awaited(Some(&tree))))
    }

    // The lanes that are pending again after the commit of the finished tree: those of later updates, and Retry if there is
    // something to retry.
    fn still(&self) -> Result<Lanes, AllocError>
        requires over { self.now.rendering.at ≡ Over }
        requires finished { (x : trees.Node) × IsTreeOf (Some x) (grafted self.now.rendering.trees.draft) }
        requires since { KnowsSinceSome self.now }
        ensures { IfOk result (λ lanes. (p : syntax.Program) (s : State) (g : Progress) (tree : trees.Node) → KnowsSince p s g self.entry.now
            → IsTreeOf (Some tree) (grafted self.entry.now.rendering.trees.draft) → lanes ≡ still_pending g.lanes g.cut s.journal tree) }
    {
        self.facts();
        let later = self.renderer.lanes().intersection(self.later);
        let retry = if self.has_retry()? {
            Lanes::one(Lane::Retry)
        } else {
            Lanes::none()
        };
        Ok(later.union(retry))
    }

    // Gives what is new in the finished tree its numbers. Returns the committed tree and the finished one, both without what stayed
    // the same.
    fn number(&mut self) -> Result<Beside, AllocError>
        requires end { IsAtSomeEnd self.old }
        requires room { HasRoomForTurns 1 self.old }
        ensures beside { IfOk result (λ b. (p : syntax.Program) (s : State) (g : Progress) (tree : trees.Node) → StandsAtEnd p s g tree self.old
            → IsBeside (trimmed_if s.tree) (trimmed (numbered s.numbers tree).1) b) }
        ensures numbers { OnOk result ((p : syntax.Program) (s : State) (g : Progress) (tree : trees.Node) → StandsAtEnd p s g tree self.old → HasNumbered p s g tree self.old self.new) }
        ensures rest { self.new ≡ record self.old { numbers = self.new.numbers; rendering = record self.old.rendering { trees = record self.old.rendering.trees { draft = self.new.rendering.trees.draft } } } }
    {
        self.facts();
        self.numbers = self.renderer.number(self.numbers);
        self.renderer.finished()
    }

    // Hosts of the finished tree that tell where the placed ones go: those with the same parents. These are among the hosts that are
    // left without what stayed.
    fn hosts_around(&self, left: &[Host], placed: &[u64]) -> Result<Vec<Host>, AllocError>
        ensures { IfOk result (λ told. (old : Option trees.Node) (new : trees.Node) (beside : besides.Beside) → left.now ≡ listed.hosts (Some beside.pruned_new)
            → placed.now ≡ placed_hosts (changes (compare_trees beside.pruned_old beside.pruned_new)) → IsBeside (trimmed_if old) (trimmed new) beside → IsSound new
            → IsTreeOf (Some new) (grafted self.entry.now.rendering.trees.draft) → TellsWhere placed.now told.items new) }
    {
        if placed.is_empty() {
            return Ok(Vec::new(self.alloc));
        }
        let parents = parents_of_placed(self.alloc, left, placed)?;
        self.renderer.hosts_below(&parents)
    }

    // Prepares what is shown for the commit of a finished tree, by what it changes.
    fn prepare_shown(&mut self, beside: &Beside) -> Result<Prepared, AllocError>
        ensures ready { IfOk result (λ x. (old : Option trees.Node) (passive : effects.Passive) (new : trees.Node) → CanFollow old passive new beside.now self.old → IsPreparedFor old new self.new.shown x) }
        ensures rest { self.new ≡ record self.old { shown = self.new.shown } }
        ensures same { KeepsShown self.old.shown self.new.shown }
    {
        let pruned = beside.pruned_old.as_ref();
        let changes = changes_between(self.alloc, pruned, &beside.pruned_new)?;
        let left = hosts(self.alloc, Some(&beside.pruned_new))?;
        let told = self.hosts_around(&left, &changes.placed)?;
        self.shown
            .prepare(self.alloc, beside, changes, &left, &told)
    }

    // Writes what a prepared commit does, and settles the hooks: an `Err` takes back what was written.
    fn settle(
        &mut self,
        prepared: &Prepared,
        beside: &Beside,
        first: u64,
        log: &mut Report,
    ) -> Result<(), AllocError>
        requires room { self.old.commits + 1 < 2 ^ 64 }
        requires over { self.old.rendering.at ≡ Over }
        requires prepares { (old : Option trees.Node) × (new : trees.Node) × Prepares old new prepared.now }
        requires at_hand { (s : State) × (g : Progress) × (x : trees.Node) × IsAtHand s g x first beside.now self.old.rendering }
        ensures settled { OnOk result ((s : State) (g : Progress) (x : trees.Node) → IsAtHand s g x first beside.now self.old.rendering
            → KeepsAllHooks self.old.rendering.program (committed_state s g (numbered s.numbers x)) (kept_hooks self.new.rendering.hooks)) }
        ensures written { OnOk result ((old : Option trees.Node) (new : trees.Node) → Prepares old new prepared.now
            → log.new ≡ with_lines log.old (lines_of (self.old.commits + 1) (lanes_where (has self.old.rendering.lanes)) (counts_of self.old) old new)) }
        ensures rest { self.new ≡ record self.old { rendering = with_hooks self.old.rendering self.new.rendering.hooks } }
        ensures keeps { OnErr result (KeepsHooks self.old.rendering self.new.rendering) }
        ensures unchanged { OnErr result (log.new ≡ log.old) }
    {
        let len = log.len();
        prepared.write(
            log,
            self.commits + 1,
            self.renderer.lanes(),
            self.renderer.units(),
            self.renderer.bodies(),
        )?;
        let settled = self.renderer.settle(beside, first);
        cut_back(log, len, settled)
    }

    // Prepares the commit of a finished tree, whose new instances have numbers from the first on: all of it that may fail, its
    // lines and its hooks too. An `Err` changes nothing of what the root stands for, nor the report.
    fn prepare(
        &mut self,
        beside: &Beside,
        first: u64,
        log: &mut Report,
    ) -> Result<Prepared, AllocError>
        requires room { self.old.commits + 1 < 2 ^ 64 }
        requires over { self.old.rendering.at ≡ Over }
        requires at_hand { (s : State) × (g : Progress) × (x : trees.Node) × IsAtHand s g x first beside.now self.old.rendering }
        requires can_show { CanShow beside.now self.old }
        ensures ready { IfOk result (λ x. (old : Option trees.Node) (passive : effects.Passive) (new : trees.Node) → CanFollow old passive new beside.now self.old → IsPreparedFor old new self.new.shown x) }
        ensures settled { OnOk result ((s : State) (g : Progress) (x : trees.Node) → IsAtHand s g x first beside.now self.old.rendering
            → KeepsAllHooks self.old.rendering.program (committed_state s g (numbered s.numbers x)) (kept_hooks self.new.rendering.hooks)) }
        ensures written { OnOk result ((old : Option trees.Node) (passive : effects.Passive) (new : trees.Node) → CanFollow old passive new beside.now self.old
            → log.new ≡ with_lines log.old (lines_of (self.old.commits + 1) (lanes_where (has self.old.rendering.lanes)) (counts_of self.old) old new)) }
        ensures rest { self.new ≡ record self.old { rendering = with_hooks self.old.rendering self.new.rendering.hooks; shown = self.new.shown } }
        ensures gave_up { OnErr result (GaveUp self.old self.new) }
        ensures unchanged { OnErr result (log.new ≡ log.old) }
    {
        let prepared = self.prepare_shown(beside)?;
        self.settle(&prepared, beside, first, log)?;
        Ok(prepared)
    }

    // Shows the committed tree in place of the one before.
    fn show(&mut self, prepared: Prepared)
        requires room { self.old.commits + 1 < 2 ^ 64 }
        requires ready { IsPrepared self.old.shown prepared }
        ensures shown { (old : Option trees.Node) (new : trees.Node) → IsPreparedFor old new self.old.shown prepared
            → Shows (Some new) (passive_left self.old.rendering.lanes (passive_of (compare_trees old new))) self.new.shown }
        ensures rest { self.new ≡ record self.old { shown = self.new.shown; commits = self.old.commits + 1 } }
    {
        self.shown.commit(prepared);
        end_passive_of(&mut self.shown, self.renderer.lanes());
        self.commits += 1;
    }

    // Commits a finished render; if memory runs out the next numbers are not what they were.
    fn try_commit(&mut self, log: &mut Report) -> Result<(), AllocError>
        requires end { IsAtSomeEnd self.old }
        requires room { HasRoomForTurns 1 self.old }
        ensures done { OnOk result ((p : syntax.Program) (s : State) (g : Progress) (tree : trees.Node) → StandsAtEnd p s g tree self.old
            → IsReached p (committed_as s g (counts_of self.old) (numbered s.numbers tree)).after
            → HasDone p (committed_as s g (counts_of self.old) (numbered s.numbers tree)) self.new log.old log.new) }
        ensures gave_up { OnErr result (GaveUp self.old (record self.new { numbers = self.old.numbers })) }
        ensures unchanged { OnErr result (log.new ≡ log.old) }
    {
        self.facts();
        let first = self.numbers.instance;
        let lanes = self.renderer.lanes();
        let beside = self.number()?;
        let still = self.still()?;
        let prepared = self.prepare(&beside, first, log)?;
        self.show(prepared);
        self.resources.commit(lanes, self.renderer.cut());
        self.renderer.commit();
        self.lanes.finished(lanes, still, self.now);
        Ok(())
    }

    // Commits a finished render (react.dev, Render and Commit). An `Err` changes nothing of what the root stands for but for
    // its render, nor the report.
    fn commit(&mut self, log: &mut Report) -> Result<(), AllocError>
        requires end { IsAtSomeEnd self.old }
        requires room { HasRoomForTurns 1 self.old }
        ensures done { OnOk result ((p : syntax.Program) (s : State) (g : Progress) (tree : trees.Node) → StandsAtEnd p s g tree self.old
            → IsReached p (committed_as s g (counts_of self.old) (numbered s.numbers tree)).after
            → HasDone p (committed_as s g (counts_of self.old) (numbered s.numbers tree)) self.new log.old log.new) }
        ensures gave_up { OnErr result (GaveUp self.old self.new) }
        ensures unchanged { OnErr result (log.new ≡ log.old) }
    {
        let numbers = self.numbers;
        match self.try_commit(log) {
            Ok(()) => Ok(()),
            Err(error) => {
                self.numbers = numbers;
                Err(error)
            }
        }
    }

    // Ends a finished render: it is committed, or deferred.
    fn finish(&mut self, log: &mut Report) -> Result<(), AllocError>
        requires end { IsAtSomeEnd self.old }
        requires room { HasRoomForTurns 1 self.old }
        ensures done { OnOk result ((p : syntax.Program) (s : State) (g : Progress) (tree : trees.Node) → StandsAtEnd p s g tree self.old
            → IsReached p (ended s g (counts_of self.old) tree).after → HasDone p (ended s g (counts_of self.old) tree) self.new log.old log.new) }
        ensures gave_up { OnErr result (GaveUp self.old self.new) }
        ensures unchanged { OnErr result (log.new ≡ log.old) }
    {
        match self.deferral()? {
            None => self.commit(log),
            Some(waits) => self.defer(waits, log),
        }
    }

    // Goes on with the render in progress, to its end or to the end of its slice.
    fn go_on<L: Ledger>(
        &mut self,
        budget: Option<u64>,
        log: &mut Report,
        steps: &mut Steps<L>,
    ) -> Result<(), AllocError>
        requires goes_on { HasSomeProgress self.old }
        requires room { HasRoomForTurns 1 self.old }
        requires positive { IfSome budget (λ n. 0 < n) }
        ensures takes { OnOk result ((p : syntax.Program) (s : State) (g : Progress) → StandsWith p s (Some g) self.old → LeadsOn p s g budget
            → Takes p (GoesOn Pays p s g budget) self.new log.old log.new steps.old steps.new) }
        ensures gave_up { OnErr result (GaveUp self.old self.new) }
        ensures unchanged { OnErr result (log.new ≡ log.old) }
        ensures rises { steps.old ≤ steps.new }
        ensures few { steps.new ≤ steps.old + unit_bound self.old.rendering.program }
    {
        let slice = self.slice(budget);
        match self.drive(slice, steps)? {
            Driven::Finished { used: _ } => self.finish(log),
            Driven::Yielded { used: _ } => Ok(()),
        }
    }

    // One turn, which may leave a render in progress if memory runs out.
    fn try_turn<L: Ledger>(
        &mut self,
        budget: Option<u64>,
        log: &mut Report,
        steps: &mut Steps<L>,
    ) -> Result<(), AllocError>
        requires stands { StandsBetween self.old }
        requires room { HasRoomForTurns 1 self.old }
        requires positive { IfSome budget (λ n. 0 < n) }
        ensures takes { OnOk result ((p : syntax.Program) (s : State) → Stands p s self.old → s.event ≡ no_event → Takes p (Turn Pays p s budget) self.new log.old log.new steps.old steps.new) }
        ensures broken { OnErr result ((p : syntax.Program) (s : State) → Stands p s self.old → s.event ≡ no_event → HasBroken p (λ r. (choice_of s ≢ choices.None) × HasBegun s r) self.new log.old log.new) }
        ensures rises { steps.old ≤ steps.new }
        ensures few { steps.new ≤ steps.old + unit_bound self.old.rendering.program }
    {
        match self.next_turn() {
            Choice::None => Ok(()),
            Choice::Keep => self.go_on(budget, log, steps),
            Choice::Start(lanes) => {
                self.start(lanes, log)?;
                self.go_on(budget, log, steps)
            }
        }
    }

    // One turn: what is most urgent is rendered, and committed if it is finished (react.dev, Render and Commit). With a
    // budget it may yield, if it renders transitions or retries and none has waited too long.
    pub(crate) fn turn<L: Ledger>(
        &mut self,
        budget: Option<u64>,
        log: &mut Report,
        steps: &mut Steps<L>,
    ) -> Result<(), AllocError>
        requires stands { StandsBetween self.old }
        requires room { HasRoomForTurns 1 self.old }
        requires positive { IfSome budget (λ n. 0 < n) }
        ensures takes { OnOk result ((p : syntax.Program) (s : State) → Stands p s self.old → s.event ≡ no_event → Takes p (Turn Pays p s budget) self.new log.old log.new steps.old steps.new) }
        ensures breaks { OnErr result ((p : syntax.Program) (s : State) → Stands p s self.old → s.event ≡ no_event → Takes p (TurnBreaksOff p s) self.new log.old log.new steps.old steps.new) }
        ensures leaves { LeavesRoom 1 self.old self.new }
        ensures rises { steps.old ≤ steps.new }
    {
        self.facts();
        match self.try_turn(budget, log, steps) {
            Ok(()) => Ok(()),
            Err(error) => {
                self.renderer.discard();
                Err(error)
            }
        }
    }

    // Takes turns that aren't sliced until nothing is left to render, so many at most.
    pub(crate) fn finish_renders<L: Ledger>(
        &mut self,
        limit: u64,
        log: &mut Report,
        steps: &mut Steps<L>,
    ) -> Result<(), AllocError>
        requires flushes { FlushesFrom limit self.old }
        requires room { HasRoomForTurns limit self.old }
        ensures takes { OnOk result ((p : syntax.Program) (s : State) → Stands p s self.old → s.event ≡ no_event → Takes p (FlushWithin Pays limit p s) self.new log.old log.new steps.old steps.new) }
        ensures breaks { OnErr result ((p : syntax.Program) (s : State) → Stands p s self.old → s.event ≡ no_event → Takes p (FlushBreaksOff Pays limit p s) self.new log.old log.new steps.old steps.new) }
        ensures leaves { LeavesRoom limit self.old self.new }
        ensures rises { steps.old ≤ steps.new }
    {
        if let Choice::None = self.next_turn() {
            return Ok(());
        }
        self.turn(None, log, steps)?;
        self.finish_renders(limit - 1, log, steps)
    }
}
