// What is shown of the state.
ghost use Rattle.std.specs.Prelude.{◌≡◌, ◌∷◌, [], OnErr, OnOk, map};
ghost use Rattle.rx_ast.specs.Syntax.{Program};
ghost use Rattle.rx_effect.specs.EffectLog.{no_passive, passive_log};
ghost use Rattle.rx_elem.specs.Spots.{hidden_count as hidden_in};
ghost use Rattle.rx_forest.specs.Hosts.{hosts};
ghost use Rattle.rx_lines.specs.Lines.{logged, tree_lines};
ghost use Rattle.rx_model.specs.Accepting.{between_events};
ghost use Rattle.rx_model.specs.Committing.{passive_run};
ghost use Rattle.rx_model.specs.Laws.{IsBounded};
ghost use Rattle.rx_model.specs.State.{State, end_line, state_lines};
ghost use Rattle.rx_sched.specs.Events.{no_event};
ghost use Rattle.rx_writing.specs.Written.{with_lines};
ghost use Rattle.rx_plain.specs.Doing.{HasDone};
ghost use Rattle.rx_plain.specs.Stands.{StandsFor, StandsForSome};

use crate::plain::Plain;
use end_laws::ends_are_not_read;
use rx_check::Checked;
use rx_lane::Lanes;
use rx_mounts::{show_hooks, show_hosts};
use rx_report::Report;
use rx_sched::Event;
use rx_spots::{hidden_count, mounted};
use rx_writing::add_lines;
use std::alloc::AllocError;

impl Plain {
    // Runs the pending passive effects: their lines are written, destructions before creations, and none is pending any more.
    pub(crate) fn flush_passive(&mut self, log: &mut Report) -> Result<(), AllocError>
        ensures ended { OnOk result (self.new ≡ record self.old { passive = no_passive }) }
        ensures written { OnOk result (log.new ≡ with_lines log.old (map logged (passive_log self.old.passive))) }
    {
        add_lines(log, &self.passive)?;
        self.passive.destroyed.clear();
        self.passive.created.clear();
        Ok(())
    }

    /// Runs the passive effects that are pending, whose lines the report gets, and an event ends (react.dev, useEffect).
    ///
    /// # Errors
    ///
    /// Only if out of memory; the machine and the report are then of no use.
    pub fn passive(&mut self, log: &mut Report) -> Result<(), AllocError>
        ensures done { OnOk result ((p : Program) (s : State) → StandsFor p s self.old → HasDone p (passive_run (between_events s)) self.new log.old log.new) }
        ensures rest { OnOk result (self.new ≡ record self.old { passive = no_passive; event = no_event }) }
    {
        self.flush_passive(log)?;
        self.event = Event::new(false);
        Ok(())
    }

    /// The lanes that have something to render.
    pub fn pending(&self) -> Lanes
        ensures { result ≡ self.entry.now.schedule.pending }
    {
        self.lanes.pending()
    }

    /// How many boundaries of the committed tree hide their children behind their fallbacks (react.dev, Suspense).
    pub fn hidden_count(&self) -> u32
        ensures { (p : Program) (s : State) → IsBounded p → StandsFor p s self.entry.now → result ≡ hidden_in s.tree }
    {
        ends_are_not_read();
        hidden_count(self.tree.as_ref())
    }

    /// Writes the hooks of all instances, with their committed values (react.dev, State as a Snapshot). After an `Err` the
    /// report is as it was.
    ///
    /// # Errors
    ///
    /// Only if out of memory.
    pub fn states(&self, checked: &Checked, log: &mut Report) -> Result<(), AllocError>
        requires { StandsForSome checked.now self.now }
        ensures ok { OnOk result ((s : State) → StandsFor checked.now s self.entry.now → log.new ≡ with_lines log.old (state_lines checked.now s)) }
        ensures err { OnErr result (log.new ≡ log.old) }
    {
        ends_are_not_read();
        let all = mounted(self.alloc, self.tree.as_ref())?;
        show_hooks(self.alloc, log, checked, &all, &self.hooks)
    }

    /// Writes the tree of hosts (react.dev, Render and Commit). After an `Err` the report is as it was.
    ///
    /// # Errors
    ///
    /// Only if out of memory.
    pub fn tree(&self, checked: &Checked, log: &mut Report) -> Result<(), AllocError>
        requires { StandsForSome checked.now self.now }
        ensures ok { OnOk result ((s : State) → StandsFor checked.now s self.entry.now → log.new ≡ with_lines log.old (tree_lines (hosts s.tree))) }
        ensures err { OnErr result (log.new ≡ log.old) }
    {
        ends_are_not_read();
        checked.program();
        show_hosts(self.alloc, log, self.tree.as_ref())
    }

    /// Writes the last line of a report, by what is pending and hidden.
    ///
    /// # Errors
    ///
    /// Only if out of memory; the report is then as it was.
    pub fn end_line(&self, log: &mut Report) -> Result<(), AllocError>
        ensures ok { OnOk result ((p : Program) (s : State) → IsBounded p → StandsFor p s self.entry.now → log.new ≡ with_lines log.old (end_line s ∷ [])) }
        ensures err { OnErr result (log.new ≡ log.old) }
    {
        log.end_line(self.pending(), self.hidden_count())
    }
}
