// The steps of a script, one by one.
ghost use Rattle.std.specs.Prelude.{◌≡◌, ℕ, suc, true, OnErr, OnOk, bytes_eq, is_some, position};
ghost use Rattle.rx_rules.specs.Names.{resources};
ghost use Rattle.rx_lines.specs.Lines.{already, no_instance, with_line};
ghost use Rattle.rx_model.specs.State.{State};
ghost use Rattle.rx_model.specs.Breaking.{BreaksOff};
ghost use Rattle.rx_model.specs.Machine.{StepTo};
ghost use Rattle.rx_step.specs.Steps.{path_of};
ghost use Rattle.rx_step.specs.declared.step.Step.TheVariants as step;
ghost use Rattle.rx_root.specs.Paying.{Pays};
ghost use Rattle.rx_root.specs.Stands.{HasRoomFor, Stands, StandsForSome};
ghost use Rattle.rx_kept.specs.Taking.{CanTake};
ghost use Rattle.rx_root.specs.Turning.{Takes};

use crate::errors::DispatchError;
use crate::root::Root;
use rx_base::{Int, Name, Steps};
use rx_dispatch::dispatch_path;
use rx_report::Report;
use rx_sched::Event;
use rx_step::{Dispatch, Step};
use std::alloc::AllocError;
use std::sync::ledger::Ledger;

impl Root {
    // A dispatch is sent, or the line is written that there is no such instance.
    fn take_dispatch(&mut self, dispatch: &Dispatch, log: &mut Report) -> Result<(), AllocError>
        requires stands { StandsForSome self.old }
        requires fits { CanTake self.old.rendering.program (step.Dispatch dispatch.now) }
        requires room { HasRoomFor 1 self.old }
        ensures ok { OnOk result ((s : State) (n : ℕ) → Stands self.old.rendering.program s self.old
            → Takes self.old.rendering.program (StepTo Pays self.old.rendering.program s (step.Dispatch dispatch.now)) self.new log.old log.new n n) }
        ensures broken { OnErr result ((s : State) (n : ℕ) → Stands self.old.rendering.program s self.old
            → Takes self.old.rendering.program (BreaksOff Pays self.old.rendering.program s (step.Dispatch dispatch.now)) self.new log.old log.new n n) }
        ensures left { (k : ℕ) → HasRoomFor (suc k) self.old → HasRoomFor k self.new }
    {
        let event = self.event;
        match self.dispatch(dispatch) {
            Ok(_) => Ok(()),
            Err(DispatchError::NoInstance) => self.tell_no_instance(dispatch, event, log),
            Err(DispatchError::OutOfMemory) => Err(AllocError),
        }
    }

    // The line is written that there is no such instance. If it is not, the event is this one again.
    fn tell_no_instance(
        &mut self,
        dispatch: &Dispatch,
        event: Event,
        log: &mut Report,
    ) -> Result<(), AllocError>
        ensures same { OnOk result (self.new ≡ self.old) }
        ensures written { OnOk result (log.new ≡ with_line log.old (no_instance (path_of dispatch.now))) }
        ensures back { OnErr result (self.new ≡ record self.old { event = event }) }
        ensures unchanged { OnErr result (log.new ≡ log.old) }
    {
        match log.no_instance_line(dispatch_path(dispatch)) {
            Ok(()) => Ok(()),
            Err(error) => {
                self.event = event;
                Err(error)
            }
        }
    }

    // The line is written that a resource has this value already. If it is not, the event is this one again.
    fn tell_already(
        &mut self,
        name: &Name,
        known: Int,
        event: Event,
        log: &mut Report,
    ) -> Result<(), AllocError>
        ensures same { OnOk result (self.new ≡ self.old) }
        ensures written { OnOk result (log.new ≡ with_line log.old (already name.now known)) }
        ensures back { OnErr result (self.new ≡ record self.old { event = event }) }
        ensures unchanged { OnErr result (log.new ≡ log.old) }
    {
        match log.already_line(name, known) {
            Ok(()) => Ok(()),
            Err(error) => {
                self.event = event;
                Err(error)
            }
        }
    }

    // A resource gets its value, or the line is written that it has one; then an event ends.
    fn take_resolution(
        &mut self,
        name: &Name,
        value: Int,
        log: &mut Report,
    ) -> Result<(), AllocError>
        requires stands { StandsForSome self.old }
        requires fits { is_some (position (bytes_eq name.now) (resources self.old.rendering.program)) ≡ true }
        requires room { HasRoomFor 1 self.old }
        ensures ok { OnOk result ((s : State) (n : ℕ) → Stands self.old.rendering.program s self.old
            → Takes self.old.rendering.program (StepTo Pays self.old.rendering.program s (step.Resolve name.now value)) self.new log.old log.new n n) }
        ensures broken { OnErr result ((s : State) (n : ℕ) → Stands self.old.rendering.program s self.old
            → Takes self.old.rendering.program (BreaksOff Pays self.old.rendering.program s (step.Resolve name.now value)) self.new log.old log.new n n) }
        ensures left { (k : ℕ) → HasRoomFor (suc k) self.old → HasRoomFor k self.new }
    {
        let event = self.event;
        match self.resolve(name, value) {
            Ok(()) => Ok(()),
            Err(error) => self.tell_already(name, error.value(), event, log),
        }
    }

    // The hooks of all instances are written, and an event ends.
    fn take_states(&mut self, log: &mut Report) -> Result<(), AllocError>
        requires stands { StandsForSome self.old }
        ensures ok { OnOk result ((s : State) (n : ℕ) → Stands self.old.rendering.program s self.old
            → Takes self.old.rendering.program (StepTo Pays self.old.rendering.program s step.State) self.new log.old log.new n n) }
        ensures broken { OnErr result ((s : State) (n : ℕ) → Stands self.old.rendering.program s self.old
            → Takes self.old.rendering.program (BreaksOff Pays self.old.rendering.program s step.State) self.new log.old log.new n n) }
        ensures left { (k : ℕ) → HasRoomFor (suc k) self.old → HasRoomFor k self.new }
    {
        self.states(log)?;
        self.end_event();
        Ok(())
    }

    // The tree of hosts is written, and an event ends.
    fn take_tree(&mut self, log: &mut Report) -> Result<(), AllocError>
        requires stands { StandsForSome self.old }
        ensures ok { OnOk result ((s : State) (n : ℕ) → Stands self.old.rendering.program s self.old
            → Takes self.old.rendering.program (StepTo Pays self.old.rendering.program s step.Tree) self.new log.old log.new n n) }
        ensures broken { OnErr result ((s : State) (n : ℕ) → Stands self.old.rendering.program s self.old
            → Takes self.old.rendering.program (BreaksOff Pays self.old.rendering.program s step.Tree) self.new log.old log.new n n) }
        ensures left { (k : ℕ) → HasRoomFor (suc k) self.old → HasRoomFor k self.new }
    {
        self.tree(log)?;
        self.end_event();
        Ok(())
    }

    /// Takes a step of a script: the root stands for the state of the machine after it, the report has its lines, and the
    /// counter the bodies that it evaluated. Each of its renders evaluates as many bodies at most as places have a cause or lie
    /// below one that has, and one that is finished as many at least as places have a cause of their own, what untouched hidden
    /// boundaries keep left out (react.dev, Render and Commit). A dispatch whose path leads to no instance, and a
    /// resolution of a resource that has its value, write a line.
    ///
    /// # Errors
    ///
    /// Only if out of memory. Then, in a step that renders, the root stands for the state after the renders that the step
    /// finished and the passive effects that it ran, whose lines the report has, and no render is in progress; the counter has
    /// the bodies that were evaluated in vain too. In any other step this changes nothing of what the root stands for, nor the
    /// report. So the step may be taken again.
    pub fn step<L: Ledger>(
        &mut self,
        step: &Step,
        log: &mut Report,
        steps: &mut Steps<L>,
    ) -> Result<(), AllocError>
        requires stands { StandsForSome self.old }
        requires fits { CanTake self.old.rendering.program step.now }
        requires room { HasRoomFor 1 self.old }
        ensures ok { OnOk result ((s : State) → Stands self.old.rendering.program s self.old
            → Takes self.old.rendering.program (StepTo Pays self.old.rendering.program s step.now) self.new log.old log.new steps.old steps.new) }
        ensures broken { OnErr result ((s : State) → Stands self.old.rendering.program s self.old
            → Takes self.old.rendering.program (BreaksOff Pays self.old.rendering.program s step.now) self.new log.old log.new steps.old steps.new) }
        ensures stands { StandsForSome self.new }
        ensures program { self.new.rendering.program ≡ self.old.rendering.program }
        ensures left { (k : ℕ) → HasRoomFor (suc k) self.old → HasRoomFor k self.new }
    {
        match step {
            Step::Dispatch(dispatch) => self.take_dispatch(dispatch, log),
            Step::Resolve(name, value) => self.take_resolution(name, *value, log),
            Step::Tick(time) => {
                self.tick(*time);
                Ok(())
            }
            Step::Work(budget) => self.work(*budget, log, steps),
            Step::Flush => self.flush(log, steps),
            Step::FlushSync => self.flush_sync(log, steps),
            Step::Passive => self.passive(log),
            Step::Event => {
                self.end_event();
                Ok(())
            }
            Step::State => self.take_states(log),
            Step::Tree => self.take_tree(log),
        }
    }
}
