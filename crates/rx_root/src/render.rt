// The calls that render.
ghost use Rattle.std.specs.Prelude.{◌≡◌, ◌<◌, ℕ, suc, OnErr, OnOk};
ghost use Rattle.rx_model.specs.State.{State};
ghost use Rattle.rx_model.specs.Breaking.{BreaksOff};
ghost use Rattle.rx_model.specs.Machine.{StepTo};
ghost use Rattle.rx_step.specs.declared.step.Step.TheVariants as step;
ghost use Rattle.rx_root.specs.Paying.{Pays};
ghost use Rattle.rx_root.specs.Stands.{HasRoomFor, Stands, StandsForSome};
ghost use Rattle.rx_root.specs.Turning.{Takes};

use crate::root::Root;
use crate::turns::FLUSH_LIMIT;
use rx_base::Steps;
use rx_lane::Lane;
use rx_report::Report;
use std::alloc::AllocError;
use std::sync::ledger::Ledger;

impl Root {
    /// An event ends, and then one turn is taken: what is most urgent is rendered, and committed if it is finished
    /// (react.dev, Render and Commit). Pending passive effects run before a new render begins (react.dev, useEffect). The
    /// budget, of one unit at least, counts only if transitions or retries are rendered and none has waited too long
    /// (react.dev, startTransition): such a turn yields once so many fibers were begun or completed, and a later turn goes on
    /// with it, unless something more urgent came. The report gets the lines, and the counter the bodies that are evaluated.
    ///
    /// # Errors
    ///
    /// Only if out of memory. Then no render is in progress; the event has ended, the passive effects that ran stay, with their
    /// lines, and the counter has the bodies that were evaluated in vain; so the call may be made again.
    pub fn work<L: Ledger>(
        &mut self,
        units: u64,
        log: &mut Report,
        steps: &mut Steps<L>,
    ) -> Result<(), AllocError>
        requires stands { StandsForSome self.old }
        requires positive { 0 < units }
        requires room { HasRoomFor 1 self.old }
        ensures ok { OnOk result ((s : State) → Stands self.old.rendering.program s self.old
            → Takes self.old.rendering.program (StepTo Pays self.old.rendering.program s (step.Work units)) self.new log.old log.new steps.old steps.new) }
        ensures broken { OnErr result ((s : State) → Stands self.old.rendering.program s self.old
            → Takes self.old.rendering.program (BreaksOff Pays self.old.rendering.program s (step.Work units)) self.new log.old log.new steps.old steps.new) }
        ensures stands { StandsForSome self.new }
        ensures program { self.new.rendering.program ≡ self.old.rendering.program }
        ensures left { (k : ℕ) → HasRoomFor (suc k) self.old → HasRoomFor k self.new }
    {
        self.end_event();
        self.turn(Some(units), log, steps)
    }

    /// An event ends, and then turns that are not cut into slices are taken until nothing is left to render (react.dev, Queueing
    /// a Series of State Updates). The report gets the lines, and the counter the bodies that are evaluated.
    ///
    /// # Errors
    ///
    /// Only if out of memory. Then no render is in progress; the event has ended, the renders that were finished stay, committed
    /// or deferred, and so do the passive effects that ran, with their lines; and the counter has the bodies that were evaluated
    /// in vain too. So the call may be made again.
    pub fn flush<L: Ledger>(
        &mut self,
        log: &mut Report,
        steps: &mut Steps<L>,
    ) -> Result<(), AllocError>
        requires stands { StandsForSome self.old }
        requires room { HasRoomFor 1 self.old }
        ensures ok { OnOk result ((s : State) → Stands self.old.rendering.program s self.old
            → Takes self.old.rendering.program (StepTo Pays self.old.rendering.program s step.Flush) self.new log.old log.new steps.old steps.new) }
        ensures broken { OnErr result ((s : State) → Stands self.old.rendering.program s self.old
            → Takes self.old.rendering.program (BreaksOff Pays self.old.rendering.program s step.Flush) self.new log.old log.new steps.old steps.new) }
        ensures stands { StandsForSome self.new }
        ensures program { self.new.rendering.program ≡ self.old.rendering.program }
        ensures left { (k : ℕ) → HasRoomFor (suc k) self.old → HasRoomFor k self.new }
    {
        self.end_event();
        self.facts();
        self.finish_renders(FLUSH_LIMIT, log, steps)
    }

    /// An event ends, and then one turn that is not cut into slices is taken, if Sync is pending (react.dev, flushSync). The
    /// report gets the lines, and the counter the bodies that are evaluated.
    ///
    /// # Errors
    ///
    /// Only if out of memory. Then no render is in progress; the event has ended, the passive effects that ran stay, with their
    /// lines, and the counter has the bodies that were evaluated in vain; so the call may be made again.
    pub fn flush_sync<L: Ledger>(
        &mut self,
        log: &mut Report,
        steps: &mut Steps<L>,
    ) -> Result<(), AllocError>
        requires stands { StandsForSome self.old }
        requires room { HasRoomFor 1 self.old }
        ensures ok { OnOk result ((s : State) → Stands self.old.rendering.program s self.old
            → Takes self.old.rendering.program (StepTo Pays self.old.rendering.program s step.FlushSync) self.new log.old log.new steps.old steps.new) }
        ensures broken { OnErr result ((s : State) → Stands self.old.rendering.program s self.old
            → Takes self.old.rendering.program (BreaksOff Pays self.old.rendering.program s step.FlushSync) self.new log.old log.new steps.old steps.new) }
        ensures stands { StandsForSome self.new }
        ensures program { self.new.rendering.program ≡ self.old.rendering.program }
        ensures left { (k : ℕ) → HasRoomFor (suc k) self.old → HasRoomFor k self.new }
    {
        self.end_event();
        if self.lanes.pending().has(Lane::Sync) {
            return self.turn(None, log, steps);
        }
        Ok(())
    }
}
