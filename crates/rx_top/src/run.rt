// Running the steps of a script, each step's lines written at once.
ghost use Rattle.std.specs.Prelude.{◌≡◌, ◌+◌, ℕ, length, OnOk, IsErrOf};
ghost use Rattle.rx_io.specs.Causes.{Rose};
ghost use Rattle.rx_model.specs.State.{State};
ghost use Rattle.rx_root.specs.Paying.{Pays};
ghost use Rattle.rx_root.specs.Stands.{Stands, StandsForSome, HasRoomFor};
ghost use Rattle.rx_kept.specs.Taking.{AllCanTake};
ghost use Rattle.rx_top.specs.Outcome.{Writes};
ghost use Rattle.rx_top.specs.Reports.{StepLosesLines, StepBreaksOff};
ghost use Rattle.rx_top.specs.Running.{WritesRun};

use rx_base::Steps;
use rx_io::{Failed, Sink, write_all};
use rx_report::Report;
use rx_root::Root;
use rx_step::Step;
use std::alloc::AllocError;
use std::sync::ledger::Ledger;

/// Why a run stopped.
#[derive(Clone, Copy, Debug, PartialEq, Eq)]
pub(crate) enum RunError {
    Failed,
    OutOfMemory,
}

impl From<Failed> for RunError {
    ghost use Rattle.std.specs.Prelude.{◌≡◌};
    ghost use Rattle.rx_top.specs.declared.run.RunError.TheVariants.{Failed};

    ghost from_gives = { λ _ e. e ≡ Failed };

    fn from(_: Failed) -> Self {
        RunError::Failed
    }
}

impl From<AllocError> for RunError {
    ghost use Rattle.std.specs.Prelude.{◌≡◌};
    ghost use Rattle.rx_top.specs.declared.run.RunError.TheVariants.{OutOfMemory};

    ghost from_gives = { λ _ e. e ≡ OutOfMemory };

    fn from(_: AllocError) -> Self {
        RunError::OutOfMemory
    }
}

/// Runs the steps in order. The lines of a step are written before the next one is taken; of a step that finds no memory
/// none is.
pub(crate) fn run_steps<K: Sink, L: Ledger>(
    root: &mut Root,
    script: &[Step],
    log: &mut Report,
    out: &mut K,
    steps: &mut Steps<L>,
) -> Result<(), RunError>
    requires stands { StandsForSome root.old }
    requires fits { AllCanTake root.old.rendering.program script.now }
    requires room { HasRoomFor (length script.now) root.old }
    ensures ok { OnOk result ((s : State) → Stands root.old.rendering.program s root.old
        → WritesRun root.old.rendering.program log.old.options s script.now (K.written out.old) (K.written out.new) steps.old steps.new root.new) }
    ensures program { OnOk result (root.new.rendering.program ≡ root.old.rendering.program) }
    ensures options { OnOk result (log.new.options ≡ log.old.options) }
    ensures left { OnOk result ((k : ℕ) → HasRoomFor (length script.now + k) root.old → HasRoomFor k root.new) }

    // The sink failed: a part of a step's lines was written.
    ensures lost { IsErrOf result RunError.Failed → (s : State) → Stands root.old.rendering.program s root.old
        → Writes (K.written out.old) (K.written out.new) steps.old steps.new (StepLosesLines Pays root.old.rendering.program s script.now log.old.options) }

    // A step found no memory: the lines of those before it were written.
    ensures short { IsErrOf result RunError.OutOfMemory → (s : State) → Stands root.old.rendering.program s root.old
        → Writes (K.written out.old) (K.written out.new) steps.old steps.new (StepBreaksOff Pays root.old.rendering.program s script.now log.old.options) }
    ensures failed { IsErrOf result RunError.Failed → Rose (K.faults out.old) (K.faults out.new) }
    ensures kept { (IsErrOf result RunError.Failed → ⊥) → K.faults out.new ≡ K.faults out.old }
{
    'script: for step in script {
        log.cut(0);
        root.step(step, log, steps)?;
        write_all(out, log.bytes())?;
    }
    Ok(())
}
