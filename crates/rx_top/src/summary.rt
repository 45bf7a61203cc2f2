// A generated run, summed up.
ghost use Rattle.std.specs.Prelude.{◌≡◌, ◌≢◌, ◌≤◌, ◌+◌, ◌<◌, ◌^◌, ◌⊎◌, [], length, drop, false, None, IfOk, OnErr, OnOk, ℕ};
ghost use Rattle.rx_model.specs.State.{State, opening};
ghost use Rattle.rx_root.specs.Paying.{Pays};
ghost use Rattle.rx_root.specs.Stands.{Stands, StandsForSome, HasRoomFor};
ghost use Rattle.rx_kept.specs.Taking.{AllCanTake};
ghost use Rattle.rx_words.specs.Words.{most_rounds};
ghost use Rattle.rx_top.specs.declared.status.Status.{Status};
ghost use Rattle.rx_gen.specs.Meant.{generated_input};
ghost use Rattle.rx_top.specs.Outcome.{is_cut_short, plain, summary_of, Gives, IsLostSummary, IsShortSummary, IsSummary, OrNothing, TellsFaults, Writes};
ghost use Rattle.rx_top.specs.Reports.{BreaksOffAt, StepBreaksOff};
ghost use Rattle.rx_top.specs.Running.{CountsShort, SumsUp, WritesRun};

use crate::answer::tell;
use crate::run::{RunError, run_steps};
use crate::status::Status;
use rx_accept::{Verdict, accept};
use rx_base::{Steps, Str};
use rx_check::Checked;
use rx_gen::{generate, generated_input_is_accepted, summary};
use rx_io::{Sink, SureSink};
use rx_report::Report;
use rx_root::{Root, steps_can_be_taken};
use rx_step::Step;
use std::alloc::{AllocError, Global};
use std::sync::ledger::Ledger;

/// The generated program, a line `---`, and a script of so many rounds.
fn input_of(alloc: Global, rounds: u32) -> Result<Vec<u8>, AllocError>
    ensures { IfOk result (λ input. input.items ≡ generated_input rounds) }
{
    let (program, script) = generate(alloc, rounds)?;
    let mut input = Vec::from_slice(alloc, program.text().as_bytes())?;
    input.extend_from_slice(b"---\n")?;
    input.extend_from_slice(script.text().as_bytes())?;
    Ok(input)
}

/// Runs the steps in order, and writes nothing.
fn run_silently<L: Ledger>(
    root: &mut Root,
    script: &[Step],
    log: &mut Report,
    steps: &mut Steps<L>,
) -> Result<(), AllocError>
    requires stands { StandsForSome root.old }
    requires fits { AllCanTake root.old.rendering.program script.now }
    requires room { HasRoomFor (length script.now) root.old }
    ensures ok { OnOk result ((s : State) → Stands root.old.rendering.program s root.old
        → WritesRun root.old.rendering.program log.old.options s script.now None None steps.old steps.new root.new) }
    ensures program { OnOk result (root.new.rendering.program ≡ root.old.rendering.program) }
    ensures options { OnOk result (log.new.options ≡ log.old.options) }
    ensures left { OnOk result ((k : ℕ) → HasRoomFor (length script.now + k) root.old → HasRoomFor k root.new) }
    ensures short { OnErr result ((s : State) → Stands root.old.rendering.program s root.old
        → Writes None None steps.old steps.new (StepBreaksOff Pays root.old.rendering.program s script.now log.old.options)) }
{
    match run_steps(root, script, log, &mut SureSink, steps) {
        Ok(()) => Ok(()),
        Err(RunError::OutOfMemory) => Err(AllocError),

        // It never fails.
        Err(RunError::Failed) => Err(AllocError),
    }
}

/// What stands behind the head of the lines of all hosts.
fn behind_head(lines: &[u8]) -> &[u8]
    ensures { result.now ≡ drop 5 lines.now }
{
    match lines {
        [_, _, _, _, _, rest @ ..] => rest,
        _ => &[],
    }
}

/// The line that sums up a run, where it stands.
fn sum_up<L: Ledger>(
    alloc: Global,
    rounds: u32,
    root: &mut Root,
    log: &mut Report,
    steps: &mut Steps<L>,
) -> Result<Str, AllocError>
    requires stands { StandsForSome root.old }
    requires room { HasRoomFor 1 root.old }
    requires options { log.old.options ≡ plain }
    ensures ok { IfOk result (λ line. (s : State) → Stands root.old.rendering.program s root.old → line ≡ summary_of rounds s) }
    ensures steps { steps.new ≡ steps.old }
{
    log.cut(0);
    root.step(&Step::Tree, log, steps)?;
    let tree = behind_head(log.bytes());
    summary(
        alloc,
        rounds,
        root.updates(),
        root.commits(),
        root.nodes(),
        tree,
    )
}

/// Runs the steps of a script from the start, and sums them up.
fn run_and_sum_up<L: Ledger>(
    alloc: Global,
    rounds: u32,
    root: &mut Root,
    script: &[Step],
    steps: &mut Steps<L>,
) -> Result<Str, AllocError>
    requires stands { Stands root.old.rendering.program opening root.old }
    requires fits { AllCanTake root.old.rendering.program script.now }
    requires few { length script.now < 2 ^ 32 }
    ensures ok { IfOk result (λ line. SumsUp root.old.rendering.program script.now rounds line steps.old steps.new) }
    ensures short { OnErr result (Writes None None steps.old steps.new (BreaksOffAt root.old.rendering.program script.now plain)) }
{
    let mut log = Report::new(alloc, false, false);
    run_silently(root, script, &mut log, steps)?;
    sum_up(alloc, rounds, root, &mut log, steps)
}

/// The line that sums up a run of a program that is accepted on these steps.
fn summarize_accepted<L: Ledger>(
    alloc: Global,
    rounds: u32,
    checked: Checked,
    script: &[Step],
    steps: &mut Steps<L>,
) -> Result<Str, AllocError>
    requires fits { AllCanTake checked script.now }
    requires few { length script.now < 2 ^ 32 }
    ensures ok { IfOk result (λ line. SumsUp checked script.now rounds line steps.old steps.new) }
    ensures short { OnErr result (CountsShort checked script.now steps.old steps.new) }
{
    match Root::new(alloc, checked) {
        Ok(mut root) => run_and_sum_up(alloc, rounds, &mut root, script, steps),
        Err(error) => Err(error),
    }
}

/// The line that sums up the generated run of so many rounds, and the bodies that it evaluates.
fn summarize<L: Ledger>(alloc: Global, rounds: u32, steps: &mut Steps<L>) -> Result<Str, AllocError>
    requires { rounds ≤ most_rounds }
    ensures ok { IfOk result (λ line. (bodies : ℕ) × IsSummary rounds line bodies × (steps.new ≡ steps.old + bodies)) }
    ensures short { OnErr result ((steps.new ≡ steps.old) ⊎ ((bodies : ℕ) × IsShortSummary rounds [] bodies × (steps.new ≡ steps.old + bodies))) }
{
    steps_can_be_taken();
    generated_input_is_accepted();
    let input = input_of(alloc, rounds)?;
    match accept(alloc, &input)? {
        Verdict::Accepted {
            checked,
            steps: script,
        } => summarize_accepted(alloc, rounds, checked, &script, steps),
        // The generated input is accepted.
        Verdict::ProgramRefused(_) | Verdict::ScriptRefused(_) => unreachable!(),
    }
}

/// Runs the generated program with a script of so many rounds, and writes the line that sums up this run.
pub(crate) fn write_summary<K: Sink, L: Ledger>(
    alloc: Global,
    rounds: u32,
    out: &mut K,
    steps: &mut Steps<L>,
) -> Status
    requires { rounds ≤ most_rounds }
    ensures gives { Gives Status.Done result }
    ensures no_read { result ≢ Status.ReadFault }
    ensures done { is_cut_short result ≡ false → Writes (K.written out.old) (K.written out.new) steps.old steps.new (IsSummary rounds) }
    ensures lost { result ≡ Status.WriteFault → Writes (K.written out.old) (K.written out.new) steps.old steps.new (IsLostSummary rounds) }
    ensures short { result ≡ Status.OutOfMemory → Writes (K.written out.old) (K.written out.new) steps.old steps.new (OrNothing (IsShortSummary rounds)) }
    ensures faults { TellsFaults (K.faults out.old) (K.faults out.new) result }
{
    match summarize(alloc, rounds, steps) {
        Ok(line) => tell(out, line.text().as_bytes(), Status::Done),
        Err(_) => Status::OutOfMemory,
    }
}
