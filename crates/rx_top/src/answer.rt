// What an input gives.
ghost use Rattle.std.specs.Prelude.{◌≡◌, ◌≢◌, ◌≤◌, ◌<◌, ◌^◌, length, false};
ghost use Rattle.std.specs.Io.KnownBytes.{Appends};
ghost use Rattle.rx_io.specs.Whole.{AppendsPart};
ghost use Rattle.rx_accept.specs.Judgements.{Judgement};
ghost use Rattle.rx_rules.specs.Bounds.{node_bound, depth_bound};
ghost use Rattle.rx_model.specs.State.{opening};
ghost use Rattle.rx_model.specs.Laws.{IsBounded};
ghost use Rattle.rx_root.specs.Paying.{Pays};
ghost use Rattle.rx_root.specs.Stands.{Stands};
ghost use Rattle.rx_kept.specs.Taking.{AllCanTake};
ghost use Rattle.rx_top.specs.declared.status.Status.{Status};
ghost use Rattle.rx_top.specs.Outcome.{accepted_line as accepted_line_of, is_cut_short, parts_of, report_in, verdict_line, verdict_status, Gives, IsJudgedFor, IsStatusOf, IsWorkStatus, Tells, TellsFaults, TellsPart, Writes, OrNothing, IsWork, IsOutput, IsLostWork, IsLostOutput, IsShortWork, IsShortOutput};
ghost use Rattle.rx_verify.specs.declared.verdict.Verdict.{Verdict as verdict};
ghost use Rattle.rx_verify.specs.Verdicts.{IsVerdict};
ghost use Rattle.rx_top.specs.Reports.{IsReport, IsLostReport, IsShortReport};

use crate::lines::{accepted_line, no_line};
use crate::run::{RunError, run_steps};
use crate::status::Status;
use run_laws::quiet_ends;
use rx_accept::{Verdict, accept_parts};
use rx_base::Steps;
use rx_check::Checked;
use rx_io::{Sink, write_all};
use rx_model::progresses;
use rx_report::Report;
use rx_root::{Root, steps_can_be_taken};
use rx_script::{split_input, split_report};
use rx_step::Step;
use rx_verify::{Verdict as Verified, verdict_is_one, verify};
use rx_words::Reading;
use std::alloc::Global;
use std::sync::ledger::Ledger;

/// Writes a whole line and answers this, unless the sink fails.
pub(crate) fn tell<K: Sink>(out: &mut K, line: &[u8], answer: Status) -> Status
    requires { is_cut_short answer ≡ false }
    ensures gives { Gives answer result }
    ensures no_read { result ≢ Status.ReadFault }
    ensures no_memory { result ≢ Status.OutOfMemory }
    ensures done { is_cut_short result ≡ false → Appends (K.written out.old) (K.written out.new) line.now }
    ensures lost { result ≡ Status.WriteFault → AppendsPart (K.written out.old) (K.written out.new) line.now }
    ensures faults { TellsFaults (K.faults out.old) (K.faults out.new) result }
{
    match write_all(out, line) {
        Ok(()) => answer,
        Err(_) => Status::WriteFault,
    }
}

/// A program that is accepted is within all bounds of the machine.
pub(crate) fn program_is_bounded(checked: &Checked)
    ensures { IsBounded checked.now }
{
    checked.program();
}

/// Runs the steps of a script from the start, and writes the end line.
fn run_root<K: Sink, L: Ledger>(
    root: &mut Root,
    script: &[Step],
    log: &mut Report,
    out: &mut K,
    steps: &mut Steps<L>,
) -> Status
    requires bounded { IsBounded root.old.rendering.program }
    requires stands { Stands root.old.rendering.program opening root.old }
    requires fits { AllCanTake root.old.rendering.program script.now }
    requires few { length script.now < 2 ^ 32 }
    ensures gives { Gives Status.Done result }
    ensures no_read { result ≢ Status.ReadFault }
    ensures done { result ≡ Status.Done → Writes (K.written out.old) (K.written out.new) steps.old steps.new (IsReport Pays root.old.rendering.program script.now log.old.options) }
    ensures lost { result ≡ Status.WriteFault → Writes (K.written out.old) (K.written out.new) steps.old steps.new (IsLostReport root.old.rendering.program script.now log.old.options) }
    ensures short { result ≡ Status.OutOfMemory → Writes (K.written out.old) (K.written out.new) steps.old steps.new (IsShortReport root.old.rendering.program script.now log.old.options) }
    ensures faults { TellsFaults (K.faults out.old) (K.faults out.new) result }
{
    quiet_ends();
    progresses();
    match run_steps(root, script, log, out, steps) {
        Ok(()) => {}
        Err(RunError::Failed) => return Status::WriteFault,
        Err(RunError::OutOfMemory) => return Status::OutOfMemory,
    }
    log.cut(0);
    match root.end_line(log) {
        Ok(()) => {}
        Err(_) => return Status::OutOfMemory,
    }
    match write_all(out, log.bytes()) {
        Ok(()) => Status::Done,
        Err(_) => Status::WriteFault,
    }
}

/// Runs the steps of the script of a program, and writes the end line.
fn run_program<K: Sink, L: Ledger>(
    alloc: Global,
    checked: Checked,
    script: &[Step],
    log: &mut Report,
    out: &mut K,
    steps: &mut Steps<L>,
) -> Status
    requires fits { AllCanTake checked script.now }
    requires few { length script.now < 2 ^ 32 }
    ensures gives { Gives Status.Done result }
    ensures no_read { result ≢ Status.ReadFault }
    ensures done { result ≡ Status.Done → Writes (K.written out.old) (K.written out.new) steps.old steps.new (IsReport Pays checked script.now log.old.options) }
    ensures lost { result ≡ Status.WriteFault → Writes (K.written out.old) (K.written out.new) steps.old steps.new (IsLostReport checked script.now log.old.options) }
    ensures short { result ≡ Status.OutOfMemory → Writes (K.written out.old) (K.written out.new) steps.old steps.new (OrNothing (IsShortReport checked script.now log.old.options)) }
    ensures faults { TellsFaults (K.faults out.old) (K.faults out.new) result }
{
    program_is_bounded(&checked);
    match Root::new(alloc, checked) {
        Ok(mut root) => run_root(&mut root, script, log, out, steps),
        Err(_) => Status::OutOfMemory,
    }
}

/// Tells the bounds of a program that is accepted, and how many steps its script has.
fn tell_accepted<K: Sink>(alloc: Global, checked: &Checked, count: u64, out: &mut K) -> Status
    ensures gives { Gives Status.Done result }
    ensures no_read { result ≢ Status.ReadFault }
    ensures done { is_cut_short result ≡ false → Appends (K.written out.old) (K.written out.new) (accepted_line_of (node_bound checked.now) (depth_bound checked.now) count) }
    ensures lost { result ≡ Status.WriteFault → AppendsPart (K.written out.old) (K.written out.new) (accepted_line_of (node_bound checked.now) (depth_bound checked.now) count) }
    ensures short { result ≡ Status.OutOfMemory → out.new ≡ out.old }
    ensures faults { TellsFaults (K.faults out.old) (K.faults out.new) result }
{
    match accepted_line(alloc, checked.bound(), checked.depth(), count) {
        Ok(line) => tell(out, &line, Status::Done),
        Err(_) => Status::OutOfMemory,
    }
}

/// Tells whether a report is that of a run of a program and the steps of its script.
fn tell_verdict<K: Sink>(
    alloc: Global,
    checked: &Checked,
    script: &[Step],
    report: &[u8],
    out: &mut K,
) -> Status
    requires fits { AllCanTake checked.now script.now }
    requires few { length script.now < 2 ^ 32 }
    requires short { length report.now < 2 ^ 32 }
    ensures gives { (due : Status) → IsWorkStatus Reading.Verify checked.now script.now report.now due → Gives due result }
    ensures no_read { result ≢ Status.ReadFault }
    ensures done { is_cut_short result ≡ false → Tells (K.written out.old) (K.written out.new) (λ text. (v : verdict) × IsVerdict checked.now script.now report.now v × (result ≡ verdict_status v) × (text ≡ verdict_line v)) }
    ensures lost { result ≡ Status.WriteFault → TellsPart (K.written out.old) (K.written out.new) (λ text. (v : verdict) × IsVerdict checked.now script.now report.now v × (text ≡ verdict_line v)) }
    ensures short { result ≡ Status.OutOfMemory → out.new ≡ out.old }
    ensures faults { TellsFaults (K.faults out.old) (K.faults out.new) result }
{
    verdict_is_one();
    match verify(alloc, checked, script, report) {
        Ok(Verified::Yes) => tell(out, b"yes\n", Status::Done),
        Ok(Verified::No { line }) => match no_line(alloc, line) {
            Ok(text) => tell(out, &text, Status::No),
            Err(_) => Status::OutOfMemory,
        },
        Err(_) => Status::OutOfMemory,
    }
}

/// What an input that is accepted gives.
fn answer_accepted<K: Sink, L: Ledger>(
    alloc: Global,
    reading: Reading,
    checked: Checked,
    script: &[Step],
    report: &[u8],
    out: &mut K,
    steps: &mut Steps<L>,
) -> Status
    requires fits { AllCanTake checked script.now }
    requires few { length script.now < 2 ^ 32 }
    requires short { length report.now < 2 ^ 32 }
    ensures gives { (due : Status) → IsWorkStatus reading checked script.now report.now due → Gives due result }
    ensures no_read { result ≢ Status.ReadFault }
    ensures done { is_cut_short result ≡ false → Writes (K.written out.old) (K.written out.new) steps.old steps.new (IsWork reading result checked script.now report.now) }
    ensures lost { result ≡ Status.WriteFault → Writes (K.written out.old) (K.written out.new) steps.old steps.new (IsLostWork reading checked script.now report.now) }
    ensures short { result ≡ Status.OutOfMemory → Writes (K.written out.old) (K.written out.new) steps.old steps.new (IsShortWork reading checked script.now) }
    ensures faults { TellsFaults (K.faults out.old) (K.faults out.new) result }
{
    match reading {
        Reading::Run { counts, ops } => {
            let mut log = Report::new(alloc, counts, ops);
            run_program(alloc, checked, script, &mut log, out, steps)
        }
        Reading::Check => tell_accepted(alloc, &checked, script.len() as u64, out),
        Reading::Verify => tell_verdict(alloc, &checked, script, report, out),
    }
}

/// The text of the program, the script and the report that an input holds.
fn split(reading: Reading, input: &[u8]) -> (&[u8], &[u8], &[u8])
    ensures program { result.0.now ≡ (parts_of reading input.now).program }
    ensures script { result.1.now ≡ (parts_of reading input.now).script }
    ensures report { result.2.now ≡ report_in reading input.now }
    ensures shorter { length result.1.now ≤ length input.now }
    ensures within { length result.2.now ≤ length input.now }
{
    match reading {
        Reading::Run { counts: _, ops: _ } | Reading::Check => {
            let (program, script) = split_input(input);
            (program, script, &[])
        }
        Reading::Verify => split_report(input),
    }
}

/// What an input gives, once all was read.
pub(crate) fn answer<K: Sink, L: Ledger>(
    alloc: Global,
    reading: Reading,
    input: &[u8],
    out: &mut K,
    steps: &mut Steps<L>,
) -> Status
    requires { length input.now < 2 ^ 32 }
    ensures gives { (j : Judgement) (due : Status) → IsJudgedFor reading input.now j → IsStatusOf reading (report_in reading input.now) j due → Gives due result }
    ensures no_read { result ≢ Status.ReadFault }
    ensures done { is_cut_short result ≡ false → (j : Judgement) × IsJudgedFor reading input.now j
        × Writes (K.written out.old) (K.written out.new) steps.old steps.new (IsOutput reading result (report_in reading input.now) j) }
    ensures lost { result ≡ Status.WriteFault → (j : Judgement) × IsJudgedFor reading input.now j
        × Writes (K.written out.old) (K.written out.new) steps.old steps.new (IsLostOutput reading (report_in reading input.now) j) }
    ensures short { result ≡ Status.OutOfMemory → Writes (K.written out.old) (K.written out.new) steps.old steps.new (OrNothing (IsShortOutput reading input.now)) }
    ensures faults { TellsFaults (K.faults out.old) (K.faults out.new) result }
{
    steps_can_be_taken();
    let (program, script, report) = split(reading, input);
    match accept_parts(alloc, program, script) {
        Ok(
            Verdict::Accepted {
                checked,
                steps: found,
            },
        ) => answer_accepted(alloc, reading, checked, &found, report, out, steps),
        Ok(Verdict::ProgramRefused(line)) => tell(out, &line, Status::ProgramRefused),
        Ok(Verdict::ScriptRefused(line)) => tell(out, &line, Status::ScriptRefused),
        Err(_) => Status::OutOfMemory,
    }
}
