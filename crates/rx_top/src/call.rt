// The top call.
ghost use Rattle.std.specs.Prelude.{◌≡◌, ◌≢◌, ◌⊎◌, ◌≤◌, ◌+◌, ℕ, length, false, true, Some, IfSome};
ghost use Rattle.std.specs.Io.KnownBytes.{Appends};
ghost use Rattle.rx_io.specs.Causes.{Rose};
ghost use Rattle.rx_io.specs.Whole.{AppendsPart};
ghost use Rattle.rx_words.specs.declared.task.Task.{Task};
ghost use Rattle.rx_words.specs.declared.task.Reading.{Reading};
ghost use Rattle.rx_words.specs.Words.{is_valid, reads_input, task_of, texts};
ghost use Rattle.rx_top.specs.declared.status.Status.{Status};
ghost use Rattle.rx_top.specs.Outcome.{limit, usage_line, too_long_line, Answers, Does, Gives, IsDue, IsLost, IsShort, Reads, TellsFaults, Writes};

use crate::answer::answer;
use crate::status::Status;
use crate::summary::write_summary;
use rx_base::Steps;
use rx_io::{ReadError, Sink, Source, read_all, write_all};
use rx_words::{Task, read_words};
use std::alloc::Global;
use std::sync::ledger::Ledger;

const LIMIT: usize = 8_388_608;

/// Writes the line for words that are not valid.
fn refuse_words<K: Sink>(out: &mut K) -> Status
    ensures gives { Gives Status.Usage result }
    ensures no_read { result ≢ Status.ReadFault }
    ensures no_memory { result ≢ Status.OutOfMemory }
    ensures done { result ≡ Status.Usage → Appends (K.written out.old) (K.written out.new) usage_line }
    ensures lost { result ≡ Status.WriteFault → AppendsPart (K.written out.old) (K.written out.new) usage_line }
    ensures faults { TellsFaults (K.faults out.old) (K.faults out.new) result }
{
    match write_all(
        out,
        b"usage: fiber_run run [--counts] [--ops] | check | gen N | verify\n",
    ) {
        Ok(()) => Status::Usage,
        Err(_) => Status::WriteFault,
    }
}

/// Does all that the program does: takes the words behind the program's name, reads the source, writes to the sink,
/// and says how it ended.
///
/// The words are valid if they are `run` with `--counts` and `--ops` each at most once, `check` alone, `gen` with a
/// number from 1 to 1,000, or `verify` alone. `run`, `check` and `verify` read the source to its end, or until more than 8,388,608
/// bytes were taken. It holds a program, a line `---`, and a script; and for `verify` another line `---`, and a report. All refuse
/// what is not accepted; `check` tells the bounds of what is accepted, `run` runs it, and `verify` tells whether the report is
/// that of a run, as `run --counts` writes it. `gen` reads nothing, runs a generated program and script, and sums up their run.
///
/// For every accepted program and script, the bytes that `run` writes are the report of a run of the fresh machine, which
/// at each finished render folds every hook's updates of the chosen lanes and of earlier commits and renders the whole tree
/// anew; yields and discarded renders add nothing to tree or log; and in a quiet end each kept hook holds the in-order fold
/// of its updates.
pub fn top<S: Source, K: Sink, L: Ledger>(
    alloc: Global,
    words: &[&str],
    src: &mut S,
    out: &mut K,
    steps: &mut Steps<L>,
) -> Status
    // 0: the task's work is done. For `run` and `check` all was read, it is accepted, and what was written is its output:
    // for `check` the one line of its bounds; for `run` the report of a run of the fresh machine, of the program in it, on
    // the steps of the script in it; for `verify` the line `yes`, and the report behind them is that of such a run. For `gen` it
    // is the line that sums up such a run of the generated program and script. The steps rose by the bodies that this run
    // evaluates, and in `check` and `verify` by none. Each finished render of the run evaluates
    // exactly the bodies of a set of places: each place with a cause is in it, and each in it has one, or lies below one that has,
    // or below a boundary that is tried again, with an element that was made anew. One that is broken off evaluates no more.
    ensures done { result ≡ Status.Done → (task : Task) × (task_of (texts words.now) ≡ Some task)
        × Does task (S.left src.old) (S.left src.new) (K.written out.old) (K.written out.new) steps.old steps.new }

    // 1: the words are `verify`, all was read, its program and script are accepted, and the report behind them is not that of a
    // run of the fresh machine; what was written is the line that tells the least number of a line that no report has behind
    // those before it. No body was counted.
    ensures no { result ≡ Status.No → (task_of (texts words.now) ≡ Some (Task.Read Reading.Verify))
        × Answers Reading.Verify Status.No (S.left src.old) (S.left src.new) (K.written out.old) (K.written out.new) steps.old steps.new }

    // 2: the words aren't valid, and no body was evaluated.
    ensures usage { result ≡ Status.Usage → (is_valid (texts words.now) ≡ false)
        × Appends (K.written out.old) (K.written out.new) usage_line × (steps.new ≡ steps.old) }

    // If the words aren't valid, or ask for a generated run, the source is not touched, and so it did not fail.
    ensures untouched { reads_input (texts words.now) ≡ false → (src.new ≡ src.old) × (result ≢ Status.ReadFault) }

    // 3: the source failed, the sink was not touched, and no body was evaluated.
    ensures read_fault { result ≡ Status.ReadFault → Rose (S.faults src.old) (S.faults src.new) × (out.new ≡ out.old) × (steps.new ≡ steps.old) }
    ensures no_read_fault { result ≢ Status.ReadFault → S.faults src.new ≡ S.faults src.old }

    // 4: the sink failed, and what was written begins the output, of which some is lost. Of a report that is all lines of
    // the steps that were taken before the last one and a part of its own lines, or of the end line; so the lines of each
    // step are written before the next one is taken. The steps rose by the bodies of the steps that were taken.
    ensures write_fault { result ≡ Status.WriteFault → Rose (K.faults out.old) (K.faults out.new)
        × Writes (K.written out.old) (K.written out.new) steps.old steps.new (IsLost (texts words.now) (S.left src.old) (S.left src.new)) }
    ensures no_write_fault { result ≢ Status.WriteFault → K.faults out.new ≡ K.faults out.old }

    // 5: one byte more was taken than may be, and no body was evaluated.
    ensures too_long { result ≡ Status.TooLong → (reads_input (texts words.now) ≡ true)
        × Reads (S.left src.old) (S.left src.new) (λ input. length input ≡ limit + 1)
        × Appends (K.written out.old) (K.written out.new) too_long_line × (steps.new ≡ steps.old) }

    // However it ends, at most one byte more was taken than may be.
    ensures taken { Reads (S.left src.old) (S.left src.new) (λ input. length input ≤ limit + 1) }

    // 6 and 7: all was read, and it is refused: its program, or its script if its program is accepted.
    ensures program_refused { result ≡ Status.ProgramRefused → (reading : Reading) × (task_of (texts words.now) ≡ Some (Task.Read reading))
        × Answers reading Status.ProgramRefused (S.left src.old) (S.left src.new) (K.written out.old) (K.written out.new) steps.old steps.new }
    ensures script_refused { result ≡ Status.ScriptRefused → (reading : Reading) × (task_of (texts words.now) ≡ Some (Task.Read reading))
        × Answers reading Status.ScriptRefused (S.left src.old) (S.left src.new) (K.written out.old) (K.written out.new) steps.old steps.new }

    // 8: nothing was written, before a run; or what was written begins a report, and is all lines of the steps that were
    // taken before one that found no memory, or before the end line. The steps rose by the bodies of these steps, and those
    // of the render that found none.
    ensures memory { result ≡ Status.OutOfMemory → Writes (K.written out.old) (K.written out.new) steps.old steps.new
        (IsShort (texts words.now) (S.left src.old) (S.left src.new)) }

    // The status is the one that is due for the words and the input, or 3, 4 or 8.
    ensures exact { IfSome (S.left src.old) (λ input. (due : Status) → IsDue (texts words.now) input due → Gives due result) }

    // A generated run is done, whatever the source, or the status is 4 or 8.
    ensures generated { (n : ℕ) → task_of (texts words.now) ≡ Some (Task.Gen n) → Gives Status.Done result }

    // With no new fault, the status is the one that is due, or there was no memory. So what is accepted is done; and with `verify`
    // it is done exactly if the report is that of a run, and the status is 1 exactly if not.
    ensures complete { IfSome (S.left src.old) (λ input. (due : Status) → IsDue (texts words.now) input due
        → ¬ (Rose (S.faults src.old) (S.faults src.new)) → ¬ (Rose (K.faults out.old) (K.faults out.new))
        → (result ≡ due) ⊎ (result ≡ Status.OutOfMemory)) }
{
    let task = match read_words(alloc, words) {
        Ok(Some(task)) => task,
        Ok(None) => return refuse_words(out),
        Err(_) => return Status::OutOfMemory,
    };
    let reading = match task {
        Task::Read(reading) => reading,
        Task::Gen(rounds) => return write_summary(alloc, rounds, out, steps),
    };
    match read_all(alloc, src, LIMIT) {
        Ok(input) => answer(alloc, reading, &input, out, steps),
        Err(ReadError::Failed) => Status::ReadFault,
        Err(ReadError::OutOfMemory) => Status::OutOfMemory,
        Err(ReadError::TooLong) => match write_all(out, b"input over 8388608 bytes\n") {
            Ok(()) => Status::TooLong,
            Err(_) => Status::WriteFault,
        },
    }
}
