// From the bytes that come in to the page that goes out.
ghost use Rattle.std.specs.Prelude.{◌≡◌, ◌<◌, ◌^◌, ◌≢◌, length};
ghost use Rattle.std.specs.Io.KnownBytes.{Appends};
ghost use Rattle.rx_io.specs.Causes.{Rose};
ghost use Rattle.rx_kept.specs.Taking.{AllCanTake};
ghost use Rattle.fiber_view.specs.declared.status.Status.{Status};
ghost use Rattle.fiber_view.specs.Views.{GivesPage, IsPageOf, RefusesProgram, RefusesScript, RefusesLength, Reads};

use crate::page::page;
use crate::status::Status;
use rx_accept::{Verdict, accept};
use rx_base::Steps;
use rx_check::Checked;
use rx_io::{ReadError, Sink, Source, read_all, write_all};
use rx_root::steps_can_be_taken;
use rx_step::Step;
use std::alloc::Global;
use std::sync::ledger::Ledger;

const LIMIT: usize = 8_388_608;

// Writes a whole text and answers this, unless the sink fails.
fn tell<K: Sink>(out: &mut K, text: &[u8], answer: Status) -> Status
    requires { answer ≢ Status.WriteFault }
    ensures gives { result ≢ Status.WriteFault → result ≡ answer }
    ensures written { result ≡ answer → Appends (K.written out.old) (K.written out.new) text.now }
    ensures lost { result ≡ Status.WriteFault → Rose (K.faults out.old) (K.faults out.new) }
{
    match write_all(out, text) {
        Ok(()) => answer,
        Err(_) => Status::WriteFault,
    }
}

/// Writes the line for words, of which there are none.
pub(crate) fn refuse_words<K: Sink>(out: &mut K) -> Status
    ensures { result ≢ Status.WriteFault → result ≡ Status.Usage }
{
    tell(out, b"usage: fiber_view < INPUT > PAGE\n", Status::Usage)
}

// Writes the page of an input that is accepted. If there is no memory for it, nothing is written.
fn show<K: Sink, L: Ledger>(
    alloc: Global,
    input: &[u8],
    checked: Checked,
    script: &[Step],
    out: &mut K,
    steps: &mut Steps<L>,
) -> Status
    requires fits { AllCanTake checked script.now }
    requires few { length script.now < 2 ^ 32 }
    ensures gives { result ≢ Status.WriteFault → result ≢ Status.OutOfMemory → result ≡ Status.Done }
    ensures done { result ≡ Status.Done → GivesPage checked script.now input.now (K.written out.old) (K.written out.new) }
    ensures lost { result ≡ Status.WriteFault → Rose (K.faults out.old) (K.faults out.new) }
    ensures short { result ≡ Status.OutOfMemory → out.new ≡ out.old }
{
    match page(alloc, input, checked, script, steps) {
        Ok(page) => tell(out, &page, Status::Done),
        Err(_) => Status::OutOfMemory,
    }
}

// Judges an input, and writes its page, or the line that refuses it.
fn answer<K: Sink, L: Ledger>(
    alloc: Global,
    input: &[u8],
    out: &mut K,
    steps: &mut Steps<L>,
) -> Status
    requires { length input.now < 2 ^ 32 }
    ensures done { result ≡ Status.Done → IsPageOf input.now (K.written out.old) (K.written out.new) }
    ensures program_refused { result ≡ Status.ProgramRefused → RefusesProgram input.now (K.written out.old) (K.written out.new) }
    ensures script_refused { result ≡ Status.ScriptRefused → RefusesScript input.now (K.written out.old) (K.written out.new) }
    ensures too_long { result ≢ Status.TooLong }
    ensures no_read { result ≢ Status.ReadFault }
    ensures lost { result ≡ Status.WriteFault → Rose (K.faults out.old) (K.faults out.new) }
    ensures short { result ≡ Status.OutOfMemory → out.new ≡ out.old }
{
    steps_can_be_taken();
    match accept(alloc, input) {
        Ok(
            Verdict::Accepted {
                checked,
                steps: found,
            },
        ) => show(alloc, input, checked, &found, out, steps),
        Ok(Verdict::ProgramRefused(line)) => tell(out, &line, Status::ProgramRefused),
        Ok(Verdict::ScriptRefused(line)) => tell(out, &line, Status::ScriptRefused),
        Err(_) => Status::OutOfMemory,
    }
}

/// Reads an input to its end, and writes the page of its run. An input that is not accepted, or too long, has no page: the line
/// that refuses it is written.
pub(crate) fn view<S: Source, K: Sink, L: Ledger>(
    alloc: Global,
    src: &mut S,
    out: &mut K,
    steps: &mut Steps<L>,
) -> Status
    // 0: all was read, it is accepted, and the page of a run of it was written.
    ensures done { result ≡ Status.Done → Reads (S.left src.old) (S.left src.new) (λ input. IsPageOf input (K.written out.old) (K.written out.new)) }

    // 6 and 7: all was read, and it is refused; the line that says why was written.
    ensures program_refused { result ≡ Status.ProgramRefused → Reads (S.left src.old) (S.left src.new) (λ input. RefusesProgram input (K.written out.old) (K.written out.new)) }
    ensures script_refused { result ≡ Status.ScriptRefused → Reads (S.left src.old) (S.left src.new) (λ input. RefusesScript input (K.written out.old) (K.written out.new)) }

    // 5: more came than may come.
    ensures too_long { result ≡ Status.TooLong → RefusesLength (S.left src.old) (S.left src.new) (K.written out.old) (K.written out.new) }

    // 3, 4 and 8: the source or the sink failed; if there was no memory, or the source failed, nothing was written.
    ensures read_fault { result ≡ Status.ReadFault → Rose (S.faults src.old) (S.faults src.new) }
    ensures nothing_read { result ≡ Status.ReadFault → out.new ≡ out.old }
    ensures write_fault { result ≡ Status.WriteFault → Rose (K.faults out.old) (K.faults out.new) }
    ensures memory { result ≡ Status.OutOfMemory → out.new ≡ out.old }
{
    match read_all(alloc, src, LIMIT) {
        Ok(input) => answer(alloc, &input, out, steps),
        Err(ReadError::Failed) => Status::ReadFault,
        Err(ReadError::OutOfMemory) => Status::OutOfMemory,
        Err(ReadError::TooLong) => tell(out, b"input over 8388608 bytes\n", Status::TooLong),
    }
}
