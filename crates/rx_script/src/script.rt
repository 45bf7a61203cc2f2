// Reading a script.
ghost use Rattle.std.specs.Prelude.{◌≡◌, ◌∷◌, ◌++◌, ◌+◌, ◌<◌, ◌≤◌, ◌^◌, length, MatchResult, IfOk, IfErr, OnOk, Ok};
ghost use Rattle.rx_script.specs.Words.{lines_of};
ghost use Rattle.rx_script.specs.Lines.{steps_of};
ghost use Rattle.rx_script.specs.Readings.{IsErrorAt, Refuses, found_steps};

use crate::input::{first_piece, without_return};
use crate::line::{LineError, read_line};
use crate::path_reader::PathReader;
use rx_check::Checked;
use rx_step::Step;
use std::alloc::{AllocFailed, Global};

/// Why a script has no steps: the first line that is bad, counted from 1.
#[derive(Clone, Copy, Debug, PartialEq, Eq)]
pub enum ScriptError {
    /// The line has no form: its first word, the number of its words, or the form of one of them.
    BadLine { line: u64 },
    /// The line has a form, and names what the program has not: a component, a hook, a function or a resource.
    UnknownTarget { line: u64 },
    /// The line has a form and its targets, and one of its numbers is out of its bounds.
    OutOfRange { line: u64 },
    /// Out of memory.
    OutOfMemory,
}

impl<T: Drop> From<AllocFailed<T>> for ScriptError {
    ghost use Rattle.std.specs.Prelude.{◌≡◌};
    ghost use Rattle.rx_script.specs.declared.script.ScriptError.TheVariants.{OutOfMemory};

    ghost from_gives = { λ _ e. e ≡ OutOfMemory };

    fn from(_: AllocFailed<T>) -> Self {
        ScriptError::OutOfMemory
    }
}

/// The first line of a text, and what stands behind it.
fn first_line(text: &[u8]) -> (&[u8], &[u8])
    requires { 0 < length text.now }
    ensures lines { lines_of text.now ≡ result.0.now ∷ lines_of result.1.now }
    ensures shorter { length result.1.now < length text.now }
{
    let (piece, after) = first_piece(text);
    match after {
        Some(after) => (without_return(piece), after),
        None => (without_return(piece), &[]),
    }
}

/// The step that was found, if one was.
fn push_found(steps: &mut Vec<Step>, found: Option<Step>) -> Result<(), ScriptError>
    ensures ok { OnOk result (steps.new.items ≡ steps.old.items ++ found_steps found) }
    ensures few { OnOk result (length steps.new.items ≤ length steps.old.items + 1) }
    ensures err { IfErr result (λ e. e ≡ ScriptError.OutOfMemory) }
{
    if let Some(step) = found {
        steps.push(step)?;
    }
    Ok(())
}

/// The error of a script whose first bad line is this one.
fn error_at(line: u64, error: LineError) -> ScriptError
    ensures { IsErrorAt line error result }
{
    match error {
        LineError::BadLine => ScriptError::BadLine { line },
        LineError::UnknownTarget => ScriptError::UnknownTarget { line },
        LineError::OutOfRange => ScriptError::OutOfRange { line },
        LineError::OutOfMemory => ScriptError::OutOfMemory,
    }
}

/// The steps of a script's lines, in order. A line without words and one that begins with `#` are no steps.
///
/// # Errors
///
/// Exactly if some other line is no step of the program, the first such line, counted from 1, and why it is none:
/// `BadLine` before `UnknownTarget` before `OutOfRange`; and `OutOfMemory` if out of memory.
pub fn read_script<'a>(
    alloc: Global,
    checked: &'a Checked,
    text: &'a [u8],
) -> Result<Vec<Step>, ScriptError>
    requires { length text.now < 2 ^ 32 }
    ensures read { MatchResult result (λ steps. steps_of checked.now text.now ≡ Ok steps.items) (λ e. Refuses e (steps_of checked.now text.now)) }
    ensures few { IfOk result (λ steps. length steps.items < 2 ^ 32) }
{
    let mut steps = Vec::new(alloc);
    let mut paths = PathReader::new(checked);
    let mut rest = text;
    let mut number: u64 = 1;
    'lines: while !rest.is_empty() {
        let (line, after) = first_line(rest);
        let found = match read_line(alloc, &mut paths, line) {
            Ok(found) => found,
            Err(error) => return Err(error_at(number, error)),
        };
        push_found(&mut steps, found)?;
        rest = after;
        number += 1;
    }
    Ok(steps)
}
