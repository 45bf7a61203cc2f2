// The lines that tell of a refusal.
ghost use Rattle.std.specs.Prelude.{◌≡◌, ◌≢◌, [], ◌∷◌, ◌++◌, codes, IfOk, OnOk};
ghost use Rattle.rx_accept.specs.Lines.{count_word, then_number, refusal_text, cause_text, program_line as program_line_of, IsScriptLine};

use crate::cause::Cause;
use itoa::Buffer;
use rx_base::Name;
use rx_check::{Count, Refusal};
use rx_script::ScriptError;
use std::alloc::{AllocError, Global};

/// The word for what is counted.
fn count_word(what: Count) -> &'static str
    ensures { result.now ≡ count_word what }
{
    match what {
        Count::Name => "name",
        Count::Text => "string",
        Count::Declarations => "declarations",
        Count::Parameters => "parameters",
        Count::Statements => "statements",
        Count::Attributes => "attributes",
        Count::Dependencies => "dependencies",
        Count::List => "list",
        Count::Resources => "resources",
        Count::Depth => "depth",
    }
}

/// A space and a number behind a line.
fn push_number(line: &mut Vec<u8>, number: u64) -> Result<(), AllocError>
    ensures { OnOk result (line.new.items ≡ line.old.items ++ then_number number) }
{
    let mut buffer = Buffer::new();
    line.push(b' ')?;
    line.extend_from_slice(buffer.format(number).as_bytes())?;
    Ok(())
}

/// A code and a name behind a line.
fn push_name(line: &mut Vec<u8>, code: &str, name: &Name) -> Result<(), AllocError>
    ensures { OnOk result (line.new.items ≡ line.old.items ++ (code.now ++ name.now)) }
{
    line.extend_from_slice(code.as_bytes())?;
    line.extend_from_slice(name.text().as_bytes())?;
    Ok(())
}

/// What is counted, what was found and the limit behind a line.
fn push_count(line: &mut Vec<u8>, what: Count, found: u64, limit: u64) -> Result<(), AllocError>
    ensures { OnOk result (line.new.items ≡ line.old.items ++ (codes "11 " ++ count_word what ++ then_number found ++ then_number limit)) }
{
    line.extend_from_slice(b"11 ")?;
    line.extend_from_slice(count_word(what).as_bytes())?;
    push_number(line, found)?;
    push_number(line, limit)
}

/// A code and a number behind a line.
fn push_coded(line: &mut Vec<u8>, code: &str, number: u64) -> Result<(), AllocError>
    ensures { OnOk result (line.new.items ≡ line.old.items ++ (code.now ++ then_number number)) }
{
    line.extend_from_slice(code.as_bytes())?;
    push_number(line, number)
}

/// The code of a check that is not met, and what it tells, behind a line.
fn push_refusal(line: &mut Vec<u8>, refusal: &Refusal) -> Result<(), AllocError>
    ensures text { OnOk result (line.new.items ≡ line.old.items ++ refusal_text refusal.now) }
    ensures told { OnOk result (refusal.now ≢ Refusal.OutOfMemory) }
{
    match refusal {
        Refusal::Duplicate(name) => push_name(line, "4 ", name),
        Refusal::Unknown(name) => push_name(line, "5 ", name),
        Refusal::Arity(name) => push_name(line, "6 ", name),
        Refusal::FunctionCycle(name) => push_name(line, "7 ", name),
        Refusal::ComponentCycle(name) => push_name(line, "8 ", name),
        Refusal::UseOutside(name) => push_name(line, "9 ", name),
        Refusal::ThrowOutside(name) => push_name(line, "20 ", name),
        Refusal::NoApp => Ok(line.extend_from_slice(b"10")?),
        Refusal::Count { what, found, limit } => push_count(line, *what, *found, *limit),
        Refusal::TreeBound(found) => push_coded(line, "12", *found),
        Refusal::Cost(found) => push_coded(line, "13", *found),
        Refusal::OutOfMemory => Err(AllocError),
    }
}

/// The code of a cause, and what it tells, behind a line.
fn push_cause(line: &mut Vec<u8>, cause: &Cause) -> Result<(), AllocError>
    ensures text { OnOk result (line.new.items ≡ line.old.items ++ cause_text cause.now) }
    ensures told { OnOk result (cause.now ≢ Cause.OutOfMemory) }
{
    match cause {
        Cause::NotUtf8 { at } => push_coded(line, "2 at", *at as u64),
        Cause::NoToken { at } => push_coded(line, "2 at", *at as u64),
        Cause::NoProgram { at } => push_coded(line, "3 at", *at as u64),
        Cause::Unmet(refusal) => push_refusal(line, refusal),
        Cause::OutOfMemory => Err(AllocError),
    }
}

/// The line of a program that is refused.
pub(crate) fn program_line(alloc: Global, cause: &Cause) -> Result<Vec<u8>, AllocError>
    ensures line { IfOk result (λ line. line.items ≡ program_line_of cause.now) }
    ensures told { IfOk result (λ line. cause.now ≢ Cause.OutOfMemory) }
{
    let mut line = Vec::from_slice(alloc, b"program refused ")?;
    push_cause(&mut line, cause)?;
    line.push(b'\n')?;
    Ok(line)
}

/// The line of a script whose first bad line has this code and this number.
fn bad_line(alloc: Global, code: &str, number: u64) -> Result<Vec<u8>, AllocError>
    ensures { IfOk result (λ line. line.items ≡ codes "script refused " ++ code.now ++ codes " line" ++ then_number number ++ 10 ∷ []) }
{
    let mut line = Vec::from_slice(alloc, b"script refused ")?;
    line.extend_from_slice(code.as_bytes())?;
    line.extend_from_slice(b" line")?;
    push_number(&mut line, number)?;
    line.push(b'\n')?;
    Ok(line)
}

/// The line of a script that is refused.
pub(crate) fn script_line(alloc: Global, error: ScriptError) -> Result<Vec<u8>, AllocError>
    ensures { IfOk result (λ line. IsScriptLine error line.items) }
{
    match error {
        ScriptError::BadLine { line } => bad_line(alloc, "14", line),
        ScriptError::UnknownTarget { line } => bad_line(alloc, "15", line),
        ScriptError::OutOfRange { line } => bad_line(alloc, "16", line),
        ScriptError::OutOfMemory => Err(AllocError),
    }
}
