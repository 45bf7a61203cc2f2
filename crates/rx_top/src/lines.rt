// The line of what is accepted.
ghost use Rattle.std.specs.Prelude.{◌≡◌, ◌++◌, IfOk, OnOk};
ghost use Rattle.rx_accept.specs.Lines.{then_number};
ghost use Rattle.rx_verify.specs.declared.verdict.Verdict.TheVariants as verdict;
ghost use Rattle.rx_top.specs.Outcome.{accepted_line as accepted_line_of, verdict_line};

use itoa::Buffer;
use std::alloc::{AllocError, Global};

/// A word and a number behind a line.
fn push_counted(line: &mut Vec<u8>, word: &str, number: u64) -> Result<(), AllocError>
    ensures { OnOk result (line.new.items ≡ line.old.items ++ (word.now ++ then_number number)) }
{
    let mut buffer = Buffer::new();
    line.extend_from_slice(word.as_bytes())?;
    line.push(b' ')?;
    line.extend_from_slice(buffer.format(number).as_bytes())?;
    Ok(())
}

/// The line for what is accepted: the most nodes and levels that a tree has, and how many steps there are.
pub(crate) fn accepted_line(
    alloc: Global,
    nodes: u64,
    levels: u64,
    steps: u64,
) -> Result<Vec<u8>, AllocError>
    ensures { IfOk result (λ line. line.items ≡ accepted_line_of nodes levels steps) }
{
    let mut line = Vec::new(alloc);
    push_counted(&mut line, "accepted nodes", nodes)?;
    push_counted(&mut line, " depth", levels)?;
    push_counted(&mut line, " steps", steps)?;
    line.push(b'\n')?;
    Ok(line)
}

/// The line for a report whose first line that no report has is this one.
pub(crate) fn no_line(alloc: Global, line: u64) -> Result<Vec<u8>, AllocError>
    ensures { IfOk result (λ text. text.items ≡ verdict_line (verdict.No line)) }
{
    let mut text = Vec::new(alloc);
    push_counted(&mut text, "no line", line)?;
    text.push(b'\n')?;
    Ok(text)
}
