// What a line of a script is.
ghost use Rattle.std.specs.Prelude.{◌≡◌, map, MatchResult};
ghost use Rattle.rx_script.specs.Lines.{is_comment as is_comment_line, line_of, meant};
ghost use Rattle.rx_script.specs.Readings.{IsFault, good_if};

use crate::form::{is_in_bounds, read_form};
use crate::path_reader::PathReader;
use crate::targets::has_targets_at;
use crate::words::words;
use rx_step::Step;
use std::alloc::{AllocError, Global};

/// Why a line is no step.
#[derive(Clone, Copy, Debug, PartialEq, Eq)]
pub(crate) enum LineError {
    BadLine,
    UnknownTarget,
    OutOfRange,
    OutOfMemory,
}

impl From<AllocError> for LineError {
    ghost use Rattle.std.specs.Prelude.{◌≡◌};
    ghost use Rattle.rx_script.specs.declared.line.LineError.TheVariants.{OutOfMemory};

    ghost from_gives = { λ _ e. e ≡ OutOfMemory };

    fn from(_: AllocError) -> Self {
        LineError::OutOfMemory
    }
}

fn is_comment(line: &[u8]) -> bool
    ensures { result ≡ is_comment_line line.now }
{
    match line {
        [] => false,
        [first, ..] => *first == b'#',
    }
}

/// The step that the words of a line are, if it has words.
fn read_words<'a>(
    alloc: Global,
    paths: &mut PathReader<'a>,
    words: &[&'a [u8]],
) -> Result<Option<Step>, LineError>
    ensures read { MatchResult result (λ s. meant paths.old (map (λ w. w.now) words.now) ≡ good_if s) (λ e. IsFault e (meant paths.old (map (λ w. w.now) words.now))) }
    ensures same { paths.new ≡ paths.old }
{
    if words.is_empty() {
        return Ok(None);
    }
    let Some(form) = read_form(alloc, paths, words)? else {
        return Err(LineError::BadLine);
    };
    if !has_targets_at(paths.checked(), &form.step, form.target) {
        return Err(LineError::UnknownTarget);
    }
    if !is_in_bounds(paths.checked(), &form) {
        return Err(LineError::OutOfRange);
    }
    Ok(Some(form.step))
}

/// The step that a line is, if it is one: a line without words and a comment are none.
pub(crate) fn read_line<'a>(
    alloc: Global,
    paths: &mut PathReader<'a>,
    line: &'a [u8],
) -> Result<Option<Step>, LineError>
    ensures read { MatchResult result (λ s. line_of paths.old line.now ≡ good_if s) (λ e. IsFault e (line_of paths.old line.now)) }
    ensures same { paths.new ≡ paths.old }
{
    if is_comment(line) {
        return Ok(None);
    }
    let words = words(alloc, line)?;
    read_words(alloc, paths, &words)
}
