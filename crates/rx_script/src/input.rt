// The two parts of an input.
ghost use Rattle.std.specs.Prelude.{◌≡◌, ◌<◌, ◌≤◌, length, IfSome, IfNone};
ghost use Rattle.std.specs.Str.Lines.{strip_carriage_return};
ghost use Rattle.rx_script.specs.Input.{front_of, input_of, is_mark as is_mark_line, report_of};
ghost use Rattle.rx_script.specs.Pieces.{IsCut, IsLast, IsLineEnd, HasNoLineEnd};

/// The place of the first line end.
fn line_end(text: &[u8]) -> Option<usize>
    ensures found { IfSome result (λ at. IsLineEnd text.now at) }
    ensures none { IfNone result (HasNoLineEnd text.now) }
{
    text.iter().position(|b| *b == b'\n')
}

/// The piece before the first line end, and what stands behind it, if there is one.
pub(crate) fn first_piece(text: &[u8]) -> (&[u8], Option<&[u8]>)
    ensures cut { IfSome result.1 (λ after. IsCut text.now result.0.now after.now) }
    ensures last { IfNone result.1 (IsLast text.now result.0.now) }
{
    match line_end(text) {
        Some(at) => (&text[..at], Some(&text[at + 1..])),
        None => (text, None),
    }
}

/// A line without a carriage return at its end.
pub(crate) fn without_return(line: &[u8]) -> &[u8]
    ensures { result.now ≡ strip_carriage_return line.now }
{
    if line.len() > 0 && line[line.len() - 1] == b'\r' {
        &line[..line.len() - 1]
    } else {
        line
    }
}

/// Whether a line parts program and script.
fn is_mark(line: &[u8]) -> bool
    ensures { result ≡ is_mark_line line.now }
{
    line == b"---".as_slice()
}

/// The text of an input's program, and its script: what stands before and behind the first line that is exactly `---`.
/// Without such a line all is the program's text, and the script is empty.
pub fn split_input(input: &[u8]) -> (&[u8], &[u8])
    ensures program { result.0.now ≡ (input_of input.now).program }
    ensures script { result.1.now ≡ (input_of input.now).script }
    ensures shorter { length result.1.now ≤ length input.now }
    ensures within { length result.0.now ≤ length input.now }
{
    let mut rest = input;
    'lines: loop {
        let start = input.len() - rest.len();
        let (line, after) = first_piece(rest);
        let Some(after) = after else {
            return if is_mark(line) {
                (&input[..start], &[])
            } else {
                (input, &[])
            };
        };
        if is_mark(without_return(line)) {
            return (&input[..start], after);
        }
        rest = after;
    }
}

/// The text of an input's program, its script, and the report behind it: what stands before, between and behind the first two
/// lines that are exactly `---`. What is missing is empty.
pub fn split_report(input: &[u8]) -> (&[u8], &[u8], &[u8])
    ensures program { result.0.now ≡ (front_of input.now).program }
    ensures script { result.1.now ≡ (front_of input.now).script }
    ensures report { result.2.now ≡ report_of input.now }
    ensures shorter { length result.1.now ≤ length input.now }
    ensures within { length result.2.now ≤ length input.now }
{
    let (program, behind) = split_input(input);
    let (script, report) = split_input(behind);
    (program, script, report)
}
