// The marks of a step on the timeline.
ghost use Rattle.std.specs.Prelude.{◌≡◌, ◌++◌, [], OnOk};
ghost use Rattle.run_page.specs.Marks.{line_mark, mark, marks_from, yield_mark};

use crate::facts::one_attribute;
use rx_page::{AttributeName, Html, Tag};
use std::alloc::{AllocError, Global};

// A mark of a kind, with its words, behind a space.
fn put_mark(html: &mut Html, alloc: Global, kind: &[u8], words: &[u8]) -> Result<(), AllocError>
    ensures { OnOk result (html.new ≡ html.old ++ mark kind.now words.now) }
{
    let class = one_attribute(alloc, AttributeName::Class, kind)?;
    let mut content = Html::new(alloc);
    content.put_text(words)?;
    html.put_text(b" ")?;
    html.put_element(Tag::Mark, &class, &content)
}

// The mark of a line of a report, if it tells of a commit or of a deferred render.
fn put_line_mark(html: &mut Html, alloc: Global, line: &[u8]) -> Result<(), AllocError>
    ensures { OnOk result (html.new ≡ html.old ++ line_mark line.now) }
{
    if line.starts_with(b"commit ") {
        return put_mark(html, alloc, b"commit", line);
    }
    if line.starts_with(b"defer ") {
        return put_mark(html, alloc, b"defer", line);
    }
    Ok(())
}

/// The marks of the lines of a report.
pub(crate) fn put_marks(html: &mut Html, alloc: Global, text: &[u8]) -> Result<(), AllocError>
    ensures { OnOk result (html.new ≡ html.old ++ marks_from [] text.now) }
{
    let mut line = Vec::new(alloc);
    'bytes: for byte in text {
        if *byte == b'\n' {
            put_line_mark(html, alloc, &line)?;
            line.clear();
        } else {
            line.push(*byte)?;
        }
    }
    put_line_mark(html, alloc, &line)
}

/// The mark of a turn that yields.
pub(crate) fn put_yield(html: &mut Html, alloc: Global, yields: bool) -> Result<(), AllocError>
    ensures { OnOk result (html.new ≡ html.old ++ yield_mark yields) }
{
    if yields {
        return put_mark(html, alloc, b"yield", b"yield");
    }
    Ok(())
}
