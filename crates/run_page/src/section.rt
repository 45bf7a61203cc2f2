// The section of a step.
ghost use Rattle.std.specs.Prelude.{◌≡◌, ◌++◌, decimal, IfOk, OnOk};
ghost use Rattle.rx_page.specs.declared.tag.AttributeName.{AttributeName};
ghost use Rattle.rx_page.specs.Elements.{attribute};
ghost use Rattle.run_page.specs.Views.{shown};
ghost use Rattle.run_page.specs.Sections.{heading, lines_pane, note, pane, repeats, section, section_attributes as section_attributes_of};

use crate::view::View;
use rx_page::{AttributeName, Attributes, Html, Tag, push_number, put_words};
use std::alloc::{AllocError, Global};

// No longer text is shown twice.
const SHORT: usize = 400;

/// An attribute whose value is a word and a number.
pub(crate) fn put_numbered(
    attributes: &mut Attributes,
    alloc: Global,
    name: AttributeName,
    word: &[u8],
    number: u64,
) -> Result<(), AllocError>
    ensures { OnOk result (attributes.new ≡ attributes.old ++ attribute name (word.now ++ decimal number)) }
{
    let mut value = Vec::from_slice(alloc, word)?;
    push_number(&mut value, number)?;
    attributes.put(name, &value)
}

// A pane.
fn put_pane(html: &mut Html, alloc: Global, caption: &[u8], text: &[u8]) -> Result<(), AllocError>
    ensures { OnOk result (html.new ≡ html.old ++ pane caption.now text.now) }
{
    let shown = if text.len() == 0 { b"none" } else { text };
    let mut content = Html::new(alloc);
    put_words(&mut content, alloc, Tag::Caption, caption)?;
    put_words(&mut content, alloc, Tag::Preformatted, shown)?;
    html.put_element(Tag::Figure, &Attributes::new(alloc), &content)
}

// A pane with a sentence.
fn put_note(html: &mut Html, alloc: Global, caption: &[u8], words: &[u8]) -> Result<(), AllocError>
    ensures { OnOk result (html.new ≡ html.old ++ note caption.now words.now) }
{
    let mut content = Html::new(alloc);
    put_words(&mut content, alloc, Tag::Caption, caption)?;
    put_words(&mut content, alloc, Tag::Paragraph, words)?;
    html.put_element(Tag::Figure, &Attributes::new(alloc), &content)
}

// Whether a text is another that is long.
fn repeats_long(text: &[u8], other: &[u8]) -> bool
    ensures { result ≡ repeats text.now other.now }
{
    SHORT < text.len() && text == other
}

/// The lines that a step writes.
pub(crate) fn put_lines(html: &mut Html, alloc: Global, view: &View) -> Result<(), AllocError>
    ensures { OnOk result (html.new ≡ html.old ++ lines_pane (shown view.now)) }
{
    if repeats_long(&view.lines, &view.tree) {
        return put_note(
            html,
            alloc,
            b"Lines of the report",
            b"Those of the tree of hosts, which is shown below.",
        );
    }
    if repeats_long(&view.lines, &view.hooks) {
        return put_note(
            html,
            alloc,
            b"Lines of the report",
            b"Those of the hooks, which are shown below.",
        );
    }
    put_pane(html, alloc, b"Lines of the report", &view.lines)
}

// The heading of a section.
fn put_heading(html: &mut Html, alloc: Global, number: u64, title: &[u8]) -> Result<(), AllocError>
    ensures { OnOk result (html.new ≡ html.old ++ heading number title.now) }
{
    let mut words = Vec::from_slice(alloc, b"Step ")?;
    push_number(&mut words, number)?;
    words.extend_from_slice(b": ")?;
    let mut content = Html::new(alloc);
    content.put_text(&words)?;
    put_words(&mut content, alloc, Tag::Code, title)?;
    let mut attributes = Attributes::new(alloc);
    put_numbered(&mut attributes, alloc, AttributeName::Id, b"title-", number)?;
    html.put_element(Tag::Heading, &attributes, &content)
}

// The attributes of a section: where links lead, and which heading it has.
fn section_attributes(alloc: Global, number: u64) -> Result<Attributes, AllocError>
    ensures { IfOk result (λ attributes. attributes ≡ section_attributes_of number) }
{
    let mut attributes = Attributes::new(alloc);
    put_numbered(&mut attributes, alloc, AttributeName::Id, b"step-", number)?;
    put_numbered(
        &mut attributes,
        alloc,
        AttributeName::LabelledBy,
        b"title-",
        number,
    )?;
    attributes.put(AttributeName::TabIndex, b"-1")?;
    Ok(attributes)
}

/// A section with its number, its title and its content.
pub(crate) fn put_section(
    html: &mut Html,
    alloc: Global,
    number: u64,
    title: &[u8],
    content: &Html,
) -> Result<(), AllocError>
    ensures { OnOk result (html.new ≡ html.old ++ section number title.now content.now) }
{
    let mut all = Html::new(alloc);
    put_heading(&mut all, alloc, number, title)?;
    all.put(content)?;
    let attributes = section_attributes(alloc, number)?;
    html.put_element(Tag::Section, &attributes, &all)
}
