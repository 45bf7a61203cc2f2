// The table of a section.
ghost use Rattle.std.specs.Prelude.{◌≡◌, ◌++◌, decimal, IfOk, OnOk};
ghost use Rattle.rx_page.specs.Elements.{attribute};
ghost use Rattle.rx_page.specs.declared.tag.AttributeName.{AttributeName};
ghost use Rattle.run_page.specs.Facts.{lanes_shown, next_shown, rendering_shown, row, rows, table};

use crate::lanes::push_lanes;
use crate::view::{Facts, Rendering};
use rx_lane::Lanes;
use rx_page::{AttributeName, Attributes, Html, Tag, push_number, put_words};
use rx_sched::Choice;
use std::alloc::{AllocError, Global};

/// One attribute with its value.
pub(crate) fn one_attribute(
    alloc: Global,
    name: AttributeName,
    value: &[u8],
) -> Result<Attributes, AllocError>
    ensures { IfOk result (λ attributes. attributes ≡ attribute name value.now) }
{
    let mut attributes = Attributes::new(alloc);
    attributes.put(name, value)?;
    Ok(attributes)
}

// A row: the name of a fact, and the fact.
fn put_row(html: &mut Html, alloc: Global, fact: &[u8], value: &[u8]) -> Result<(), AllocError>
    ensures { OnOk result (html.new ≡ html.old ++ row fact.now value.now) }
{
    let scope = one_attribute(alloc, AttributeName::Scope, b"row")?;
    let mut name = Html::new(alloc);
    name.put_text(fact)?;
    let mut cells = Html::new(alloc);
    cells.put_element(Tag::HeaderCell, &scope, &name)?;
    put_words(&mut cells, alloc, Tag::Cell, value)?;
    html.put_element(Tag::Row, &Attributes::new(alloc), &cells)
}

// What the next turn does.
fn push_next(text: &mut Vec<u8>, next: Choice) -> Result<(), AllocError>
    ensures { OnOk result (text.new.items ≡ text.old.items ++ next_shown next) }
{
    match next {
        Choice::None => text.extend_from_slice(b"has nothing to render"),
        Choice::Keep => text.extend_from_slice(b"goes on with the render in progress"),
        Choice::Start(lanes) => {
            text.extend_from_slice(b"starts a render of")?;
            push_lanes(text, lanes)
        }
    }
}

// A render in progress.
fn push_rendering(text: &mut Vec<u8>, rendering: Option<Rendering>) -> Result<(), AllocError>
    ensures { OnOk result (text.new.items ≡ text.old.items ++ rendering_shown rendering) }
{
    match rendering {
        None => text.extend_from_slice(b"none"),
        Some(going) => {
            text.extend_from_slice(b"lanes")?;
            push_lanes(text, going.lanes)?;
            text.extend_from_slice(b", units ")?;
            push_number(text, going.units)?;
            text.extend_from_slice(b", bodies ")?;
            push_number(text, going.bodies)
        }
    }
}

// A row of lanes.
fn put_lanes(html: &mut Html, alloc: Global, fact: &[u8], lanes: Lanes) -> Result<(), AllocError>
    ensures { OnOk result (html.new ≡ html.old ++ row fact.now (lanes_shown lanes)) }
{
    let mut value = Vec::new(alloc);
    push_lanes(&mut value, lanes)?;
    put_row(html, alloc, fact, &value)
}

// The row of a render in progress.
fn put_rendering(
    html: &mut Html,
    alloc: Global,
    fact: &[u8],
    rendering: Option<Rendering>,
) -> Result<(), AllocError>
    ensures { OnOk result (html.new ≡ html.old ++ row fact.now (rendering_shown rendering)) }
{
    let mut value = Vec::new(alloc);
    push_rendering(&mut value, rendering)?;
    put_row(html, alloc, fact, &value)
}

// The row of the next turn.
fn put_next(html: &mut Html, alloc: Global, fact: &[u8], next: Choice) -> Result<(), AllocError>
    ensures { OnOk result (html.new ≡ html.old ++ row fact.now (next_shown next)) }
{
    let mut value = Vec::new(alloc);
    push_next(&mut value, next)?;
    put_row(html, alloc, fact, &value)
}

// A row with a number.
fn put_count(html: &mut Html, alloc: Global, fact: &[u8], count: u64) -> Result<(), AllocError>
    ensures { OnOk result (html.new ≡ html.old ++ row fact.now (decimal count)) }
{
    let mut value = Vec::new(alloc);
    push_number(&mut value, count)?;
    put_row(html, alloc, fact, &value)
}

// The rows of a state.
fn put_rows(html: &mut Html, alloc: Global, facts: &Facts) -> Result<(), AllocError>
    ensures { OnOk result (html.new ≡ html.old ++ rows facts.now) }
{
    put_lanes(html, alloc, b"Pending lanes", facts.pending)?;
    put_lanes(html, alloc, b"Suspended lanes", facts.suspended)?;
    put_lanes(html, alloc, b"Expired lanes", facts.expired)?;
    put_rendering(html, alloc, b"Render in progress", facts.rendering)?;
    put_next(html, alloc, b"The next turn", facts.next)?;
    put_count(html, alloc, b"Hidden boundaries", facts.hidden)?;
    put_count(html, alloc, b"Time", facts.time)
}

/// The table of a state.
pub(crate) fn put_table(html: &mut Html, alloc: Global, facts: &Facts) -> Result<(), AllocError>
    ensures { OnOk result (html.new ≡ html.old ++ table facts.now) }
{
    let mut content = Html::new(alloc);
    put_words(&mut content, alloc, Tag::TableCaption, b"Lanes and renders")?;
    put_rows(&mut content, alloc, facts)?;
    html.put_element(Tag::Table, &Attributes::new(alloc), &content)
}
