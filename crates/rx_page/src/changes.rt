// How a text changes, as a page shows it.
ghost use Rattle.std.specs.Prelude.{◌≡◌, ◌++◌, [], OnOk};
ghost use Rattle.rx_page.specs.Elements.{element};
ghost use Rattle.rx_page.specs.Escaping.{escaped};
ghost use Rattle.rx_page.specs.Changes.{PutsChanges, lines_in, marked, stays_html};

use crate::alike::{next_alike, same_beginning, same_ending};
use crate::attributes::Attributes;
use crate::html::Html;
use crate::number::push_number;
use crate::tag::Tag;
use std::alloc::{AllocError, Global};

// What stays is shown up to so many bytes.
const SHORT: usize = 400;

/// An element without attributes, which holds a text.
///
/// # Errors
///
/// Only if out of memory; the HTML is then as it was.
pub fn put_words(html: &mut Html, alloc: Global, tag: Tag, text: &[u8]) -> Result<(), AllocError>
    ensures { OnOk result (html.new ≡ html.old ++ element tag [] (escaped text.now)) }
{
    let mut content = Html::new(alloc);
    content.put_text(text)?;
    html.put_element(tag, &Attributes::new(alloc), &content)
}

// How many lines end in a text.
fn line_count(text: &[u8]) -> u64
    ensures { result ≡ lines_in text.now }
{
    let mut lines: u64 = 0;
    'bytes: for byte in text {
        if *byte == b'\n' {
            lines += 1;
        }
    }
    lines
}

// Lines that stay: if they are long, their number.
fn put_stays(html: &mut Html, alloc: Global, text: &[u8]) -> Result<(), AllocError>
    ensures { OnOk result (html.new ≡ html.old ++ stays_html text.now) }
{
    if text.is_empty() {
        return Ok(());
    }
    let lines = line_count(text);
    if text.len() <= SHORT || lines == 0 {
        return put_words(html, alloc, Tag::Span, text);
    }
    let mut words = Vec::from_slice(alloc, b"lines as before: ")?;
    push_number(&mut words, lines)?;
    words.extend_from_slice(b"\n")?;
    put_words(html, alloc, Tag::Small, &words)
}

// Lines that go or come, behind a word that says so.
fn put_marked(
    html: &mut Html,
    alloc: Global,
    tag: Tag,
    word: &[u8],
    text: &[u8],
) -> Result<(), AllocError>
    ensures { OnOk result (html.new ≡ html.old ++ marked tag word.now text.now) }
{
    if text.is_empty() {
        return Ok(());
    }
    let mut content = Html::new(alloc);
    put_words(&mut content, alloc, Tag::Strong, word)?;
    content.put_text(text)?;
    html.put_element(tag, &Attributes::new(alloc), &content)
}

// How a text changes, piece by piece.
fn put_pieces(html: &mut Html, alloc: Global, old: &[u8], new: &[u8]) -> Result<(), AllocError>
    ensures { OnOk result (PutsChanges old.now new.now html.old html.new) }
{
    let mut left = old;
    let mut right = new;
    'pieces: while !left.is_empty() || !right.is_empty() {
        let alike = same_beginning(left, right);
        let (same, left_rest) = left.split_at(alike);
        let (_, right_rest) = right.split_at(alike);
        let (gone_len, come_len) = next_alike(left_rest, right_rest);
        let (gone, left_after) = left_rest.split_at(gone_len);
        let (come, right_after) = right_rest.split_at(come_len);
        put_stays(html, alloc, same)?;
        put_marked(html, alloc, Tag::Deleted, b"gone ", gone)?;
        put_marked(html, alloc, Tag::Inserted, b"new ", come)?;
        left = left_after;
        right = right_after;
    }
    Ok(())
}

/// How a text changes: the lines that go, that come and that stay, in their order. Of many lines that stay only the number is
/// shown.
///
/// # Errors
///
/// Only if out of memory; the HTML then has some of it.
pub fn put_changes(html: &mut Html, alloc: Global, old: &[u8], new: &[u8]) -> Result<(), AllocError>
    ensures { OnOk result (PutsChanges old.now new.now html.old html.new) }
{
    let ending = same_ending(old, new);
    let (old_front, same) = old.split_at(old.len() - ending);
    let (new_front, _) = new.split_at(new.len() - ending);
    put_pieces(html, alloc, old_front, new_front)?;
    put_stays(html, alloc, same)
}
