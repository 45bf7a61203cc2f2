// Text that a page shows as it stands.
ghost use Rattle.std.specs.Prelude.{◌≡◌, ◌++◌, false, IfOk, OnOk};
ghost use Rattle.rx_page.specs.Escaping.{escaped, escaped_byte, has_mark, shown};

use std::alloc::{AllocError, Global};

// What stands for a byte, behind what is there.
fn push_escaped(html: &mut Vec<u8>, byte: u8) -> Result<(), AllocError>
    ensures { OnOk result (html.new.items ≡ html.old.items ++ escaped_byte byte) }
{
    match byte {
        b'&' => html.extend_from_slice(b"&amp;"),
        b'<' => html.extend_from_slice(b"&lt;"),
        b'>' => html.extend_from_slice(b"&gt;"),
        b'"' => html.extend_from_slice(b"&quot;"),
        b'\'' => html.extend_from_slice(b"&#39;"),
        _ => html.extend_from_slice(&[byte]),
    }
}

/// A text as it stands in HTML, within an element or the value of an attribute (WHATWG HTML, Character references): each of the
/// five bytes with a meaning there is written as an entity.
///
/// # Errors
///
/// Only if out of memory.
pub fn escape(alloc: Global, text: &[u8]) -> Result<Vec<u8>, AllocError>
    ensures escaped { IfOk result (λ html. html.items ≡ escaped text.now) }

    // No byte of it begins or ends a tag or a value.
    ensures unmarked { IfOk result (λ html. has_mark html.items ≡ false) }

    // And it shows the text.
    ensures back { IfOk result (λ html. shown html.items ≡ text.now) }
{
    let mut html = Vec::new(alloc);
    'bytes: for byte in text {
        push_escaped(&mut html, *byte)?;
    }
    Ok(html)
}
