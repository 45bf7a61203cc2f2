// Paths to component instances.
ghost use Rattle.std.specs.Prelude.{◌≡◌, ◌<◌, List, [], ◌∷◌, ◌++◌, None, length, option_map, IfNone, IfOk, IfSome};
ghost use Rattle.std.specs.List.{slice_split};
ghost use Rattle.rx_base.specs.Values.{Text};
ghost use Rattle.rx_rules.specs.Versions.{instance_limit};
ghost use Rattle.rx_script.specs.Lines.{is_at_sign, is_slash, part_of, parts_of, path_in_bounds, path_of};
ghost use Rattle.rx_script.specs.Pieces.{HasNone, IsFirst};
ghost use Rattle.rx_script.specs.Readings.{held_part, held_path, numbered};
ghost use Rattle.rx_script.specs.Words.{upper_of};

use crate::words::{natural, upper};
use rx_base::Name;
use rx_check::Checked;
use rx_step::Path;
use std::alloc::{AllocError, Global};

/// The place of the first slash.
fn slash(word: &[u8]) -> Option<usize>
    ensures found { IfSome result (λ at. IsFirst 47 word.now at) }
    ensures none { IfNone result (HasNone 47 word.now) }
{
    word.iter().position(|b| *b == b'/')
}

/// The piece before the first slash, and what stands behind it, if there is one.
fn first_piece(word: &[u8]) -> (&[u8], Option<&[u8]>)
    ensures piece { (more : List Text) × (slice_split is_slash word.now ≡ result.0.now ∷ more) }
    ensures cut { IfSome result.1 (λ after. slice_split is_slash word.now ≡ result.0.now ∷ slice_split is_slash after.now) }
    ensures shorter { IfSome result.1 (λ after. length after.now < length word.now) }
    ensures last { IfNone result.1 (slice_split is_slash word.now ≡ result.0.now ∷ []) }
{
    match slash(word) {
        Some(at) => (&word[..at], Some(&word[at + 1..])),
        None => (word, None),
    }
}

/// The place of the first at sign.
fn at_sign(word: &[u8]) -> Option<usize>
    ensures found { IfSome result (λ at. IsFirst 64 word.now at) }
    ensures none { IfNone result (HasNone 64 word.now) }
{
    word.iter().position(|b| *b == b'@')
}

/// A part of a path with this name and this number, which is held.
fn placed(alloc: Global, name: &[u8], place: &[u8]) -> Result<Option<(Name, u64)>, AllocError>
    ensures { IfOk result (λ p. p ≡ option_map held_part (numbered name.now place.now)) }
{
    let Some(place) = natural(place) else {
        return Ok(None);
    };
    Ok(upper(alloc, name)?.map(|name| (name, place)))
}

/// A part of a path that is more than a name.
fn numbered_part(alloc: Global, word: &[u8]) -> Result<Option<(Name, u64)>, AllocError>
    requires { upper_of word.now ≡ None }
    ensures { IfOk result (λ p. p ≡ option_map held_part (part_of (slice_split is_at_sign word.now))) }
{
    match at_sign(word) {
        Some(at) => placed(alloc, &word[..at], &word[at + 1..]),
        None => Ok(None),
    }
}

/// A part of a path: a name, or a name and a number, which is held.
fn read_part(alloc: Global, word: &[u8]) -> Result<Option<(Name, u64)>, AllocError>
    ensures { IfOk result (λ p. p ≡ option_map held_part (part_of (slice_split is_at_sign word.now))) }
{
    match upper(alloc, word)? {
        Some(name) => Ok(Some((name, 0))),
        None => numbered_part(alloc, word),
    }
}

/// The parts of a path behind those that were read.
fn push_parts(
    alloc: Global,
    mut parts: Vec<(Name, u64)>,
    word: &[u8],
) -> Result<Option<Vec<(Name, u64)>>, AllocError>
    ensures { IfOk result (λ ps. option_map (λ v. v.items) ps ≡ option_map (λ more. parts.items ++ held_path more) (parts_of (slice_split is_slash word.now))) }
{
    let mut rest = word;
    'parts: loop {
        let (piece, after) = first_piece(rest);
        match read_part(alloc, piece)? {
            Some(part) => parts.push(part)?,
            None => return Ok(None),
        }
        let Some(after) = after else {
            return Ok(Some(parts));
        };
        rest = after;
    }
}

/// The path that a word is, with its numbers held.
pub(crate) fn read_path(alloc: Global, word: &[u8]) -> Result<Option<Path>, AllocError>
    ensures { IfOk result (λ p. p ≡ option_map held_path (path_of word.now)) }
{
    let (first, rest) = first_piece(word);
    let Some(root) = upper(alloc, first)? else {
        return Ok(None);
    };
    let parts = vec![in alloc; (root, 0)]?;
    let Some(rest) = rest else {
        return Ok(Some(Path::new(alloc, parts)?));
    };
    match push_parts(alloc, parts, rest)? {
        Some(parts) => Ok(Some(Path::new(alloc, parts)?)),
        None => Ok(None),
    }
}

/// The greatest number of an instance in a path.
fn greatest_place(checked: &Checked) -> u64
    ensures { result ≡ instance_limit checked.now }
{
    if checked.program().is_second() {
        65_535
    } else {
        4095
    }
}

/// Whether all numbers of a path are in their bounds.
pub(crate) fn is_path_in_bounds(checked: &Checked, path: &Path) -> bool
    ensures { result ≡ path_in_bounds checked.now path.now }
{
    let greatest = greatest_place(checked);
    path.parts().iter().all(|part| part.1 <= greatest)
}
