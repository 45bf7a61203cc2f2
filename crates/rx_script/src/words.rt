// The words of a line, and the forms of names and numbers.
ghost use Rattle.std.specs.Prelude.{◌≡◌, map, option_map, IfOk};
ghost use Rattle.std.specs.List.{list_all, slice_split};
ghost use Rattle.std.specs.Char.{is_ascii_digit, is_ascii_uppercase};
ghost use Rattle.std.specs.Str.{IsAscii};
ghost use Rattle.rx_script.specs.Words.{integer_of, is_blank as is_blank_byte, is_decimal as has_decimal_form, is_lower_start as may_begin_lower, is_name, is_word_byte as is_byte_of_word, lower_of, natural_of, resource_of, upper_of, words_of};
ghost use Rattle.rx_script.specs.Readings.{below_of, held, held_integer};

use rx_base::Name;
use std::alloc::{AllocError, Global};

/// Whether a byte parts words.
fn is_blank(byte: u8) -> bool
    ensures { result ≡ is_blank_byte byte }
{
    byte == b' ' || byte == b'\t'
}

/// The parts between blanks, of which some may be empty.
fn parts<'a>(alloc: Global, line: &'a [u8]) -> Result<Vec<&'a [u8]>, AllocError>
    ensures { IfOk result (λ ps. map (λ p. p.now) ps.items ≡ slice_split is_blank_byte line.now) }
{
    line.split(|b| is_blank(*b)).collect(alloc)
}

/// The words of a line.
pub(crate) fn words<'a>(alloc: Global, line: &'a [u8]) -> Result<Vec<&'a [u8]>, AllocError>
    ensures { IfOk result (λ ws. map (λ w. w.now) ws.items ≡ words_of line.now) }
{
    let mut words = Vec::new(alloc);
    for part in &parts(alloc, line)? {
        if !part.is_empty() {
            words.push(*part)?;
        }
    }
    Ok(words)
}

/// Whether all bytes are digits.
fn are_digits(word: &[u8]) -> bool
    ensures { result ≡ list_all is_ascii_digit word.now }
{
    word.iter().all(|b| b.is_ascii_digit())
}

/// Whether a word is a number without a sign.
fn is_decimal(word: &[u8]) -> bool
    ensures { result ≡ has_decimal_form word.now }
{
    are_digits(word) && (word.len() == 1 || word.len() > 1 && word[0] != b'0')
}

/// The number that a word is, held at the greatest of 64 bits, above every bound of a script.
pub(crate) fn natural(word: &[u8]) -> Option<u64>
    ensures { result ≡ option_map held (natural_of word.now) }
{
    if !is_decimal(word) {
        return None;
    }
    let mut value: u64 = 0;
    for d in word {
        value = value
            .saturating_mul(10)
            .saturating_add(u64::from(*d - b'0'));
    }
    Some(value)
}

/// The number below zero whose digits these are, held as its digits are.
fn below(digits: &[u8]) -> Option<i128>
    ensures { result ≡ option_map held_integer (below_of digits.now) }
{
    match natural(digits) {
        Some(value) if 0 < value => Some(-i128::from(value)),
        _ => None,
    }
}

/// The number that a word is, with or without a sign, held as its digits are.
pub(crate) fn integer(word: &[u8]) -> Option<i128>
    ensures { result ≡ option_map held_integer (integer_of word.now) }
{
    match word {
        [] => None,
        [b'-', digits @ ..] => below(digits),
        _ => natural(word).map(|value| i128::from(value)),
    }
}

fn is_word_byte(byte: u8) -> bool
    ensures { result ≡ is_byte_of_word byte }
{
    byte.is_ascii_alphanumeric() || byte == b'_' || byte == b'$'
}

fn are_word_bytes(bytes: &[u8]) -> bool
    ensures { result ≡ list_all is_byte_of_word bytes.now }
{
    bytes.iter().all(|b| is_word_byte(*b))
}

/// Whether a word has the form of a component's name.
fn is_upper_name(word: &[u8]) -> bool
    ensures { result ≡ is_name is_ascii_uppercase word.now }
{
    match word {
        [] => false,
        [first, rest @ ..] => first.is_ascii_uppercase() && are_word_bytes(rest),
    }
}

fn is_lower_start(byte: u8) -> bool
    ensures { result ≡ may_begin_lower byte }
{
    byte.is_ascii_lowercase() || byte == b'_' || byte == b'$'
}

/// Whether a word has the form of a hook's or a function's name.
fn is_lower_name(word: &[u8]) -> bool
    ensures { result ≡ is_name may_begin_lower word.now }
{
    match word {
        [] => false,
        [first, rest @ ..] => is_lower_start(*first) && are_word_bytes(rest),
    }
}

/// Whether a word has the form of a resource's name.
fn is_resource_name(word: &[u8]) -> bool
    ensures { result ≡ is_name is_byte_of_word word.now }
{
    match word {
        [] => false,
        [first, rest @ ..] => is_word_byte(*first) && are_word_bytes(rest),
    }
}

/// A name with these bytes, which are ASCII.
fn make_name(alloc: Global, word: &[u8]) -> Result<Name, AllocError>
    requires { IsAscii word.now }
    ensures { IfOk result (λ n. n ≡ word.now) }
{
    match str::from_utf8(word) {
        Ok(text) => Name::new(alloc, text),
        Err(_) => unreachable!(),
    }
}

/// The name of a component that a word is.
pub(crate) fn upper(alloc: Global, word: &[u8]) -> Result<Option<Name>, AllocError>
    ensures { IfOk result (λ name. name ≡ upper_of word.now) }
{
    if is_upper_name(word) {
        Ok(Some(make_name(alloc, word)?))
    } else {
        Ok(None)
    }
}

/// The name of a hook or a function that a word is.
pub(crate) fn lower(alloc: Global, word: &[u8]) -> Result<Option<Name>, AllocError>
    ensures { IfOk result (λ name. name ≡ lower_of word.now) }
{
    if is_lower_name(word) {
        Ok(Some(make_name(alloc, word)?))
    } else {
        Ok(None)
    }
}

/// The name of a resource that a word is.
pub(crate) fn resource(alloc: Global, word: &[u8]) -> Result<Option<Name>, AllocError>
    ensures { IfOk result (λ name. name ≡ resource_of word.now) }
{
    if is_resource_name(word) {
        Ok(Some(make_name(alloc, word)?))
    } else {
        Ok(None)
    }
}
