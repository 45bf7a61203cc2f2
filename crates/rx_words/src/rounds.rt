// A number of rounds.
ghost use Rattle.std.specs.Prelude.{◌≡◌, bytes_eq, decimal};
ghost use Rattle.rx_words.specs.Words.{rounds_of as rounds_of_word};

use itoa::Buffer;

/// The most rounds that a generated script has.
const MOST: u32 = 1000;

/// Whether a word is a number in decimal digits, without a sign or a leading zero.
fn is_decimal_of(number: u32, word: &str) -> bool
    ensures { result ≡ bytes_eq word.now (decimal number) }
{
    let mut buffer = Buffer::new();
    word == buffer.format(number)
}

/// The number of rounds that a word asks for.
pub(crate) fn rounds_of(word: &str) -> Option<u32>
    ensures { result ≡ rounds_of_word word.now }
{
    match word.parse::<u32>() {
        Ok(number) if 1 <= number && number <= MOST && is_decimal_of(number, word) => Some(number),
        _ => None,
    }
}
