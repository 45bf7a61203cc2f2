// Short texts, compared without a hash.
ghost use Rattle.std.specs.Prelude.{◌≡◌, ◌+◌, ◌<◌, ◌^◌, bytes_eq, length, nat_eq};
ghost use Rattle.std.specs.Cmp.Lexicographic.{pointwise};
ghost use Rattle.std.specs.List.{position_from};

use rx_base::Name;

/// Whether two short texts have the same bytes. Each use of a variable asks it, and it takes a fifth of the time that the
/// comparison of texts takes, which is made for long ones.
pub fn same_bytes(one: &[u8], other: &[u8]) -> bool
    ensures { result ≡ pointwise nat_eq one.now other.now }
{
    if one.len() != other.len() {
        return false;
    }
    for place in 0..one.len() {
        if one[place] != other[place] {
            return false;
        }
    }
    true
}

/// The place of the first of these names that has this text, if the places of the names are counted from this one.
pub(crate) fn place_from(names: &[Name], text: &[u8], place: usize) -> Option<usize>
    requires { place + length names.now < 2 ^ 64 }
    ensures { result ≡ position_from (bytes_eq text.now) place names.now }
{
    match names.split_first() {
        None => None,
        Some((name, others)) => {
            if same_bytes(text, name.text().as_bytes()) {
                Some(place)
            } else {
                place_from(others, text, place + 1)
            }
        }
    }
}
