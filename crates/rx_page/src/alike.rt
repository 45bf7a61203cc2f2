// Where two texts have the same lines.
ghost use Rattle.std.specs.Prelude.{◌≡◌, ◌<◌, ◌≤◌, ◌+◌, ◌-◌, length, take, drop, IfSome};

// So many lines are looked at to find one that both texts have.
const WINDOW: usize = 24;

/// How many bytes of whole lines two texts begin with alike.
pub(crate) fn same_beginning(old: &[u8], new: &[u8]) -> usize
    ensures in_old { result ≤ length old.now }
    ensures in_new { result ≤ length new.now }
    ensures same { take result old.now ≡ take result new.now }
{
    let mut lines = 0;
    let mut at = 0;
    'bytes: while at < old.len() && at < new.len() && old[at] == new[at] {
        if old[at] == b'\n' {
            lines = at + 1;
        }
        at += 1;
    }
    if at == old.len() && at == new.len() {
        at
    } else {
        lines
    }
}

/// How many bytes of whole lines two texts end with alike.
pub(crate) fn same_ending(old: &[u8], new: &[u8]) -> usize
    ensures in_old { result ≤ length old.now }
    ensures in_new { result ≤ length new.now }
    ensures same { drop (length old.now - result) old.now ≡ drop (length new.now - result) new.now }
{
    let mut lines = 0;
    let mut count = 0;
    'bytes: while count < old.len()
        && count < new.len()
        && old[old.len() - 1 - count] == new[new.len() - 1 - count]
    {
        if old[old.len() - 1 - count] == b'\n' {
            lines = count;
        }
        count += 1;
    }
    if count == old.len() && count == new.len() {
        count
    } else {
        lines
    }
}

// How many bytes the first lines of a text have: so many lines, or all.
fn lines_len(text: &[u8], lines: usize) -> usize
    ensures within { result ≤ length text.now }
    ensures some { 0 < length text.now → 0 < lines → 0 < result }
{
    let mut left = lines;
    let mut at = 0;
    'bytes: while at < text.len() && left > 0 {
        if text[at] == b'\n' {
            left -= 1;
        }
        at += 1;
    }
    at
}

// Lines to leave out of each text, so many of both together, behind which the same line comes.
fn alike_behind(old: &[u8], new: &[u8], lines: usize) -> Option<(usize, usize)>
    ensures in_old { IfSome result (λ p. p.0 ≤ length old.now) }
    ensures in_new { IfSome result (λ p. p.1 ≤ length new.now) }
    ensures some { IfSome result (λ p. 0 < p.0 + p.1) }
{
    'lines: for left_out in 0..=lines {
        let gone = lines_len(old, left_out);
        let come = lines_len(new, lines - left_out);
        if 0 < gone + come && 0 < same_beginning(&old[gone..], &new[come..]) {
            return Some((gone, come));
        }
    }
    None
}

/// How many bytes go from the old text, and how many come in the new one, before both go on alike: the fewest lines, if there are
/// few. Else it is a line of each, or all if one text has no line left.
pub(crate) fn next_alike(old: &[u8], new: &[u8]) -> (usize, usize)
    ensures in_old { result.0 ≤ length old.now }
    ensures in_new { result.1 ≤ length new.now }
    ensures on { 0 < length old.now + length new.now → 0 < result.0 + result.1 }
{
    if old.is_empty() || new.is_empty() {
        return (old.len(), new.len());
    }
    'window: for lines in 1..WINDOW {
        if let Some(found) = alike_behind(old, new, lines) {
            return found;
        }
    }
    (lines_len(old, 1), lines_len(new, 1))
}
