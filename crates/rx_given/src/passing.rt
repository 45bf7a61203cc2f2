// The lines of a given report, one after another.
ghost use Rattle.std.specs.Prelude.{◌≡◌, ℕ, ◌+◌, ◌≤◌, ◌<◌, ◌^◌, ◌++◌, ◌↔◌, List, drop, length, take, true, false};
ghost use Rattle.std.specs.Option.{option_copied};
ghost use Rattle.rx_given.specs.Lines.{ends_in, first_line, shared};

/// A place in a given report: how many of its bytes are passed, and how many lines ended in these.
#[derive(Clone, Copy)]
pub struct Place {
    pub bytes: u64,
    pub lines: u64,
}

// How many bytes two texts share at their front.
fn shared(some: &[u8], others: &[u8]) -> usize
    ensures value { result ≡ shared some.now others.now }
    ensures within { result ≤ length others.now }
{
    let most = some.len().min(others.len());
    'bytes: for at in 0..most {
        if some[at] != others[at] {
            return at;
        }
    }
    most
}

// How many lines end in some bytes.
fn ends_in(bytes: &[u8]) -> u64
    ensures value { result ≡ ends_in bytes.now }
    ensures few { result ≤ length bytes.now }
{
    let mut ends = 0u64;
    'bytes: for at in 0..bytes.len() {
        if bytes[at] == b'\n' {
            ends += 1;
        }
    }
    ends
}

/// The next whole line of a report from this place on, with its end, if there is one.
pub fn next_line(report: &[u8], place: Place) -> Option<&[u8]>
    requires { place.bytes ≤ length report.now }
    ensures { option_copied result ≡ first_line (drop place.bytes report.now) }
{
    let rest = &report[place.bytes as usize..];
    'bytes: for at in 0..rest.len() {
        if rest[at] == b'\n' {
            return Some(&rest[..at + 1]);
        }
    }
    None
}

/// Passes some bytes of a report, if they come next from this place on. Else it passes those lines alone of which each byte
/// comes next.
pub fn pass(report: &[u8], place: &mut Place, lines: &[u8]) -> bool
    requires inside { place.old.bytes ≤ length report.now }
    requires few { place.old.lines + length lines.now < 2 ^ 64 }
    ensures same { result ≡ true → drop place.old.bytes report.now ≡ lines.now ++ drop place.new.bytes report.now }
    ensures other { result ≡ false → (more : List ℕ) → drop place.old.bytes report.now ≡ lines.now ++ more → ⊥ }
    ensures lines { place.new.lines ≡ place.old.lines + ends_in (take (shared (drop place.old.bytes report.now) lines.now) lines.now) }
    ensures inside { place.new.bytes ≤ length report.now }
{
    let rest = &report[place.bytes as usize..];
    let same = shared(rest, lines);
    place.lines += ends_in(&lines[..same]);
    place.bytes += same as u64;
    same == lines.len()
}

/// True if no byte of the report is left.
pub fn is_at_end(report: &[u8], place: Place) -> bool
    ensures { result ≡ true ↔ (place.bytes ≡ length report.now) }
{
    place.bytes == report.len() as u64
}
