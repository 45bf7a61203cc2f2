// What the next line of a report tells of the end of a render.
ghost use Rattle.std.specs.Prelude.{◌≡◌, ℕ, ◌+◌, ◌<◌, ◌≤◌, ◌^◌, ◌++◌, ◌∷◌, [], List, true, false, IfOk, IfNone, IfSome, drop, length};
ghost use Rattle.rx_ast.specs.Syntax.{Program};
ghost use Rattle.rx_lane.specs.Lanes.{has, lanes_where};
ghost use Rattle.rx_lines.specs.Lines.{Counts as counts};
ghost use Rattle.rx_model.specs.State.{Progress};
ghost use Rattle.rx_model.specs.Turns.{unit_bound};
ghost use Rattle.choice_laws.specs.Choosing.{Fit};
ghost use Rattle.choice_laws.specs.Telling.{AreShown};
ghost use Rattle.rx_verify.specs.Ends.{TellsEnd, TellsEndOf};

use choice_laws::finishes_tell;
use rx_given::{Counts, Place, counts_behind, next_line};
use rx_lane::Lanes;
use rx_report::Report;
use std::alloc::{AllocError, Global};

// A line without its end.
fn without_end(line: &[u8]) -> &[u8]
    ensures { (text : List ℕ) → line.now ≡ text ++ 10 ∷ [] → result.now ≡ text }
{
    match line {
        [text @ .., _] => text,
        [] => line,
    }
}

// The counts that the next line of a report tells from this place on, if it says that a render with these lanes is finished: that it
// is committed, with this number, or deferred.
fn next_counts(
    alloc: Global,
    report: &[u8],
    place: Place,
    commit: u64,
    lanes: Lanes,
) -> Result<Option<Counts>, AllocError>
    requires { place.bytes ≤ length report.now }
    ensures found { IfOk result (λ told. IfSome told (λ c. TellsEnd (lanes_where (has lanes)) (record { units = c.units; bodies = c.bodies }) (drop place.bytes report.now))) }
    ensures none { IfOk result (λ told. IfNone told ((units bodies : ℕ) → units < 2 ^ 64 → bodies < 2 ^ 64
        → TellsEndOf commit (lanes_where (has lanes)) (record { units = units; bodies = bodies }) (drop place.bytes report.now) → ⊥)) }
{
    let Some(line) = next_line(report, place) else {
        return Ok(None);
    };
    let mut head = Report::new(alloc, false, false);
    head.commit_line(commit, lanes, 0, 0)?;
    if let Some(counts) = counts_behind(line, without_end(head.bytes())) {
        return Ok(Some(counts));
    }
    head.cut(0);
    head.defer_line(lanes, 0, 0)?;
    Ok(counts_behind(line, without_end(head.bytes())))
}

// Whether so many units fit in the slice of a render that has used so many.
fn fits_slice(used: u64, slice: Option<u64>, units: u64) -> bool
    ensures fits { result ≡ true → IfSome slice (λ n. units ≤ used + n) }
    ensures not { result ≡ false → IfSome slice (λ n. units ≤ used + n) → ⊥ }
{
    match slice {
        Some(more) => units <= used.saturating_add(more),
        None => true,
    }
}

// Whether a render that has used so many units may end in its slice with these counts, which have a bound.
fn fits(used: u64, slice: Option<u64>, bound: u64, counts: Counts) -> bool
    ensures fits { result ≡ true → (p : Program) (g : Progress) → g.units ≡ used → unit_bound p ≡ bound → Fit p g slice (record { units = counts.units; bodies = counts.bodies }) }
    ensures not { result ≡ false → (p : Program) (g : Progress) → g.units ≡ used → unit_bound p ≡ bound → Fit p g slice (record { units = counts.units; bodies = counts.bodies }) → ⊥ }
    ensures shown { AreShown (record { units = counts.units; bodies = counts.bodies }) }
{
    used < counts.units
        && counts.units <= bound
        && counts.bodies < counts.units
        && fits_slice(used, slice, counts.units)
}

/// The counts with which a render ends, by the next line of a report from this place on: a render with these lanes, which has used so
/// many units and may use so many more in its slice, and has a bound, is committed, with this number, or deferred.
///
/// # Errors
///
/// Only if out of memory.
pub(crate) fn end_told(
    alloc: Global,
    report: &[u8],
    place: Place,
    commit: u64,
    lanes: Lanes,
    used: u64,
    slice: Option<u64>,
    bound: u64,
) -> Result<Option<Counts>, AllocError>
    requires { place.bytes ≤ length report.now }
    ensures found { IfOk result (λ told. IfSome told (λ c. TellsEnd (lanes_where (has lanes)) (record { units = c.units; bodies = c.bodies }) (drop place.bytes report.now)
        × ((p : Program) (g : Progress) → g.units ≡ used → unit_bound p ≡ bound → Fit p g slice (record { units = c.units; bodies = c.bodies })))) }
    ensures none { IfOk result (λ told. IfNone told ((p : Program) (g : Progress) (c : counts) → g.units ≡ used → unit_bound p ≡ bound → Fit p g slice c
        → TellsEndOf commit (lanes_where (has lanes)) c (drop place.bytes report.now) → ⊥)) }
{
    finishes_tell();
    match next_counts(alloc, report, place, commit, lanes)? {
        Some(counts) if fits(used, slice, bound, counts) => Ok(Some(counts)),
        _ => Ok(None),
    }
}
