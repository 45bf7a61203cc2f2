// Whether a report is that of a run.
ghost use Rattle.std.specs.Prelude.{◌≡◌, ◌<◌, ◌^◌, List, IfOk, length};
ghost use Rattle.rx_kept.specs.Taking.{AllCanTake};
ghost use Rattle.rx_step.specs.declared.step.Step.{Step};
ghost use Rattle.rx_verify.specs.Following.{IsPlace, over};
ghost use Rattle.rx_verify.specs.Turning.{Follows};
ghost use Rattle.rx_verify.specs.Verdicts.{IsVerdict};

use crate::knowing::known;
use crate::steps::take_step;
use crate::verdict::Verdict;
use rx_base::Steps;
use rx_check::Checked;
use rx_given::{Place, is_at_end, pass};
use rx_plain::Plain;
use rx_report::Report;
use rx_step::Step;
use std::alloc::{AllocError, Global};
use std::marker::Brand;
use std::sync::ledger::{Blank, Ledger};

// Judges the end of a report, where no step is left: it has the last line next, and no byte behind that.
fn judge_end(
    alloc: Global,
    plain: &Plain,
    checked: &Checked,
    report: &[u8],
    place: &mut Place,
) -> Result<Verdict, AllocError>
    requires place { IsPlace report.now place.old }
    requires short { length report.now < 2 ^ 32 }
    requires follows { (script : List Step) × Follows checked.now script report.now place.old over plain.now }
    ensures { IfOk result (λ v. (script : List Step) → Follows checked.now script report.now place.old over plain.entry.now → IsVerdict checked.now script report.now v) }
{
    known(checked);
    let mut log = Report::new(alloc, true, false);
    plain.end_line(&mut log)?;
    if !pass(report, place, log.bytes()) {
        return Ok(Verdict::No {
            line: place.lines + 1,
        });
    }
    if is_at_end(report, *place) {
        Ok(Verdict::Yes)
    } else {
        Ok(Verdict::No {
            line: place.lines + 1,
        })
    }
}

// Judges a report, with a counter of bodies of its own.
fn judge<L: Ledger>(
    alloc: Global,
    checked: &Checked,
    script: &[Step],
    report: &[u8],
    blank: Blank,
) -> Result<Verdict, AllocError>
    requires name { blank.name ≡ L.name }
    requires parts { blank.parts ≡ L.parts }
    requires one { blank.parts ≡ 1 }
    requires fits { AllCanTake checked.now script.now }
    requires few { length script.now < 2 ^ 32 }
    requires short { length report.now < 2 ^ 32 }
    ensures { IfOk result (λ v. IsVerdict checked.now script.now report.now v) }
{
    known(checked);
    let mut steps = Steps::<L>::new(blank);
    let mut plain = Plain::new(alloc, checked)?;
    let mut place = Place { bytes: 0, lines: 0 };
    'script: for step in script {
        let agrees = take_step(
            alloc, &mut plain, checked, report, &mut place, step, &mut steps,
        )?;
        if !agrees {
            return Ok(Verdict::No {
                line: place.lines + 1,
            });
        }
    }
    judge_end(alloc, &plain, checked, report, &mut place)
}

/// Judges a report, with counts and without operations, of a program and a script: `Yes` if it is that of a run of the machine, else
/// the first line, from 1, that no report of a run has behind the lines before it. The program is rendered anew, as a whole, for
/// each render that the report ends.
///
/// # Errors
///
/// Only if out of memory.
pub fn verify(
    alloc: Global,
    checked: &Checked,
    script: &[Step],
    report: &[u8],
) -> Result<Verdict, AllocError>
    requires fits { AllCanTake checked.now script.now }
    requires few { length script.now < 2 ^ 32 }
    requires short { length report.now < 2 ^ 32 }
    ensures { IfOk result (λ v. IsVerdict checked.now script.now report.now v) }
{
    judge::<Brand>(alloc, checked, script, report, Blank::new(1))
}
