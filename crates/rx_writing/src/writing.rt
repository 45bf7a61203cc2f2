// Lines behind those that a report has.
ghost use Rattle.std.specs.Prelude.{◌≡◌, take, OnErr, OnOk, map};
ghost use Rattle.rx_lines.specs.Lines.{caught, logged, operated};
ghost use Rattle.rx_changes.specs.ChangesView.{passive_seen};
ghost use Rattle.rx_writing.specs.Written.{GoesOn, passive_lines, with_lines};

use rx_base::Int;
use rx_changes::Lines;
use rx_effect::LogLine;
use rx_forest::HostOp;
use rx_report::Report;
use std::alloc::AllocError;

/// Writes operations on hosts, one after another.
///
/// # Errors
///
/// Only if out of memory; some of the lines may then be written.
pub fn add_ops(log: &mut Report, ops: &[HostOp]) -> Result<(), AllocError>
    ensures written { OnOk result (log.new ≡ with_lines log.old (map operated ops.now)) }
    ensures goes_on { GoesOn log.old log.new }
{
    'ops: for op in ops {
        log.op_line(op)?;
    }
    Ok(())
}

/// Writes what error boundaries catch, one after another (react.dev, Catching rendering errors with an error boundary).
///
/// # Errors
///
/// Only if out of memory; some of the lines may then be written.
pub fn add_caught(log: &mut Report, values: &[Int]) -> Result<(), AllocError>
    ensures written { OnOk result (log.new ≡ with_lines log.old (map caught values.now)) }
    ensures goes_on { GoesOn log.old log.new }
{
    'caught: for value in values {
        log.caught_line(*value)?;
    }
    Ok(())
}

/// Writes effects, one after another.
///
/// # Errors
///
/// Only if out of memory; some of the lines may then be written.
pub fn add_effects(log: &mut Report, lines: &[LogLine]) -> Result<(), AllocError>
    ensures written { OnOk result (log.new ≡ with_lines log.old (map logged lines.now)) }
    ensures goes_on { GoesOn log.old log.new }
{
    'effects: for line in lines {
        log.log_line(line)?;
    }
    Ok(())
}

/// Writes effects of one kind, destructions before creations (react.dev, useEffect).
///
/// # Errors
///
/// Only if out of memory; some of the lines may then be written.
pub fn add_lines(log: &mut Report, lines: &Lines) -> Result<(), AllocError>
    ensures written { OnOk result (log.new ≡ with_lines log.old (passive_lines (passive_seen lines.now))) }
    ensures goes_on { GoesOn log.old log.new }
{
    add_effects(log, &lines.destroyed)?;
    add_effects(log, &lines.created)
}

/// Takes back what was written behind so many bytes, if memory ran out for the rest of it.
///
/// # Errors
///
/// The one that is passed.
pub fn cut_back(
    log: &mut Report,
    len: u64,
    written: Result<(), AllocError>,
) -> Result<(), AllocError>
    ensures same { result ≡ written }
    ensures kept { OnOk result (log.new ≡ log.old) }
    ensures cut { OnErr result (log.new ≡ record { options = log.old.options; bytes = take len log.old.bytes }) }
{
    if written.is_err() {
        log.cut(len);
    }
    written
}
