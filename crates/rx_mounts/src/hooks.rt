// The hooks of all instances, with their committed values.
ghost use Rattle.std.specs.Prelude.{◌≡◌, ◌∷◌, OnOk, OnErr, IfOk, map, take};
ghost use Rattle.rx_ast.specs.Syntax.{Program};
ghost use Rattle.rx_hook_store.specs.Store.{kept_hooks};
ghost use Rattle.rx_lines.specs.Lines as report;
ghost use Rattle.rx_model.specs.State.{State, committed_values, state_line, state_lines};
ghost use Rattle.rx_mounts.specs.Shown.{KeepsOne, KeepsThese};
ghost use Rattle.rx_writing.specs.Written.{GoesOn, with_lines};

use rx_base::{Int, Name};
use rx_check::Checked;
use rx_dispatch::{hooks_at, name_of};
use rx_hook_store::{HookStore, hooks_are_there};
use rx_report::Report;
use rx_spots::Mounted;
use std::alloc::{AllocError, Global};

// The committed values of the first hooks of an instance: so many, or all if there are fewer.
fn values_of(
    alloc: Global,
    hooks: &HookStore,
    instance: &Mounted,
    most: u32,
) -> Result<Vec<Int>, AllocError>
    requires { (p : Program) × ((s : State) × KeepsOne p s (kept_hooks hooks.now) instance.now) }
    ensures { IfOk result (λ values. (p : Program) (s : State) → KeepsOne p s (kept_hooks hooks.now) instance.now
        → values.items ≡ take most (committed_values p s.journal instance.now)) }
{
    hooks_are_there();
    let count = instance.initials().as_slice().len().min(most as usize);
    let mut values = Vec::new(alloc);
    'reading: for place in 0..count {
        values.push(hooks.committed(instance.number(), place as u32))?;
    }
    Ok(values)
}

// The line of an instance. An `Err` leaves the report as it was.
fn show_one(
    alloc: Global,
    log: &mut Report,
    checked: &Checked,
    hooks: &HookStore,
    instance: &Mounted,
) -> Result<(), AllocError>
    requires { (s : State) × KeepsOne checked.now s (kept_hooks hooks.now) instance.now }
    ensures ok { OnOk result ((s : State) → KeepsOne checked.now s (kept_hooks hooks.now) instance.now
        → log.new ≡ report.with_line log.old (state_line checked.now s.journal instance.now)) }
    ensures err { OnErr result (log.new ≡ log.old) }
{
    let name = Name::new(alloc, name_of(checked, instance.component()))?;
    let names = hooks_at(alloc, checked, instance.component())?;
    let values = values_of(alloc, hooks, instance, names.len() as u32)?;
    let hidden = !instance.is_visible();
    log.state_line(instance.number(), &name, &names, &values, hidden)
}

// The lines of all instances. An `Err` leaves some of them.
fn show_these(
    alloc: Global,
    log: &mut Report,
    checked: &Checked,
    hooks: &HookStore,
    all: &[Mounted],
) -> Result<(), AllocError>
    requires { (s : State) × KeepsThese checked.now s (kept_hooks hooks.now) all.now }
    ensures ok { OnOk result ((s : State) → KeepsThese checked.now s (kept_hooks hooks.now) all.now
        → log.new ≡ with_lines log.old (report.state_head ∷ map (state_line checked.now s.journal) all.now)) }
    ensures err { OnErr result (GoesOn log.old log.new) }
{
    log.state_head()?;
    'showing: for instance in all {
        show_one(alloc, log, checked, hooks, instance)?;
    }
    Ok(())
}

/// The lines that show the hooks of all instances of a tree, in tree order, each hook with its committed value (react.dev,
/// State as a Snapshot). An `Err` leaves the report as it was.
///
/// # Errors
///
/// Only if out of memory.
pub fn show_hooks(
    alloc: Global,
    log: &mut Report,
    checked: &Checked,
    all: &[Mounted],
    hooks: &HookStore,
) -> Result<(), AllocError>
    requires { (s : State) × KeepsThese checked.now s (kept_hooks hooks.now) all.now }
    ensures ok { OnOk result ((s : State) → KeepsThese checked.now s (kept_hooks hooks.now) all.now → log.new ≡ with_lines log.old (state_lines checked.now s)) }
    ensures err { OnErr result (log.new ≡ log.old) }
{
    let len = log.len();
    let shown = show_these(alloc, log, checked, hooks, all);
    if shown.is_err() {
        log.cut(len);
    }
    shown
}
