// What a node changes of its own.
ghost use Rattle.std.specs.Prelude.{◌≡◌, ◌++◌, ◌∷◌, [], false, OnOk};
ghost use Rattle.std.specs.List.{cons_option};
ghost use Rattle.rx_effect.specs.EffectLog.{own_destroyed, own_created};
ghost use Rattle.rx_elem.specs.Spots.{at_root};
ghost use Rattle.rx_forest.specs.HostOps.{placed_in};
ghost use Rattle.rx_meaning.specs.Outcome.{caught_anew};
ghost use Rattle.rx_changes.specs.ChangesView.{changes_seen, lines_seen};
ghost use Rattle.rx_changes.specs.Found.{and_lines, logged, with_changes, with_effects};
ghost use Rattle.rx_changes.specs.Owned.{HasNoEffects};
ghost use Rattle.rx_changes.specs.Phases.{phase_seen};
ghost use Rattle.rx_changes.specs.StepView.{step_seen};

use crate::changes::{Changes, Lines};
use crate::line::{Phase, add_own_created, add_own_destroyed};
use crate::step::Step;
use rx_base::Int;
use rx_node::Mark;
use std::alloc::{AllocError, Global};

// Adds the number of a host, if it or a node up to its parent is new or moved.
fn add_placed(placed: &mut Vec<u64>, change: &Step) -> Result<(), AllocError>
    ensures { OnOk result (placed.new.items ≡ placed.old.items ++ cons_option (placed_in (step_seen at_root change.now)) []) }
{
    if !change.displaced {
        return Ok(());
    }
    if let Mark::Host(Some(number)) = change.new.mark() {
        placed.push(*number)?;
    }
    Ok(())
}

// Adds what a boundary catches, if it had caught nothing.
fn add_caught(caught: &mut Vec<Int>, change: &Step) -> Result<(), AllocError>
    ensures { OnOk result (caught.new.items ≡ caught.old.items ++ cons_option (caught_anew (step_seen at_root change.now)) []) }
{
    if let Some(value) = change.as_change().caught_anew() {
        caught.push(value)?;
    }
    Ok(())
}

// Goes on with what a node tells beside its effects: whether it is placed, what it catches, and what it hides.
pub(crate) fn add_change(found: &mut Changes, change: &Step) -> Result<(), AllocError>
    ensures { OnOk result (changes_seen found.new ≡ with_changes (step_seen at_root change.now ∷ []) (changes_seen found.old)) }
{
    match change.new.mark() {
        Mark::Host(_) => add_placed(&mut found.placed, change),
        Mark::Catch(_) => add_caught(&mut found.caught, change),
        Mark::Boundary(_) => {
            found.hidden = change.as_change().add_hidden(found.hidden);
            Ok(())
        }
        Mark::Instance(_) | Mark::Plain => Ok(()),
    }
}

// Goes on with what a node destroys and creates of its own in one phase.
fn add_lines_of(
    alloc: Global,
    lines: &mut Lines,
    phase: Phase,
    change: &Step,
) -> Result<(), AllocError>
    ensures { OnOk result (lines_seen lines.new ≡ and_lines (lines_seen lines.old) (own_destroyed (phase_seen phase) (step_seen at_root change.now)) (own_created (phase_seen phase) (step_seen at_root change.now))) }
{
    add_own_destroyed(alloc, &mut lines.destroyed, phase, change)?;
    add_own_created(alloc, &mut lines.created, phase, change)?;
    Ok(())
}

// Whether a node or its past has effects.
fn has_effects(change: &Step) -> bool
    ensures { result ≡ false → HasNoEffects (step_seen at_root change.now) }
{
    let before = match change.old {
        Some(old) => !old.mark().effects().is_empty(),
        None => false,
    };
    before || !change.new.mark().effects().is_empty()
}

// Goes on with what a node destroys and creates of its own, if that is logged.
pub(crate) fn add_effects(
    alloc: Global,
    found: &mut Changes,
    change: &Step,
) -> Result<(), AllocError>
    ensures { OnOk result (changes_seen found.new ≡ with_effects (logged change.now.logs (λ phase. own_destroyed phase (step_seen at_root change.now))) (logged change.now.logs (λ phase. own_created phase (step_seen at_root change.now))) (changes_seen found.old)) }
{
    if !change.logs || !has_effects(change) {
        return Ok(());
    }
    add_lines_of(alloc, &mut found.layout, Phase::Layout, change)?;
    add_lines_of(alloc, &mut found.passive, Phase::Passive, change)?;
    Ok(())
}
