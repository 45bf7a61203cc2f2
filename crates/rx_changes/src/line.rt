// The lines of the effects of one node.
ghost use Rattle.std.specs.Prelude.{◌≡◌, ◌++◌, [], ◌∷◌, IfOk, OnOk, map, filter};
ghost use Rattle.std.specs.List.{zip};
ghost use Rattle.rx_elem.specs.Trees.{effects_in, mark_of};
ghost use Rattle.rx_effect.specs.EffectLog.{is_of, is_live, is_passive, line_of, lines_at, differs, changed_effects, own_destroyed, own_created};
ghost use Rattle.rx_node.specs.MarkView.{mark_seen};
ghost use Rattle.rx_elem.specs.Spots.{at_root};
ghost use Rattle.rx_changes.specs.Phases.{phase_seen, old_or_new};
ghost use Rattle.rx_changes.specs.StepView.{step_seen};

use crate::step::Step;
use rx_base::{Ints, Str};
use rx_effect::{LogLine, differ};
use rx_elem::EffectRecord;
use rx_node::Mark;
use std::alloc::{AllocError, Global};

// Which effects a walk is about.
#[derive(Clone, Copy)]
pub(crate) enum Phase {
    Layout,
    Passive,
}

impl Phase {
    // Whether an effect is one of this phase.
    fn is_of(self, effect: &EffectRecord) -> bool
        ensures { result ≡ is_of (phase_seen self) effect.now }
    {
        match self {
            Phase::Layout => effect.layout,
            Phase::Passive => !effect.layout,
        }
    }

    // Layout effects are live if they are visible, passive effects always.
    pub(crate) fn is_live(self, visible: bool) -> bool
        ensures { result ≡ is_live (phase_seen self) visible }
    {
        match self {
            Phase::Layout => visible,
            Phase::Passive => true,
        }
    }

    fn is_passive(self) -> bool
        ensures { result ≡ is_passive (phase_seen self) }
    {
        matches!(self, Phase::Passive)
    }
}

fn line_of(
    alloc: Global,
    phase: Phase,
    created: bool,
    instance: u64,
    effect: &EffectRecord,
) -> Result<LogLine, AllocError>
    ensures { IfOk result (λ l. l ≡ line_of (phase_seen phase) created instance effect.now) }
{
    let values = effect.values.as_slice().to_vec(alloc)?;
    Ok(LogLine {
        passive: phase.is_passive(),
        created,
        instance,
        label: Str::new(alloc, effect.label.text())?,
        values: Ints::new(values),
    })
}

// Goes on with the line of an effect of a node, if it is one of the phase.
fn add_line(
    alloc: Global,
    lines: &mut Vec<LogLine>,
    phase: Phase,
    created: bool,
    mark: &Mark,
    effect: &EffectRecord,
) -> Result<(), AllocError>
    ensures { OnOk result (lines.new.items ≡ lines.old.items ++ lines_at (phase_seen phase) created (mark_seen mark.now) (effect.now ∷ [])) }
{
    if let Some(instance) = mark.instance_number()
        && phase.is_of(effect)
    {
        lines.push(line_of(alloc, phase, created, instance, effect)?)?;
    }
    Ok(())
}

// Goes on with the lines of all effects of a node.
pub(crate) fn add_lines(
    alloc: Global,
    lines: &mut Vec<LogLine>,
    phase: Phase,
    created: bool,
    mark: &Mark,
) -> Result<(), AllocError>
    ensures { OnOk result (lines.new.items ≡ lines.old.items ++ lines_at (phase_seen phase) created (mark_seen mark.now) (effects_in (mark_seen mark.now))) }
{
    for effect in mark.effects() {
        add_line(alloc, lines, phase, created, mark, effect)?;
    }
    Ok(())
}

// Goes on with the line of an effect of a node that differs: of the new one at its creation, else of the old one.
fn add_change(
    alloc: Global,
    lines: &mut Vec<LogLine>,
    phase: Phase,
    created: bool,
    mark: &Mark,
    old: &EffectRecord,
    new: &EffectRecord,
) -> Result<(), AllocError>
    ensures { OnOk result (lines.new.items ≡ lines.old.items ++ lines_at (phase_seen phase) created (mark_seen mark.now) (map (old_or_new created) (filter differs ((old.now, new.now) ∷ [])))) }
{
    if !differ(old, new) {
        return Ok(());
    }
    if created {
        add_line(alloc, lines, phase, created, mark, new)
    } else {
        add_line(alloc, lines, phase, created, mark, old)
    }
}

fn add_changes(
    alloc: Global,
    lines: &mut Vec<LogLine>,
    phase: Phase,
    created: bool,
    mark: &Mark,
    old: &[EffectRecord],
    new: &[EffectRecord],
) -> Result<(), AllocError>
    ensures { OnOk result (lines.new.items ≡ lines.old.items ++ lines_at (phase_seen phase) created (mark_seen mark.now) (map (old_or_new created) (filter differs (zip old.now new.now)))) }
{
    for place in 0..old.len().min(new.len()) {
        add_change(alloc, lines, phase, created, mark, &old[place], &new[place])?;
    }
    Ok(())
}

// Goes on with the lines of the effects of a node that differ.
fn add_changed(
    alloc: Global,
    lines: &mut Vec<LogLine>,
    phase: Phase,
    created: bool,
    change: &Step,
) -> Result<(), AllocError>
    ensures { OnOk result (lines.new.items ≡ lines.old.items ++ lines_at (phase_seen phase) created (mark_of (step_seen at_root change.now).new) (map (old_or_new created) (changed_effects (step_seen at_root change.now).old (step_seen at_root change.now).new))) }
{
    let mark = change.new.mark();
    match change.old {
        Some(old) => {
            let effects = old.mark().effects();
            add_changes(alloc, lines, phase, created, mark, effects, mark.effects())
        }
        None => Ok(()),
    }
}

// Goes on with what a node destroys of its own.
pub(crate) fn add_own_destroyed(
    alloc: Global,
    lines: &mut Vec<LogLine>,
    phase: Phase,
    change: &Step,
) -> Result<(), AllocError>
    ensures { OnOk result (lines.new.items ≡ lines.old.items ++ own_destroyed (phase_seen phase) (step_seen at_root change.now)) }
{
    if phase.is_live(change.was_visible) {
        return add_changed(alloc, lines, phase, false, change);
    }
    Ok(())
}

// Goes on with what a node creates of its own.
pub(crate) fn add_own_created(
    alloc: Global,
    lines: &mut Vec<LogLine>,
    phase: Phase,
    change: &Step,
) -> Result<(), AllocError>
    ensures { OnOk result (lines.new.items ≡ lines.old.items ++ own_created (phase_seen phase) (step_seen at_root change.now)) }
{
    if change.old.is_none() || !phase.is_live(change.was_visible) {
        return add_lines(alloc, lines, phase, true, change.new.mark());
    }
    add_changed(alloc, lines, phase, true, change)
}
