// The text of a step, as a line of a script.
ghost use Rattle.std.specs.Prelude.{◌≡◌, ◌++◌, codes, flat_map, IfOk, OnOk};
ghost use Rattle.std.specs.Fmt.{signed_decimal};
ghost use Rattle.rx_lines.specs.Lines.{part_text};
ghost use Rattle.fiber_view.specs.StepTexts.{dispatch_text, lane_text, later_part, path_text, step_text as step_text_of};

use itoa::Buffer;
use rx_base::{Int, Name};
use rx_page::push_number;
use rx_step::{Dispatch, LaneWord, Path, Step};
use std::alloc::{AllocError, Global};

// The word of a lane.
fn lane_word(lane: LaneWord) -> &'static [u8]
    ensures { result.now ≡ lane_text lane }
{
    match lane {
        LaneWord::Sync => b"sync",
        LaneWord::Input => b"input",
        LaneWord::Default => b"default",
        LaneWord::Transition => b"transition",
    }
}

// An integer behind a space.
fn push_int(text: &mut Vec<u8>, value: Int) -> Result<(), AllocError>
    ensures { OnOk result (text.new.items ≡ text.old.items ++ (codes " " ++ signed_decimal value)) }
{
    let mut buffer = Buffer::new();
    text.extend_from_slice(b" ")?;
    text.extend_from_slice(buffer.format(value.value()).as_bytes())
}

// A name behind a space.
fn push_name(text: &mut Vec<u8>, name: &Name) -> Result<(), AllocError>
    ensures { OnOk result (text.new.items ≡ text.old.items ++ (codes " " ++ name.now)) }
{
    text.extend_from_slice(b" ")?;
    text.extend_from_slice(name.text().as_bytes())
}

// A part of a path: a name, and the place among those of that name, unless it is the first.
fn push_part(text: &mut Vec<u8>, part: &(Name, u64)) -> Result<(), AllocError>
    ensures { OnOk result (text.new.items ≡ text.old.items ++ part_text part.now) }
{
    let (name, place) = part;
    text.extend_from_slice(name.text().as_bytes())?;
    if *place != 0 {
        text.extend_from_slice(b"@")?;
        push_number(text, *place)?;
    }
    Ok(())
}

// The parts of a path that are not its first.
fn push_later(text: &mut Vec<u8>, parts: &[(Name, u64)]) -> Result<(), AllocError>
    ensures { OnOk result (text.new.items ≡ text.old.items ++ flat_map later_part parts.now) }
{
    'parts: for part in parts {
        text.extend_from_slice(b"/")?;
        push_part(text, part)?;
    }
    Ok(())
}

// A path behind a space.
fn push_path(text: &mut Vec<u8>, path: &Path) -> Result<(), AllocError>
    ensures { OnOk result (text.new.items ≡ text.old.items ++ path_text path.now) }
{
    match path.parts() {
        [] => Ok(()),
        [first, later @ ..] => {
            text.extend_from_slice(b" ")?;
            push_part(text, first)?;
            push_later(text, later)
        }
    }
}

// What begins a dispatch: its word, its lane, and which hook of which instance it is for.
fn push_target(
    text: &mut Vec<u8>,
    word: &[u8],
    lane: LaneWord,
    path: &Path,
    hook: &Name,
) -> Result<(), AllocError>
    ensures { OnOk result (text.new.items ≡ text.old.items ++ (word.now ++ lane_text lane ++ path_text path.now ++ codes " " ++ hook.now)) }
{
    text.extend_from_slice(word)?;
    text.extend_from_slice(lane_word(lane))?;
    push_path(text, path)?;
    push_name(text, hook)
}

// A dispatch.
fn push_dispatch(text: &mut Vec<u8>, dispatch: &Dispatch) -> Result<(), AllocError>
    ensures { OnOk result (text.new.items ≡ text.old.items ++ dispatch_text dispatch.now) }
{
    match dispatch {
        Dispatch::Set(lane, path, hook, value) => {
            push_target(text, b"set ", *lane, path, hook)?;
            push_int(text, *value)
        }
        Dispatch::Call(lane, path, hook, function, value) => {
            push_target(text, b"call ", *lane, path, hook)?;
            push_name(text, function)?;
            push_int(text, *value)
        }
        Dispatch::Send(lane, path, hook, value) => {
            push_target(text, b"send ", *lane, path, hook)?;
            push_int(text, *value)
        }
        Dispatch::Start(lane, path, hook) => push_target(text, b"start ", lane.lane(), path, hook),
        Dispatch::Refresh(lane, name) => {
            text.extend_from_slice(b"refresh ")?;
            text.extend_from_slice(lane_word(*lane))?;
            push_name(text, name)
        }
    }
}

// A step.
fn push_step(text: &mut Vec<u8>, step: &Step) -> Result<(), AllocError>
    ensures { OnOk result (text.new.items ≡ text.old.items ++ step_text_of step.now) }
{
    match step {
        Step::Dispatch(dispatch) => push_dispatch(text, dispatch),
        Step::Resolve(name, value) => {
            text.extend_from_slice(b"resolve")?;
            push_name(text, name)?;
            push_int(text, *value)
        }
        Step::Tick(time) => {
            text.extend_from_slice(b"tick ")?;
            push_number(text, *time)
        }
        Step::Work(budget) => {
            text.extend_from_slice(b"work ")?;
            push_number(text, *budget)
        }
        Step::Flush => text.extend_from_slice(b"flush"),
        Step::FlushSync => text.extend_from_slice(b"flushsync"),
        Step::Passive => text.extend_from_slice(b"passive"),
        Step::Event => text.extend_from_slice(b"event"),
        Step::State => text.extend_from_slice(b"state"),
        Step::Tree => text.extend_from_slice(b"tree"),
    }
}

/// The text of a step.
pub(crate) fn step_text(alloc: Global, step: &Step) -> Result<Vec<u8>, AllocError>
    ensures { IfOk result (λ text. text.items ≡ step_text_of step.now) }
{
    let mut text = Vec::new(alloc);
    push_step(&mut text, step)?;
    Ok(text)
}
