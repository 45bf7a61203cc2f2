// The forms of lines.
ghost use Rattle.std.specs.Prelude.{◌≡◌, [], ◌∷◌, None, map, option_map, pos, IfOk};
ghost use Rattle.std.specs.Int.{w64};
ghost use Rattle.rx_base.specs.Values.{wrap};
ghost use Rattle.rx_ast.specs.Syntax.{Program};
ghost use Rattle.rx_base.specs.Widths.{fits_width as is_of_width, width_of};
ghost use Rattle.rx_script.specs.Lines.{◌◂◌, call_form, form_of, is_integer as is_one_of_integers, lane_of, number_form as number_form_of, plain_form as plain_form_of, refresh_form, resolve_form, start_lane_of, value_form};
ghost use Rattle.rx_script.specs.Readings.{at_place, call_at_place, call_reading, counts_in_bounds, form_in_bounds, place_of, reading, value_reading};
ghost use Rattle.rx_script.specs.Words.{integer_of, natural_of, resource_of};

use crate::path::is_path_in_bounds;
use crate::path_reader::{PathReader, Spot};
use crate::words::{integer, lower, natural, resource};
use rx_base::{Int, Name, Width};
use rx_check::Checked;
use rx_step::{Dispatch, LaneWord, StartWord, Step};
use std::alloc::{AllocError, Global};

/// A step whose names may name nothing and whose numbers may be out of their bounds.
#[derive(Drop)]
pub(crate) struct Form {
    /// The step, with an integer of 64 bits for its number with a sign.
    pub(crate) step: Step,
    /// Its number with a sign, 0 if it has none.
    pub(crate) value: i128,
    /// The component that its path ends at, if it has a path.
    pub(crate) target: Option<u32>,
}

/// The lane of a word.
fn lane(word: &[u8]) -> Option<LaneWord>
    ensures { result ≡ lane_of word.now }
{
    if word == b"sync".as_slice() {
        Some(LaneWord::Sync)
    } else if word == b"input".as_slice() {
        Some(LaneWord::Input)
    } else if word == b"default".as_slice() {
        Some(LaneWord::Default)
    } else if word == b"transition".as_slice() {
        Some(LaneWord::Transition)
    } else {
        None
    }
}

/// The lane of a word in which a start sets its flag.
fn start_lane(word: &[u8]) -> Option<StartWord>
    ensures { result ≡ start_lane_of word.now }
{
    if word == b"sync".as_slice() {
        Some(StartWord::Sync)
    } else if word == b"input".as_slice() {
        Some(StartWord::Input)
    } else {
        None
    }
}

/// The step that one word is.
fn plain_step(word: &[u8]) -> Option<Step>
    ensures { result ≡ plain_form_of word.now }
{
    if word == b"flush".as_slice() {
        Some(Step::Flush)
    } else if word == b"flushsync".as_slice() {
        Some(Step::FlushSync)
    } else if word == b"passive".as_slice() {
        Some(Step::Passive)
    } else if word == b"event".as_slice() {
        Some(Step::Event)
    } else if word == b"state".as_slice() {
        Some(Step::State)
    } else if word == b"tree".as_slice() {
        Some(Step::Tree)
    } else {
        None
    }
}

/// What is read of a line whose step has no path and no number with a sign.
fn bare(step: Step) -> Form
    ensures { result ≡ record { step = step; value = pos 0; target = None } }
{
    Form {
        step,
        value: 0,
        target: None,
    }
}

/// The form of a line of one word.
fn plain_form(word: &[u8]) -> Option<Form>
    ensures { (p : Program) → result ≡ option_map (reading p) (plain_form_of word.now) }
{
    plain_step(word).map(|step| bare(step))
}

/// The form of a line of a word and a number.
fn number_form(word: &[u8], number: &[u8]) -> Option<Form>
    ensures { (p : Program) → result ≡ option_map (reading p) (number_form_of word.now ◂ natural_of number.now) }
{
    let number = natural(number)?;
    let step = if word == b"tick".as_slice() {
        Step::Tick(number)
    } else if word == b"work".as_slice() {
        Step::Work(number)
    } else {
        return None;
    };
    Some(bare(step))
}

/// The integer of 64 bits for a number, the same if it is one.
fn held(value: i128) -> Int
    ensures { result ≡ wrap w64 value }
{
    let residue = value.rem_euclid(1 << 64) as u64;
    Int::of(residue.cast_signed())
}

/// The form of a line that gives the next version of a resource its value.
fn resolve_line(
    alloc: Global,
    word: &[u8],
    name: &[u8],
    value: &[u8],
) -> Result<Option<Form>, AllocError>
    ensures { IfOk result (λ f. (p : Program) → f ≡ option_map (reading p) (resolve_form word.now ◂ resource_of name.now ◂ integer_of value.now)) }
{
    if word != b"resolve".as_slice() {
        return Ok(None);
    }
    let Some(name) = resource(alloc, name)? else {
        return Ok(None);
    };
    let Some(value) = integer(value) else {
        return Ok(None);
    };
    let step = Step::Resolve(name, held(value));
    Ok(Some(Form {
        step,
        value,
        target: None,
    }))
}

/// The form of a line that asks for another version of a resource.
fn refresh_line(
    alloc: Global,
    word: &[u8],
    lane_word: &[u8],
    name: &[u8],
) -> Result<Option<Form>, AllocError>
    ensures { IfOk result (λ f. (p : Program) → f ≡ option_map (reading p) (refresh_form word.now ◂ lane_of lane_word.now ◂ resource_of name.now)) }
{
    if word != b"refresh".as_slice() {
        return Ok(None);
    }
    let Some(lane) = lane(lane_word) else {
        return Ok(None);
    };
    let Some(name) = resource(alloc, name)? else {
        return Ok(None);
    };
    Ok(Some(bare(Step::Dispatch(Dispatch::Refresh(lane, name)))))
}

/// The form of a line of three words.
fn three_words(
    alloc: Global,
    word: &[u8],
    second: &[u8],
    third: &[u8],
) -> Result<Option<Form>, AllocError>
    ensures { IfOk result (λ f. (p : Program) → f ≡ option_map (reading p) (form_of (word.now ∷ second.now ∷ third.now ∷ []))) }
{
    match resolve_line(alloc, word, second, third)? {
        Some(form) => Ok(Some(form)),
        None => refresh_line(alloc, word, second, third),
    }
}

/// The form of a line that starts a transition.
fn start_line<'a>(
    alloc: Global,
    paths: &mut PathReader<'a>,
    word: &[u8],
    lane_word: &[u8],
    path: &'a [u8],
    hook: &[u8],
) -> Result<Option<Form>, AllocError>
    ensures read { IfOk result (λ f. f ≡ option_map (reading paths.old) (form_of (word.now ∷ lane_word.now ∷ path.now ∷ hook.now ∷ []))) }
    ensures same { paths.new ≡ paths.old }
{
    if word != b"start".as_slice() {
        return Ok(None);
    }
    let Some(lane) = start_lane(lane_word) else {
        return Ok(None);
    };
    let Some(spot) = paths.read(alloc, path)? else {
        return Ok(None);
    };
    let Some(hook) = lower(alloc, hook)? else {
        return Ok(None);
    };
    Ok(Some(Form {
        step: Step::Dispatch(Dispatch::Start(lane, spot.path, hook)),
        value: 0,
        target: spot.target,
    }))
}

/// The lane, the instance and the hook that a dispatch names.
#[derive(Drop)]
struct Place {
    lane: LaneWord,
    spot: Spot,
    hook: Name,
}

/// What a dispatch names, from its words, with the numbers of its path held.
fn read_place<'a>(
    alloc: Global,
    paths: &mut PathReader<'a>,
    lane_word: &[u8],
    path: &'a [u8],
    hook: &[u8],
) -> Result<Option<Place>, AllocError>
    ensures read { IfOk result (λ place. place ≡ place_of paths.old lane_word.now path.now hook.now) }
    ensures same { paths.new ≡ paths.old }
{
    let Some(lane) = lane(lane_word) else {
        return Ok(None);
    };
    let Some(spot) = paths.read(alloc, path)? else {
        return Ok(None);
    };
    let Some(hook) = lower(alloc, hook)? else {
        return Ok(None);
    };
    Ok(Some(Place { lane, spot, hook }))
}

/// The dispatch of a value or an action that a word stands for.
fn value_dispatch(word: &[u8], place: Place, value: Int) -> Option<Dispatch>
    ensures { option_map Step.Dispatch result ≡ at_place (value_form word.now) place value }
{
    if word == b"set".as_slice() {
        Some(Dispatch::Set(place.lane, place.spot.path, place.hook, value))
    } else if word == b"send".as_slice() {
        Some(Dispatch::Send(place.lane, place.spot.path, place.hook, value))
    } else {
        None
    }
}

/// The form of a dispatch of a value or an action.
fn value_line(word: &[u8], place: Option<Place>, value: &[u8]) -> Option<Form>
    ensures { result ≡ value_reading (value_form word.now) place (integer_of value.now) }
{
    let place = place?;
    let value = integer(value)?;
    let target = place.spot.target;
    let dispatch = value_dispatch(word, place, held(value))?;
    Some(Form {
        step: Step::Dispatch(dispatch),
        value,
        target,
    })
}

/// The dispatch of a function that a word stands for.
fn call_dispatch(word: &[u8], place: Place, function: Name, value: Int) -> Option<Dispatch>
    ensures { option_map Step.Dispatch result ≡ call_at_place (call_form word.now) place function value }
{
    if word == b"call".as_slice() {
        Some(Dispatch::Call(place.lane, place.spot.path, place.hook, function, value))
    } else {
        None
    }
}

/// The form of a dispatch of a function.
fn call_line(
    word: &[u8],
    place: Option<Place>,
    function: Option<Name>,
    value: &[u8],
) -> Option<Form>
    ensures { result ≡ call_reading (call_form word.now) place function (integer_of value.now) }
{
    let place = place?;
    let function = function?;
    let value = integer(value)?;
    let target = place.spot.target;
    let dispatch = call_dispatch(word, place, function, held(value))?;
    Some(Form {
        step: Step::Dispatch(dispatch),
        value,
        target,
    })
}

/// The form that words have.
pub(crate) fn read_form<'a>(
    alloc: Global,
    paths: &mut PathReader<'a>,
    words: &[&'a [u8]],
) -> Result<Option<Form>, AllocError>
    ensures read { IfOk result (λ f. f ≡ option_map (reading paths.old) (form_of (map (λ w. w.now) words.now))) }
    ensures same { paths.new ≡ paths.old }
{
    match words {
        [] => Ok(None),
        [word] => Ok(plain_form(word)),
        [word, number] => Ok(number_form(word, number)),
        [word, second, third] => three_words(alloc, word, second, third),
        [word, lane, path, hook] => start_line(alloc, paths, word, lane, path, hook),
        [word, lane, path, hook, value] => {
            let place = read_place(alloc, paths, lane, path, hook)?;
            Ok(value_line(word, place, value))
        }
        [word, lane, path, hook, function, value] => {
            let place = read_place(alloc, paths, lane, path, hook)?;
            Ok(call_line(word, place, lower(alloc, function)?, value))
        }
        _ => Ok(None),
    }
}

/// The greatest time of a tick, and the greatest budget of a turn.
pub(crate) const GREATEST_COUNT: u64 = 1_000_000;

/// Whether a number is one that an integer of this width is read as.
fn fits_width(width: Width, value: i128) -> bool
    ensures { result ≡ is_of_width (width_of width) value }
{
    match width {
        Width::W32 => -(1 << 31) <= value && value < 1 << 31,
        Width::W64 => -(1 << 63) <= value && value < 1 << 63,
    }
}

/// Whether a number is an integer of the program.
pub(crate) fn is_integer(checked: &Checked, value: i128) -> bool
    ensures { result ≡ is_one_of_integers checked.now value }
{
    fits_width(checked.width(), value)
}

/// Whether all numbers of a step but the one with a sign are in their bounds.
fn are_counts_in_bounds(checked: &Checked, step: &Step) -> bool
    ensures { result ≡ counts_in_bounds checked.now step.now }
{
    match step {
        Step::Dispatch(Dispatch::Set(_, path, _, _)) => is_path_in_bounds(checked, path),
        Step::Dispatch(Dispatch::Call(_, path, _, _, _)) => is_path_in_bounds(checked, path),
        Step::Dispatch(Dispatch::Send(_, path, _, _)) => is_path_in_bounds(checked, path),
        Step::Dispatch(Dispatch::Start(_, path, _)) => is_path_in_bounds(checked, path),
        Step::Tick(time) => *time <= GREATEST_COUNT,
        Step::Work(budget) => 1 <= *budget && *budget <= GREATEST_COUNT,
        _ => true,
    }
}

/// Whether all numbers of a form are in their bounds.
pub(crate) fn is_in_bounds(checked: &Checked, form: &Form) -> bool
    ensures { result ≡ form_in_bounds checked.now form.now }
{
    is_integer(checked, form.value) && are_counts_in_bounds(checked, &form.step)
}
