// Where the components and the functions of a program stand among its declarations.
ghost use Rattle.std.specs.Prelude.{◌≡◌, IfOk, MatchOption, None, Some, option_and_then, slice_get};
ghost use Rattle.rx_ast.specs.Syntax.{as_component, as_function};
ghost use Rattle.rx_check.specs.Places.{ArePlaces};

use rx_ast::{Declaration, DeclarationKind, Program};
use std::alloc::{AllocError, Global};

/// The place of each component among the declarations, by its number.
pub(crate) fn component_places(alloc: Global, program: &Program) -> Result<Vec<usize>, AllocError>
    ensures { IfOk result (λ v. ArePlaces as_component program.now.declarations v.items) }
{
    let mut places = Vec::new(alloc);
    let mut place = 0;
    for declaration in program.declarations() {
        if let DeclarationKind::Component(_) = &declaration.kind {
            places.push(place)?;
        }
        place += 1;
    }
    Ok(places)
}

/// The place of each function among the declarations, by its number.
pub(crate) fn function_places(alloc: Global, program: &Program) -> Result<Vec<usize>, AllocError>
    ensures { IfOk result (λ v. ArePlaces as_function program.now.declarations v.items) }
{
    let mut places = Vec::new(alloc);
    let mut place = 0;
    for declaration in program.declarations() {
        if let DeclarationKind::Function(_) = &declaration.kind {
            places.push(place)?;
        }
        place += 1;
    }
    Ok(places)
}

/// The declaration at the place of this number, if there is one.
pub(crate) fn declaration_of<'a>(
    declarations: &'a [Declaration],
    places: &[usize],
    number: u32,
) -> Option<&'a Declaration>
    ensures { MatchOption result (option_and_then (slice_get declarations.now) (slice_get places.now number) ≡ None) (λ d. option_and_then (slice_get declarations.now) (slice_get places.now number) ≡ Some d.now) }
{
    match places.get(number as usize) {
        Some(place) => declarations.get(*place),
        None => None,
    }
}
