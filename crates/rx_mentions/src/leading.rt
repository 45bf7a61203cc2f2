// To which functions a function leads, and to which components a component.
ghost use Rattle.std.specs.Prelude.{◌≡◌, IfOk, map, filter_map};
ghost use Rattle.rx_rules.specs.Names.{function_number, component_number};
ghost use Rattle.rx_mentions.specs.Ways.{called_in, placed_in, calls, places};

use crate::bodies::{component_mentions_of, function_mentions_of};
use crate::mention::{Mention, MentionKind};
use rx_ast::DeclarationKind;
use rx_names::Index;
use rx_order::Row;
use std::alloc::{AllocError, Global};

/// The numbers of the functions that are called.
fn called(alloc: Global, program: &Index, mentions: &[Mention]) -> Result<Row, AllocError>
    ensures { IfOk result (λ r. r ≡ map (function_number program.now) (filter_map called_in mentions.now)) }
{
    let mut items = Vec::new(alloc);
    for mention in mentions {
        if let MentionKind::Call { function, .. } = &mention.kind {
            items.push(program.function_number(function.text()))?;
        }
    }
    Ok(Row::new(items))
}

/// The numbers of the components whose elements stand there.
fn placed(alloc: Global, program: &Index, mentions: &[Mention]) -> Result<Row, AllocError>
    ensures { IfOk result (λ r. r ≡ map (component_number program.now) (filter_map placed_in mentions.now)) }
{
    let mut items = Vec::new(alloc);
    for mention in mentions {
        if let MentionKind::Element { component, .. } = &mention.kind {
            items.push(program.component_number(component.text()))?;
        }
    }
    Ok(Row::new(items))
}

/// For each function the functions that it calls.
pub fn calls_of(alloc: Global, program: &Index) -> Result<Vec<Row>, AllocError>
    ensures { IfOk result (λ g. g.items ≡ calls program.now) }
{
    let mut graph = Vec::new(alloc);
    for declaration in program.declarations() {
        if let DeclarationKind::Function(function) = &declaration.kind {
            let walk = function_mentions_of(alloc, function)?;
            graph.push(called(alloc, program, walk.mentions())?)?;
        }
    }
    Ok(graph)
}

/// For each component the components whose elements stand in its body.
pub fn places_of(alloc: Global, program: &Index) -> Result<Vec<Row>, AllocError>
    ensures { IfOk result (λ g. g.items ≡ places program.now) }
{
    let mut graph = Vec::new(alloc);
    for declaration in program.declarations() {
        if let DeclarationKind::Component(component) = &declaration.kind {
            let walk = component_mentions_of(alloc, component)?;
            graph.push(placed(alloc, program, walk.mentions())?)?;
        }
    }
    Ok(graph)
}
