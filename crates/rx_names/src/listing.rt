// The names that a program declares and reads.
ghost use Rattle.std.specs.Prelude.{◌≡◌, OnOk, IfOk, fold};
ghost use Rattle.rx_rules.specs.Names.{component_names, resources, resources_of as read_in};
ghost use Rattle.rx_names.specs.Listed.{IsListed, function_names, context_names, with_name};

use crate::names::Names;
use rx_ast::{Component, DeclarationKind, Program, StatementKind};
use std::alloc::{AllocError, Global};

/// The names of a program, by what they are declared as, and those of its resources.
#[derive(Drop)]
pub struct Listing {
    pub components: Names,
    pub functions: Names,
    pub contexts: Names,
    pub resources: Names,
}

/// The names that are declared as components.
fn component_names_of(alloc: Global, program: &Program) -> Result<Names, AllocError>
    ensures { IfOk result (λ names. names ≡ component_names program.now) }
{
    let mut names = Names::new(alloc);
    for declaration in program.declarations() {
        if let DeclarationKind::Component(component) = &declaration.kind {
            names.push(alloc, component.name().text())?;
        }
    }
    Ok(names)
}

/// The names that are declared as functions.
fn function_names_of(alloc: Global, program: &Program) -> Result<Names, AllocError>
    ensures { IfOk result (λ names. names ≡ function_names program.now) }
{
    let mut names = Names::new(alloc);
    for declaration in program.declarations() {
        if let DeclarationKind::Function(function) = &declaration.kind {
            names.push(alloc, function.name().text())?;
        }
    }
    Ok(names)
}

/// The names that are declared as contexts.
fn context_names_of(alloc: Global, program: &Program) -> Result<Names, AllocError>
    ensures { IfOk result (λ names. names ≡ context_names program.now) }
{
    let mut names = Names::new(alloc);
    for declaration in program.declarations() {
        if let DeclarationKind::Context(context) = &declaration.kind {
            names.push(alloc, context.name().text())?;
        }
    }
    Ok(names)
}

/// The resources that a program reads.
fn resources_of(alloc: Global, program: &Program) -> Result<Names, AllocError>
    ensures { IfOk result (λ names. names ≡ resources program.now) }
{
    let mut names = Names::new(alloc);
    for declaration in program.declarations() {
        if let DeclarationKind::Component(component) = &declaration.kind {
            read_by(alloc, component, &mut names)?;
        }
    }
    Ok(names)
}

/// The names of a program.
///
/// # Errors
///
/// Only if out of memory.
pub fn names_of(alloc: Global, program: &Program) -> Result<Listing, AllocError>
    ensures { IfOk result (λ l. IsListed program.now l) }
{
    let components = component_names_of(alloc, program)?;
    let functions = function_names_of(alloc, program)?;
    let contexts = context_names_of(alloc, program)?;
    let resources = resources_of(alloc, program)?;
    Ok(Listing {
        components,
        functions,
        contexts,
        resources,
    })
}

/// Puts the resources that a component reads behind those that were read before, each once.
fn read_by(alloc: Global, component: &Component, resources: &mut Names) -> Result<(), AllocError>
    ensures { OnOk result (resources.new ≡ fold with_name resources.old (read_in component.now)) }
{
    for statement in component.statements() {
        if let StatementKind::Resource { resource, .. } = &statement.kind {
            if !resources.contains(resource.text()) {
                resources.push(alloc, resource.text())?;
            }
        }
    }
    Ok(())
}
