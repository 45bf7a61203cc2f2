// The names of components and of their hooks.
ghost use Rattle.std.specs.Prelude.{◌≡◌, ◌<◌, ◌^◌, IfOk, length, option_map, true};
ghost use Rattle.std.specs.Option.{option_copied};
ghost use Rattle.rx_rules.specs.Names.{has_name, hook_in, hook_names};
ghost use Rattle.rx_model.specs.State as state;
ghost use Rattle.rx_dispatch.specs.Kinds.{number_in};

use rx_ast::{Component, Statement, StatementKind};
use rx_base::Name;
use rx_check::{Checked, HookKind};
use std::alloc::{AllocError, Global};

/// The name of a component, by its number; empty if there is none.
pub fn name_of(checked: &Checked, component: u32) -> &str
    ensures { result.now ≡ state.name_of checked.now component }
{
    match checked.components().get(component as usize) {
        Some(name) => name.text(),
        None => "",
    }
}

// The number of a hook among those of its component.
fn number_in(kind: HookKind) -> u32
    ensures { result ≡ number_in kind }
{
    match kind {
        HookKind::State { number }
        | HookKind::Reducer { number, .. }
        | HookKind::Transition { number } => number,
    }
}

/// The number of a hook among those of its component, by its name; 0 if there is none.
pub fn hook_place(checked: &Checked, component: u32, name: &Name) -> u32
    ensures number { result ≡ state.hook_number checked.now component name.now }
    ensures below { has_name (state.hooks_at checked.now component) name.now ≡ true → result < length (state.hooks_at checked.now component) }
{
    match checked.hook(component, name.text()) {
        Some(kind) => number_in(kind),
        None => 0,
    }
}

// The name of a statement's hook, if it has one that keeps a state.
fn hook_name(statement: &Statement) -> Option<&Name>
    ensures { option_copied result ≡ option_map (λ h. h.name) (hook_in statement.now) }
{
    match &statement.kind {
        StatementKind::State { name, .. }
        | StatementKind::Reducer { name, .. }
        | StatementKind::Transition { name, .. } => Some(name),
        _ => None,
    }
}

// The names of a component's hooks.
fn hook_names(alloc: Global, component: &Component) -> Result<Vec<Name>, AllocError>
    ensures { IfOk result (λ names. names.items ≡ hook_names component.now) }
{
    let mut names = Vec::new(alloc);
    for statement in component.statements() {
        if let Some(name) = hook_name(statement) {
            names.push(Name::new(alloc, name.text())?)?;
        }
    }
    Ok(names)
}

/// The names of the hooks of a component, by its number, in statement order.
///
/// # Errors
///
/// Only if out of memory.
pub fn hooks_at(alloc: Global, checked: &Checked, component: u32) -> Result<Vec<Name>, AllocError>
    ensures names { IfOk result (λ names. names.items ≡ state.hooks_at checked.now component) }
    ensures few { IfOk result (λ names. length names.items < 2 ^ 32) }
{
    match checked.component_at(component) {
        Some(found) => hook_names(alloc, found),
        None => Ok(Vec::new(alloc)),
    }
}
