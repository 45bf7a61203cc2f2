// A program that meets every check.
ghost use Rattle.std.specs.Prelude.{◌≡◌, ◌<◌, ◌^◌, IfOk, MatchOption, Some, None, bytes_eq, position, length, filter_map, slice_get};
ghost use Rattle.rx_ast.specs.Syntax.{components, functions};
ghost use Rattle.rx_rules.specs.Names.{component_names, resources, hook_in};
ghost use Rattle.rx_rules.specs.Bounds.{node_bound, depth_bound, may_throw_in};
ghost use Rattle.rx_rules.specs.Versions.{width};
ghost use Rattle.rx_base.specs.Widths.{width_of};
ghost use Rattle.rx_names.specs.Listed.{function_names, context_names};
ghost use Rattle.rx_check.specs.Accepted.{IsAccepted};
ghost use Rattle.rx_check.specs.Runnable.{IsRunnable};
ghost use Rattle.rx_names.specs.Listed.{IsListed};
ghost use Rattle.rx_check.specs.Tables.{hook_among, hook_named, parameter_count};

use crate::hook::HookKind;
use crate::places::{component_places, declaration_of, function_places};
use rx_ast::{Component, DeclarationKind, Function, Program, Statement, StatementKind};
use rx_base::{Name, Width};
use rx_figures::has_throw;
use rx_names::{Listing, Table};
use std::alloc::{AllocError, Global};
use std::marker::Model;

/// A program that meets every check. Contracts see it as the program.
pub struct Checked {
    program: Program,
    bound: u64,
    depth: u64,
    components: Table,
    functions: Table,
    contexts: Table,
    resources: Table,
    // Where each component and each function stands among the declarations, by its number.
    component_places: Vec<usize>,
    function_places: Vec<usize>,
}

impl Model for Checked {
    ghost use Rattle.rx_ast.specs.Syntax as syntax;
    ghost use Rattle.rx_ast.specs.ProgramCodes.{program_code};
    ghost use Rattle.rx_check.specs.Tables.{IsChecked};

    ghost Value = { syntax.Program };

    ghost coded = { program_code };

    ghost view = { λ c. c.program };

    ghost invariant = { λ c. IsChecked c.program c.bound c.depth c.components c.functions c.contexts c.resources c.component_places.items c.function_places.items };
}

// It is taken apart here alone, once for all crates.
impl Drop for Checked {
    fn drop(self) {
        let Checked {
            program: _program,
            bound: _bound,
            depth: _depth,
            components: _components,
            functions: _functions,
            contexts: _contexts,
            resources: _resources,
            component_places: _component_places,
            function_places: _function_places,
        } = self;
    }
}

/// The hook that keeps a state under this name among those of these statements.
fn hook_among(statements: &[Statement], functions: &Table, name: &str) -> Option<HookKind>
    requires { length statements.now < 2 ^ 32 }
    ensures { result ≡ hook_among functions.now name.now 0 (filter_map hook_in statements.now) }
{
    let mut number = 0;
    for statement in statements {
        match &statement.kind {
            StatementKind::State { name: hook, .. } => {
                if name == hook.text() {
                    return Some(HookKind::State { number });
                }
                number += 1;
            }
            StatementKind::Reducer {
                name: hook,
                function,
                ..
            } => {
                if name == hook.text() {
                    let function = functions.number(function.text()).unwrap_or(0);
                    return Some(HookKind::Reducer { number, function });
                }
                number += 1;
            }
            StatementKind::Transition { name: hook, .. } => {
                if name == hook.text() {
                    return Some(HookKind::Transition { number });
                }
                number += 1;
            }
            _ => {}
        }
    }
    None
}

// Whether a component of a program may throw by itself.
fn may_throw(program: &Program) -> bool
    ensures { result ≡ may_throw_in program.now }
{
    for declaration in program.declarations() {
        if let DeclarationKind::Component(component) = &declaration.kind
            && has_throw(component)
        {
            return true;
        }
    }
    false
}

/// A program that meets every check, with its names, its bounds and the places of its declarations.
pub(crate) fn accept(
    alloc: Global,
    program: Program,
    listing: Listing,
    bound: u64,
    depth: u64,
) -> Result<Checked, AllocError>
    requires accepted { IsAccepted program }
    requires listed { IsListed program listing }
    requires bound { bound ≡ node_bound program }
    requires depth { depth ≡ depth_bound program }
    ensures { IfOk result (λ c. c ≡ program) }
{
    let component_places = component_places(alloc, &program)?;
    let function_places = function_places(alloc, &program)?;
    let Listing {
        components,
        functions,
        contexts,
        resources,
    } = listing;
    Ok(Checked {
        program,
        bound,
        depth,
        components: Table::new(components),
        functions: Table::new(functions),
        contexts: Table::new(contexts),
        resources: Table::new(resources),
        component_places,
        function_places,
    })
}

impl Checked {
    /// The program.
    pub fn program(&self) -> &Program
        ensures program { result.now ≡ self.now }
        ensures accepted { IsAccepted self.now }
        ensures runnable { IsRunnable self.now }
    {
        &self.program
    }

    /// How wide its integers are.
    pub fn width(&self) -> Width
        ensures { width_of result ≡ width self.now }
    {
        if self.program.is_second() {
            Width::W64
        } else {
            Width::W32
        }
    }

    /// The most nodes that a tree of the program has, the root with them.
    pub fn bound(&self) -> u64
        ensures { result ≡ node_bound self.now }
    {
        self.bound
    }

    /// The most levels that a tree of the program has, the root with them.
    pub fn depth(&self) -> u64
        ensures { result ≡ depth_bound self.now }
    {
        self.depth
    }

    /// Whether a component of it may throw by itself. Takes time in proportion to its statements.
    pub fn may_throw(&self) -> bool
        ensures { result ≡ may_throw_in self.now }
    {
        may_throw(&self.program)
    }

    /// The names of its components, by their numbers.
    pub fn components(&self) -> &[Name]
        ensures { result.now ≡ component_names self.now }
    {
        self.components.names()
    }

    /// The names of the resources that it reads, by their numbers.
    pub fn resources(&self) -> &[Name]
        ensures { result.now ≡ resources self.now }
    {
        self.resources.names()
    }

    /// The number of a component.
    pub fn component(&self, name: &str) -> Option<u32>
        ensures { result ≡ position (bytes_eq name.now) (component_names self.now) }
    {
        self.components.number(name)
    }

    /// The number of a function.
    pub fn function(&self, name: &str) -> Option<u32>
        ensures { result ≡ position (bytes_eq name.now) (function_names self.now) }
    {
        self.functions.number(name)
    }

    /// The number of a context.
    pub fn context(&self, name: &str) -> Option<u32>
        ensures { result ≡ position (bytes_eq name.now) (context_names self.now) }
    {
        self.contexts.number(name)
    }

    /// The number of a resource.
    pub fn resource(&self, name: &str) -> Option<u32>
        ensures { result ≡ position (bytes_eq name.now) (resources self.now) }
    {
        self.resources.number(name)
    }

    /// The component of this number, counted from 0 in the order of the text. No search is made for it.
    pub fn component_at(&self, number: u32) -> Option<&Component>
        ensures found { MatchOption result (slice_get (components self.now) number ≡ None) (λ x. slice_get (components self.now) number ≡ Some x.now) }
        ensures accepted { IsAccepted self.now }
    {
        let declarations = self.program.declarations();
        match &declaration_of(declarations, &self.component_places, number)?.kind {
            DeclarationKind::Component(component) => Some(component),
            _ => None,
        }
    }

    /// The function of this number, counted from 0 in the order of the text. No search is made for it.
    pub fn function_at(&self, number: u32) -> Option<&Function>
        ensures found { MatchOption result (slice_get (functions self.now) number ≡ None) (λ x. slice_get (functions self.now) number ≡ Some x.now) }
        ensures accepted { IsAccepted self.now }
    {
        let declarations = self.program.declarations();
        match &declaration_of(declarations, &self.function_places, number)?.kind {
            DeclarationKind::Function(function) => Some(function),
            _ => None,
        }
    }

    /// How many functions it has.
    pub fn function_count(&self) -> usize
        ensures { result ≡ length (functions self.now) }
    {
        self.function_places.len()
    }

    /// The hook of a component, given by its number, that keeps a state under this name.
    pub fn hook(&self, component: u32, name: &str) -> Option<HookKind>
        ensures { result ≡ hook_named self.now component name.now }
    {
        let component = self.component_at(component)?;
        hook_among(component.statements(), &self.functions, name)
    }

    /// How many parameters a function, given by its number, has; 0 if there is none.
    pub fn parameters_of(&self, function: u32) -> u32
        ensures { result ≡ parameter_count self.now function }
    {
        match self.function_at(function) {
            None => 0,
            Some(function) => function.parameters().len() as u32,
        }
    }
}
