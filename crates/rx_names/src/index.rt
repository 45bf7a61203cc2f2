// A program whose functions and components are found by their names and numbers.
ghost use Rattle.std.specs.Prelude.{◌≡◌, IfOk, MatchOption, Some, None, length, map, slice_get};
ghost use Rattle.rx_ast.specs.Syntax.{components, functions};
ghost use Rattle.rx_rules.specs.Names.{component_number, component_named, function_number, function_named};
ghost use Rattle.rx_names.specs.Listed.{IsListed};

use crate::listing::Listing;
use rx_ast::{Component, Declaration, DeclarationKind, Function, Program};
use std::alloc::{AllocError, Global};
use std::marker::Model;

/// A program whose functions and components are found by their names, and by their numbers in order of declaration. Contracts
/// see it as the program.
#[derive(Drop)]
pub struct Index<'a> {
    program: &'a Program,
    listing: &'a Listing,
    components: Vec<&'a Component>,
    functions: Vec<&'a Function>,
}

impl<'a> Model for Index<'a> {
    ghost use Rattle.std.specs.Prelude.{◌≡◌, map};
    ghost use Rattle.rx_ast.specs.Syntax as syntax;
    ghost use Rattle.rx_ast.specs.ProgramCodes.{program_code};
    ghost use Rattle.rx_names.specs.Listed.{IsListed};

    ghost Value = { syntax.Program };

    ghost coded = { program_code };

    ghost view = { λ i. i.program.now };

    ghost invariant = { λ i. IsListed i.program.now i.listing.now
        × (map (λ c. c.now) i.components.items ≡ syntax.components i.program.now)
        × (map (λ f. f.now) i.functions.items ≡ syntax.functions i.program.now) };
}

/// The components of a program by their numbers.
fn components_of(alloc: Global, program: &Program) -> Result<Vec<&Component>, AllocError>
    ensures { IfOk result (λ v. map (λ c. c.now) v.items ≡ components program.now) }
{
    let mut found = Vec::new(alloc);
    for declaration in program.declarations() {
        if let DeclarationKind::Component(component) = &declaration.kind {
            found.push(component)?;
        }
    }
    Ok(found)
}

/// The functions of a program by their numbers.
fn functions_of(alloc: Global, program: &Program) -> Result<Vec<&Function>, AllocError>
    ensures { IfOk result (λ v. map (λ f. f.now) v.items ≡ functions program.now) }
{
    let mut found = Vec::new(alloc);
    for declaration in program.declarations() {
        if let DeclarationKind::Function(function) = &declaration.kind {
            found.push(function)?;
        }
    }
    Ok(found)
}

impl<'a> Index<'a> {
    /// The index of a program whose names are listed.
    ///
    /// # Errors
    ///
    /// Only if out of memory.
    pub fn new(
        alloc: Global,
        program: &'a Program,
        listing: &'a Listing,
    ) -> Result<Index<'a>, AllocError>
        requires { IsListed program.now listing.now }
        ensures { IfOk result (λ i. i ≡ program.now) }
    {
        let components = components_of(alloc, program)?;
        let functions = functions_of(alloc, program)?;
        Ok(Index {
            program,
            listing,
            components,
            functions,
        })
    }

    /// The program.
    pub fn program(&self) -> &Program
        ensures { result.now ≡ self.now }
    {
        self.program
    }

    /// Its declarations in order.
    pub fn declarations(&self) -> &[Declaration]
        ensures { result.now ≡ self.now.declarations }
    {
        self.program.declarations()
    }

    /// The names that it declares and reads.
    pub fn listing(&self) -> &Listing
        ensures { IsListed self.now result.now }
    {
        self.listing
    }

    /// How many components there are.
    pub fn component_count(&self) -> usize
        ensures { result ≡ length (components self.now) }
    {
        self.components.len()
    }

    /// How many functions there are.
    pub fn function_count(&self) -> usize
        ensures { result ≡ length (functions self.now) }
    {
        self.functions.len()
    }

    /// The number of the component of a name; 0 if there is none.
    pub fn component_number(&self, name: &str) -> usize
        ensures { result ≡ component_number self.now name.now }
    {
        self.listing.components.position(name).unwrap_or(0)
    }

    /// The number of the function of a name; 0 if there is none.
    pub fn function_number(&self, name: &str) -> usize
        ensures { result ≡ function_number self.now name.now }
    {
        self.listing.functions.position(name).unwrap_or(0)
    }

    /// The component of a number.
    pub fn component(&self, number: usize) -> Option<&Component>
        ensures { MatchOption result (slice_get (components self.now) number ≡ None) (λ c. slice_get (components self.now) number ≡ Some c.now) }
    {
        match self.components.get(number) {
            None => None,
            Some(component) => Some(*component),
        }
    }

    /// The function of a number.
    pub fn function(&self, number: usize) -> Option<&Function>
        ensures { MatchOption result (slice_get (functions self.now) number ≡ None) (λ f. slice_get (functions self.now) number ≡ Some f.now) }
    {
        match self.functions.get(number) {
            None => None,
            Some(function) => Some(*function),
        }
    }

    /// The component of a name.
    pub fn component_named(&self, name: &str) -> Option<&Component>
        ensures { MatchOption result (component_named self.now name.now ≡ None) (λ c. component_named self.now name.now ≡ Some c.now) }
    {
        match self.listing.components.position(name) {
            None => None,
            Some(number) => self.component(number),
        }
    }

    /// The function of a name.
    pub fn function_named(&self, name: &str) -> Option<&Function>
        ensures { MatchOption result (function_named self.now name.now ≡ None) (λ f. function_named self.now name.now ≡ Some f.now) }
    {
        match self.listing.functions.position(name) {
            None => None,
            Some(number) => self.function(number),
        }
    }
}
