// A program.
ghost use Rattle.std.specs.Prelude.{◌≡◌, slice_get, MatchOption, Some, None};
ghost use Rattle.rx_ast.specs.Syntax.{contexts, functions, components};

use crate::declaration::{Component, Context, Declaration, DeclarationKind, Function};
use std::marker::Model;

/// A program, as its declarations in the order of the text, and whether it is of version 2 of the language.
pub struct Program {
    second: bool,
    declarations: Vec<Declaration>,
}

impl Model for Program {
    ghost use Rattle.rx_ast.specs.Syntax as syntax;
    ghost use Rattle.rx_ast.specs.ProgramCodes.{program_code};

    ghost Value = { syntax.Program };

    ghost coded = { program_code };

    ghost view = { λ p. record { second = p.second; declarations = p.declarations.items } };
}

// The trees of a program are taken apart here alone, once for all crates.
impl Drop for Program {
    fn drop(self) {
        let Program {
            second: _,
            declarations: _declarations,
        } = self;
    }
}

impl Program {
    /// A program of these declarations, of version 2 or not.
    pub fn new(second: bool, declarations: Vec<Declaration>) -> Program
        ensures { result ≡ record { second = second; declarations = declarations.items } }
    {
        Program {
            second,
            declarations,
        }
    }

    /// Whether it is of version 2.
    pub fn is_second(&self) -> bool
        ensures { result ≡ self.now.second }
    {
        self.second
    }

    /// Its declarations in order.
    pub fn declarations(&self) -> &[Declaration]
        ensures { result.now ≡ self.now.declarations }
    {
        &self.declarations
    }

    /// The context of this number, counted from 0 among the contexts in the order of the text.
    pub fn context(&self, number: usize) -> Option<&Context>
        ensures { MatchOption result (slice_get (contexts self.now) number ≡ None) (λ x. slice_get (contexts self.now) number ≡ Some x.now) }
    {
        let mut left = number;
        for declaration in &self.declarations {
            if let DeclarationKind::Context(context) = &declaration.kind {
                if left == 0 {
                    return Some(context);
                }
                left -= 1;
            }
        }
        None
    }

    /// The function of this number, counted from 0 among the functions in the order of the text.
    pub fn function(&self, number: usize) -> Option<&Function>
        ensures { MatchOption result (slice_get (functions self.now) number ≡ None) (λ x. slice_get (functions self.now) number ≡ Some x.now) }
    {
        let mut left = number;
        for declaration in &self.declarations {
            if let DeclarationKind::Function(function) = &declaration.kind {
                if left == 0 {
                    return Some(function);
                }
                left -= 1;
            }
        }
        None
    }

    /// The component of this number, counted from 0 among the components in the order of the text.
    pub fn component(&self, number: usize) -> Option<&Component>
        ensures { MatchOption result (slice_get (components self.now) number ≡ None) (λ x. slice_get (components self.now) number ≡ Some x.now) }
    {
        let mut left = number;
        for declaration in &self.declarations {
            if let DeclarationKind::Component(component) = &declaration.kind {
                if left == 0 {
                    return Some(component);
                }
                left -= 1;
            }
        }
        None
    }
}
