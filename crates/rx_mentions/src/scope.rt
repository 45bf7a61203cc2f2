// What is bound at a place of a body.
ghost use Rattle.std.specs.Prelude.{◌≡◌, ◌-◌, OnOk, length, take};

use rx_ast::{Parameter, ParameterKind, Statement, StatementKind};
use rx_base::Name;
use rx_names::BorrowedNames;
use std::alloc::{AllocError, Global};
use std::marker::Model;

/// What is bound at a place of a body: the names that stand for values, and the others. It borrows the program.
#[derive(Drop)]
pub struct Scope<'a> {
    values: BorrowedNames<'a>,
    others: BorrowedNames<'a>,
}

impl<'a> Model for Scope<'a> {
    ghost use Rattle.rx_mentions.specs.Mentions.{Scope as Bound};

    ghost Value = { Bound };

    ghost view = { λ s. record { values = s.values; others = s.others } };
}

impl<'a> Scope<'a> {
    ghost use Rattle.rx_mentions.specs.Mentions.{no_scope, bound, kept, is_bound, after_parameter, after_statement};

    /// Nothing is bound yet.
    pub fn new(alloc: Global) -> Scope<'a>
        ensures { result ≡ no_scope }
    {
        Scope {
            values: BorrowedNames::new(alloc),
            others: BorrowedNames::new(alloc),
        }
    }

    /// The names that stand for values.
    pub fn values(&self) -> &BorrowedNames<'a>
        ensures { result.now ≡ self.now.values }
    {
        &self.values
    }

    /// Whether a name is bound, to a value or not.
    pub fn contains(&self, name: &str) -> bool
        ensures { result ≡ is_bound self.now name.now }
    {
        self.values.contains(name) || self.others.contains(name)
    }

    /// Makes room for so many names more that stand for values.
    pub fn reserve(&mut self, more: usize) -> Result<(), AllocError>
        ensures { self.new ≡ self.old }
    {
        self.values.reserve(more)
    }

    /// Binds a name that stands for a value.
    pub fn bind(&mut self, name: &'a Name) -> Result<(), AllocError>
        ensures { OnOk result (self.new ≡ bound self.old name.now) }
    {
        self.values.push(name.text())
    }

    /// Binds a name that has no value.
    pub fn keep(&mut self, name: &'a str) -> Result<(), AllocError>
        ensures { OnOk result (self.new ≡ kept self.old name.now) }
    {
        self.others.push(name)
    }

    /// Leaves the name with a value that was bound last.
    pub fn leave(&mut self)
        ensures { self.new ≡ record self.old { values = take (length self.old.values - 1) self.old.values } }
    {
        self.values.pop();
    }

    /// Binds a parameter.
    pub fn parameter(&mut self, parameter: &'a Parameter) -> Result<(), AllocError>
        ensures { OnOk result (self.new ≡ after_parameter self.old parameter.now) }
    {
        match &parameter.kind {
            ParameterKind::Integer(name) => self.bind(name),
            ParameterKind::Children => self.keep("children"),
        }
    }

    /// Binds what a statement binds.
    pub fn statement(&mut self, statement: &'a Statement) -> Result<(), AllocError>
        ensures { OnOk result (self.new ≡ after_statement self.old statement.now) }
    {
        match &statement.kind {
            StatementKind::State { name, setter, .. }
            | StatementKind::Reducer { name, setter, .. }
            | StatementKind::Transition {
                name,
                starter: setter,
            } => {
                self.bind(name)?;
                self.keep(setter.text())
            }
            StatementKind::Context { name, .. }
            | StatementKind::Resource { name, .. }
            | StatementKind::Constant { name, .. } => self.bind(name),
            StatementKind::Effect { .. } | StatementKind::Throw { .. } => Ok(()),
        }
    }
}
