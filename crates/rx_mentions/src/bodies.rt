// The mentions of declarations.
ghost use Rattle.std.specs.Prelude.{◌≡◌, false, [], ◌∷◌, ◌++◌, OnOk, IfOk, fold, flat_map};
ghost use Rattle.rx_ast.specs.Syntax.{body_slots};
ghost use Rattle.rx_mentions.specs.Mention as mention;
ghost use Rattle.rx_mentions.specs.Mentions.{bound, after_parameter, after_line, after_statement, parameter_name, expr_mentions, slots_mentions, names_mentions, lines_mentions, function_mentions, parameters_mentions, pair_mentions, statement_mentions, statements_mentions, component_mentions, declaration_mentions, declarations_mentions, mentions};

use crate::count::Count;
use crate::mention::MentionKind;
use crate::scope::Scope;
use crate::walk::Walk;
use rx_ast::{
    Body, BodyKind, Component, Declaration, DeclarationKind, Expr, Fragment, Function, Line,
    Parameter, ParameterKind, Program, Statement, StatementKind,
};
use rx_base::Name;
use rx_names::BorrowedNames;
use std::alloc::{AllocError, Global};

/// The name of a parameter.
fn name_of(parameter: &Parameter) -> &str
    ensures { result.now ≡ parameter_name parameter.now }
{
    match &parameter.kind {
        ParameterKind::Integer(name) => name.text(),
        ParameterKind::Children => "children",
    }
}

impl<'a> Walk<'a> {
    /// Notes what parameters of a component mention, and binds them.
    fn parameters(
        &mut self,
        scope: &mut Scope<'a>,
        parameters: &'a [Parameter],
    ) -> Result<(), AllocError>
        ensures mentions { OnOk result (self.new ≡ self.old ++ parameters_mentions scope.old parameters.now) }
        ensures scope { OnOk result (scope.new ≡ fold after_parameter scope.old parameters.now) }
    {
        scope.reserve(parameters.len())?;
        for parameter in parameters {
            self.opened(scope, name_of(parameter))?;
            scope.parameter(parameter)?;
        }
        Ok(())
    }

    /// Notes what parameters of a function mention, and binds them.
    fn names(&mut self, scope: &mut Scope<'a>, names: &'a [Name]) -> Result<(), AllocError>
        ensures mentions { OnOk result (self.new ≡ self.old ++ names_mentions scope.old names.now) }
        ensures scope { OnOk result (scope.new ≡ fold bound scope.old names.now) }
    {
        scope.reserve(names.len())?;
        for name in names {
            self.opened(scope, name.text())?;
            scope.bind(name)?;
        }
        Ok(())
    }

    /// Notes what lines of a function mention, and binds their names.
    fn lines(&mut self, scope: &mut Scope<'a>, lines: &'a [Line]) -> Result<(), AllocError>
        ensures mentions { OnOk result (self.new ≡ self.old ++ lines_mentions scope.old lines.now) }
        ensures scope { OnOk result (scope.new ≡ fold after_line scope.old lines.now) }
    {
        scope.reserve(lines.len())?;
        for line in lines {
            self.opened(scope, line.name().text())?;
            self.expr(scope.values(), line.value())?;
            scope.bind(line.name())?;
        }
        Ok(())
    }

    /// Notes what a function mentions behind its name.
    fn function(&mut self, function: &'a Function) -> Result<(), AllocError>
        ensures { OnOk result (self.new ≡ self.old ++ function_mentions function.now) }
    {
        let mut scope = Scope::new(self.alloc);
        self.counted(Count::Parameters, function.parameters().len())?;
        self.counted(Count::Statements, function.lines().len())?;
        self.names(&mut scope, function.parameters())?;
        self.lines(&mut scope, function.lines())?;
        self.expr(scope.values(), function.answer())
    }

    /// Notes the two names of a hook.
    fn pair(&mut self, scope: &Scope, name: &'a Name, setter: &'a Name) -> Result<(), AllocError>
        ensures { OnOk result (self.new ≡ self.old ++ pair_mentions scope.now name.now setter.now) }
    {
        self.opened(scope, name.text())?;
        let (first, second) = (name.text(), setter.text());
        let again = scope.contains(second) || second == first;
        self.note(MentionKind::Introduced {
            again,
            name: second,
        })
    }

    /// Notes a function that reduces a state.
    fn reduction(&mut self, function: &'a Name) -> Result<(), AllocError>
        ensures { OnOk result (self.new ≡ self.old ++ mention.Reduction function.now ∷ []) }
    {
        self.note(MentionKind::Reduction(function))
    }

    /// Notes a resource.
    fn resource(&mut self, name: &'a Name) -> Result<(), AllocError>
        ensures { OnOk result (self.new ≡ self.old ++ mention.Resource name.now ∷ []) }
    {
        self.note(MentionKind::Resource(name))
    }

    /// Notes what the values of an effect mention.
    fn dependencies(&mut self, scope: &BorrowedNames, values: &'a [Expr]) -> Result<(), AllocError>
        ensures { OnOk result (self.new ≡ self.old ++ flat_map (expr_mentions scope.now) values.now) }
    {
        for value in values {
            self.expr(scope, value)?;
        }
        Ok(())
    }

    /// Notes what a statement mentions.
    fn statement(&mut self, scope: &Scope, statement: &'a Statement) -> Result<(), AllocError>
        ensures { OnOk result (self.new ≡ self.old ++ statement_mentions scope.now statement.now) }
    {
        match &statement.kind {
            StatementKind::State {
                name,
                setter,
                initial,
            } => {
                self.pair(scope, name, setter)?;
                self.expr(scope.values(), initial)
            }
            StatementKind::Reducer {
                name,
                setter,
                function,
                initial,
            } => {
                self.pair(scope, name, setter)?;
                self.reduction(function)?;
                self.expr(scope.values(), initial)
            }
            StatementKind::Transition { name, starter } => self.pair(scope, name, starter),
            StatementKind::Context { name, source } => {
                self.opened(scope, name.text())?;
                self.context(source)
            }
            StatementKind::Resource { name, resource } => {
                self.opened(scope, name.text())?;
                self.resource(resource)
            }
            StatementKind::Constant { name, value } => {
                self.opened(scope, name.text())?;
                self.expr(scope.values(), value)
            }
            StatementKind::Effect {
                label,
                dependencies,
                ..
            } => {
                self.quoted(label)?;
                self.counted(Count::Dependencies, dependencies.len())?;
                self.dependencies(scope.values(), dependencies)
            }
            StatementKind::Throw { value } => self.expr(scope.values(), value),
        }
    }

    /// Notes what statements mention, and binds their names.
    fn statements(
        &mut self,
        scope: &mut Scope<'a>,
        statements: &'a [Statement],
    ) -> Result<(), AllocError>
        ensures mentions { OnOk result (self.new ≡ self.old ++ statements_mentions scope.old statements.now) }
        ensures scope { OnOk result (scope.new ≡ fold after_statement scope.old statements.now) }
    {
        for statement in statements {
            self.statement(scope, statement)?;
            scope.statement(statement)?;
        }
        Ok(())
    }

    /// Notes what a fragment mentions.
    fn fragment(&mut self, scope: &mut Scope<'a>, fragment: &'a Fragment) -> Result<(), AllocError>
        ensures { OnOk result (self.new ≡ self.old ++ slots_mentions scope.old false fragment.now) }
    {
        self.children(scope, fragment.children())
    }

    /// Notes what a body mentions.
    fn body(&mut self, scope: &mut Scope<'a>, body: &'a Body) -> Result<(), AllocError>
        ensures { OnOk result (self.new ≡ self.old ++ slots_mentions scope.old false (body_slots body.now)) }
    {
        match &body.kind {
            BodyKind::Slot(slot) => self.slot(scope, false, slot),
            BodyKind::Fragment(fragment) | BodyKind::Enclosed(fragment) => {
                self.fragment(scope, fragment)
            }
        }
    }

    /// Notes what a component mentions behind its name.
    fn component(&mut self, component: &'a Component) -> Result<(), AllocError>
        ensures { OnOk result (self.new ≡ self.old ++ component_mentions component.now) }
    {
        let mut scope = Scope::new(self.alloc);
        self.counted(Count::Parameters, component.parameters().len())?;
        self.counted(Count::Statements, component.statements().len())?;
        self.parameters(&mut scope, component.parameters())?;
        self.statements(&mut scope, component.statements())?;
        self.body(&mut scope, component.body())
    }

    /// Notes what a declaration mentions behind its name.
    fn declaration(&mut self, declaration: &'a Declaration) -> Result<(), AllocError>
        ensures { OnOk result (self.new ≡ self.old ++ declaration_mentions declaration.now) }
    {
        match &declaration.kind {
            DeclarationKind::Context(_) => Ok(()),
            DeclarationKind::Function(function) => self.function(function),
            DeclarationKind::Component(component) => self.component(component),
        }
    }

    /// Notes what declarations mention.
    fn declarations(&mut self, declarations: &'a [Declaration]) -> Result<(), AllocError>
        ensures { OnOk result (self.new ≡ self.old ++ declarations_mentions [] declarations.now) }
    {
        let mut taken = BorrowedNames::new(self.alloc);
        taken.reserve(declarations.len())?;
        for declaration in declarations {
            let name = declaration.name().text();
            self.introduced(&taken, name)?;
            self.declaration(declaration)?;
            taken.push(name)?;
        }
        Ok(())
    }
}

/// What a program mentions, in the order of its text.
///
/// # Errors
///
/// Only if out of memory.
#[tactic(auto, unfolding(crate::specs::Mentions::mentions))]
pub fn mentions_of<'a>(alloc: Global, program: &'a Program) -> Result<Walk<'a>, AllocError>
    ensures { IfOk result (λ w. w ≡ mentions program.now) }
{
    let mut walk = Walk::new(alloc);
    walk.declarations(program.declarations())?;
    Ok(walk)
}

/// What a function mentions behind its name.
///
/// # Errors
///
/// Only if out of memory.
pub fn function_mentions_of<'a>(
    alloc: Global,
    function: &'a Function,
) -> Result<Walk<'a>, AllocError>
    ensures { IfOk result (λ w. w ≡ function_mentions function.now) }
{
    let mut walk = Walk::new(alloc);
    walk.function(function)?;
    Ok(walk)
}

/// What a component mentions behind its name.
///
/// # Errors
///
/// Only if out of memory.
pub fn component_mentions_of<'a>(
    alloc: Global,
    component: &'a Component,
) -> Result<Walk<'a>, AllocError>
    ensures { IfOk result (λ w. w ≡ component_mentions component.now) }
{
    let mut walk = Walk::new(alloc);
    walk.component(component)?;
    Ok(walk)
}
