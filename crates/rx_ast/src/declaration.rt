// What a program declares.
ghost use Rattle.std.specs.Prelude.{◌≡◌};
ghost use Rattle.rx_ast.specs.Syntax.{of_context, of_function, of_component, integer, given_children, declared_name};

use crate::body::Body;
use crate::expr::Expr;
use crate::statement::Statement;
use rx_base::Name;
use std::marker::Model;

/// A context with its default (react.dev, createContext).
#[derive(Drop)]
pub struct Context {
    name: Name,
    negative: bool,
    number: u64,
}

impl Model for Context {
    ghost use Rattle.rx_ast.specs.Syntax as syntax;
    ghost use Rattle.rx_ast.specs.ProgramCodes.{context_code};

    ghost Value = { syntax.Context };

    ghost coded = { context_code };

    ghost view = { λ c. record { name = c.name; negative = c.negative; number = c.number } };
}

impl Context {
    /// `const name = createContext(number);`, with `-` before the number if `negative` holds.
    pub fn new(name: Name, negative: bool, number: u64) -> Context
        ensures { result ≡ record { name = name; negative = negative; number = number } }
    {
        Context {
            name,
            negative,
            number,
        }
    }

    /// Its name.
    pub fn name(&self) -> &Name
        ensures { result.now ≡ self.now.name }
    {
        &self.name
    }

    /// Whether `-` stands before the number of its default.
    pub fn is_negative(&self) -> bool
        ensures { result ≡ self.now.negative }
    {
        self.negative
    }

    /// The number of its default as it is written.
    pub fn number(&self) -> u64
        ensures { result ≡ self.now.number }
    {
        self.number
    }
}

/// A line of a function, which names a value: `const name = value;`.
#[derive(Drop)]
pub struct Line {
    name: Name,
    value: Expr,
}

impl Model for Line {
    ghost use Rattle.rx_ast.specs.Syntax as syntax;
    ghost use Rattle.rx_ast.specs.ProgramCodes.{line_code};

    ghost Value = { syntax.Line };

    ghost coded = { line_code };

    ghost view = { λ l. record { name = l.name; value = l.value } };
}

impl Line {
    /// `const name = value;`
    pub fn new(name: Name, value: Expr) -> Line
        ensures { result ≡ record { name = name; value = value } }
    {
        Line { name, value }
    }

    /// The name.
    pub fn name(&self) -> &Name
        ensures { result.now ≡ self.now.name }
    {
        &self.name
    }

    /// The value that it names.
    pub fn value(&self) -> &Expr
        ensures { result.now ≡ self.now.value }
    {
        &self.value
    }
}

/// A function of integers.
pub struct Function {
    name: Name,
    parameters: Vec<Name>,
    lines: Vec<Line>,
    answer: Expr,
}

impl Model for Function {
    ghost use Rattle.rx_ast.specs.Syntax as syntax;
    ghost use Rattle.rx_ast.specs.ProgramCodes.{function_code};

    ghost Value = { syntax.Function };

    ghost coded = { function_code };

    ghost view = { λ f. record { name = f.name; parameters = f.parameters.items; lines = f.lines.items; answer = f.answer } };
}

// It is taken apart here alone, once for all crates.
impl Drop for Function {
    fn drop(self) {
        let Function {
            name: _name,
            parameters: _parameters,
            lines: _lines,
            answer: _answer,
        } = self;
    }
}

impl Function {
    /// `function name(parameters) { lines return answer; }`
    pub fn new(name: Name, parameters: Vec<Name>, lines: Vec<Line>, answer: Expr) -> Function
        ensures { result ≡ record { name = name; parameters = parameters.items; lines = lines.items; answer = answer } }
    {
        Function {
            name,
            parameters,
            lines,
            answer,
        }
    }

    /// Its name.
    pub fn name(&self) -> &Name
        ensures { result.now ≡ self.now.name }
    {
        &self.name
    }

    /// Its parameters in order.
    pub fn parameters(&self) -> &[Name]
        ensures { result.now ≡ self.now.parameters }
    {
        &self.parameters
    }

    /// Its lines in order.
    pub fn lines(&self) -> &[Line]
        ensures { result.now ≡ self.now.lines }
    {
        &self.lines
    }

    /// What it returns.
    pub fn answer(&self) -> &Expr
        ensures { result.now ≡ self.now.answer }
    {
        &self.answer
    }
}

/// A parameter of a component.
#[derive(Drop)]
pub struct Parameter {
    /// What it is.
    pub kind: ParameterKind,
}

/// What a parameter of a component is.
#[derive(Drop)]
pub enum ParameterKind {
    /// An integer of this name.
    Integer(Name),
    /// `children` (react.dev, Passing Props to a Component).
    Children,
}

impl Model for Parameter {
    ghost use Rattle.rx_ast.specs.Syntax as syntax;
    ghost use Rattle.rx_ast.specs.ProgramCodes.{parameter_code};

    ghost Value = { syntax.Parameter };

    ghost coded = { parameter_code };

    ghost use Rattle.rx_ast.specs.ProgramView.{parameter_of};

    ghost view = { λ p. parameter_of p.kind };
}

impl Parameter {
    /// An integer of this name.
    pub fn integer(name: Name) -> Parameter
        ensures { result ≡ integer name }
    {
        Parameter {
            kind: ParameterKind::Integer(name),
        }
    }

    /// `children`
    pub fn children() -> Parameter
        ensures { result ≡ given_children }
    {
        Parameter {
            kind: ParameterKind::Children,
        }
    }
}

/// A component.
pub struct Component {
    name: Name,
    memo: bool,
    braces: bool,
    parameters: Vec<Parameter>,
    statements: Vec<Statement>,
    body: Body,
}

impl Model for Component {
    ghost use Rattle.rx_ast.specs.Syntax as syntax;
    ghost use Rattle.rx_ast.specs.ProgramCodes.{component_code};

    ghost Value = { syntax.Component };

    ghost coded = { component_code };

    ghost view = { λ c. record { name = c.name; memo = c.memo; braces = c.braces; parameters = c.parameters.items; statements = c.statements.items; body = c.body } };
}

// It is taken apart here alone, once for all crates.
impl Drop for Component {
    fn drop(self) {
        let Component {
            name: _name,
            memo: _memo,
            braces: _braces,
            parameters: _parameters,
            statements: _statements,
            body: _body,
        } = self;
    }
}

impl Component {
    /// `function name({ parameters }) { statements return body; }`, where `braces` says whether the braces stand there, and
    /// `memo` whether the whole stands in `const name = memo(` and `);` (react.dev, memo).
    pub fn new(
        name: Name,
        memo: bool,
        braces: bool,
        parameters: Vec<Parameter>,
        statements: Vec<Statement>,
        body: Body,
    ) -> Component
        ensures { result ≡ record { name = name; memo = memo; braces = braces; parameters = parameters.items; statements = statements.items; body = body } }
    {
        Component {
            name,
            memo,
            braces,
            parameters,
            statements,
            body,
        }
    }

    /// Its name.
    pub fn name(&self) -> &Name
        ensures { result.now ≡ self.now.name }
    {
        &self.name
    }

    /// Whether it is declared by `memo` (react.dev, memo).
    pub fn is_memo(&self) -> bool
        ensures { result ≡ self.now.memo }
    {
        self.memo
    }

    /// Whether braces stand in its parentheses.
    pub fn has_braces(&self) -> bool
        ensures { result ≡ self.now.braces }
    {
        self.braces
    }

    /// Its parameters in order, with `children`.
    pub fn parameters(&self) -> &[Parameter]
        ensures { result.now ≡ self.now.parameters }
    {
        &self.parameters
    }

    /// Its statements in order.
    pub fn statements(&self) -> &[Statement]
        ensures { result.now ≡ self.now.statements }
    {
        &self.statements
    }

    /// What it returns.
    pub fn body(&self) -> &Body
        ensures { result.now ≡ self.now.body }
    {
        &self.body
    }
}

/// What a program declares.
pub struct Declaration {
    /// What it is, with its part.
    pub kind: DeclarationKind,
}

// It is taken apart here alone, once for all crates.
impl Drop for Declaration {
    fn drop(self) {
        let Declaration { kind: _kind } = self;
    }
}

/// What a program declares.
#[derive(Drop)]
pub enum DeclarationKind {
    Context(Context),
    Function(Function),
    Component(Component),
}

impl Model for Declaration {
    ghost use Rattle.rx_ast.specs.Syntax as syntax;
    ghost use Rattle.rx_ast.specs.ProgramCodes.{declaration_code};

    ghost Value = { syntax.Declaration };

    ghost coded = { declaration_code };

    ghost use Rattle.rx_ast.specs.ProgramView.{declaration_of};

    ghost view = { λ d. declaration_of d.kind };
}

impl Declaration {
    /// A context.
    pub fn context(context: Context) -> Declaration
        ensures { result ≡ of_context context }
    {
        Declaration {
            kind: DeclarationKind::Context(context),
        }
    }

    /// A function.
    pub fn function(function: Function) -> Declaration
        ensures { result ≡ of_function function }
    {
        Declaration {
            kind: DeclarationKind::Function(function),
        }
    }

    /// A component.
    pub fn component(component: Component) -> Declaration
        ensures { result ≡ of_component component }
    {
        Declaration {
            kind: DeclarationKind::Component(component),
        }
    }

    /// The name that it declares.
    pub fn name(&self) -> &Name
        ensures { result.now ≡ declared_name self.now }
    {
        match &self.kind {
            DeclarationKind::Context(context) => context.name(),
            DeclarationKind::Function(function) => function.name(),
            DeclarationKind::Component(component) => component.name(),
        }
    }
}
