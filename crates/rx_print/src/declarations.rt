// How declarations are written.
ghost use Rattle.std.specs.Prelude.{◌≡◌, [], ◌∷◌, ◌++◌, OnOk, map};
ghost use Rattle.std.specs.List.{flat_map};
ghost use Rattle.rx_ast.specs.Syntax.{of_context, of_function, of_component};
ghost use Rattle.rx_print.specs.Printing.{expr_tokens, slots_tokens, parameter_token, separated, parameters_tokens, default_tokens, line_tokens, fragment_tokens, body_tokens, component_form, declaration_tokens, version_tokens};

use crate::printer::Printer;
use rx_ast::{
    Body, BodyKind, Component, Context, Declaration, DeclarationKind, Expr, Fragment, Function,
    Line, Parameter, ParameterKind,
};
use rx_base::Name;
use rx_lex::{Keyword, Kind, Sign};
use std::alloc::AllocError;

impl Printer {
    /// Writes a fragment.
    fn fragment(&mut self, fragment: &Fragment) -> Result<(), AllocError>
        ensures { OnOk result (self.new ≡ self.old ++ fragment_tokens fragment.now) }
    {
        self.sign(Sign::Less)?;
        self.sign(Sign::Greater)?;
        self.inner(fragment)?;
        self.sign(Sign::Less)?;
        self.sign(Sign::Slash)?;
        self.sign(Sign::Greater)
    }

    /// Writes the children of a fragment.
    fn inner(&mut self, fragment: &Fragment) -> Result<(), AllocError>
        ensures { OnOk result (self.new ≡ self.old ++ slots_tokens fragment.now) }
    {
        self.children(fragment.children())
    }

    /// Writes what a component returns.
    fn body(&mut self, body: &Body) -> Result<(), AllocError>
        ensures { OnOk result (self.new ≡ self.old ++ body_tokens body.now) }
    {
        match &body.kind {
            BodyKind::Slot(slot) => self.slot(slot),
            BodyKind::Fragment(fragment) => self.fragment(fragment),
            BodyKind::Enclosed(fragment) => {
                self.sign(Sign::OpenParen)?;
                self.fragment(fragment)?;
                self.sign(Sign::CloseParen)
            }
        }
    }

    /// Writes a line of a function.
    fn line(&mut self, line: &Line) -> Result<(), AllocError>
        ensures { OnOk result (self.new ≡ self.old ++ line_tokens line.now) }
    {
        self.constant(line.name(), line.value())
    }

    /// Writes lines in order.
    fn lines(&mut self, lines: &[Line]) -> Result<(), AllocError>
        ensures { OnOk result (self.new ≡ self.old ++ flat_map line_tokens lines.now) }
    {
        for line in lines {
            self.line(line)?;
        }
        Ok(())
    }

    /// Writes names with a comma between each two.
    fn names(&mut self, names: &[Name]) -> Result<(), AllocError>
        ensures { OnOk result (self.new ≡ self.old ++ separated (map (λ x. Kind.Lower x) names.now)) }
    {
        let [first, others @ ..] = names else {
            return Ok(());
        };
        self.lower(first)?;
        for name in others {
            self.sign(Sign::Comma)?;
            self.lower(name)?;
        }
        Ok(())
    }

    /// Writes a parameter.
    fn parameter(&mut self, parameter: &Parameter) -> Result<(), AllocError>
        ensures { OnOk result (self.new ≡ self.old ++ parameter_token parameter.now ∷ []) }
    {
        match &parameter.kind {
            ParameterKind::Integer(name) => self.lower(name),
            ParameterKind::Children => self.word(Keyword::Children),
        }
    }

    /// Writes parameters with a comma between each two.
    fn parameters(&mut self, parameters: &[Parameter]) -> Result<(), AllocError>
        ensures { OnOk result (self.new ≡ self.old ++ separated (map parameter_token parameters.now)) }
    {
        let [first, others @ ..] = parameters else {
            return Ok(());
        };
        self.parameter(first)?;
        for parameter in others {
            self.sign(Sign::Comma)?;
            self.parameter(parameter)?;
        }
        Ok(())
    }

    /// Writes the parameters of a component, in braces if these stand there.
    fn braced_parameters(&mut self, component: &Component) -> Result<(), AllocError>
        ensures { OnOk result (self.new ≡ self.old ++ parameters_tokens component.now.braces component.now.parameters) }
    {
        if !component.has_braces() {
            return Ok(());
        }
        self.sign(Sign::OpenBrace)?;
        self.parameters(component.parameters())?;
        self.sign(Sign::CloseBrace)
    }

    /// Writes the number of a context's default.
    fn default(&mut self, context: &Context) -> Result<(), AllocError>
        ensures { OnOk result (self.new ≡ self.old ++ default_tokens context.now.negative context.now.number) }
    {
        if context.is_negative() {
            self.sign(Sign::Minus)?;
        }
        self.token(Kind::Number(context.number()))
    }

    /// Writes the declaration of a context.
    fn context_declaration(&mut self, context: &Context) -> Result<(), AllocError>
        ensures { OnOk result (self.new ≡ self.old ++ declaration_tokens (of_context context.now)) }
    {
        self.word(Keyword::Const)?;
        self.upper(context.name())?;
        self.sign(Sign::Equals)?;
        self.opened(Keyword::CreateContext)?;
        self.default(context)?;
        self.closed_line()
    }

    /// Writes the declaration of a function.
    fn function(&mut self, function: &Function) -> Result<(), AllocError>
        ensures { OnOk result (self.new ≡ self.old ++ declaration_tokens (of_function function.now)) }
    {
        self.function_start(function.name())?;
        self.names(function.parameters())?;
        self.opened_body()?;
        self.lines(function.lines())?;
        self.answer(function.answer())
    }

    /// Writes the function of a component.
    fn component_function(&mut self, component: &Component) -> Result<(), AllocError>
        ensures { OnOk result (self.new ≡ self.old ++ component_form component.now) }
    {
        self.component_start(component.name())?;
        self.braced_parameters(component)?;
        self.opened_body()?;
        self.statements(component.statements())?;
        self.returned(component.body())
    }

    /// Writes the declaration of a component, by `memo` if it is declared so.
    fn component(&mut self, component: &Component) -> Result<(), AllocError>
        ensures { OnOk result (self.new ≡ self.old ++ declaration_tokens (of_component component.now)) }
    {
        if !component.is_memo() {
            return self.component_function(component);
        }
        self.word(Keyword::Const)?;
        self.upper(component.name())?;
        self.sign(Sign::Equals)?;
        self.opened(Keyword::Memo)?;
        self.component_function(component)?;
        self.closed_line()
    }

    /// Writes `)` and `{`.
    fn opened_body(&mut self) -> Result<(), AllocError>
        ensures { OnOk result (self.new ≡ self.old ++ Kind.Mark Sign.CloseParen ∷ Kind.Mark Sign.OpenBrace ∷ []) }
    {
        self.sign(Sign::CloseParen)?;
        self.sign(Sign::OpenBrace)
    }

    /// Writes `function name(`, the name of a function.
    fn function_start(&mut self, name: &Name) -> Result<(), AllocError>
        ensures { OnOk result (self.new ≡ self.old ++ Kind.Word Keyword.Function ∷ Kind.Lower name.now ∷ Kind.Mark Sign.OpenParen ∷ []) }
    {
        self.word(Keyword::Function)?;
        self.lower(name)?;
        self.sign(Sign::OpenParen)
    }

    /// Writes `function name(`, the name of a component.
    fn component_start(&mut self, name: &Name) -> Result<(), AllocError>
        ensures { OnOk result (self.new ≡ self.old ++ Kind.Word Keyword.Function ∷ Kind.Upper name.now ∷ Kind.Mark Sign.OpenParen ∷ []) }
    {
        self.word(Keyword::Function)?;
        self.upper(name)?;
        self.sign(Sign::OpenParen)
    }

    /// Writes what a function returns, and its end.
    fn answer(&mut self, answer: &Expr) -> Result<(), AllocError>
        ensures { OnOk result
            (self.new ≡ self.old ++ Kind.Word Keyword.Return ∷ (expr_tokens answer.now ++ Kind.Mark Sign.Semicolon ∷ Kind.Mark Sign.CloseBrace ∷ [])) }
    {
        self.word(Keyword::Return)?;
        self.expr(answer)?;
        self.sign(Sign::Semicolon)?;
        self.sign(Sign::CloseBrace)
    }

    /// Writes what a component returns, and its end.
    fn returned(&mut self, body: &Body) -> Result<(), AllocError>
        ensures { OnOk result
            (self.new ≡ self.old ++ Kind.Word Keyword.Return ∷ (body_tokens body.now ++ Kind.Mark Sign.Semicolon ∷ Kind.Mark Sign.CloseBrace ∷ [])) }
    {
        self.word(Keyword::Return)?;
        self.body(body)?;
        self.sign(Sign::Semicolon)?;
        self.sign(Sign::CloseBrace)
    }

    /// Writes a declaration.
    fn declaration(&mut self, declaration: &Declaration) -> Result<(), AllocError>
        ensures { OnOk result (self.new ≡ self.old ++ declaration_tokens declaration.now) }
    {
        match &declaration.kind {
            DeclarationKind::Context(context) => self.context_declaration(context),
            DeclarationKind::Function(function) => self.function(function),
            DeclarationKind::Component(component) => self.component(component),
        }
    }

    /// Writes what stands at the front of a program of this version.
    pub fn version(&mut self, second: bool) -> Result<(), AllocError>
        ensures { OnOk result (self.new ≡ self.old ++ version_tokens second) }
    {
        if !second {
            return Ok(());
        }
        self.content("use 2")?;
        self.sign(Sign::Semicolon)
    }

    /// Writes declarations in order.
    pub fn declarations(&mut self, declarations: &[Declaration]) -> Result<(), AllocError>
        ensures { OnOk result (self.new ≡ self.old ++ flat_map declaration_tokens declarations.now) }
    {
        for declaration in declarations {
            self.declaration(declaration)?;
        }
        Ok(())
    }
}
