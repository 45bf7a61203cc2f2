// How statements are written.
ghost use Rattle.std.specs.Prelude.{◌≡◌, [], ◌∷◌, ◌++◌, OnOk};
ghost use Rattle.std.specs.List.{flat_map};
ghost use Rattle.rx_ast.specs.Syntax.{context as context_from, use_resource, effect as effect_with};
ghost use Rattle.rx_print.specs.Printing.{expr_tokens, binding as bound, statement_tokens};

use crate::printer::Printer;
use rx_ast::{Expr, Statement, StatementKind};
use rx_base::Name;
use rx_lex::{Keyword, Kind, Sign};
use std::alloc::AllocError;

impl Printer {
    /// Writes `const [name, setter] =`.
    fn pair(&mut self, name: &Name, setter: &Name) -> Result<(), AllocError>
        ensures { OnOk result
            (self.new ≡ self.old ++ Kind.Word Keyword.Const ∷ Kind.Mark Sign.OpenBracket ∷ Kind.Lower name.now ∷ Kind.Mark Sign.Comma
            ∷ Kind.Lower setter.now ∷ Kind.Mark Sign.CloseBracket ∷ Kind.Mark Sign.Equals ∷ []) }
    {
        self.word(Keyword::Const)?;
        self.sign(Sign::OpenBracket)?;
        self.lower(name)?;
        self.sign(Sign::Comma)?;
        self.lower(setter)?;
        self.sign(Sign::CloseBracket)?;
        self.sign(Sign::Equals)
    }

    /// Writes `)` and `;`.
    pub fn closed_line(&mut self) -> Result<(), AllocError>
        ensures { OnOk result (self.new ≡ self.old ++ Kind.Mark Sign.CloseParen ∷ Kind.Mark Sign.Semicolon ∷ []) }
    {
        self.sign(Sign::CloseParen)?;
        self.sign(Sign::Semicolon)
    }

    /// Writes a word and `(`.
    pub fn opened(&mut self, word: Keyword) -> Result<(), AllocError>
        ensures { OnOk result (self.new ≡ self.old ++ Kind.Word word ∷ Kind.Mark Sign.OpenParen ∷ []) }
    {
        self.word(word)?;
        self.sign(Sign::OpenParen)
    }

    /// Writes the statement of a constant.
    pub fn constant(&mut self, name: &Name, value: &Expr) -> Result<(), AllocError>
        ensures { OnOk result (self.new ≡ self.old ++ bound (Kind.Lower name.now) (expr_tokens value.now)) }
    {
        self.word(Keyword::Const)?;
        self.lower(name)?;
        self.sign(Sign::Equals)?;
        self.expr(value)?;
        self.sign(Sign::Semicolon)
    }

    /// Writes the statement of an effect.
    fn effect(
        &mut self,
        layout: bool,
        label: &Name,
        dependencies: &[Expr],
    ) -> Result<(), AllocError>
        ensures { OnOk result (self.new ≡ self.old ++ statement_tokens (effect_with layout label.now dependencies.now)) }
    {
        let word = if layout {
            Keyword::UseLayoutEffect
        } else {
            Keyword::UseEffect
        };
        self.opened(word)?;
        self.text(label)?;
        self.sign(Sign::Comma)?;
        self.sign(Sign::OpenBracket)?;
        self.exprs(dependencies)?;
        self.sign(Sign::CloseBracket)?;
        self.closed_line()
    }

    /// Writes a statement.
    fn statement(&mut self, statement: &Statement) -> Result<(), AllocError>
        ensures { OnOk result (self.new ≡ self.old ++ statement_tokens statement.now) }
    {
        match &statement.kind {
            StatementKind::State {
                name,
                setter,
                initial,
            } => {
                self.pair(name, setter)?;
                self.opened(Keyword::UseState)?;
                self.expr(initial)?;
                self.closed_line()
            }
            StatementKind::Reducer {
                name,
                setter,
                function,
                initial,
            } => {
                self.pair(name, setter)?;
                self.opened(Keyword::UseReducer)?;
                self.lower(function)?;
                self.sign(Sign::Comma)?;
                self.expr(initial)?;
                self.closed_line()
            }
            StatementKind::Transition { name, starter } => {
                self.pair(name, starter)?;
                self.opened(Keyword::UseTransition)?;
                self.closed_line()
            }
            StatementKind::Context { name, source } => self.context(name, source),
            StatementKind::Resource { name, resource } => self.resource(name, resource),
            StatementKind::Constant { name, value } => self.constant(name, value),
            StatementKind::Effect {
                layout,
                label,
                dependencies,
            } => self.effect(*layout, label, dependencies),
            StatementKind::Throw { value } => {
                self.opened(Keyword::ThrowIf)?;
                self.expr(value)?;
                self.closed_line()
            }
        }
    }

    /// Writes the statement that reads a context.
    fn context(&mut self, name: &Name, source: &Name) -> Result<(), AllocError>
        ensures { OnOk result (self.new ≡ self.old ++ statement_tokens (context_from name.now source.now)) }
    {
        self.word(Keyword::Const)?;
        self.lower(name)?;
        self.sign(Sign::Equals)?;
        self.opened(Keyword::UseContext)?;
        self.upper(source)?;
        self.closed_line()
    }

    /// Writes the statement that reads a resource.
    fn resource(&mut self, name: &Name, resource: &Name) -> Result<(), AllocError>
        ensures { OnOk result (self.new ≡ self.old ++ statement_tokens (use_resource name.now resource.now)) }
    {
        self.word(Keyword::Const)?;
        self.lower(name)?;
        self.sign(Sign::Equals)?;
        self.opened(Keyword::Use)?;
        self.text(resource)?;
        self.closed_line()
    }

    /// Writes statements in order.
    pub fn statements(&mut self, statements: &[Statement]) -> Result<(), AllocError>
        ensures { OnOk result (self.new ≡ self.old ++ flat_map statement_tokens statements.now) }
    {
        for statement in statements {
            self.statement(statement)?;
        }
        Ok(())
    }
}
