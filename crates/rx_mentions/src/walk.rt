// The mentions of a program, in the order of its text.
ghost use Rattle.std.specs.Prelude.{◌≡◌, List, [], ◌∷◌, ◌++◌, OnOk, length};
ghost use Rattle.rx_ast.specs.Syntax.{exprs, exprs_of};
ghost use Rattle.rx_ast.specs.ExprView.{links_of};
ghost use Rattle.rx_mentions.specs.Mention as mention;
ghost use Rattle.rx_mentions.specs.MentionView.{mention_of};
ghost use Rattle.rx_mentions.specs.Mentions.{introduced, opened, variable_mentions, expr_mentions, links_mentions, exprs_mentions};

use crate::count::Count;
use crate::mention::{Mention, MentionKind};
use crate::scope::Scope;
use rx_ast::{Expr, ExprKind, Link};
use rx_base::Name;
use rx_names::BorrowedNames;
use std::alloc::{AllocError, Global};
use std::marker::Model;

/// The mentions so far. They borrow the program.
#[derive(Drop)]
pub struct Walk<'a> {
    pub(crate) alloc: Global,
    mentions: Vec<Mention<'a>>,
}

impl<'a> Model for Walk<'a> {
    ghost use Rattle.std.specs.Prelude.{List};
    ghost use Rattle.rx_mentions.specs.Mention as plain;

    ghost Value = { List plain.Mention };

    ghost view = { λ w. w.mentions.items };
}

impl<'a> Walk<'a> {
    /// No mention yet.
    pub fn new(alloc: Global) -> Walk<'a>
        ensures { result ≡ [] }
    {
        Walk {
            alloc,
            mentions: Vec::new(alloc),
        }
    }

    /// The mentions in order.
    pub fn mentions(&self) -> &[Mention<'a>]
        ensures { result.now ≡ self.now }
    {
        &self.mentions
    }

    /// Notes a mention.
    pub fn note(&mut self, kind: MentionKind<'a>) -> Result<(), AllocError>
        ensures { OnOk result (self.new ≡ self.old ++ mention_of kind.entry ∷ []) }
    {
        self.mentions.push(Mention { kind })?;
        Ok(())
    }

    /// Notes a name that is introduced when these stand already.
    pub fn introduced(&mut self, taken: &BorrowedNames, name: &'a str) -> Result<(), AllocError>
        ensures { OnOk result (self.new ≡ self.old ++ introduced taken.now name.now ∷ []) }
    {
        let again = taken.contains(name);
        self.note(MentionKind::Introduced { again, name })
    }

    /// Notes a name that is introduced in a body.
    pub fn opened(&mut self, scope: &Scope, name: &'a str) -> Result<(), AllocError>
        ensures { OnOk result (self.new ≡ self.old ++ opened scope.now name.now ∷ []) }
    {
        let again = scope.contains(name);
        self.note(MentionKind::Introduced { again, name })
    }

    /// Notes a count.
    pub fn counted(&mut self, what: Count, found: usize) -> Result<(), AllocError>
        ensures { OnOk result (self.new ≡ self.old ++ mention.Counted what found ∷ []) }
    {
        let found = found as u64;
        self.note(MentionKind::Counted { what, found })
    }

    /// Notes a text.
    pub fn quoted(&mut self, text: &'a Name) -> Result<(), AllocError>
        ensures { OnOk result (self.new ≡ self.old ++ mention.Quoted (length text.now) ∷ []) }
    {
        self.note(MentionKind::Quoted(text.text().len()))
    }

    /// Notes a variable, unless its name stands for a value.
    fn variable(&mut self, scope: &BorrowedNames, name: &'a Name) -> Result<(), AllocError>
        ensures { OnOk result (self.new ≡ self.old ++ variable_mentions scope.now name.now) }
    {
        if scope.contains(name.text()) {
            Ok(())
        } else {
            self.note(MentionKind::Unknown(name))
        }
    }

    /// Notes a call with so many arguments.
    fn call(&mut self, function: &'a Name, arguments: usize) -> Result<(), AllocError>
        ensures { OnOk result (self.new ≡ self.old ++ mention.Call function.now arguments ∷ []) }
    {
        self.note(MentionKind::Call {
            function,
            arguments,
        })
    }

    /// Notes a call with these arguments.
    fn call_of(&mut self, function: &'a Name, arguments: &'a [Expr]) -> Result<(), AllocError>
        ensures { OnOk result (self.new ≡ self.old ++ mention.Call function.now (length (exprs (exprs_of arguments.now))) ∷ []) }
    {
        self.call(function, arguments.len())
    }

    /// Notes what an expression mentions, if these names stand for values.
    #[cycle(expr)]
    pub fn expr(&mut self, scope: &BorrowedNames, expr: &'a Expr) -> Result<(), AllocError>
        ensures { OnOk result (self.new ≡ self.old ++ expr_mentions scope.now expr.now) }
    {
        match &expr.kind {
            ExprKind::Number(_) => Ok(()),
            ExprKind::Variable(name) => self.variable(scope, name),
            ExprKind::Group(inner) => self.expr(scope, inner),
            ExprKind::Prefixed { operand, .. } => self.expr(scope, operand),
            ExprKind::Chain { first, links } => {
                self.expr(scope, first)?;
                self.links(scope, links)
            }
            ExprKind::Choice {
                test,
                first,
                second,
            } => {
                self.expr(scope, test)?;
                self.expr(scope, first)?;
                self.expr(scope, second)
            }
            ExprKind::Call(call) => {
                self.call_of(&call.function, &call.arguments)?;
                self.exprs(scope, &call.arguments)
            }
        }
    }

    /// Notes what the operands of a chain behind its first mention.
    #[cycle(expr)]
    fn links(&mut self, scope: &BorrowedNames, links: &'a [Link]) -> Result<(), AllocError>
        ensures { OnOk result (self.new ≡ self.old ++ links_mentions scope.now (links_of links.now)) }
    {
        for link in links {
            self.expr(scope, &link.operand)?;
        }
        Ok(())
    }

    /// Notes what expressions mention.
    #[cycle(expr)]
    fn exprs(&mut self, scope: &BorrowedNames, exprs: &'a [Expr]) -> Result<(), AllocError>
        ensures { OnOk result (self.new ≡ self.old ++ exprs_mentions scope.now (exprs_of exprs.now)) }
    {
        for expr in exprs {
            self.expr(scope, expr)?;
        }
        Ok(())
    }
}
