// How expressions are written.
ghost use Rattle.std.specs.Prelude.{◌≡◌, ◌++◌, OnOk};
ghost use Rattle.rx_ast.specs.Syntax.{exprs_of};
ghost use Rattle.rx_ast.specs.ExprView.{links_of};
ghost use Rattle.rx_print.specs.Printing.{prefix_sign, operator_sign, expr_tokens, links_tokens, exprs_tokens};

use crate::printer::Printer;
use rx_ast::{Expr, ExprKind, Link, Operator, Prefix};
use rx_lex::{Kind, Sign};
use std::alloc::AllocError;

/// The sign of an operator before an operand.
fn prefix_sign_of(operator: Prefix) -> Sign
    ensures { result ≡ prefix_sign operator }
{
    match operator {
        Prefix::Not => Sign::Not,
        Prefix::Negative => Sign::Minus,
    }
}

/// The sign of an operator between two operands.
fn operator_sign_of(operator: Operator) -> Sign
    ensures { result ≡ operator_sign operator }
{
    match operator {
        Operator::Or => Sign::Or,
        Operator::And => Sign::And,
        Operator::Equal => Sign::Same,
        Operator::NotEqual => Sign::NotSame,
        Operator::Less => Sign::Less,
        Operator::LessOrEqual => Sign::LessEqual,
        Operator::Greater => Sign::Greater,
        Operator::GreaterOrEqual => Sign::GreaterEqual,
        Operator::Add => Sign::Plus,
        Operator::Subtract => Sign::Minus,
        Operator::Multiply => Sign::Star,
        Operator::Divide => Sign::Slash,
        Operator::Remainder => Sign::Percent,
    }
}

impl Printer {
    /// Writes an expression.
    #[cycle(expr)]
    pub fn expr(&mut self, expr: &Expr) -> Result<(), AllocError>
        ensures { OnOk result (self.new ≡ self.old ++ expr_tokens expr.now) }
    {
        match &expr.kind {
            ExprKind::Number(value) => self.token(Kind::Number(*value)),
            ExprKind::Variable(name) => self.lower(name),
            ExprKind::Group(inner) => {
                self.sign(Sign::OpenParen)?;
                self.expr(inner)?;
                self.sign(Sign::CloseParen)
            }
            ExprKind::Prefixed { operator, operand } => {
                self.sign(prefix_sign_of(*operator))?;
                self.expr(operand)
            }
            ExprKind::Chain { first, links } => {
                self.expr(first)?;
                self.links(links)
            }
            ExprKind::Choice {
                test,
                first,
                second,
            } => {
                self.expr(test)?;
                self.sign(Sign::Question)?;
                self.expr(first)?;
                self.sign(Sign::Colon)?;
                self.expr(second)
            }
            ExprKind::Call(call) => {
                self.lower(&call.function)?;
                self.sign(Sign::OpenParen)?;
                self.exprs(&call.arguments)?;
                self.sign(Sign::CloseParen)
            }
        }
    }

    /// Writes the operands of a chain behind its first, each with the operator before it.
    #[cycle(expr)]
    fn links(&mut self, links: &[Link]) -> Result<(), AllocError>
        ensures { OnOk result (self.new ≡ self.old ++ links_tokens (links_of links.now)) }
    {
        for link in links {
            self.sign(operator_sign_of(link.operator))?;
            self.expr(&link.operand)?;
        }
        Ok(())
    }

    /// Writes expressions with a comma between each two.
    #[cycle(expr)]
    pub fn exprs(&mut self, exprs: &[Expr]) -> Result<(), AllocError>
        ensures { OnOk result (self.new ≡ self.old ++ exprs_tokens (exprs_of exprs.now)) }
    {
        let [first, others @ ..] = exprs else {
            return Ok(());
        };
        self.expr(first)?;
        for expr in others {
            self.sign(Sign::Comma)?;
            self.expr(expr)?;
        }
        Ok(())
    }
}
