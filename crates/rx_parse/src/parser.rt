// From tokens to a program.
ghost use Rattle.std.specs.Prelude.{◌≡◌, IfOk, IfErr, MatchResult};
ghost use Rattle.rx_lex.specs.Tokens.{kinds};
ghost use Rattle.rx_lex.specs.Spans.{kinds_of, tokens_of};
ghost use Rattle.rx_ast.specs.Syntax.{Program};
ghost use Rattle.rx_print.specs.Levels.{HasTokens};
ghost use Rattle.rx_grammar.specs.Reading.{program_at, version_at};
ghost use Rattle.rx_expression.specs.Results.{Gives};
ghost use Rattle.rx_parse.specs.Faults.{IsEnded, IsFault};

use crate::declarations::declarations;
use crate::error::ParseError;
use rx_ast::Program;
use rx_expression::beside::closed;
use rx_expression::fault::Fault;
use rx_expression::steps::{expect, expect_content, expect_end, next_is_content};
use rx_lex::{Rest, Sign, Tokens};
use std::alloc::Global;

/// How many levels may be open at one place.
const LEVELS: usize = 64;

/// Whether a program is of version 2, which it says at its front, and what follows there.
fn version(rest: Rest<'_>) -> Result<(bool, Rest<'_>), Fault>
    ensures { Gives (λ x. (x.0, kinds_of x.1)) result (version_at (kinds_of rest.entry)) }
{
    if !next_is_content(rest, "use 2") {
        return Ok((false, rest));
    }
    let rest = expect_content(rest, "use 2")?;
    let rest = expect(rest, Sign::Semicolon)?;
    Ok((true, rest))
}

/// A program, and the end mark behind it.
#[tactic(auto, unfolding(rx_grammar::specs::Reading::program_at))]
fn program<'a>(alloc: Global, tokens: Rest<'a>, level: usize) -> Result<(Program, Rest<'a>), Fault>
    ensures { Gives (λ x. (x.0, kinds_of x.1)) result (program_at level (kinds_of tokens.entry)) }
{
    let (second, rest) = version(tokens)?;
    let (declarations, rest) = declarations(alloc, rest, level)?;
    let (declarations, rest) = closed(declarations, expect_end(rest))?;
    Ok((Program::new(second, declarations), rest))
}

/// The program that has these tokens, which end with the one end mark.
///
/// # Errors
///
/// `Syntax` exactly if no program has the tokens, with the place of the first up to and with which none begins; or out of memory.
pub fn parse(alloc: Global, tokens: &Tokens<'_>) -> Result<Program, ParseError>
    requires { IsEnded (tokens_of tokens.now) }
    // The program that is answered has the tokens.
    ensures found { IfOk result (λ p. HasTokens p (kinds (tokens_of tokens.now))) }
    // No other has them, and if one does, it is answered, unless memory runs out.
    ensures only { (p : Program) → HasTokens p (kinds (tokens_of tokens.now)) → MatchResult result (λ q. q ≡ p) (λ e. e ≡ ParseError.OutOfMemory) }
    // The place is that of the first token with which no program goes on.
    ensures fault { IfErr result (λ e. IsFault e (tokens_of tokens.now)) }
{
    let rest = tokens.rest();
    match program(alloc, rest, LEVELS) {
        Ok((found, _)) => Ok(found),
        Err(Fault::Syntax(left)) => Err(ParseError::Syntax {
            at: tokens.place(rest.len() - left),
        }),
        Err(Fault::OutOfMemory) => Err(ParseError::OutOfMemory),
    }
}
