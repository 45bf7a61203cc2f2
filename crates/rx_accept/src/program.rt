// From the text of a program to a program that meets every check.
ghost use Rattle.std.specs.Prelude.{◌≡◌, ◌⊎◌, MatchResult};
ghost use Rattle.rx_accept.specs.Programs.{IsCause, IsSoundText};

use crate::cause::Cause;
use rx_check::{Checked, Refusal, check};
use rx_lex::{LexError, lex};
use rx_parse::{ParseError, parse};
use std::alloc::Global;
use std::str;

/// The program of a text, if it meets every check.
///
/// # Errors
///
/// Exactly if the text is refused, the first cause: bytes that are not UTF-8, a place that no token covers, a token
/// with which no program goes on, a check that is not met; or that it is out of memory.
pub(crate) fn read_program(alloc: Global, text: &[u8]) -> Result<Checked, Cause>
    ensures { MatchResult result (λ p. IsSoundText p text.now) (λ e. (e ≡ Cause.OutOfMemory) ⊎ IsCause text.now e) }
{
    let text = match str::from_utf8(text) {
        Ok(text) => text,
        Err(error) => {
            return Err(Cause::NotUtf8 {
                at: error.valid_up_to(),
            });
        }
    };
    let tokens = match lex(alloc, text) {
        Ok(tokens) => tokens,
        Err(LexError::Lex { at }) => return Err(Cause::NoToken { at }),
        Err(LexError::OutOfMemory) => return Err(Cause::OutOfMemory),
    };
    let program = match parse(alloc, &tokens) {
        Ok(program) => program,
        Err(ParseError::Syntax { at }) => return Err(Cause::NoProgram { at }),
        Err(ParseError::OutOfMemory) => return Err(Cause::OutOfMemory),
    };
    drop(tokens);
    match check(alloc, program) {
        Ok(checked) => Ok(checked),
        Err(Refusal::OutOfMemory) => Err(Cause::OutOfMemory),
        Err(refusal) => Err(Cause::Unmet(refusal)),
    }
}
