//! How a program is written: the tokens of its tree, and which trees the grammar has.
#![tactic(auto)]

mod declarations;
mod expressions;
mod printer;
mod slots;
mod statements;

ghost use Rattle.std.specs.Prelude.{◌≡◌, ℕ, [], ◌∷◌, ◌++◌, take, IfOk};
ghost use Rattle.rx_print.specs.Printing.{program_tokens};
ghost use Rattle.rx_print.specs.Levels.{IsGrammatical, HasTokens, BeginsProgram};

use crate::printer::Printer;
use rx_ast::Program;
use rx_lex::Kind;
use std::alloc::{AllocError, Global};

/// The tokens of a program in order, without the mark of the end.
///
/// # Errors
///
/// Only if out of memory.
pub fn tokens(alloc: Global, program: &Program) -> Result<Vec<Kind>, AllocError>
    ensures written { IfOk result (λ v. v.items ≡ program_tokens program.now) }

    // With the mark of the end they are the tokens that the program has, and each part from their front begins a program.
    ensures had { IfOk result (λ v. IsGrammatical program.now → HasTokens program.now (v.items ++ Kind.End ∷ [])) }
    ensures begun { IfOk result (λ v. IsGrammatical program.now → (n : ℕ) → BeginsProgram (take n v.items)) }
{
    let mut printer = Printer::new(alloc);
    printer.version(program.is_second())?;
    printer.declarations(program.declarations())?;
    Ok(printer.into_kinds())
}
