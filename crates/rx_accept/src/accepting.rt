// From the bytes of an input to what is accepted.
ghost use Rattle.std.specs.Prelude.{◌≡◌, ◌<◌, ◌^◌, length, IfOk};
ghost use Rattle.rx_accept.specs.Judgements.{AreJudged, IsJudged, Judgement, accepted_steps, judgement_of};

use crate::laws::judgement_is_one;
use crate::lines::{program_line, script_line};
use crate::program::read_program;
use crate::verdict::Verdict;
use rx_script::{read_script, split_input};
use std::alloc::{AllocError, Global};

/// The verdict on an input with these parts.
fn judge(alloc: Global, text: &[u8], script: &[u8]) -> Result<Verdict, AllocError>
    requires { length script.now < 2 ^ 32 }
    ensures judged { IfOk result (λ v. AreJudged (record { program = text.now; script = script.now }) (judgement_of v)) }
    ensures few { IfOk result (λ v. length (accepted_steps (judgement_of v)) < 2 ^ 32) }
{
    let checked = match read_program(alloc, text) {
        Ok(checked) => checked,
        Err(cause) => return Ok(Verdict::ProgramRefused(program_line(alloc, &cause)?)),
    };
    match read_script(alloc, &checked, script) {
        Ok(steps) => Ok(Verdict::Accepted { checked, steps }),
        Err(error) => Ok(Verdict::ScriptRefused(script_line(alloc, error)?)),
    }
}

/// What an input is, by the text of its program and its script.
///
/// The program is judged first: its bytes, its tokens, its grammar, and its checks in their order; then the lines of
/// the script.
///
/// # Errors
///
/// Only if out of memory.
pub fn accept_parts(alloc: Global, program: &[u8], script: &[u8]) -> Result<Verdict, AllocError>
    requires { length script.now < 2 ^ 32 }
    // The verdict is right,
    ensures judged { IfOk result (λ v. AreJudged (record { program = program.now; script = script.now }) (judgement_of v)) }
    // and no other one is.
    ensures only { IfOk result (λ v. (j : Judgement) → AreJudged (record { program = program.now; script = script.now }) j → j ≡ judgement_of v) }
    ensures few { IfOk result (λ v. length (accepted_steps (judgement_of v)) < 2 ^ 32) }
{
    judgement_is_one();
    judge(alloc, program, script)
}

/// What an input is: a program, a line `---`, and a script, or a program alone.
///
/// # Errors
///
/// Only if out of memory.
pub fn accept(alloc: Global, input: &[u8]) -> Result<Verdict, AllocError>
    requires { length input.now < 2 ^ 32 }
    // The verdict is right,
    ensures judged { IfOk result (λ v. IsJudged input.now (judgement_of v)) }
    // and no other one is.
    ensures only { IfOk result (λ v. (j : Judgement) → IsJudged input.now j → j ≡ judgement_of v) }
    ensures few { IfOk result (λ v. length (accepted_steps (judgement_of v)) < 2 ^ 32) }
{
    let (program, script) = split_input(input);
    accept_parts(alloc, program, script)
}
