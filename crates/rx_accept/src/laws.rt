//! A law of the definitions. Its contract is the law.

ghost use Rattle.std.specs.Prelude.{◌≡◌, ℕ, List};
ghost use Rattle.rx_accept.specs.Judgements.{AreJudged, IsJudged, Judgement};
ghost use Rattle.rx_script.specs.Input.{Input};

use rx_grammar::laws::tokens_have_one_program;
use rx_lex::laws::{tokens_are_one_list, uncovered_place_is_one};

/// An input is one thing: accepted with one program and one list of steps, or its program is refused with one line, or
/// its script is refused with one line.
pub fn judgement_is_one()
    ensures whole { (input : List ℕ) (j k : Judgement) → IsJudged input j → IsJudged input k → j ≡ k }
    ensures parts { (parts : Input) (j k : Judgement) → AreJudged parts j → AreJudged parts k → j ≡ k }
{
    tokens_are_one_list();
    uncovered_place_is_one();
    tokens_have_one_program();
}
