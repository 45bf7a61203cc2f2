// Laws of what is written.
ghost use Rattle.std.specs.Prelude.{◌≡◌, ◌≤◌, ◌∷◌, ◌++◌, [], ℕ, List, codes, length, true, false};
ghost use Rattle.rx_ast.specs.Syntax.{Program};
ghost use Rattle.rx_step.specs.declared.step.Step.{Step};
ghost use Rattle.rx_script.specs.Input.{front_of, input_of, report_of};
ghost use Rattle.rx_script.specs.Marks.{AreLines};
ghost use Rattle.rx_accept.specs.Judgements.{IsJudged, accepted};
ghost use Rattle.rx_words.specs.declared.task.Reading.TheVariants.{Run};
ghost use Rattle.rx_top.specs.declared.status.Status.TheVariants.{Done};
ghost use Rattle.rx_top.specs.Outcome.{IsDue, IsSummary, IsWork, limit};

use run_laws::unsliced_runs_end_alike;
use rx_accept::laws::judgement_is_one;
use rx_gen::generated_input_is_accepted;
use rx_script::laws::a_mark_parts_an_input;

/// A generated run is summed up by one line for each number of rounds, whatever its renders count.
pub fn summary_is_one()
    ensures { (rounds : ℕ) (text other : List ℕ) (bodies more : ℕ) → IsSummary rounds text bodies → IsSummary rounds other more → text ≡ other }
{
    generated_input_is_accepted();
    judgement_is_one();
    unsliced_runs_end_alike();
}

/// What `run --counts` writes when its work is done is accepted by `verify`, behind the same program and script, if all that is not
/// too long: the work is done.
pub fn what_is_reported_is_verified()
    ensures parts { (input whole : List ℕ) (p : Program) (steps : List Step) (text : List ℕ) (bodies : ℕ) → IsJudged input (accepted p steps)
        → IsWork (Run true false) Done p steps [] text bodies → front_of whole ≡ input_of input → report_of whole ≡ text → length whole ≤ limit
        → IsDue (codes "verify" ∷ []) whole Done }
    // So it is where program and script are whole lines, none of which is exactly `---`, and a line `---` stands behind each.
    ensures joined { (program script report : List ℕ) (p : Program) (steps : List Step) (bodies : ℕ) → AreLines program → AreLines script
        → IsJudged (program ++ codes "---\n" ++ script) (accepted p steps) → IsWork (Run true false) Done p steps [] report bodies
        → length (program ++ codes "---\n" ++ script ++ codes "---\n" ++ report) ≤ limit
        → IsDue (codes "verify" ∷ []) (program ++ codes "---\n" ++ script ++ codes "---\n" ++ report) Done }
{
    a_mark_parts_an_input();
}
