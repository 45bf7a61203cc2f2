// A law of the verdicts.
ghost use Rattle.std.specs.Prelude.{◌≡◌, ℕ, List};
ghost use Rattle.rx_ast.specs.Syntax.{Program};
ghost use Rattle.rx_step.specs.declared.step.Step.{Step};
ghost use Rattle.rx_verify.specs.declared.verdict.Verdict.{Verdict as verdict};
ghost use Rattle.rx_verify.specs.Verdicts.{IsVerdict};

/// A report is judged in one way: it is that of a run, or there is one line that is the first one that no report has.
pub fn verdict_is_one()
    ensures { (p : Program) (steps : List Step) (bytes : List ℕ) (v w : verdict) → IsVerdict p steps bytes v → IsVerdict p steps bytes w → v ≡ w }
{}
