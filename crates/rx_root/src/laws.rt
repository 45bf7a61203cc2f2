// Laws of the steps that a root takes.
ghost use Rattle.std.specs.Prelude.{◌≡◌, ℕ, List, Some, Ok, slice_get};
ghost use Rattle.rx_ast.specs.Syntax.{Program};
ghost use Rattle.rx_script.specs.Lines.{steps_of};
ghost use Rattle.rx_step.specs.declared.step.Step.{Step};
ghost use Rattle.rx_kept.specs.Taking.{AllCanTake, CanTake};

/// A root can take each step of a script: all that it names is there, and its numbers are in their bounds.
pub fn steps_can_be_taken()
    ensures script { (p : Program) (bytes : List ℕ) (steps : List Step) → steps_of p bytes ≡ Ok steps → AllCanTake p steps }
    ensures each { (p : Program) (steps : List Step) → AllCanTake p steps → (k : ℕ) (x : Step) → slice_get steps k ≡ Some x → CanTake p x }
{}
