// Laws of the generated input.
ghost use Rattle.std.specs.Prelude.{ℕ};
ghost use Rattle.rx_accept.specs.Judgements.{IsJudged, accepted};
ghost use Rattle.run_laws.specs.Unsliced.{AreUnsliced};
ghost use Rattle.rx_gen.specs.Meant.{generated_input, generated_program, generated_steps};

/// The generated input is accepted, with one program for all numbers of rounds, and with the steps of its rounds, none of which
/// gives a slice of work.
pub fn generated_input_is_accepted()
    ensures judged { (rounds : ℕ) → IsJudged (generated_input rounds) (accepted generated_program (generated_steps rounds)) }
    ensures unsliced { (rounds : ℕ) → AreUnsliced (generated_steps rounds) }
{}
