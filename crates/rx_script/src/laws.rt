// Laws of the definitions.
ghost use Rattle.std.specs.Prelude.{◌≡◌, ◌<◌, ◌^◌, ◌++◌, ℕ, List, Some, codes, decimal};
ghost use Rattle.rx_base.specs.Values.{Text};
ghost use Rattle.rx_script.specs.Input.{input_of};
ghost use Rattle.rx_script.specs.Marks.{AreLines};
ghost use Rattle.rx_script.specs.Words.{natural_of};

/// Each number without a sign has one spelling, its decimal text.
pub fn one_spelling()
    ensures { (w : Text) (n : ℕ) → natural_of w ≡ Some n → n < 2 ^ 64 → decimal n ≡ w }
{}

/// Behind whole lines of which none is exactly `---`, a line `---` parts an input.
pub fn a_mark_parts_an_input()
    ensures { (front rest : List ℕ) → AreLines front → input_of (front ++ codes "---\n" ++ rest) ≡ record { program = front; script = rest } }
{}
