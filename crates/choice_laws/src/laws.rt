// Laws of choices.
ghost use Rattle.std.specs.Prelude.{◌≡◌, ℕ, ◌+◌, ◌<◌, ◌≤◌, Option, IfSome};
ghost use Rattle.rx_ast.specs.Syntax.{Program};
ghost use Rattle.rx_elem.specs.Trees.{Node};
ghost use Rattle.rx_lines.specs.Lines.{Counts};
ghost use Rattle.rx_model.specs.Kept.{CanGoOn};
ghost use Rattle.rx_model.specs.State.{Progress, State, end_line};
ghost use Rattle.rx_model.specs.Turns.{choice_of, unit_bound};
ghost use Rattle.choice_laws.specs.Choosing.{BodiesAreFree, BodiesAreFreeFromStart, Fit, FreeTurnsAreTaken, IsAmong, StepsAreAlike, TurnsAreFree};
ghost use Rattle.choice_laws.specs.Telling.{CountsComeLast, FinishesTell, NextLineDecides, SaysThatItIsFinished};

/// If a sliced turn yields, no run that goes on from there writes next what a finish of that turn might have written first:
/// that a render with these lanes is committed or deferred, with no more units than it has used up by then. For before that
/// line no other render with these lanes starts, and this one is finished with more units.
pub fn no_other_choice_fits()
    ensures { (p : Program) → NextLineDecides p }
{}

/// The end of a render writes first that it is finished, with its lanes and its counts, and from the bytes of that line these
/// can be told.
pub fn finishes_tell()
    ensures first { (s : State) (g : Progress) (counts : Counts) (tree : Node) → SaysThatItIsFinished s g counts tree }
    ensures told { FinishesTell }
    ensures last { CountsComeLast }
{}

/// What a turn may do does not hang on how many bodies its render has evaluated before: each turn does what may be done, and
/// all of that is done by some turn, after the right number of bodies.
pub fn turns_but_for_bodies()
    ensures free { (p : Program) → TurnsAreFree p }
    ensures taken { (p : Program) → FreeTurnsAreTaken p }
{}

/// A state that can go on is among those that are the same but for the bodies of the render in progress. Two of these choose
/// the same and close a report with the same line, and a step that does not render does the same from both.
pub fn same_but_for_bodies()
    ensures itself { (p : Program) (s : State) → CanGoOn p s → IsAmong s s }
    ensures choice { (s t : State) → IsAmong s t → choice_of t ≡ choice_of s }
    ensures end { (s t : State) → IsAmong s t → end_line t ≡ end_line s }
    ensures steps { (p : Program) → StepsAreAlike p }
{}

/// How many bodies a render in progress has evaluated can be chosen freely at the end of a run, up to the units that it has
/// used: there is a run with the same lines that ends so.
pub fn any_bodies_fit()
    ensures anywhere { (p : Program) → BodiesAreFree p }
    ensures start { (p : Program) → BodiesAreFreeFromStart p }
{}

/// A render that must be finished in a turn can be: one more unit fits, and no body.
pub fn some_counts_fit()
    ensures { (p : Program) (g : Progress) (slice : Option ℕ) → g.units < unit_bound p → IfSome slice (λ n. unit_bound p ≤ g.units + n)
        → Fit p g slice (record { units = g.units + 1; bodies = 0 }) }
{}
