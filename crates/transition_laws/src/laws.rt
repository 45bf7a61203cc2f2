// The laws of the flags of transitions.
ghost use Rattle.rx_ast.specs.Syntax.{Program};
ghost use Rattle.transition_laws.specs.Laws.{FlagLaw, KeptFlags};

/// In each state that a program's script comes to, and after each commit within a step: a flag of a visible instance is 0
/// exactly if all updates of all its started transitions are done, owed, or of an instance that is gone; and so that it
/// stays so, no later transition unsets a flag before an earlier one is settled (react.dev, useTransition).
pub fn flags_show_what_is_pending()
    ensures kept { (p : Program) → KeptFlags p }
    ensures law { (p : Program) → FlagLaw p }
{}
