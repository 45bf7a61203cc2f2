// Laws of the machine's commits.
ghost use Rattle.rx_ast.specs.Syntax.{Program};
ghost use Rattle.replay_laws.specs.Committed.{RendersCommit, ReplayLaw, MadeLaw};

/// Each tree that a program renders against what its commits left is related to it as a commit relates them, once it has
/// its numbers: hosts have numbers of their own, those that are reused keep theirs, and what is gone is gone with all
/// below it. No text in it has children.
pub fn each_render_is_a_commit()
    ensures { (p : Program) → RendersCommit p }
{}

/// In each state that can be reached, the operations of a commit, replayed on the tree of hosts, give the new one.
pub fn replay()
    ensures { (p : Program) → ReplayLaw p }
{}

/// In each state that can be reached, each operation of a commit can be made in its turn.
pub fn operations_are_made()
    ensures { (p : Program) → MadeLaw p }
{}
