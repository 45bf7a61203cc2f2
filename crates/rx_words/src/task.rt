// What the words ask for.

/// What the words ask for.
#[derive(Clone, Copy, Debug, PartialEq, Eq)]
pub enum Task {
    /// An input is read, and this is done with it.
    Read(Reading),
    /// The generated program is run with a script of so many rounds, from 1 to 1,000; nothing is read.
    Gen(u32),
}

/// What is done with an input.
#[derive(Clone, Copy, Debug, PartialEq, Eq)]
pub enum Reading {
    /// The script is run, and reported: with the units and bodies of each render if `counts`, and with the operations on the
    /// tree of hosts if `ops`.
    Run { counts: bool, ops: bool },
    /// Program and script are checked.
    Check,
    /// A report of a run, which stands behind program and script, is judged.
    Verify,
}
