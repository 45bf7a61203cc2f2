// How a task is spelled.
ghost use Rattle.std.specs.Prelude.{◌≡◌};
ghost use Rattle.rx_words.specs.Words.{spells, spells_both, spells_option, spells_options, spells_rounds, texts};

use crate::rounds::rounds_of;
use crate::task::{Reading, Task};

/// Whether two words are both options of `run`, in either order.
fn are_both(one: &str, two: &str) -> bool
    ensures { result ≡ spells_both one.now two.now }
{
    one == "--counts" && two == "--ops" || one == "--ops" && two == "--counts"
}

/// Whether a word is the one of these options that there is.
fn is_option(counts: bool, ops: bool, word: &str) -> bool
    ensures { result ≡ spells_option counts ops word.now }
{
    match (counts, ops) {
        (true, false) => word == "--counts",
        (false, true) => word == "--ops",
        _ => false,
    }
}

/// Whether the words are these options of `run`, each once, in either order.
fn are_options(counts: bool, ops: bool, words: &[&str]) -> bool
    ensures { result ≡ spells_options counts ops (texts words.now) }
{
    match words {
        [] => !counts && !ops,
        [one] => is_option(counts, ops, one),
        [one, two] => counts && ops && are_both(one, two),
        _ => false,
    }
}

/// Whether these words, and no others, ask for the task.
pub(crate) fn is_spelling(task: Task, words: &[&str]) -> bool
    ensures { result ≡ spells task (texts words.now) }
{
    match words {
        [] => false,
        [command, rest @ ..] => match task {
            Task::Read(Reading::Run { counts, ops }) => {
                *command == "run" && are_options(counts, ops, rest)
            }
            Task::Read(Reading::Check) => *command == "check" && rest.is_empty(),
            Task::Read(Reading::Verify) => *command == "verify" && rest.is_empty(),
            Task::Gen(rounds) => *command == "gen" && is_number(rounds, rest),
        },
    }
}

/// Whether the words are this number of rounds alone.
fn is_number(rounds: u32, words: &[&str]) -> bool
    ensures { result ≡ spells_rounds rounds (texts words.now) }
{
    match words {
        [word] => rounds_of(word) == Some(rounds),
        _ => false,
    }
}
