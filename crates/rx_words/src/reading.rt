// Reading the words: clap first, and then the words must be the spelling of what it found.
ghost use Rattle.std.specs.Prelude.{◌≡◌, false, option_map, IfOk, IfSome};
ghost use Rattle.clap.specs.Words.{app_of, rule_of};
ghost use Rattle.rx_words.specs.Words.{spelled, task_of, texts, HasRounds};
ghost use Rattle.rx_words.specs.CommandLine.{command_line as command_line_of, flag_rule, task_found as task_of_found};

use crate::rounds::rounds_of;
use crate::spelling::is_spelling;
use crate::task::{Reading, Task};
use clap::error::ErrorKind;
use clap::{Arg, ArgAction, Command};
use std::alloc::{AllocError, Global};

/// A flag by its long name.
fn flag<'a>(alloc: Global, name: &'a str) -> Arg<'a>
    ensures rule { rule_of result ≡ flag_rule name.entry.now }
    ensures local { result.global ≡ false }
{
    Arg::new(alloc, name).long(name).action(ArgAction::SetTrue)
}

/// The command line: a command, a number of rounds, and two flags, without help or version.
fn command_line<'a>(alloc: Global) -> Result<Command<'a>, AllocError>
    ensures { IfOk result (λ c. app_of c ≡ command_line_of) }
{
    Command::new(alloc, "fiber_run")
        .no_binary_name(true)
        .disable_help_flag(true)
        .arg(Arg::new(alloc, "command"))?
        .arg(Arg::new(alloc, "rounds"))?
        .arg(flag(alloc, "counts"))?
        .arg(flag(alloc, "ops"))
}

/// The task that the command line found.
fn task_found(command: Option<&str>, rounds: Option<&str>, counts: bool, ops: bool) -> Option<Task>
    ensures { result ≡ task_of_found (option_map (λ s. s.now) command.entry) (option_map (λ s. s.now) rounds.entry) counts ops }
{
    let command = command?;
    if command == "run" {
        Some(Task::Read(Reading::Run { counts, ops }))
    } else if command == "check" {
        Some(Task::Read(Reading::Check))
    } else if command == "verify" {
        Some(Task::Read(Reading::Verify))
    } else if command == "gen" {
        Some(Task::Gen(rounds_of(rounds?)?))
    } else {
        None
    }
}

/// The task, if these words are its spelling.
fn if_spelled(task: Option<Task>, words: &[&str]) -> Option<Task>
    ensures { result ≡ spelled task (texts words.now) }
{
    let task = task?;
    if is_spelling(task, words) {
        Some(task)
    } else {
        None
    }
}

/// What the words ask for, if they are valid. What the command line takes beyond the spelling of a task, as with a word
/// `--`, is not valid.
///
/// # Errors
///
/// Only if out of memory.
pub fn read_words<'a>(alloc: Global, words: &'a [&'a str]) -> Result<Option<Task>, AllocError>
    ensures task { IfOk result (λ task. task ≡ task_of (texts words.now)) }
    ensures rounds { IfOk result (λ task. IfSome task HasRounds) }
{
    match command_line(alloc)?.try_get_matches_from(words) {
        Ok(matches) => {
            let found = task_found(
                matches.get_str("command"),
                matches.get_str("rounds"),
                matches.get_flag("counts"),
                matches.get_flag("ops"),
            );
            Ok(if_spelled(found, words))
        }
        Err(error) if error.kind() == ErrorKind::OutOfMemory => Err(AllocError),
        Err(_) => Ok(None),
    }
}
