// What an input is found to be.
use rx_check::Checked;
use rx_step::Step;

/// What an input is found to be.
#[derive(Drop)]
pub enum Verdict {
    /// Its program meets every check, and each line of its script is a step, a comment, or without words.
    Accepted { checked: Checked, steps: Vec<Step> },
    /// Its program is refused: the line that says why, with its line feed.
    ProgramRefused(Vec<u8>),
    /// Its program meets every check, and a line of its script is bad: the line that says which and why, with its line feed.
    ScriptRefused(Vec<u8>),
}
