// What a report is judged to be.

/// What a report is judged to be.
#[derive(Clone, Copy, Debug, PartialEq, Eq)]
pub enum Verdict {
    /// It is the report of a run.
    Yes,
    /// It is not. No report has this line behind those before it; the first line is 1.
    No { line: u64 },
}
