// How much of a journal a render sees.

/// The lengths of the lists of updates and of resolutions at a render's start: it sees nothing later.
#[derive(Clone, Copy, Debug, PartialEq, Eq)]
pub struct Cut {
    pub updates: u64,
    pub resolutions: u64,
}
