// What is accepted for a hook.
use rx_base::Int;
use rx_lane::Lane;

/// What an update does: it sets its hook's state (`useState`), or calls a function of the program, by its number, with the
/// state and an argument (`useReducer`), or it asks for another version of a resource, which no hook is sent.
#[derive(Clone, Copy, Debug, PartialEq, Eq)]
pub enum Op {
    Set(Int),
    Call(u32, Int),
    Refresh,
}

/// An accepted update: its number in the journal, what it does, and its lane.
#[derive(Clone, Copy, Debug, PartialEq, Eq)]
pub struct Update {
    pub number: u64,
    pub op: Op,
    pub lane: Lane,
}
