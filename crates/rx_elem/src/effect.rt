// What an instance leaves behind when its body is evaluated.
use rx_base::{Int, Ints, Str};

/// An effect of an instance: whether it is a layout effect, its label, and the values of its dependencies (react.dev,
/// useEffect and useLayoutEffect).
#[derive(Drop, Debug)]
pub struct EffectRecord {
    pub layout: bool,
    pub label: Str,
    pub values: Ints,
}

/// A context that an instance read, by its number in the order of the text, and the value that it found (react.dev,
/// useContext).
#[derive(Clone, Copy, Debug, PartialEq, Eq)]
pub struct ContextRead {
    pub context: u32,
    pub value: Int,
}

/// A resource that an instance read, by its number in the order of the text, and the version in which it found it (react.dev,
/// use).
#[derive(Clone, Copy, Debug, PartialEq, Eq)]
pub struct VersionRead {
    pub resource: u32,
    pub version: u64,
}
