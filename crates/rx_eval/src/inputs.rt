// What a body is evaluated from.
use rx_base::Int;
use rx_elem::Element;

/// What a component's body is evaluated from (react.dev, Passing Props to a Component; State as a Snapshot).
#[derive(Drop)]
pub struct Inputs<'a> {
    /// Its integer props, in the order of the component's parameters.
    pub props: &'a [Int],
    /// The children that it is given.
    pub children: &'a [Element],
    /// The states of its hooks in the order of its statements; none at mount.
    pub hooks: Option<&'a [Int]>,
    /// The value of each context at its place, by the contexts' numbers.
    pub contexts: &'a [Int],
    /// The version of each resource, by the resources' numbers.
    pub versions: &'a [u64],
    /// The value of each resource in its version, if that has one.
    pub resources: &'a [Option<Int>],
}
