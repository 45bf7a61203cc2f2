// What a render sees.
use rx_base::{Cut, Int};
use rx_check::Checked;
use rx_lane::Lanes;
use rx_ways::Ways;

/// What a render sees (react.dev, State as a Snapshot): the program; the versions of the resources by their numbers, with the
/// values of those that were resolved before it began, whether some resource has another version than the last commit showed, and
/// whether a body may throw now for a resource that has got its value since;
/// the lanes that it includes; how far it sees the updates; and the instances below which, or at which, there may be a cause to
/// render.
#[derive(Clone, Copy)]
pub struct Scene<'a> {
    pub checked: &'a Checked,
    pub versions: &'a [u64],
    pub resources: &'a [Option<Int>],
    pub refreshes: bool,
    pub throws: bool,
    pub lanes: Lanes,
    pub cut: Cut,
    pub ways: &'a Ways,
}
