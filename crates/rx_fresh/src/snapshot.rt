// What a render sees.
use rx_base::{Cut, Int};
use rx_check::Checked;
use rx_lane::Lanes;

/// What a render sees beside the hooks (react.dev, State as a Snapshot): the program; the versions of the resources by their
/// numbers, with the values of those that were resolved before it began; the lanes that it includes; and how far it sees the
/// updates.
#[derive(Clone, Copy)]
pub struct Snapshot<'a> {
    pub checked: &'a Checked,
    pub versions: &'a [u64],
    pub resources: &'a [Option<Int>],
    pub lanes: Lanes,
    pub cut: Cut,
}
