// What is rendered next.
use rx_lane::Lanes;

/// What a turn does: nothing, go on with the render in progress, or start one with these lanes.
#[derive(Clone, Copy, Debug, PartialEq, Eq)]
pub enum Choice {
    None,
    Keep,
    Start(Lanes),
}
