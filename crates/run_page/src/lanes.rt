// Sets of lanes as text.
ghost use Rattle.std.specs.Prelude.{◌≡◌, ◌++◌, flat_map, OnOk};
ghost use Rattle.rx_lane.specs.Lanes.{has, lanes_where};
ghost use Rattle.rx_lines.specs.Lines.{lane_name as lane_name_of};
ghost use Rattle.run_page.specs.Facts.{lanes_shown, name_behind};

use rx_lane::{Lane, Lanes};
use std::alloc::AllocError;

// The name of a lane.
fn lane_name(lane: Lane) -> &'static [u8]
    ensures { result.now ≡ lane_name_of lane }
{
    match lane {
        Lane::Sync => b"Sync",
        Lane::Input => b"Input",
        Lane::Default => b"Default",
        Lane::T1 => b"T1",
        Lane::T2 => b"T2",
        Lane::T3 => b"T3",
        Lane::T4 => b"T4",
        Lane::T5 => b"T5",
        Lane::T6 => b"T6",
        Lane::T7 => b"T7",
        Lane::T8 => b"T8",
        Lane::T9 => b"T9",
        Lane::T10 => b"T10",
        Lane::T11 => b"T11",
        Lane::T12 => b"T12",
        Lane::T13 => b"T13",
        Lane::T14 => b"T14",
        Lane::T15 => b"T15",
        Lane::T16 => b"T16",
        Lane::Retry => b"Retry",
    }
}

// The names of the lanes of a set, by falling priority, each behind a space.
fn push_names(text: &mut Vec<u8>, lanes: Lanes) -> Result<(), AllocError>
    ensures { OnOk result (text.new.items ≡ text.old.items ++ flat_map name_behind (lanes_where (has lanes))) }
{
    'naming: for lane in &Lane::ALL {
        if lanes.has(*lane) {
            text.extend_from_slice(b" ")?;
            text.extend_from_slice(lane_name(*lane))?;
        }
    }
    Ok(())
}

/// The lanes of a set, or that there are none.
pub(crate) fn push_lanes(text: &mut Vec<u8>, lanes: Lanes) -> Result<(), AllocError>
    ensures { OnOk result (text.new.items ≡ text.old.items ++ lanes_shown lanes) }
{
    if lanes.is_none() {
        return text.extend_from_slice(b" none");
    }
    push_names(text, lanes)
}
