// The hooks of all instances, with their committed values.
ghost use Rattle.std.specs.Prelude.{◌≡◌, OnOk, OnErr};
ghost use Rattle.rx_fiber.specs.Reading.{IsTreeOf};
ghost use Rattle.rx_fiber.specs.Subtrees.{IsGathered};
ghost use Rattle.rx_hook_store.specs.Store.{kept_hooks};
ghost use Rattle.rx_model.specs.HooksOf.{KeepsAllHooks};
ghost use Rattle.rx_model.specs.State.{State, state_lines};
ghost use Rattle.rx_writing.specs.Written.{with_lines};

use crate::mounted::read_mounted;
use rx_check::Checked;
use rx_fiber::Fiber;
use rx_hook_store::HookStore;
use rx_links::FiberTree;
use rx_report::Report;
use std::alloc::{AllocError, Global};

/// The lines that show the hooks of all instances of the current fibers, in tree order, each hook with its committed value
/// (react.dev, State as a Snapshot). An `Err` leaves the report as it was.
///
/// # Errors
///
/// Only if out of memory.
pub fn show_hooks(
    alloc: Global,
    log: &mut Report,
    checked: &Checked,
    tree: &FiberTree<Fiber>,
    hooks: &HookStore,
) -> Result<(), AllocError>
    requires gathered { IsGathered tree.now.current }
    requires keeps { (s : State) × (IsTreeOf s.tree tree.now.current × KeepsAllHooks checked.now s (kept_hooks hooks.now)) }
    ensures ok { OnOk result ((s : State) → IsTreeOf s.tree tree.now.current → KeepsAllHooks checked.now s (kept_hooks hooks.now)
        → log.new ≡ with_lines log.old (state_lines checked.now s)) }
    ensures err { OnErr result (log.new ≡ log.old) }
{
    let all = read_mounted(alloc, tree)?;
    rx_mounts::show_hooks(alloc, log, checked, &all, hooks)
}
