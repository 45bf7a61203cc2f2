// What a page shows of a state.
ghost use Rattle.std.specs.Prelude.{◌≡◌, IfOk, OnOk};
ghost use Rattle.rx_forest.specs.Hosts.{hosts};
ghost use Rattle.rx_lines.specs.Lines.{report_bytes, tree_lines};
ghost use Rattle.rx_model.specs.State.{State, state_lines};
ghost use Rattle.rx_root.specs.Stands.{Stands, StandsForSome};
ghost use Rattle.fiber_view.specs.Shown.{AreFacts, rendering_of as rendering_seen};

use run_page::{Facts, Rendering};
use rx_report::Report;
use rx_root::Root;
use std::alloc::{AllocError, Global};

/// The tree of hosts, as a report has it.
pub(crate) fn tree_text(alloc: Global, root: &Root, log: &mut Report) -> Result<Vec<u8>, AllocError>
    requires { StandsForSome root.now }
    ensures ok { IfOk result (λ text. (s : State) → Stands root.entry.now.rendering.program s root.entry.now
        → text.items ≡ report_bytes log.old.options (tree_lines (hosts s.tree))) }
    ensures options { OnOk result (log.new.options ≡ log.old.options) }
{
    log.cut(0);
    root.tree(log)?;
    Vec::from_slice(alloc, log.bytes())
}

/// The hooks of all instances, as a report has them.
pub(crate) fn hooks_text(
    alloc: Global,
    root: &Root,
    log: &mut Report,
) -> Result<Vec<u8>, AllocError>
    requires { StandsForSome root.now }
    ensures ok { IfOk result (λ text. (s : State) → Stands root.entry.now.rendering.program s root.entry.now
        → text.items ≡ report_bytes log.old.options (state_lines root.entry.now.rendering.program s)) }
    ensures options { OnOk result (log.new.options ≡ log.old.options) }
{
    log.cut(0);
    root.states(log)?;
    Vec::from_slice(alloc, log.bytes())
}

// The render in progress.
fn rendering_of(root: &Root) -> Option<Rendering>
    ensures { (s : State) → Stands root.entry.now.rendering.program s root.entry.now → result ≡ rendering_seen s.progress }
{
    match root.in_progress() {
        None => None,
        Some(going) => Some(Rendering {
            lanes: going.lanes,
            units: going.units,
            bodies: going.bodies,
        }),
    }
}

/// What the table of a section shows of the state for which a root stands.
pub(crate) fn facts_of(root: &Root) -> Facts
    ensures { (s : State) → Stands root.entry.now.rendering.program s root.entry.now → AreFacts s result }
{
    Facts {
        pending: root.pending(),
        suspended: root.suspended(),
        expired: root.expired(),
        rendering: rendering_of(root),
        next: root.next_turn(),
        hidden: u64::from(root.hidden_count()),
        time: root.now(),
    }
}
