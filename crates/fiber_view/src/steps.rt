// The steps of a run, as a page shows them.
ghost use Rattle.std.specs.Prelude.{◌≡◌, ◌<◌, ◌^◌, ℕ, List, suc, length, IfOk, OnOk};
ghost use Rattle.rx_model.specs.State.{State};
ghost use Rattle.rx_root.specs.Stands.{HasRoomFor, Stands, StandsForSome};
ghost use Rattle.rx_kept.specs.Taking.{AllCanTake, CanTake};
ghost use Rattle.run_page.specs.Views.{View as Seen, shown};
ghost use Rattle.run_page.specs.Books.{AreTold};
ghost use Rattle.fiber_view.specs.Shown.{ShowsState, yields_in};
ghost use Rattle.fiber_view.specs.Taken.{Continues, TakesAndShows};

use crate::facts::{facts_of, hooks_text, tree_text};
use crate::text::step_text;
use run_page::{Book, View};
use rx_base::Steps;
use rx_report::Report;
use rx_root::Root;
use rx_step::Step;
use std::alloc::{AllocError, Global};
use std::sync::ledger::Ledger;

/// A view of the state for which a root stands, behind its title and the lines that led to it.
pub(crate) fn view_of(
    alloc: Global,
    root: &Root,
    title: Vec<u8>,
    lines: Vec<u8>,
    yields: bool,
    log: &mut Report,
) -> Result<View, AllocError>
    requires { StandsForSome root.now }
    ensures ok { IfOk result (λ v. (s : State) → Stands root.entry.now.rendering.program s root.entry.now
        → ShowsState root.entry.now.rendering.program log.old.options title.items lines.items yields s (shown v)) }
    ensures options { OnOk result (log.new.options ≡ log.old.options) }
{
    let tree = tree_text(alloc, root, log)?;
    let hooks = hooks_text(alloc, root, log)?;
    Ok(View {
        title,
        lines,
        yields,
        tree,
        hooks,
        facts: facts_of(root),
    })
}

// Whether a turn yielded in a step: it was `work`, and left a render in progress.
fn yielded(step: &Step, root: &Root) -> bool
    ensures { (s : State) → Stands root.entry.now.rendering.program s root.entry.now → result ≡ yields_in step.now s }
{
    match step {
        Step::Work(_) => root.in_progress().is_some(),
        _ => false,
    }
}

// Takes a step, and gives the view of it.
fn take_step<L: Ledger>(
    alloc: Global,
    root: &mut Root,
    step: &Step,
    log: &mut Report,
    steps: &mut Steps<L>,
) -> Result<View, AllocError>
    requires stands { StandsForSome root.old }
    requires fits { CanTake root.old.rendering.program step.now }
    requires room { HasRoomFor 1 root.old }
    ensures ok { IfOk result (λ v. (s : State) → Stands root.old.rendering.program s root.old
        → TakesAndShows root.old.rendering.program log.old.options s step.now (shown v) root.new) }
    ensures options { OnOk result (log.new.options ≡ log.old.options) }
    ensures stands { StandsForSome root.new }
    ensures program { root.new.rendering.program ≡ root.old.rendering.program }
    ensures left { (k : ℕ) → HasRoomFor (suc k) root.old → HasRoomFor k root.new }
{
    log.cut(0);
    root.step(step, log, steps)?;
    let lines = Vec::from_slice(alloc, log.bytes())?;
    let title = step_text(alloc, step)?;
    view_of(alloc, root, title, lines, yielded(step, root), log)
}

/// Takes the steps in order, and puts the view of each into a book.
pub(crate) fn put_steps<L: Ledger>(
    book: &mut Book,
    alloc: Global,
    root: &mut Root,
    script: &[Step],
    log: &mut Report,
    steps: &mut Steps<L>,
) -> Result<(), AllocError>
    requires stands { StandsForSome root.old }
    requires fits { AllCanTake root.old.rendering.program script.now }
    requires room { HasRoomFor (length script.now) root.old }
    requires few { length script.now < 2 ^ 32 }
    requires counted { book.old.count < 2 ^ 32 }
    ensures { OnOk result ((s : State) (views : List Seen) → Stands root.old.rendering.program s root.old → AreTold views book.old
        → Continues root.old.rendering.program log.old.options s script.now views book.new) }
{
    'script: for step in script {
        let view = take_step(alloc, root, step, log, steps)?;
        book.put(&view)?;
    }
    Ok(())
}
