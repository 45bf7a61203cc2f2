// Turns of rendering: how a render begins, goes on and ends.
ghost use Rattle.std.specs.Prelude.{◌≡◌, ◌<◌, ◌≤◌, ◌^◌, ◌+◌, ℕ, Some, IfOk, IfSome, OnOk, map, option_map};
ghost use Rattle.rx_ast.specs.Syntax.{Program};
ghost use Rattle.rx_effect.specs.EffectLog.{no_passive, passive_log};
ghost use Rattle.rx_elem.specs.Trees as trees;
ghost use Rattle.rx_lines.specs.Lines.{logged};
ghost use Rattle.rx_meaning.specs.Fresh.{fresh, made};
ghost use Rattle.rx_model.specs.Committing.{passive_run, sight_of, starting};
ghost use Rattle.rx_model.specs.Kept.{IsSet};
ghost use Rattle.rx_model.specs.Laws.{IsReached};
ghost use Rattle.rx_model.specs.State.{Progress, State};
ghost use Rattle.rx_model.specs.Turns.{choice_of, gone_on, slice_of};
ghost use Rattle.rx_sched.specs.Events.{no_event};
ghost use Rattle.rx_sched.specs.Schedule.{is_sliced};
ghost use Rattle.end_laws.specs.Trimmed.{trimmed};
ghost use Rattle.rx_fresh.specs.PlaceView.{place_seen};
ghost use Rattle.rx_writing.specs.Written.{with_lines};
ghost use Rattle.rx_plain.specs.Stands.{HasSomeProgress, StandsFor, StandsWith};
ghost use Rattle.rx_plain.specs.Taking.{with_units};

use crate::plain::{Going, Plain};
use end_laws::ends_are_not_rendered;
use rx_base::{Cut, Steps};
use rx_check::Checked;
use rx_fresh::{Place, Snapshot, fresh};
use rx_lane::Lanes;
use rx_model::never_waits;
use rx_node::Node;
use rx_report::Report;
use rx_sched::Choice;
use std::alloc::AllocError;
use std::sync::ledger::Ledger;

// The node that a place gives.
fn node_of(place: Place) -> Node
    requires { (n : trees.Node) × (place_seen place ≡ made n) }
    ensures { place_seen place ≡ made result }
{
    match place {
        Place::Made(node) => node,
        Place::Empty | Place::Waits(_) | Place::Throws(_) => unreachable!(),
    }
}

// A render that has used so many more units, if there is one.
fn further(going: Option<Going>, units: u64) -> Option<Going>
    requires { IfSome going (λ g. g.units + units < 2 ^ 64) }
    ensures { result ≡ option_map (with_units units) going }
{
    match going {
        Some(going) => Some(Going {
            units: going.units + units,
            ..going
        }),
        None => None,
    }
}

impl Plain {
    // The lanes of the render in progress, if there is one.
    fn lanes_going(&self) -> Option<Lanes>
        ensures { result ≡ option_map (λ g. g.lanes) self.entry.now.going }
    {
        match &self.going {
            Some(going) => Some(going.lanes),
            None => None,
        }
    }

    /// What is rendered next.
    pub fn next_turn(&self) -> Choice
        ensures { (p : Program) (s : State) → StandsFor p s self.entry.now → result ≡ choice_of s }
    {
        self.lanes.next(self.lanes_going())
    }

    /// Begins a render with these lanes; one that was in progress is discarded. Pending passive effects run first (react.dev,
    /// useEffect): the report gets their lines.
    ///
    /// # Errors
    ///
    /// Only if out of memory; the machine and the report are then of no use.
    pub fn start(&mut self, lanes: Lanes, log: &mut Report) -> Result<(), AllocError>
        ensures starts { OnOk result ((p : Program) (s : State) → StandsFor p s self.old → s.event ≡ no_event → IsSet lanes
            → StandsWith p (passive_run s).after (Some (starting s lanes)) self.new) }
        ensures written { OnOk result (log.new ≡ with_lines log.old (map logged (passive_log self.old.passive))) }
        ensures rest { OnOk result (self.new ≡ record self.old { passive = no_passive; going = self.new.going }) }
    {
        self.flush_passive(log)?;
        let cut = Cut {
            updates: self.updates,
            resolutions: self.resolutions,
        };
        let seen = self.resources.seen(self.alloc, lanes, cut)?;
        self.going = Some(Going {
            lanes,
            cut,
            seen,
            units: 0,
            later: Lanes::none(),
        });
        Ok(())
    }

    /// How many commits there were.
    pub fn commits(&self) -> u64
        ensures { result ≡ self.entry.now.commits }
    {
        self.commits
    }

    /// The lanes of the render in progress, if there is one.
    pub fn lanes(&self) -> Option<Lanes>
        ensures { result ≡ option_map (λ g. g.lanes) self.entry.now.going }
    {
        match &self.going {
            Some(going) => Some(going.lanes),
            None => None,
        }
    }

    /// How many units the render in progress has used, if there is one.
    pub fn units(&self) -> Option<u64>
        ensures { result ≡ option_map (λ g. g.units) self.entry.now.going }
    {
        match &self.going {
            Some(going) => Some(going.units),
            None => None,
        }
    }

    // Whether the render in progress is cut into slices.
    fn is_sliced(&self) -> bool
        ensures { (p : Program) (s : State) (g : Progress) → StandsWith p s (Some g) self.entry.now → result ≡ is_sliced s.schedule g.lanes s.now }
    {
        match &self.going {
            Some(going) => self.lanes.sliced(going.lanes, self.now),
            None => false,
        }
    }

    /// The slice of a turn with this budget: it counts only if the render in progress is cut into slices.
    pub fn slice(&self, budget: Option<u64>) -> Option<u64>
        ensures { (p : Program) (s : State) (g : Progress) → StandsWith p s (Some g) self.entry.now → result ≡ slice_of s g budget }
    {
        if self.is_sliced() { budget } else { None }
    }

    /// The render in progress has used so many more units, and is not finished.
    pub fn go_on(&mut self, units: u64)
        requires { IfSome self.old.going (λ g. g.units + units < 2 ^ 64) }
        ensures goes_on { (p : Program) (s : State) (g : Progress) (bodies : ℕ) → StandsWith p s (Some g) self.old → bodies ≤ units
            → IsReached p (record s { progress = Some (gone_on g units bodies) }) → StandsFor p (record s { progress = Some (gone_on g units bodies) }) self.new }
        ensures rest { self.new ≡ record self.old { going = self.new.going } }
    {
        self.going = further(self.going.take(), units);
    }

    /// Renders the whole tree anew, for the render in progress (react.dev, Render and Commit).
    ///
    /// # Errors
    ///
    /// Only if out of memory; the machine is then of no use.
    pub fn render<L: Ledger>(
        &mut self,
        checked: &Checked,
        steps: &mut Steps<L>,
    ) -> Result<Node, AllocError>
        requires goes_on { HasSomeProgress checked.now self.old }
        ensures tree { IfOk result (λ n. (s : State) (g : Progress) → StandsWith checked.now s (Some g) self.old → (x : trees.Node) × (fresh (sight_of checked.now s g) s.tree ≡ made x) × (trimmed n ≡ trimmed x)) }
        ensures stands { OnOk result ((s : State) (g : Progress) → StandsWith checked.now s (Some g) self.old → StandsWith checked.now s (Some g) self.new) }
        ensures rest { self.new ≡ record self.old { hooks = self.new.hooks; evaluations = self.new.evaluations } }
    {
        never_waits();
        ends_are_not_rendered();
        checked.program();
        let Some(going) = &self.going else {
            unreachable!();
        };
        let shot = Snapshot {
            checked,
            versions: &going.seen.versions,
            resources: &going.seen.values,
            lanes: going.lanes,
            cut: going.cut,
        };
        let old = self.tree.as_ref();
        let place = fresh(
            self.alloc,
            &shot,
            old,
            &mut self.hooks,
            &mut self.evaluations,
            steps,
        )?;
        Ok(node_of(place))
    }
}
