// Dispatches.
ghost use Rattle.std.specs.Prelude.{◌≡◌, ◌<◌, ◌^◌, ◌+◌, ℕ, true, Some, IfOk, IsSomeAnd, OnOk, bytes_eq, is_some, length, position, slice_get};
ghost use Rattle.rx_ast.specs.Syntax.{Program};
ghost use Rattle.rx_elem.specs.Spots.{Mounted as Instance, mounted};
ghost use Rattle.rx_model.specs.Accepting.{dispatched, dispatched_for, enqueued, event_of, lane_of as lane_in, sent, sent_to, within};
ghost use Rattle.rx_model.specs.Laws.{IsBounded, IsReached};
ghost use Rattle.rx_model.specs.State.{State, instance_found};
ghost use Rattle.rx_rules.specs.Names as names;
ghost use Rattle.rx_rules.specs.Names.{resources};
ghost use Rattle.rx_queue.specs.Journal as journal;
ghost use Rattle.rx_queue.specs.Journal.{hook};
ghost use Rattle.rx_resources.specs.Kept.{last_version};
ghost use Rattle.rx_resources.specs.Store.{kept_at};
ghost use Rattle.rx_hook_store.specs.Changing.{lanes_linked};
ghost use Rattle.rx_hook_store.specs.Store.{kept_hooks};
ghost use Rattle.rx_step.specs.Steps.{path_of};
ghost use Rattle.rx_step.specs.declared.step.Step.TheVariants as step;
ghost use Rattle.rx_dispatch.specs.Kinds.{is_refresh};
ghost use Rattle.rx_plain.specs.Doing.{HasDone};
ghost use Rattle.rx_plain.specs.Stands.{HasRoomFor, StandsFor, StandsForSome};
ghost use Rattle.rx_plain.specs.Taking.{accepted_by};
ghost use Rattle.rx_kept.specs.Taking.{CanTake, asked_for, claimed_by};

use crate::plain::Plain;
use end_laws::ends_are_not_read;
use rx_base::{Int, Name};
use rx_check::Checked;
use rx_dispatch::{
    dispatch_event, dispatch_hook, dispatch_op, dispatch_path, dispatch_word, hook_place,
    is_refresh, is_start,
};
use rx_hook_store::{hooks_are_there, links_are_below};
use rx_lane::{Lane, Lanes};
use rx_mounts::find;
use rx_queue::{Op, Update};
use rx_report::Report;
use rx_spots::{Mounted, mounted};
use rx_step::{Dispatch, LaneWord};
use std::alloc::AllocError;

// The number of a resource.
pub(crate) fn resource_number(checked: &Checked, name: &Name) -> u32
    ensures number { result ≡ names.resource_number checked.now name.now }
    ensures below { is_some (position (bytes_eq name.now) (resources checked.now)) ≡ true → result < length (resources checked.now) }
{
    checked.resource(name.text()).unwrap_or(0)
}

impl Plain {
    // The lane of a dispatch: the first transition of an event claims the next transition lane.
    fn lane(&mut self, word: LaneWord) -> Lane
        ensures lane { (s : State) → self.old.schedule ≡ s.schedule → self.old.event ≡ s.event → result ≡ lane_in s word }
        ensures claims { self.new ≡ record self.old { schedule = claimed_by word self.old.event self.old.schedule } }
    {
        match word {
            LaneWord::Sync => Lane::Sync,
            LaneWord::Input => Lane::Input,
            LaneWord::Default => Lane::Default,
            LaneWord::Transition => match self.event.lane {
                Some(lane) => lane,
                None => self.lanes.claim_transition(),
            },
        }
    }

    // An update with this lane is accepted, and links these lanes if it is a transition.
    fn accept(&mut self, lane: Lane, linked: Option<Lanes>)
        requires { self.old.updates < 2 ^ 62 }
        ensures { self.new ≡ accepted_by linked lane self.old }
    {
        if let Some(lanes) = linked {
            self.lanes.link(lanes);
            self.event.lane = Some(lane);
        }
        self.lanes.updated(lane, self.now);
        self.updates += 1;
        if let Some(going) = &mut self.going {
            going.later = going.later.union(Lanes::one(lane));
        }
    }

    // Sends an update to a hook of an instance, by its place from 0, which the event's lane or another lane of this word is for.
    fn send(&mut self, word: LaneWord, instance: u64, place: u32, op: Op) -> Result<(), AllocError>
        requires hook { IsSomeAnd (kept_hooks self.old.hooks instance) (λ hooks. place < length hooks) }
        requires room { self.old.updates < 2 ^ 62 }
        ensures ok { OnOk result ((p : Program) (s : State) (k : ℕ) (m : Instance) → IsBounded p → StandsFor p s self.old → slice_get (mounted s.tree) k ≡ Some m → m.number ≡ instance
            → IsReached p (dispatched_for s word (hook instance place) op) → StandsFor p (dispatched_for s word (hook instance place) op) self.new) }
        ensures rest { OnOk result (self.new ≡ record self.old { hooks = self.new.hooks; schedule = self.new.schedule; updates = self.old.updates + 1; event = self.new.event; going = self.new.going }) }
    {
        hooks_are_there();
        links_are_below();
        let pending = self.lanes.pending();
        let lane = self.lane(word);
        let update = Update {
            number: self.updates,
            op,
            lane,
        };
        let linked = self.hooks.dispatch(instance, place, word, update, pending)?;
        self.accept(lane, linked);
        Ok(())
    }

    // Asks for another version of a resource with this lane. A transition links it with those of the resource.
    fn ask(
        &mut self,
        resource: u32,
        word: LaneWord,
        lane: Lane,
        pending: Lanes,
    ) -> Result<Option<Lanes>, AllocError>
        requires within { resource < length self.old.resources }
        requires room { last_version (kept_at self.old.resources resource) < 2 ^ 62 }
        ensures asked { OnOk result (self.new ≡ record self.old { resources = asked_for word self.old.updates lane pending resource self.old.resources }) }
        ensures linked { IfOk result (λ lanes. lanes ≡ lanes_linked word (record { number = self.old.updates; op = Op.Refresh; lane = lane }) pending (kept_at self.old.resources resource).linked) }
    {
        self.resources.refresh(resource, self.updates, lane)?;
        match word {
            LaneWord::Transition => Ok(Some(self.resources.link(resource, lane, pending))),
            LaneWord::Sync | LaneWord::Input | LaneWord::Default => Ok(None),
        }
    }

    // Asks for another version of a resource, with the event's lane or another lane of this word.
    fn refresh(&mut self, word: LaneWord, resource: u32) -> Result<(), AllocError>
        requires within { resource < length self.old.resources }
        requires asked { last_version (kept_at self.old.resources resource) < 2 ^ 62 }
        requires room { self.old.updates < 2 ^ 62 }
        ensures ok { OnOk result ((p : Program) (s : State) → StandsFor p s self.old → IsReached p (dispatched_for s word (journal.resource resource) Op.Refresh)
            → StandsFor p (dispatched_for s word (journal.resource resource) Op.Refresh) self.new) }
        ensures rest { OnOk result (self.new ≡ record self.old { resources = self.new.resources; schedule = self.new.schedule; updates = self.old.updates + 1; event = self.new.event; going = self.new.going }) }
    {
        let pending = self.lanes.pending();
        let lane = self.lane(word);
        let linked = self.ask(resource, word, lane, pending)?;
        self.accept(lane, linked);
        Ok(())
    }

    // Asks for another version of the resource that a dispatch is for.
    fn refresh_for(&mut self, checked: &Checked, dispatch: &Dispatch) -> Result<(), AllocError>
        requires stands { StandsForSome checked.now self.old }
        requires fits { CanTake checked.now (step.Dispatch dispatch.now) }
        requires refresh { is_refresh dispatch.now ≡ true }
        requires room { HasRoomFor 1 self.old }
        ensures ok { OnOk result ((s : State) → StandsFor checked.now s self.old → StandsFor checked.now (enqueued checked.now s dispatch.now).after self.new) }
        ensures left { OnOk result ((k : ℕ) → HasRoomFor (k + 1) self.old → HasRoomFor k self.new) }
    {
        let resource = resource_number(checked, dispatch_hook(dispatch));
        self.refresh(dispatch_word(dispatch), resource)
    }

    // Sends what a dispatch sends to the hook of this instance. A start sends an update that sets its flag, and one that unsets
    // it as a transition (react.dev, useTransition).
    fn send_to(
        &mut self,
        checked: &Checked,
        dispatch: &Dispatch,
        found: &Mounted,
    ) -> Result<(), AllocError>
        requires fits { CanTake checked.now (step.Dispatch dispatch.now) }
        requires found { (s : State) × StandsFor checked.now s self.old × (instance_found checked.now s.tree (path_of dispatch.now) ≡ Some found.now) }
        requires room { self.old.updates + 1 < 2 ^ 62 }
        ensures ok { OnOk result ((s : State) → StandsFor checked.now s self.old → instance_found checked.now s.tree (path_of dispatch.now) ≡ Some found.now
            → StandsFor checked.now (sent_to checked.now s dispatch.now found.now) self.new) }
        ensures left { OnOk result ((k : ℕ) → HasRoomFor (k + 1) self.old → HasRoomFor k self.new) }
    {
        checked.program();
        let number = found.number();
        let place = hook_place(checked, found.component(), dispatch_hook(dispatch));
        let op = dispatch_op(checked, found.component(), dispatch);
        self.send(dispatch_word(dispatch), number, place, op)?;
        if is_start(dispatch) {
            let unset = Op::Set(Int::of(0));
            return self.send(LaneWord::Transition, number, place, unset);
        }
        Ok(())
    }

    // Sends an update to the hook that a dispatch is for; the report gets a line if its path leads to no instance.
    fn send_along(
        &mut self,
        checked: &Checked,
        dispatch: &Dispatch,
        log: &mut Report,
    ) -> Result<(), AllocError>
        requires stands { StandsForSome checked.now self.old }
        requires fits { CanTake checked.now (step.Dispatch dispatch.now) }
        requires room { HasRoomFor 1 self.old }
        ensures ok { OnOk result ((s : State) → StandsFor checked.now s self.old → HasDone checked.now (sent checked.now s dispatch.now) self.new log.old log.new) }
        ensures left { OnOk result ((k : ℕ) → HasRoomFor (k + 1) self.old → HasRoomFor k self.new) }
    {
        ends_are_not_read();
        let path = dispatch_path(dispatch);
        let all = mounted(self.alloc, self.tree.as_ref())?;
        match find(checked, &all, path) {
            None => log.no_instance_line(path),
            Some(found) => self.send_to(checked, dispatch, found),
        }
    }

    // A dispatch goes on with the event before it, or begins one of its own.
    fn enter(&mut self, dispatch: &Dispatch)
        ensures event { self.new ≡ record self.old { event = event_of dispatch.now self.old.event } }
        ensures stands { (p : Program) (s : State) → StandsFor p s self.old → StandsFor p (within dispatch.now s) self.new }
    {
        self.event = dispatch_event(dispatch, self.event);
    }

    /// Accepts a dispatch, in its event: it sends updates to the hook that it is for (react.dev, useState and useReducer), or
    /// asks for another version of its resource. The report gets a line if the path of the dispatch leads to no instance.
    ///
    /// # Errors
    ///
    /// Only if out of memory; the machine and the report are then of no use.
    pub fn dispatch(
        &mut self,
        checked: &Checked,
        dispatch: &Dispatch,
        log: &mut Report,
    ) -> Result<(), AllocError>
        requires stands { StandsForSome checked.now self.old }
        requires fits { CanTake checked.now (step.Dispatch dispatch.now) }
        requires room { HasRoomFor 1 self.old }
        ensures ok { OnOk result ((s : State) → StandsFor checked.now s self.old → HasDone checked.now (dispatched checked.now s dispatch.now) self.new log.old log.new) }
        ensures left { OnOk result ((k : ℕ) → HasRoomFor (k + 1) self.old → HasRoomFor k self.new) }
    {
        self.enter(dispatch);
        if is_refresh(dispatch) {
            return self.refresh_for(checked, dispatch);
        }
        self.send_along(checked, dispatch, log)
    }
}
