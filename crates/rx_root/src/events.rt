// Events, and what they send.
ghost use Rattle.std.specs.Prelude.{◌≡◌, ◌+◌, ◌<◌, ◌≤◌, ◌^◌, ◌↔◌, ℕ, ℤ, suc, true, Some, None, Err, IfOk, IsErrOf, IsOk, IsSomeAnd, IsTrue, OnErr, OnOk, bytes_eq, is_some, length, position, slice_get};
ghost use Rattle.rx_lane.specs.Lanes.{is_transition};
ghost use Rattle.rx_rules.specs.Names.{resource_number, resources};
ghost use Rattle.rx_elem.specs.Spots.{Mounted, mounted};
ghost use Rattle.rx_forest.specs.Hosts.{hosts};
ghost use Rattle.rx_lines.specs.Lines.{tree_lines};
ghost use Rattle.rx_queue.specs.Journal.{hook, next_version};
ghost use Rattle.rx_queue.specs.Journal as journal;
ghost use Rattle.rx_sched.specs.Deadlines.{later};
ghost use Rattle.rx_sched.specs.Events.{no_event};
ghost use Rattle.rx_sched.specs.Schedule.{Schedule, after_resolution};
ghost use Rattle.rx_model.specs.State.{State, instance_found, state_lines};
ghost use Rattle.rx_model.specs.Accepting.{between_events, dispatched, dispatched_for, enqueued, event_of, is_awaited_in, lane_of as lane_in, last_value, resolved, sent, within};
ghost use Rattle.rx_model.specs.Committing.{passive_run};
ghost use Rattle.rx_model.specs.Laws.{IsReached};
ghost use Rattle.rx_hook_store.specs.Changing.{lanes_linked};
ghost use Rattle.rx_hook_store.specs.Store.{hook_room, kept_hooks};
ghost use Rattle.rx_dispatch.specs.Kinds.{is_refresh, is_start};
ghost use Rattle.rx_resources.specs.Kept.{last_version};
ghost use Rattle.rx_resources.specs.Store.{kept_at, resolved_at};
ghost use Rattle.rx_writing.specs.Written.{with_lines};
ghost use Rattle.rx_render.specs.Rendering.{IfLeft};
ghost use Rattle.rx_step.specs.Steps.{path_of};
ghost use Rattle.rx_step.specs.declared.step.Step.TheVariants as step;
ghost use Rattle.rx_root.specs.Stands.{HasRoomFor, Stands, StandsForSome};
ghost use Rattle.rx_root.specs.Turning.{HasDone};
ghost use Rattle.rx_root.specs.Taking.{HasNoInstance, IsFor, IsTargetOf, root_accepted, state_after};
ghost use Rattle.rx_kept.specs.Taking.{CanTake, asked_for, claimed_by};

use crate::errors::{DispatchError, ResolveError};
use crate::root::Root;
use rx_base::{Int, Name};
use rx_dispatch::{
    dispatch_event, dispatch_hook, dispatch_op, dispatch_path, dispatch_word, hook_place,
    is_refresh, is_start,
};
use rx_hook_store::{hooks_are_there, links_are_below};
use rx_instances::{awaited, find_instance, show_hooks};
use rx_lane::{Lane, Lanes};
use rx_queue::{Op, Update};
use rx_report::{Report, a_commit_is_in_tree_order};
use rx_sched::{Event, RootLanes};
use rx_step::{Dispatch, LaneWord};
use std::alloc::AllocError;

/// What is sent to a hook of an instance, by its place from 0.
#[derive(Clone, Copy)]
pub(crate) struct Sent {
    instance: u64,
    place: u32,
    op: Op,
}

// An event takes back the claim of its lane: fifteen claims later it is that lane's turn again.
fn take_back(lanes: &mut RootLanes)
    ensures { (s : Schedule) → IsTrue (is_transition s.next_transition) → lanes.old ≡ claimed_by LaneWord.Transition no_event s → lanes.new ≡ s }
{
    'claims: for _claim in 0..15u32 {
        lanes.claim_transition();
    }
}

impl Root {
    /// Time passes, in milliseconds, and an event ends. The time now is held at the greatest `u64`. What is pending with a
    /// deadline that the time now has reached is rendered without slices from then on.
    pub fn tick(&mut self, time: u64)
        requires stands { StandsForSome self.old }
        ensures after { (s : State) → Stands self.old.rendering.program s self.old → Stands self.old.rendering.program (record (between_events s) { now = later s.now time }) self.new }
        ensures changes { self.new ≡ record self.old { now = later self.old.now time; event = no_event } }
        ensures stands { StandsForSome self.new }
        ensures room { (k : ℕ) → HasRoomFor k self.old → HasRoomFor k self.new }
    {
        self.now = self.now.saturating_add(time);
        self.event = Event::new(false);
    }

    /// An event ends: the next transition takes a lane of its own (react.dev, startTransition).
    pub fn end_event(&mut self)
        requires stands { StandsForSome self.old }
        ensures after { (s : State) → Stands self.old.rendering.program s self.old → Stands self.old.rendering.program (between_events s) self.new }
        ensures changes { self.new ≡ record self.old { event = no_event } }
        ensures stands { StandsForSome self.new }
        ensures room { (k : ℕ) → HasRoomFor k self.old → HasRoomFor k self.new }
    {
        self.event = Event::new(false);
    }

    /// Runs the passive effects that are pending, whose lines the report gets, and an event ends (react.dev, useEffect). After
    /// an `Err` nothing was run: the root and the report are as they were.
    ///
    /// # Errors
    ///
    /// Only if out of memory.
    pub fn passive(&mut self, log: &mut Report) -> Result<(), AllocError>
        requires stands { StandsForSome self.old }
        ensures ok { OnOk result ((s : State) → Stands self.old.rendering.program s self.old → HasDone self.old.rendering.program (passive_run (between_events s)) self.new log.old log.new) }
        ensures same { OnErr result (self.new ≡ self.old) }
        ensures unchanged { OnErr result (log.new ≡ log.old) }
        ensures stands { StandsForSome self.new }
        ensures program { self.new.rendering.program ≡ self.old.rendering.program }
        ensures room { (k : ℕ) → HasRoomFor k self.old → HasRoomFor k self.new }
    {
        self.shown.flush_passive(log)?;
        self.event = Event::new(false);
        Ok(())
    }

    /// Writes the hooks of all instances, with their committed values (react.dev, State as a Snapshot). After an `Err` the
    /// report is as it was.
    ///
    /// # Errors
    ///
    /// Only if out of memory.
    pub fn states(&self, log: &mut Report) -> Result<(), AllocError>
        requires { (s : State) × Stands self.now.rendering.program s self.now }
        ensures ok { OnOk result ((s : State) → Stands self.entry.now.rendering.program s self.entry.now → log.new ≡ with_lines log.old (state_lines self.entry.now.rendering.program s)) }
        ensures err { OnErr result (log.new ≡ log.old) }
    {
        show_hooks(
            self.alloc,
            log,
            self.renderer.checked(),
            self.renderer.fibers(),
            self.renderer.hooks(),
        )
    }

    /// Writes the tree of hosts (react.dev, Render and Commit). After an `Err` the report is as it was.
    ///
    /// # Errors
    ///
    /// Only if out of memory.
    pub fn tree(&self, log: &mut Report) -> Result<(), AllocError>
        ensures ok { OnOk result ((s : State) → Stands self.entry.now.rendering.program s self.entry.now → log.new ≡ with_lines log.old (tree_lines (hosts s.tree))) }
        ensures err { OnErr result (log.new ≡ log.old) }
    {
        self.renderer.facts();
        self.renderer.checked().program();
        a_commit_is_in_tree_order();
        self.shown.write_tree(log)
    }

    // The hook that a dispatch is for, and what the dispatch does to it, if its path leads to an instance. Notes the instances
    // on the path that the next render has no hint of.
    fn target(&mut self, dispatch: &Dispatch) -> Option<Sent>
        requires { StandsForSome self.old }
        ensures target { (s : State) → Stands self.old.rendering.program s self.old → CanTake self.old.rendering.program (step.Dispatch dispatch.now)
            → IsTargetOf self.old.rendering.program s dispatch.now result }
        ensures same { self.new ≡ self.old }
    {
        self.renderer.facts();
        let checked = self.renderer.checked();
        checked.program();
        let found = find_instance(
            checked,
            self.renderer.fibers(),
            dispatch_path(dispatch),
            self.renderer.hints(),
            &mut self.sent,
        )?;
        Some(Sent {
            instance: found.number,
            place: hook_place(checked, found.component, dispatch_hook(dispatch)),
            op: dispatch_op(checked, found.component, dispatch),
        })
    }

    // The lane of a dispatch: the first transition of an event claims the next transition lane.
    fn lane(&mut self, word: LaneWord) -> Lane
        ensures lane { (s : State) → self.old.schedule ≡ s.schedule → self.old.event ≡ s.event → result ≡ lane_in s word }
        ensures claims { self.new ≡ record self.old { schedule = claimed_by word self.old.event self.old.schedule } }
        ensures transition { word ≡ LaneWord.Transition → self.old.event.lane ≡ None → IsTrue (is_transition self.old.schedule.next_transition) }
    {
        match word {
            LaneWord::Sync => Lane::Sync,
            LaneWord::Input => Lane::Input,
            LaneWord::Default => Lane::Default,
            LaneWord::Transition => match self.event.lane {
                Some(lane) => lane,
                None => self.lanes.claim_transition(),
            },
        }
    }

    // An update with this lane is accepted, and links these lanes if it is a transition.
    fn accept(&mut self, lane: Lane, linked: Option<Lanes>)
        requires { self.old.updates < 2 ^ 62 }
        ensures { self.new ≡ root_accepted linked lane self.old }
    {
        if let Some(lanes) = linked {
            self.lanes.link(lanes);
            self.event.lane = Some(lane);
        }
        self.lanes.updated(lane, self.now);
        self.updates += 1;
        self.later = self.later.union(Lanes::one(lane));
    }

    // An event takes back the claim of its lane, if it claimed one.
    fn forget_lane(&mut self, word: LaneWord)
        ensures { (schedule : Schedule) → (word ≡ LaneWord.Transition → self.old.event.lane ≡ None → IsTrue (is_transition schedule.next_transition))
            → self.old.schedule ≡ claimed_by word self.old.event schedule → self.new ≡ record self.old { schedule = schedule } }
    {
        if word == LaneWord::Transition && self.event.lane.is_none() {
            take_back(&mut self.lanes);
        }
    }

    // Sends an update to a hook, which the event's lane or another lane of this word is for. An `Err` changes nothing of what
    // the root stands for.
    fn send(&mut self, word: LaneWord, sent: Sent) -> Result<(), AllocError>
        requires hook { IsSomeAnd (kept_hooks self.old.rendering.hooks sent.instance) (λ hooks. sent.place < length hooks) }
        requires behind { IfLeft self.old.rendering.at (self.old.rendering.cut.updates ≤ self.old.updates) }
        requires room { self.old.updates < 2 ^ 62 }
        ensures ok { OnOk result ((s : State) (k : ℕ) (m : Mounted) → Stands self.old.rendering.program s self.old → slice_get (mounted s.tree) k ≡ Some m → m.number ≡ sent.instance
            → IsReached self.old.rendering.program (dispatched_for s word (hook sent.instance sent.place) sent.op)
            → Stands self.old.rendering.program (dispatched_for s word (hook sent.instance sent.place) sent.op) self.new) }
        ensures err { OnErr result ((s : State) → Stands self.old.rendering.program s self.old → Stands self.old.rendering.program s self.new) }
        ensures same { self.new ≡ record self.old { rendering = self.new.rendering; schedule = self.new.schedule; updates = self.new.updates; event = self.new.event; later = self.new.later } }
        ensures program { self.new.rendering.program ≡ self.old.rendering.program }
        ensures one { self.new.updates ≤ self.old.updates + 1 }
        ensures succeeds { 0 < hook_room sent.instance sent.place (kept_hooks self.old.rendering.hooks) → IsOk result }
        ensures spare { OnOk result (hook_room sent.instance sent.place (kept_hooks self.old.rendering.hooks) ≤ hook_room sent.instance sent.place (kept_hooks self.new.rendering.hooks) + 1) }
    {
        hooks_are_there();
        links_are_below();
        self.renderer.facts();
        let pending = self.lanes.pending();
        let lane = self.lane(word);
        let update = Update {
            number: self.updates,
            op: sent.op,
            lane,
        };
        match self
            .renderer
            .dispatch(sent.instance, sent.place, word, update, pending)
        {
            Ok(linked) => {
                self.accept(lane, linked);
                Ok(())
            }
            Err(error) => {
                self.forget_lane(word);
                Err(error)
            }
        }
    }

    // Asks for another version of a resource with this lane. A transition links it with those of the resource. An `Err` changes
    // nothing.
    fn ask(
        &mut self,
        resource: u32,
        word: LaneWord,
        lane: Lane,
        pending: Lanes,
    ) -> Result<Option<Lanes>, AllocError>
        requires within { resource < length self.old.resources }
        requires room { last_version (kept_at self.old.resources resource) < 2 ^ 62 }
        ensures asked { OnOk result (self.new ≡ record self.old { resources = asked_for word self.old.updates lane pending resource self.old.resources }) }
        ensures linked { IfOk result (λ lanes. lanes ≡ lanes_linked word (record { number = self.old.updates; op = Op.Refresh; lane = lane }) pending (kept_at self.old.resources resource).linked) }
        ensures same { OnErr result (self.new ≡ self.old) }
    {
        self.resources.refresh(resource, self.updates, lane)?;
        match word {
            LaneWord::Transition => Ok(Some(self.resources.link(resource, lane, pending))),
            LaneWord::Sync | LaneWord::Input | LaneWord::Default => Ok(None),
        }
    }

    // Accepts an update that asks for another version of a resource, with the event's lane or another lane of this word. An `Err`
    // changes nothing of what the root stands for.
    fn refresh(&mut self, word: LaneWord, resource: u32) -> Result<(), AllocError>
        requires within { resource < length self.old.resources }
        requires asked { last_version (kept_at self.old.resources resource) < 2 ^ 62 }
        requires room { self.old.updates < 2 ^ 62 }
        ensures ok { OnOk result ((s : State) → Stands self.old.rendering.program s self.old → IsReached self.old.rendering.program (dispatched_for s word (journal.resource resource) Op.Refresh)
            → Stands self.old.rendering.program (dispatched_for s word (journal.resource resource) Op.Refresh) self.new) }
        ensures err { OnErr result ((s : State) → Stands self.old.rendering.program s self.old → Stands self.old.rendering.program s self.new) }
        ensures same { self.new ≡ record self.old { resources = self.new.resources; schedule = self.new.schedule; updates = self.new.updates; event = self.new.event; later = self.new.later } }
        ensures one { self.new.updates ≤ self.old.updates + 1 }
    {
        let pending = self.lanes.pending();
        let lane = self.lane(word);
        match self.ask(resource, word, lane, pending) {
            Ok(linked) => {
                self.accept(lane, linked);
                Ok(())
            }
            Err(error) => {
                self.forget_lane(word);
                Err(error)
            }
        }
    }

    // Asks for another version of the resource that a dispatch is for.
    fn refresh_for(&mut self, dispatch: &Dispatch) -> Result<u64, DispatchError>
        requires stands { StandsForSome self.old }
        requires fits { CanTake self.old.rendering.program (step.Dispatch dispatch.now) }
        requires refresh { is_refresh dispatch.now ≡ true }
        requires room { HasRoomFor 1 self.old }
        ensures ok { IfOk result (λ number. (s : State) → Stands self.old.rendering.program s self.old
            → (number ≡ length s.journal.updates) × Stands self.old.rendering.program (enqueued self.old.rendering.program s dispatch.now).after self.new) }
        ensures memory { OnErr result (result ≡ Err DispatchError.OutOfMemory) }
        ensures err { OnErr result ((s : State) → Stands self.old.rendering.program s self.old → Stands self.old.rendering.program s self.new) }
        ensures program { self.new.rendering.program ≡ self.old.rendering.program }
        ensures left { (k : ℕ) → HasRoomFor (suc k) self.old → HasRoomFor k self.new }
    {
        let number = self.updates;
        let resource = self.resource(dispatch_hook(dispatch));
        self.refresh(dispatch_word(dispatch), resource)?;
        Ok(number)
    }

    // Sends the two updates of a start to the hook that it is for: one that sets it, and one that unsets it as a transition. Room
    // for both is taken first, so that an `Err` changes nothing of what the root stands for.
    fn send_start(&mut self, dispatch: &Dispatch, sent: Sent) -> Result<(), AllocError>
        requires target { (s : State) × Stands self.old.rendering.program s self.old × IsFor self.old.rendering.program s dispatch.now sent }
        requires start { is_start dispatch.now ≡ true }
        requires room { self.old.updates + 1 < 2 ^ 62 }
        ensures ok { OnOk result ((s : State) → Stands self.old.rendering.program s self.old → IsFor self.old.rendering.program s dispatch.now sent
            → Stands self.old.rendering.program (state_after s dispatch.now sent) self.new) }
        ensures err { OnErr result ((s : State) → Stands self.old.rendering.program s self.old → Stands self.old.rendering.program s self.new) }
        ensures same { self.new ≡ record self.old { rendering = self.new.rendering; schedule = self.new.schedule; updates = self.new.updates; event = self.new.event; later = self.new.later } }
        ensures program { self.new.rendering.program ≡ self.old.rendering.program }
        ensures two { self.new.updates ≤ self.old.updates + 2 }
    {
        self.renderer.reserve(sent.instance, sent.place, 2)?;
        let unset = Sent {
            op: Op::Set(Int::of(0)),
            ..sent
        };
        match self.send(dispatch_word(dispatch), sent) {
            Ok(()) => {}
            Err(_) => unreachable!(),
        }
        match self.send(LaneWord::Transition, unset) {
            Ok(()) => Ok(()),
            Err(_) => unreachable!(),
        }
    }

    // Sends an update to the hook that a dispatch is for, if its path leads to an instance.
    fn send_to(&mut self, dispatch: &Dispatch) -> Result<u64, DispatchError>
        requires stands { StandsForSome self.old }
        requires fits { CanTake self.old.rendering.program (step.Dispatch dispatch.now) }
        requires room { HasRoomFor 1 self.old }
        ensures ok { IfOk result (λ number. (s : State) → Stands self.old.rendering.program s self.old
            → (number ≡ length s.journal.updates) × Stands self.old.rendering.program (sent self.old.rendering.program s dispatch.now).after self.new) }
        ensures no_instance { (s : State) → Stands self.old.rendering.program s self.old
            → IsErrOf result DispatchError.NoInstance ↔ (instance_found self.old.rendering.program s.tree (path_of dispatch.now) ≡ None) }
        ensures same { IsErrOf result DispatchError.NoInstance → self.new ≡ self.old }
        ensures err { OnErr result ((s : State) → Stands self.old.rendering.program s self.old → Stands self.old.rendering.program s self.new) }
        ensures program { self.new.rendering.program ≡ self.old.rendering.program }
        ensures left { (k : ℕ) → HasRoomFor (suc k) self.old → HasRoomFor k self.new }
    {
        let number = self.updates;
        match self.target(dispatch) {
            None => Err(DispatchError::NoInstance),
            Some(sent) => {
                if is_start(dispatch) {
                    self.send_start(dispatch, sent)?;
                } else {
                    self.send(dispatch_word(dispatch), sent)?;
                }
                Ok(number)
            }
        }
    }

    // A dispatch goes on with the event before it, or begins one of its own.
    fn enter(&mut self, dispatch: &Dispatch)
        ensures event { self.new ≡ record self.old { event = event_of dispatch.now self.old.event } }
        ensures stands { (s : State) → Stands self.old.rendering.program s self.old → Stands self.old.rendering.program (within dispatch.now s) self.new }
    {
        self.event = dispatch_event(dispatch, self.event);
    }

    // Accepts a dispatch in its event.
    fn enqueue(&mut self, dispatch: &Dispatch) -> Result<u64, DispatchError>
        requires stands { StandsForSome self.old }
        requires fits { CanTake self.old.rendering.program (step.Dispatch dispatch.now) }
        requires room { HasRoomFor 1 self.old }
        ensures ok { IfOk result (λ number. (s : State) → Stands self.old.rendering.program s self.old
            → (number ≡ length s.journal.updates) × Stands self.old.rendering.program (enqueued self.old.rendering.program s dispatch.now).after self.new) }
        ensures no_instance { (s : State) → Stands self.old.rendering.program s self.old
            → IsErrOf result DispatchError.NoInstance ↔ HasNoInstance self.old.rendering.program s dispatch.now }
        ensures same { IsErrOf result DispatchError.NoInstance → self.new ≡ self.old }
        ensures err { OnErr result ((s : State) → Stands self.old.rendering.program s self.old → Stands self.old.rendering.program s self.new) }
        ensures program { self.new.rendering.program ≡ self.old.rendering.program }
        ensures left { (k : ℕ) → HasRoomFor (suc k) self.old → HasRoomFor k self.new }
    {
        if is_refresh(dispatch) {
            return self.refresh_for(dispatch);
        }
        self.send_to(dispatch)
    }

    /// Accepts a dispatch, and answers the number of its update, from 0 on in the order in which they are accepted: it sends the
    /// update to the hook that it is for (react.dev, useState and useReducer), or asks for another version of its resource. A
    /// start sends two, of which it answers the number of the first: that sets its hook to 1, and the other one to 0 as a
    /// transition (react.dev, useTransition). A transition goes on with the lane of its event, or claims the next one (react.dev,
    /// startTransition). A start begins an event, with which only transitions go on. Nothing is rendered.
    ///
    /// # Errors
    ///
    /// `NoInstance` exactly if the path to a hook leads to no instance of the committed tree: then nothing has changed, save the
    /// event. Out of memory: then the root stands for what it stood for.
    pub fn dispatch(&mut self, dispatch: &Dispatch) -> Result<u64, DispatchError>
        requires stands { StandsForSome self.old }
        requires fits { CanTake self.old.rendering.program (step.Dispatch dispatch.now) }
        requires room { HasRoomFor 1 self.old }
        ensures ok { IfOk result (λ number. (s : State) → Stands self.old.rendering.program s self.old
            → (number ≡ length s.journal.updates) × Stands self.old.rendering.program (dispatched self.old.rendering.program s dispatch.now).after self.new) }
        ensures no_instance { (s : State) → Stands self.old.rendering.program s self.old
            → IsErrOf result DispatchError.NoInstance ↔ HasNoInstance self.old.rendering.program s dispatch.now }
        ensures same { IsErrOf result DispatchError.NoInstance → self.new ≡ record self.old { event = event_of dispatch.now self.old.event } }
        ensures refused { IsErrOf result DispatchError.NoInstance → (s : State) → Stands self.old.rendering.program s self.old → Stands self.old.rendering.program (within dispatch.now s) self.new }
        ensures memory { IsErrOf result DispatchError.OutOfMemory → (s : State) → Stands self.old.rendering.program s self.old → Stands self.old.rendering.program s self.new }
        ensures stands { StandsForSome self.new }
        ensures program { self.new.rendering.program ≡ self.old.rendering.program }
        ensures left { (k : ℕ) → HasRoomFor (suc k) self.old → HasRoomFor k self.new }
    {
        let event = self.event;
        self.enter(dispatch);
        match self.enqueue(dispatch) {
            Ok(number) => Ok(number),
            Err(DispatchError::NoInstance) => Err(DispatchError::NoInstance),
            Err(DispatchError::OutOfMemory) => {
                self.event = event;
                Err(DispatchError::OutOfMemory)
            }
        }
    }

    // The number of a resource.
    fn resource(&self, name: &Name) -> u32
        ensures number { result ≡ resource_number self.entry.now.rendering.program name.now }
        ensures below { is_some (position (bytes_eq name.now) (resources self.entry.now.rendering.program)) ≡ true → result < length (resources self.entry.now.rendering.program) }
    {
        self.renderer.checked().resource(name.text()).unwrap_or(0)
    }

    // True if a visible boundary waits for the version of a resource that gets its value next.
    fn is_awaited(&self, resource: u32) -> bool
        requires { resource < length self.now.resources }
        ensures { (s : State) → Stands self.entry.now.rendering.program s self.entry.now → result ≡ is_awaited_in s resource (next_version s.journal resource) }
    {
        self.renderer.checked().program();
        let kept = self.resources.get(resource);
        awaited(self.renderer.fibers()).has(resource) && kept.done() == kept.next()
    }

    // The next version of a resource gets its value, for which a visible boundary may wait.
    fn give(&mut self, resource: u32, value: Int, waits: bool)
        requires within { resource < length self.old.resources }
        requires asked { length (kept_at self.old.resources resource).values ≤ last_version (kept_at self.old.resources resource) }
        requires room { self.old.resolutions < 2 ^ 62 }
        ensures { self.new ≡ record self.old { schedule = after_resolution self.old.schedule resource (length (kept_at self.old.resources resource).values) waits self.old.now; resolutions = self.old.resolutions + 1; resources = resolved_at value resource self.old.resources } }
    {
        let version = self.resources.get(resource).next();
        self.lanes.resolved(resource, version, waits, self.now);
        self.resources.resolve(resource, value);
        self.resolutions += 1;
    }

    /// Gives the next version of a resource its value (react.dev, use), and an event ends. What waits for it may be rendered
    /// again.
    ///
    /// # Errors
    ///
    /// `Already` exactly if the last version that was asked for has that value: then nothing has changed, save that the event has
    /// ended.
    pub fn resolve(&mut self, name: &Name, value: Int) -> Result<(), ResolveError>
        requires stands { StandsForSome self.old }
        requires fits { is_some (position (bytes_eq name.now) (resources self.old.rendering.program)) ≡ true }
        requires room { HasRoomFor 1 self.old }
        ensures after { (s : State) → Stands self.old.rendering.program s self.old
            → Stands self.old.rendering.program (resolved self.old.rendering.program (between_events s) name.now value).after self.new }
        ensures already { (s : State) (known : ℤ) → Stands self.old.rendering.program s self.old
            → IsErrOf result (ResolveError.Already known) ↔ (last_value s (resource_number self.old.rendering.program name.now) ≡ Some known) }
        ensures same { OnErr result (self.new ≡ record self.old { event = no_event }) }
        ensures stands { StandsForSome self.new }
        ensures program { self.new.rendering.program ≡ self.old.rendering.program }
        ensures left { (k : ℕ) → HasRoomFor (suc k) self.old → HasRoomFor k self.new }
    {
        let number = self.resource(name);
        match self.resources.get(number).last_value() {
            Some(known) => {
                self.event = Event::new(false);
                Err(ResolveError::Already { value: known })
            }
            None => {
                let waits = self.is_awaited(number);
                self.give(number, value, waits);
                self.event = Event::new(false);
                Ok(())
            }
        }
    }
}
