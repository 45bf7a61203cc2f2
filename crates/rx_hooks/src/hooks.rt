// The hooks of a component instance.
ghost use Rattle.std.specs.Prelude.{◌≡◌, ◌+◌, ◌≤◌, ◌<◌, ◌↔◌, ℕ, IsTrue, [], List, length, map, slice_get, Some, OnOk, OnErr, IfOk, IsOk, vec_capacity};
ghost use Rattle.rx_queue.specs.History.{Answers, committed_value};
ghost use Rattle.rx_hooks.specs.declared.hook.Hook.{Hook};
ghost use Rattle.rx_hooks.specs.Hooks.{AllAboveDone, HookHistory, HooksStandFor, changed_at, committed_hook, links_with, mounted, owed_hook, pending_of_hooks, relinked, rendered, room_at, sent, states_of, work_of_hooks};

use crate::hook::Hook;
use crate::work::first_work;
use rx_base::{Cut, Int, Ints};
use rx_lane::{Lane, Lanes};
use rx_queue::{Fold, Processed, Queue, Update, Work};
use std::alloc::{AllocError, Global};
use std::marker::Model;

/// The hooks of a component instance, in the order of its body (react.dev, Rules of Hooks). Contracts say for which
/// histories of hooks it stands.
#[derive(Drop)]
pub struct Hooks {
    hooks: Vec<Hook>,
}

impl Model for Hooks {
    ghost use Rattle.std.specs.Prelude.{List};
    ghost use Rattle.rx_hooks.specs.declared.hook.Hook.{Hook};

    ghost Value = { List Hook };

    ghost view = { λ h. h.hooks.items };
}

// Renders each hook, and keeps what that gives.
fn render_all<F: Fold>(hooks: &mut [Hook], fold: &F, lanes: Lanes, cut: Cut)
    ensures stands { (histories : List HookHistory) → HooksStandFor (F.answers fold.now) hooks.old histories → AllAboveDone cut histories
        → HooksStandFor (F.answers fold.now) hooks.new (map (rendered lanes cut) histories) }
    ensures values { (histories : List HookHistory) → HooksStandFor (F.answers fold.now) hooks.old histories → AllAboveDone cut histories
        → map (λ hook. hook.processed.value) hooks.new ≡ states_of (F.answers fold.now) lanes cut histories }
{
    'rendering: for hook in hooks.iter_mut() {
        hook.processed = hook.queue.process(fold, lanes, cut);
    }
}

// Appends the values of the last render, for which there is room.
fn push_values(values: &mut Vec<Int>, hooks: &[Hook])
    requires empty { values.old.items ≡ [] }
    requires room { length hooks.now ≤ vec_capacity values.old }
    ensures { values.new.items ≡ map (λ hook. hook.processed.value) hooks.now }
{
    'pushing: for hook in hooks {
        values.push(hook.processed.value).unwrap();
    }
}

fn commit_all(hooks: &mut [Hook])
    ensures { (answers : Answers) (histories : List HookHistory) → HooksStandFor answers hooks.old histories → HooksStandFor answers hooks.new (map committed_hook histories) }
{
    'committing: for hook in hooks.iter_mut() {
        hook.queue.commit(hook.processed);
    }
}

fn owe_all(hooks: &mut [Hook], lanes: Lanes, cut: Cut)
    ensures { (answers : Answers) (histories : List HookHistory) → HooksStandFor answers hooks.old histories → HooksStandFor answers hooks.new (map (owed_hook lanes cut) histories) }
{
    'owing: for hook in hooks.iter_mut() {
        hook.queue.mark_owed(lanes, cut);
    }
}

fn work_in(hooks: &[Hook], lanes: Lanes, cut: Cut) -> Work
    ensures { (answers : Answers) (histories : List HookHistory) → HooksStandFor answers hooks.now histories → result ≡ work_of_hooks lanes cut histories }
{
    let mut work = Work::Nothing;
    'working: for hook in hooks {
        work = first_work(work, hook.queue.work(lanes, cut));
    }
    work
}

fn pending_in(hooks: &[Hook]) -> Lanes
    ensures { (answers : Answers) (histories : List HookHistory) → HooksStandFor answers hooks.now histories → result ≡ pending_of_hooks histories }
{
    let mut lanes = Lanes::none();
    'pending: for hook in hooks {
        lanes = lanes.union(hook.queue.pending_lanes());
    }
    lanes
}

impl Hooks {
    /// Hooks with these initial values.
    ///
    /// # Errors
    ///
    /// Only if out of memory.
    pub fn mount(alloc: Global, initials: &[Int]) -> Result<Hooks, AllocError>
        ensures stands { IfOk result (λ hooks. (answers : Answers) → HooksStandFor answers hooks (map mounted initials.now)) }
        ensures count { IfOk result (λ hooks. length hooks ≡ length initials.now) }
    {
        let mut hooks = Vec::with_capacity(alloc, initials.len())?;
        'mounting: for initial in initials {
            hooks.push(Hook {
                queue: Queue::new(alloc, *initial),
                processed: Processed {
                    value: *initial,
                    base: *initial,
                },
                linked: Lanes::none(),
            })?;
        }
        Ok(Hooks { hooks })
    }

    /// Makes room for so many updates more of a hook, by its place from 0. An `Err` changes nothing.
    ///
    /// # Errors
    ///
    /// Only if out of memory.
    pub fn reserve(&mut self, hook: u32, more: usize) -> Result<(), AllocError>
        requires { hook < length self.old }
        ensures ok { OnOk result (more ≤ room_at hook self.new) }
        ensures err { OnErr result (self.new ≡ self.old) }

        // They stand for just what they stood for.
        ensures same { (answers : Answers) (histories : List HookHistory) → HooksStandFor answers self.old histories ↔ HooksStandFor answers self.new histories }
        ensures count { length self.new ≡ length self.old }
    {
        let hook = &mut self.hooks[hook as usize];
        hook.queue.reserve(more)
    }

    /// Sends an update to a hook, by its place from 0. If the hook has room for it, it succeeds. An `Err` changes nothing.
    ///
    /// # Errors
    ///
    /// Only if out of memory.
    pub fn push(&mut self, hook: u32, update: Update) -> Result<(), AllocError>
        requires { hook < length self.old }
        ensures ok { OnOk result ((answers : Answers) (histories : List HookHistory) → HooksStandFor answers self.old histories
            → HooksStandFor answers self.new (changed_at hook (sent update) histories)) }
        ensures count { length self.new ≡ length self.old }
        ensures err { OnErr result (self.new ≡ self.old) }

        // It succeeds if there is room, and takes no more of it than for one update.
        ensures succeeds { 0 < room_at hook self.old → IsOk result }
        ensures room { room_at hook self.old ≤ room_at hook self.new + 1 }
    {
        let hook = &mut self.hooks[hook as usize];
        hook.queue.push(update)
    }

    /// The states of the hooks for these lanes at this cut. It promises them if the cut is above the number of every
    /// done update. An `Err` changes nothing.
    ///
    /// # Errors
    ///
    /// Only if out of memory.
    pub fn render_values<F: Fold>(
        &mut self,
        alloc: Global,
        fold: &F,
        lanes: Lanes,
        cut: Cut,
    ) -> Result<Ints, AllocError>
        ensures stands { OnOk result ((histories : List HookHistory) → HooksStandFor (F.answers fold.now) self.old histories → AllAboveDone cut histories
            → HooksStandFor (F.answers fold.now) self.new (map (rendered lanes cut) histories)) }
        ensures values { IfOk result (λ values. (histories : List HookHistory) → HooksStandFor (F.answers fold.now) self.old histories → AllAboveDone cut histories
            → values ≡ states_of (F.answers fold.now) lanes cut histories) }
        ensures count { length self.new ≡ length self.old }
        ensures err { OnErr result (self.new ≡ self.old) }
    {
        let mut values = Vec::with_capacity(alloc, self.hooks.len())?;
        render_all(&mut self.hooks, fold, lanes, cut);
        push_values(&mut values, &self.hooks);
        Ok(Ints::new(values))
    }

    /// Commits what was rendered last.
    pub fn commit(&mut self)
        ensures stands { (answers : Answers) (histories : List HookHistory) → HooksStandFor answers self.old histories → HooksStandFor answers self.new (map committed_hook histories) }
        ensures count { length self.new ≡ length self.old }
    {
        commit_all(&mut self.hooks);
    }

    /// Marks the updates before the cut that are not done and have one of these lanes as owed, at a commit that keeps the
    /// component's content hidden.
    pub fn mark_owed(&mut self, lanes: Lanes, cut: Cut)
        ensures stands { (answers : Answers) (histories : List HookHistory) → HooksStandFor answers self.old histories
            → HooksStandFor answers self.new (map (owed_hook lanes cut) histories) }
        ensures count { length self.new ≡ length self.old }
    {
        owe_all(&mut self.hooks, lanes, cut);
    }

    /// Which work a render with these lanes at this cut has in the hooks: new if any hook has new work, else owed if
    /// any has owed work.
    pub fn work(&self, lanes: Lanes, cut: Cut) -> Work
        ensures { (answers : Answers) (histories : List HookHistory) → HooksStandFor answers self.now histories → result ≡ work_of_hooks lanes cut histories }
    {
        work_in(&self.hooks, lanes, cut)
    }

    /// The lanes of the updates of the hooks that are neither done nor owed.
    pub fn pending_lanes(&self) -> Lanes
        ensures { (answers : Answers) (histories : List HookHistory) → HooksStandFor answers self.now histories → result ≡ pending_of_hooks histories }
    {
        pending_in(&self.hooks)
    }

    /// How many hooks there are.
    pub fn len(&self) -> usize
        ensures { result ≡ length self.now }
    {
        self.hooks.len()
    }

    /// True if the component has no hook.
    pub fn is_empty(&self) -> bool
        ensures { IsTrue result ↔ (self.now ≡ []) }
    {
        self.hooks.is_empty()
    }

    /// The committed value of a hook, by its place from 0.
    pub fn committed(&self, hook: u32) -> Int
        requires { hook < length self.now }
        ensures { (answers : Answers) (histories : List HookHistory) (history : HookHistory) → HooksStandFor answers self.now histories
            → slice_get histories hook ≡ Some history → result ≡ committed_value answers history.updates }
    {
        let hook = &self.hooks[hook as usize];
        hook.queue.committed()
    }

    /// Links the lane of a transition dispatch with those transition lanes of the hook that are still pending, and gives
    /// all of them: React renders the transitions of one queue together.
    pub fn transition(&mut self, hook: u32, lane: Lane, pending: Lanes) -> Lanes
        requires { hook < length self.old }
        ensures stands { (answers : Answers) (histories : List HookHistory) → HooksStandFor answers self.old histories
            → HooksStandFor answers self.new (changed_at hook (relinked lane pending) histories) }
        ensures count { length self.new ≡ length self.old }
        ensures linked { (answers : Answers) (histories : List HookHistory) (history : HookHistory) → HooksStandFor answers self.old histories
            → slice_get histories hook ≡ Some history → result ≡ links_with lane pending history.linked }
        ensures room { (place : ℕ) → room_at place self.new ≡ room_at place self.old }
    {
        let hook = &mut self.hooks[hook as usize];
        let linked = hook.linked.intersection(pending).union(Lanes::one(lane));
        hook.linked = linked;
        linked
    }
}
