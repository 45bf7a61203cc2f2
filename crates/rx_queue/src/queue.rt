// The queue of a hook.
ghost use Rattle.std.specs.Prelude.{◌≡◌, ◌+◌, ◌<◌, ◌≤◌, ◌↔◌, drop, map, OnOk, OnErr, IsOk};
ghost use Rattle.std.specs.List.{list_any, prefix_len};
ghost use Rattle.rx_queue.specs.declared.queue.Processed.{Processed};
ghost use Rattle.rx_queue.specs.History.{Answers, AllDone, History, IsAboveDone, committed as committed_history, committed_value, in_order, is_done, is_new, is_owed_before, marked_owed as marked_history, noted, opening, owed_after, pending_of, processed as processed_history, pushed, settled, state_from, state_of, was_included};
ghost use Rattle.rx_queue.specs.Stands.{IsLast, StandsFor, work_of};

use crate::entry::{Entry, Standing};
use crate::fold::Fold;
use crate::update::Update;
use rx_base::{Cut, Int};
use rx_lane::Lanes;
use std::alloc::{AllocError, Global};
use std::marker::Model;

/// Which work a render has in a hook: updates that are new to it, else updates that are owed, else none.
#[derive(Clone, Copy, Debug, PartialEq, Eq)]
pub enum Work {
    New,
    Owed,
    Nothing,
}

/// What a processing gave: the hook's state, and the base state that a commit of it leaves.
#[derive(Clone, Copy, Debug, PartialEq, Eq)]
pub struct Processed {
    pub value: Int,
    pub base: Int,
}

/// The updates of one hook (react.dev, Queueing a Series of State Updates). It keeps a base state and a base queue, which
/// begins at the first update that is not done: an update that a render skips keeps its place, and later ones are applied
/// again on top of it. Contracts say for which histories of the hook it stands, and how many more updates it has room for.
#[derive(Drop)]
pub struct Queue {
    base: Int,
    committed: Int,
    entries: Vec<Entry>,
}

impl Model for Queue {
    ghost use Rattle.std.specs.Prelude.{◌-◌, vec_capacity, vec_len};
    ghost use Rattle.rx_queue.specs.Stands.{Kept};

    ghost Value = { Kept };

    ghost view = { λ q. record { base = q.base; committed = q.committed; queue = q.entries.items; room = vec_capacity q.entries - vec_len q.entries } };
}

// Notes of each update whether a render with these lanes at this cut includes it.
fn note_included(entries: &mut [Entry], lanes: Lanes, cut: Cut)
    ensures { entries.new ≡ map (noted lanes cut) entries.old }
{
    'noting: for entry in entries.iter_mut() {
        *entry = entry.noted(lanes, cut);
    }
}

// How many updates were included before the first that was not.
fn leading_included(entries: &[Entry]) -> usize
    ensures { result ≡ prefix_len was_included entries.now }
{
    entries.iter().take_while(|entry| entry.included).count()
}

// The state after the updates that were included.
fn fold_included<F: Fold>(fold: &F, entries: &[Entry], state: Int) -> Int
    ensures { result ≡ state_from (F.answers fold.now) was_included state entries.now }
{
    let mut state = state;
    'folding: for entry in entries {
        if entry.included {
            state = fold.apply(&entry.update.op, state);
        }
    }
    state
}

// Marks what was included as done.
fn settle_included(entries: &mut [Entry])
    ensures { entries.new ≡ map settled entries.old }
{
    'settling: for entry in entries.iter_mut() {
        *entry = entry.settled();
    }
}

// How many updates are done before the first that is not.
fn leading_done(entries: &[Entry]) -> usize
    ensures { result ≡ prefix_len is_done entries.now }
{
    entries.iter().take_while(|entry| entry.is_done()).count()
}

// Takes out the updates before the first that is not done.
fn drop_leading_done(entries: &mut Vec<Entry>)
    ensures { entries.new.items ≡ drop (prefix_len is_done entries.old.items) entries.old.items }
{
    let count = leading_done(entries);
    let left = entries.len() - count;
    entries.rotate_left(count);
    entries.truncate(left);
}

// Marks as owed what a commit for these lanes at this cut owes to hidden content.
fn owe(entries: &mut [Entry], lanes: Lanes, cut: Cut)
    ensures { entries.new ≡ map (owed_after lanes cut) entries.old }
{
    'owing: for entry in entries.iter_mut() {
        *entry = entry.owed_after(lanes, cut);
    }
}

fn any_new(entries: &[Entry], lanes: Lanes, cut: Cut) -> bool
    ensures { result ≡ list_any (is_new lanes cut) entries.now }
{
    entries.iter().any(|entry| entry.is_new(lanes, cut))
}

fn any_owed(entries: &[Entry], cut: Cut) -> bool
    ensures { result ≡ list_any (is_owed_before cut) entries.now }
{
    entries.iter().any(|entry| entry.is_owed_before(cut))
}

fn work_in(entries: &[Entry], lanes: Lanes, cut: Cut) -> Work
    ensures { result ≡ work_of lanes cut entries.now }
{
    if any_new(entries, lanes, cut) {
        Work::New
    } else if any_owed(entries, cut) {
        Work::Owed
    } else {
        Work::Nothing
    }
}

fn pending_in(entries: &[Entry]) -> Lanes
    ensures { result ≡ pending_of entries.now }
{
    let mut lanes = Lanes::none();
    'pending: for entry in entries {
        if entry.is_open() {
            lanes = lanes.union(Lanes::one(entry.update.lane));
        }
    }
    lanes
}

impl Queue {
    /// The queue of a hook at its mount, with this value.
    pub fn new(alloc: Global, initial: Int) -> Queue
        ensures { (answers : Answers) → StandsFor answers result (opening initial) }
    {
        Queue {
            base: initial,
            committed: initial,
            entries: Vec::new(alloc),
        }
    }

    /// Makes room for so many updates more. An `Err` changes nothing.
    ///
    /// # Errors
    ///
    /// Only if out of memory.
    pub fn reserve(&mut self, more: usize) -> Result<(), AllocError>
        ensures ok { OnOk result (more ≤ self.new.room) }
        ensures err { OnErr result (self.new ≡ self.old) }

        // Nothing but the room changes, so it stands for just what it stood for.
        ensures rest { self.new ≡ record self.old { room = self.new.room } }
        ensures same { (answers : Answers) (history : History) → StandsFor answers self.old history ↔ StandsFor answers self.new history }
        ensures room { self.old.room ≤ self.new.room }
    {
        self.entries.reserve(more)
    }

    /// Takes an update, which stays open. If there is room for it, it succeeds. An `Err` changes nothing.
    ///
    /// # Errors
    ///
    /// Only if out of memory.
    pub fn push(&mut self, update: Update) -> Result<(), AllocError>
        ensures ok { OnOk result ((answers : Answers) (history : History) → StandsFor answers self.old history → StandsFor answers self.new (pushed update history)) }
        ensures err { OnErr result (self.new ≡ self.old) }

        // What was processed last stays so.
        ensures last { (answers : Answers) (history : History) (processed : Processed) → IsLast answers history processed → IsLast answers (pushed update history) processed }

        // It succeeds if there is room, and takes no more of it than for one update.
        ensures succeeds { 0 < self.old.room → IsOk result }
        ensures room { self.old.room ≤ self.new.room + 1 }
    {
        self.entries.reserve(1)?;
        self.entries.push_reserved(Entry {
            update,
            standing: Standing::Open,
            included: false,
        });
        Ok(())
    }

    /// The state for these lanes at this cut. It promises that state if the cut is above the number of every done update.
    pub fn process<F: Fold>(&mut self, fold: &F, lanes: Lanes, cut: Cut) -> Processed
        ensures stands { (answers : Answers) (history : History) → StandsFor answers self.old history → StandsFor answers self.new (processed_history lanes cut history) }
        ensures value { (history : History) → StandsFor (F.answers fold.now) self.old history → IsAboveDone cut history
            → result.value ≡ state_of (F.answers fold.now) lanes cut history }
        ensures last { (history : History) → StandsFor (F.answers fold.now) self.old history → IsAboveDone cut history
            → IsLast (F.answers fold.now) (processed_history lanes cut history) result }
    {
        note_included(&mut self.entries, lanes, cut);
        let lead = leading_included(&self.entries);
        let base = fold_included(fold, &self.entries[..lead], self.base);
        let value = fold_included(fold, &self.entries[lead..], base);
        Processed { value, base }
    }

    /// Commits what this queue processed last: the updates that were included then are done, and those before the first
    /// that is not done leave the base queue.
    pub fn commit(&mut self, processed: Processed)
        ensures stands { (answers : Answers) (history : History) → StandsFor answers self.old history → IsLast answers history processed
            → StandsFor answers self.new (committed_history history) }

        // What was processed last stays so.
        ensures last { (answers : Answers) (history : History) → IsLast answers history processed → IsLast answers (committed_history history) processed }
    {
        settle_included(&mut self.entries);
        drop_leading_done(&mut self.entries);
        self.base = processed.base;
        self.committed = processed.value;
    }

    /// Marks the updates before the cut that are not done and have one of these lanes as owed, at a commit that keeps the
    /// hook's content hidden.
    pub fn mark_owed(&mut self, lanes: Lanes, cut: Cut)
        ensures stands { (answers : Answers) (history : History) → StandsFor answers self.old history → StandsFor answers self.new (marked_history lanes cut history) }

        // What was processed last stays so.
        ensures last { (answers : Answers) (history : History) (processed : Processed) → IsLast answers history processed → IsLast answers (marked_history lanes cut history) processed }
    {
        owe(&mut self.entries, lanes, cut);
    }

    /// The state after the done updates.
    pub fn committed(&self) -> Int
        ensures value { (answers : Answers) (history : History) → StandsFor answers self.now history → result ≡ committed_value answers history }

        // If all updates are done, it is what they give in the order in which they came.
        ensures in_order { (answers : Answers) (history : History) → StandsFor answers self.now history → AllDone history → result ≡ in_order answers history }
    {
        self.committed
    }

    /// Which work a render with these lanes at this cut has in the hook.
    pub fn work(&self, lanes: Lanes, cut: Cut) -> Work
        ensures { (answers : Answers) (history : History) → StandsFor answers self.now history → result ≡ work_of lanes cut history.entries }
    {
        work_in(&self.entries, lanes, cut)
    }

    /// The lanes of the updates that are neither done nor owed.
    pub fn pending_lanes(&self) -> Lanes
        ensures { (answers : Answers) (history : History) → StandsFor answers self.now history → result ≡ pending_of history.entries }
    {
        pending_in(&self.entries)
    }
}
