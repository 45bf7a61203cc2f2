// The hooks of the mounted instances.
ghost use Rattle.std.specs.Prelude.{◌≡◌, ◌+◌, ◌^◌, ◌<◌, ◌≤◌, ℕ, ℤ, true, false, nat_eq, List, Some, None, OnOk, OnErr, IfOk, IfSome, IsOk, IsSome, IsSomeAnd, if◌then◌else◌, length, map, slice_get};
ghost use Rattle.rx_ast.specs.Syntax.{Program};
ghost use Rattle.rx_base.specs.declared.cut.Cut.{Cut};
ghost use Rattle.rx_lane.specs.Lanes.{Lanes};
ghost use Rattle.rx_elem.specs.Spots.{Mounted, mounted};
ghost use Rattle.rx_queue.specs.Journal.{hook};
ghost use Rattle.rx_queue.specs.History.{Answers, committed_value};
ghost use Rattle.rx_hooks.specs.declared.hook.Hook.{Hook};
ghost use Rattle.rx_hooks.specs.Hooks.{HookHistory, HooksStandFor, changed_at, committed_hook, owed_hook, room_at};
ghost use Rattle.rx_meaning.specs.Expressions.{answers_of};
ghost use Rattle.rx_meaning.specs.Fresh.{Sight, hook_values};
ghost use Rattle.rx_meaning.specs.Settled.{DoneBefore, done_values, known_by};
ghost use Rattle.rx_model.specs.State.{State, committed_values, linked_lanes, opening};
ghost use Rattle.rx_model.specs.Accepting.{dispatched_for, lane_of};
ghost use Rattle.rx_model.specs.HooksOf.{KeepsAllHooks};
ghost use Rattle.commit_laws.specs.WaitsAgain.{without_lanes};
ghost use Rattle.rx_hook_store.specs.Store.{hook_room, kept_hooks};
ghost use Rattle.rx_hook_store.specs.Gives.{GivesValues, has_news_in, has_work_in};
ghost use Rattle.rx_hook_store.specs.Rendered.{IsRendered, KeepsInstance, RendersHooks};
ghost use Rattle.rx_hook_store.specs.Changing.{ChangesHooks, dispatched_hook, lanes_linked};
ghost use Rattle.rx_hook_store.specs.Working.{AreAllWorking, AreOnlyWorking, HaveWork};
ghost use Rattle.rx_set.specs.Sets.{holds};
ghost use Rattle.std.specs.Map.{lookup};

use crate::busy::Busy;
use rx_base::{Cut, Int, Ints};
use rx_hooks::Hooks;
use rx_lane::Lanes;
use rx_queue::{Fold, Update, Work};
use rx_set::NumberSet;
use rx_step::LaneWord;
use std::alloc::{AllocError, Global};
use std::collections::HashMap;
use std::marker::Model;

/// The hooks of the mounted instances, by the numbers of the instances. The fibers of an instance share them, as React's
/// share the queues of its hooks. Contracts see what is kept under each number, and the room for more.
pub struct HookStore {
    hooks: HashMap<u64, Hooks>,
    busy: Busy,
}

impl Model for HookStore {
    ghost use Rattle.std.specs.Prelude.{◌≡◌, ℕ, false, nat_eq, List, Some};
    ghost use Rattle.std.specs.HashMap.{spare};
    ghost use Rattle.std.specs.Map.{lookup};
    ghost use Rattle.rx_hooks.specs.declared.hook.Hook.{Hook};
    ghost use Rattle.rx_hook_store.specs.Store.{Kept};
    ghost use Rattle.rx_hook_store.specs.Working.{AreIdle};
    ghost use Rattle.rx_hook_store.specs.Busy.{is_listed};

    ghost Value = { Kept };

    ghost view = { λ s. record { entries = s.hooks.entries; spare = spare s.hooks } };

    // The hooks of an instance that is not listed as busy are idle.
    ghost invariant = { λ s. (n : ℕ) (hooks : List Hook) → lookup (nat_eq n) s.hooks.entries ≡ Some hooks → is_listed s.busy n ≡ false → AreIdle hooks };
}

// It is taken apart here alone, once for all crates.
impl Drop for HookStore {
    fn drop(self) {
        let HookStore {
            hooks: _hooks,
            busy: _busy,
        } = self;
    }
}

// Sends an update to a hook, and links the lane of a transition.
fn send(
    hooks: &mut Hooks,
    place: u32,
    word: LaneWord,
    update: Update,
    pending: Lanes,
) -> Result<Option<Lanes>, AllocError>
    requires { place < length hooks.old }
    ensures ok { OnOk result ((answers : Answers) (histories : List HookHistory) → HooksStandFor answers hooks.old histories
        → HooksStandFor answers hooks.new (changed_at place (dispatched_hook word update pending) histories)) }
    ensures err { OnErr result (hooks.new ≡ hooks.old) }
    ensures linked { IfOk result (λ lanes. (answers : Answers) (histories : List HookHistory) (history : HookHistory)
        → HooksStandFor answers hooks.old histories → slice_get histories place ≡ Some history
        → lanes ≡ lanes_linked word update pending history.linked) }
    ensures succeeds { 0 < room_at place hooks.old → IsOk result }
    ensures room { room_at place hooks.old ≤ room_at place hooks.new + 1 }
{
    let lane = update.lane;
    hooks.push(place, update)?;
    match word {
        LaneWord::Transition => Ok(Some(hooks.transition(place, lane, pending))),
        LaneWord::Sync | LaneWord::Input | LaneWord::Default => Ok(None),
    }
}

// Puts the number of an instance among these, if a render has work in its hooks.
fn put_working(
    numbers: &mut NumberSet,
    hooks: &HashMap<u64, Hooks>,
    instance: u64,
    lanes: Lanes,
    cut: Cut,
) -> Result<(), AllocError>
    ensures here { OnOk result ((kept : List Hook) → lookup (nat_eq instance) hooks.now.entries ≡ Some kept → HaveWork lanes cut kept → holds numbers.new instance ≡ true) }
    ensures others { OnOk result ((n : ℕ) → holds numbers.old n ≡ true → holds numbers.new n ≡ true) }
    ensures only { OnOk result (AreOnlyWorking lanes cut (λ n. lookup (nat_eq n) hooks.now.entries) (holds numbers.old)
        → AreOnlyWorking lanes cut (λ n. lookup (nat_eq n) hooks.now.entries) (holds numbers.new)) }
{
    if let Some(kept) = hooks.get(&instance)
        && kept.work(lanes, cut) != Work::Nothing
    {
        numbers.add(instance)?;
    }
    Ok(())
}

// Puts the numbers of those of the listed instances among these in whose hooks a render has work.
fn put_listed(
    numbers: &mut NumberSet,
    hooks: &HashMap<u64, Hooks>,
    listed: &[u64],
    lanes: Lanes,
    cut: Cut,
) -> Result<(), AllocError>
    ensures all { OnOk result ((n : ℕ) (kept : List Hook) → holds listed.now n ≡ true → lookup (nat_eq n) hooks.now.entries ≡ Some kept → HaveWork lanes cut kept
        → holds numbers.new n ≡ true) }
    ensures only { OnOk result (AreOnlyWorking lanes cut (λ n. lookup (nat_eq n) hooks.now.entries) (holds numbers.old)
        → AreOnlyWorking lanes cut (λ n. lookup (nat_eq n) hooks.now.entries) (holds numbers.new)) }
{
    'listing: for instance in listed {
        put_working(numbers, hooks, *instance, lanes, cut)?;
    }
    Ok(())
}

// Puts the numbers of all instances among these in whose hooks a render has work.
fn put_all(
    numbers: &mut NumberSet,
    hooks: &HashMap<u64, Hooks>,
    lanes: Lanes,
    cut: Cut,
) -> Result<(), AllocError>
    ensures all { OnOk result ((n : ℕ) (kept : List Hook) → lookup (nat_eq n) hooks.now.entries ≡ Some kept → HaveWork lanes cut kept → holds numbers.new n ≡ true) }
    ensures only { OnOk result (AreOnlyWorking lanes cut (λ n. lookup (nat_eq n) hooks.now.entries) (holds numbers.old)
        → AreOnlyWorking lanes cut (λ n. lookup (nat_eq n) hooks.now.entries) (holds numbers.new)) }
{
    'putting: for instance in hooks.keys() {
        put_working(numbers, hooks, *instance, lanes, cut)?;
    }
    Ok(())
}

impl HookStore {
    /// No hooks.
    pub fn new(alloc: Global) -> HookStore
        ensures none { (n : ℕ) → kept_hooks result n ≡ None }
        ensures opening { (p : Program) → KeepsAllHooks p opening (kept_hooks result) }
    {
        HookStore {
            hooks: HashMap::new(alloc),
            busy: Busy::new(alloc),
        }
    }

    /// The values of an instance's hooks for these lanes at this cut. It promises them if the cut is above the number of
    /// every done update of the instance. An `Err` changes nothing.
    ///
    /// # Errors
    ///
    /// Only if out of memory.
    pub fn render_values<F: Fold>(
        &mut self,
        alloc: Global,
        instance: u64,
        fold: &F,
        lanes: Lanes,
        cut: Cut,
    ) -> Result<Ints, AllocError>
        requires { IsSome (kept_hooks self.old instance) }
        ensures values { IfOk result (λ v. (s : Sight) (initials : List ℤ) → F.answers fold.now ≡ answers_of s.program → s.lanes ≡ lanes → s.cut ≡ cut
            → GivesValues s (kept_hooks self.old) instance initials → v ≡ hook_values s instance initials) }
        ensures ok { OnOk result (RendersHooks (F.answers fold.now) lanes cut instance (kept_hooks self.old) (kept_hooks self.new)) }
        ensures err { OnErr result ((n : ℕ) → kept_hooks self.new n ≡ kept_hooks self.old n) }
        ensures spare { self.new.spare ≡ self.old.spare }

        // What gave a render its values still does.
        ensures still { (s : Sight) (k : ℕ) (initials : List ℤ) → F.answers fold.now ≡ answers_of s.program → s.lanes ≡ lanes → s.cut ≡ cut
            → GivesValues s (kept_hooks self.old) k initials → GivesValues s (kept_hooks self.new) k initials }

        // What is kept stands for the machine's state as before if what is done lies before the cut.
        ensures states { (p : Program) (st : State) → F.answers fold.now ≡ answers_of p → DoneBefore cut st.journal.updates
            → KeepsAllHooks p st (kept_hooks self.old) → KeepsAllHooks p st (kept_hooks self.new) }

        // The commit of the render finds what it rendered.
        ensures rendered { OnOk result ((p : Program) (st : State) (initials : List ℤ) → F.answers fold.now ≡ answers_of p → DoneBefore cut st.journal.updates
            → KeepsInstance p st (kept_hooks self.old) instance initials → IsRendered p st lanes cut (kept_hooks self.new) instance initials) }
        ensures stays { (p : Program) (st : State) (k : ℕ) (initials : List ℤ) → F.answers fold.now ≡ answers_of p → DoneBefore cut st.journal.updates
            → IsRendered p st lanes cut (kept_hooks self.old) k initials → IsRendered p st lanes cut (kept_hooks self.new) k initials }
    {
        let hooks = self.hooks.get_mut(&instance).unwrap();
        let values = hooks.render_values(alloc, fold, lanes, cut);
        self.busy.note(instance, hooks);
        values
    }

    /// Makes room for so many updates more of a hook of an instance, by its place from 0. An `Err` changes nothing.
    ///
    /// # Errors
    ///
    /// Only if out of memory.
    pub fn reserve_updates(
        &mut self,
        instance: u64,
        place: u32,
        more: usize,
    ) -> Result<(), AllocError>
        requires { IsSomeAnd (kept_hooks self.old instance) (λ hooks. place < length hooks) }
        ensures ok { OnOk result (more ≤ hook_room instance place (kept_hooks self.new)) }
        ensures err { OnErr result ((n : ℕ) → kept_hooks self.new n ≡ kept_hooks self.old n) }
        ensures spare { self.new.spare ≡ self.old.spare }

        // The hooks stand for what they stood for.
        ensures same { ChangesHooks (λ histories. histories) instance (kept_hooks self.old) (kept_hooks self.new) }

        // What gave a render its values still does, what is kept stands for the machine's state as before, and what a render
        // has rendered stays so.
        ensures still { (s : Sight) (k : ℕ) (initials : List ℤ) → GivesValues s (kept_hooks self.old) k initials → GivesValues s (kept_hooks self.new) k initials }
        ensures states { (p : Program) (s : State) → KeepsAllHooks p s (kept_hooks self.old) → KeepsAllHooks p s (kept_hooks self.new) }
        ensures rendered { (p : Program) (s : State) (lanes : Lanes) (cut : Cut) (k : ℕ) (initials : List ℤ) → IsRendered p s lanes cut (kept_hooks self.old) k initials
            → IsRendered p s lanes cut (kept_hooks self.new) k initials }
    {
        let hooks = self.hooks.get_mut(&instance).unwrap();
        hooks.reserve(place, more)
    }

    /// Sends an update to a hook of an instance, by its place from 0. If the hook has room for it, it succeeds. A transition
    /// also links the update's lane with those lanes of the hook that are still pending, and gives all of them: React renders
    /// the transitions of one queue together (react.dev, useTransition). An `Err` changes nothing.
    ///
    /// # Errors
    ///
    /// Only if out of memory.
    pub fn dispatch(
        &mut self,
        instance: u64,
        place: u32,
        word: LaneWord,
        update: Update,
        pending: Lanes,
    ) -> Result<Option<Lanes>, AllocError>
        requires { IsSomeAnd (kept_hooks self.old instance) (λ hooks. place < length hooks) }
        ensures ok { OnOk result (ChangesHooks (changed_at place (dispatched_hook word update pending)) instance (kept_hooks self.old) (kept_hooks self.new)) }
        ensures err { OnErr result ((n : ℕ) → kept_hooks self.new n ≡ kept_hooks self.old n) }
        ensures spare { self.new.spare ≡ self.old.spare }
        ensures linked { IfOk result (λ lanes. (answers : Answers) (hooks : List Hook) (histories : List HookHistory) (history : HookHistory)
            → kept_hooks self.old instance ≡ Some hooks → HooksStandFor answers hooks histories → slice_get histories place ≡ Some history
            → lanes ≡ lanes_linked word update pending history.linked) }

        // What is kept stands for the machine's state after the dispatch if this is the next update that it accepts.
        ensures states { OnOk result ((p : Program) (s : State) → update.number ≡ length s.journal.updates → update.lane ≡ lane_of s word → pending ≡ s.schedule.pending
            → KeepsAllHooks p s (kept_hooks self.old) → KeepsAllHooks p (dispatched_for s word (hook instance place) update.op) (kept_hooks self.new)) }
        ensures links { IfOk result (λ lanes. (p : Program) (s : State) (initials : List ℤ) → KeepsInstance p s (kept_hooks self.old) instance initials
            → lanes ≡ lanes_linked word update pending (linked_lanes s.linked (hook instance place))) }

        // What a render in progress has rendered, whose cut the update lies behind, stays so.
        ensures rendered { OnOk result ((p : Program) (s : State) (lanes : Lanes) (cut : Cut) (k : ℕ) (initials : List ℤ) → update.number ≡ length s.journal.updates
            → update.lane ≡ lane_of s word → pending ≡ s.schedule.pending → cut.updates ≤ update.number → IsRendered p s lanes cut (kept_hooks self.old) k initials
            → IsRendered p (dispatched_for s word (hook instance place) update.op) lanes cut (kept_hooks self.new) k initials) }

        // It succeeds if there is room, and takes no more of it than for one update.
        ensures succeeds { 0 < hook_room instance place (kept_hooks self.old) → IsOk result }
        ensures room { hook_room instance place (kept_hooks self.old) ≤ hook_room instance place (kept_hooks self.new) + 1 }
    {
        let hooks = self.hooks.get_mut(&instance).unwrap();
        let linked = send(hooks, place, word, update, pending);
        self.busy.add(instance);
        linked
    }

    /// The committed value of a hook of an instance, by its place from 0.
    pub fn committed(&self, instance: u64, place: u32) -> Int
        requires { IsSomeAnd (kept_hooks self.now instance) (λ hooks. place < length hooks) }
        ensures value { (answers : Answers) (hooks : List Hook) (histories : List HookHistory) (history : HookHistory) → kept_hooks self.now instance ≡ Some hooks
            → HooksStandFor answers hooks histories → slice_get histories place ≡ Some history → result ≡ committed_value answers history.updates }
        ensures states { (p : Program) (s : State) (k : ℕ) (m : Mounted) → KeepsAllHooks p s (kept_hooks self.now) → slice_get (mounted s.tree) k ≡ Some m
            → m.number ≡ instance → slice_get (committed_values p s.journal m) place ≡ Some result }
    {
        self.hooks.get(&instance).unwrap().committed(place)
    }

    /// Whether a render for these lanes at this cut has work in the hooks of an instance: an included update of one of them
    /// is not done (react.dev, useState: React skips a component without such).
    pub fn has_work(&self, instance: u64, lanes: Lanes, cut: Cut) -> bool
        requires { IsSome (kept_hooks self.now instance) }

        // It has exactly if an included update of a hook's history is not done.
        ensures work { (answers : Answers) (hooks : List Hook) (histories : List HookHistory) → kept_hooks self.now instance ≡ Some hooks
            → HooksStandFor answers hooks histories → result ≡ has_work_in lanes cut histories }

        // If there is none, the render sees the values that are committed.
        ensures calm { (s : Sight) (initials : List ℤ) → s.lanes ≡ lanes → s.cut ≡ cut → GivesValues s (kept_hooks self.now) instance initials
            → result ≡ false → hook_values s instance initials ≡ done_values s.program (known_by s) instance initials }
    {
        if !self.busy.lists(instance) {
            return false;
        }
        let hooks = self.hooks.get(&instance).unwrap();
        hooks.work(lanes, cut) != Work::Nothing
    }

    /// Whether a render for these lanes at this cut has news in the hooks of an instance: an included update of one of them
    /// is neither done nor owed (react.dev, Suspense: React tries hidden content again when an update reaches it).
    pub fn has_news(&self, instance: u64, lanes: Lanes, cut: Cut) -> bool
        requires { IsSome (kept_hooks self.now instance) }

        // It has exactly if an included update of a hook's history is neither done nor owed.
        ensures news { (answers : Answers) (hooks : List Hook) (histories : List HookHistory) → kept_hooks self.now instance ≡ Some hooks
            → HooksStandFor answers hooks histories → result ≡ has_news_in lanes cut histories }

        // If there is none, the render sees the values that a render without lanes sees.
        ensures same { (s : Sight) (initials : List ℤ) → s.lanes ≡ lanes → s.cut ≡ cut → GivesValues s (kept_hooks self.now) instance initials
            → result ≡ false → hook_values (without_lanes s) instance initials ≡ hook_values s instance initials }
    {
        if !self.busy.lists(instance) {
            return false;
        }
        let hooks = self.hooks.get(&instance).unwrap();
        hooks.work(lanes, cut) == Work::New
    }

    /// The numbers of the instances in whose hooks a render for these lanes at this cut has work. It asks those alone that may
    /// have queued updates.
    ///
    /// # Errors
    ///
    /// Only if out of memory.
    pub fn working(&self, alloc: Global, lanes: Lanes, cut: Cut) -> Result<NumberSet, AllocError>
        ensures all { IfOk result (λ numbers. AreAllWorking lanes cut (kept_hooks self.now) (holds numbers)) }
        ensures only { IfOk result (λ numbers. AreOnlyWorking lanes cut (kept_hooks self.now) (holds numbers)) }
    {
        let mut numbers = NumberSet::new(alloc);
        if self.busy.all {
            put_all(&mut numbers, &self.hooks, lanes, cut)?;
        } else {
            put_listed(
                &mut numbers,
                &self.hooks,
                self.busy.numbers.members(),
                lanes,
                cut,
            )?;
        }
        Ok(numbers)
    }

    /// The numbers of the instances that may have queued updates, if they are listed one by one: in the hooks of any other no
    /// render has work, and it sees the values that are committed.
    pub fn stirred(&self) -> Option<&NumberSet>
        ensures values { IfSome result (λ set. (s : Sight) (n : ℕ) (initials : List ℤ) → holds set.now n ≡ false → s.cut.updates < 2 ^ 64
            → GivesValues s (kept_hooks self.now) n initials → hook_values s n initials ≡ done_values s.program (known_by s) n initials) }
        ensures rest { IfSome result (λ set. (n : ℕ) (answers : Answers) (hooks : List Hook) (histories : List HookHistory) (lanes : Lanes) (cut : Cut) → holds set.now n ≡ false
            → kept_hooks self.now n ≡ Some hooks → HooksStandFor answers hooks histories → cut.updates < 2 ^ 64 → has_work_in lanes cut histories ≡ false) }
    {
        if self.busy.all {
            return None;
        }
        Some(&self.busy.numbers)
    }

    /// Makes room for so many instances more.
    pub fn reserve(&mut self, more: u64) -> Result<(), AllocError>
        ensures room { OnOk result (more ≤ self.new.spare) }
        ensures same { (n : ℕ) → kept_hooks self.new n ≡ kept_hooks self.old n }
        ensures kept { self.old.spare ≤ self.new.spare }
    {
        self.hooks.reserve(more as usize)
    }

    /// Commits what was rendered last of an instance's hooks, at a commit that shows it.
    pub fn commit_instance(&mut self, instance: u64)
        requires { IsSome (kept_hooks self.old instance) }
        ensures changes { ChangesHooks (map committed_hook) instance (kept_hooks self.old) (kept_hooks self.new) }
        ensures spare { self.new.spare ≡ self.old.spare }
    {
        let hooks = self.hooks.get_mut(&instance).unwrap();
        hooks.commit();
        self.busy.note(instance, hooks);
    }

    /// Marks what a commit for these lanes at this cut owes to an instance that it keeps hidden.
    pub fn owe_instance(&mut self, instance: u64, lanes: Lanes, cut: Cut)
        requires { IsSome (kept_hooks self.old instance) }
        ensures changes { ChangesHooks (map (owed_hook lanes cut)) instance (kept_hooks self.old) (kept_hooks self.new) }
        ensures spare { self.new.spare ≡ self.old.spare }
    {
        let hooks = self.hooks.get_mut(&instance).unwrap();
        hooks.mark_owed(lanes, cut);
        self.busy.note(instance, hooks);
    }

    /// Keeps the hooks of an instance, which is new or loses those that it had.
    pub fn insert(&mut self, instance: u64, hooks: Hooks)
        requires { 1 ≤ self.old.spare }
        ensures kept { (n : ℕ) → kept_hooks self.new n ≡ (if nat_eq instance n then Some hooks else kept_hooks self.old n) }
        ensures spare { self.old.spare ≤ self.new.spare + 1 }
    {
        self.busy.note(instance, &hooks);
        let _ = self.hooks.insert(instance, hooks);
    }

    /// Drops the hooks of an instance, if there are any.
    pub fn remove(&mut self, instance: u64)
        ensures gone { (n : ℕ) → kept_hooks self.new n ≡ (if nat_eq instance n then None else kept_hooks self.old n) }
        ensures spare { self.old.spare ≤ self.new.spare }
    {
        let _ = self.hooks.remove(&instance);
        self.busy.remove(instance);
    }
}
