// Examples: what the machine writes for small programs and scripts.
ghost use Rattle.machine_examples.specs.Mounting.{NoScript, MountAndSet, Remount, Unmounted, Wrapping};
ghost use Rattle.machine_examples.specs.Children.{Attributes, Rotated, EqualKeys};
ghost use Rattle.machine_examples.specs.Queues.{Rebased, OverAValue, ReducerRebased, InputWithDefault, LanesGoRound};
ghost use Rattle.machine_examples.specs.Effects.{ChangeAndRemoval, SyncRunsPassive, DefaultIsNotSliced};
ghost use Rattle.machine_examples.specs.Contexts.{InsideAndOutside, PlacedTwice};
ghost use Rattle.machine_examples.specs.Slices.{MustFinish, Yields, Interrupted, NotInterrupted, Expired, NotExpired};
ghost use Rattle.machine_examples.specs.Boundaries.{FirstWait, LaterResolution, ResolvedTwice, WaitingFallback, HiddenHosts, HidingAndShowing};
ghost use Rattle.machine_examples.specs.Sync.{AllSyncPremises, SyncPremises};
ghost use Rattle.machine_examples.specs.Throws.{Caught, CaughtAnew, CaughtLate};
ghost use Rattle.machine_examples.specs.Transitions.{Owed, Deferred, DeferredThenResolved, NewDeadline, Linked};

/// Mounting, unmounting and the values of expressions (react.dev, Preserving and Resetting State).
pub fn mounting()
    ensures no_script { NoScript }
    ensures mount_and_set { MountAndSet }
    ensures remount { Remount }
    ensures unmounted { Unmounted }
    ensures wrapping { Wrapping }
{}

/// Keys, moves and the operations on hosts (react.dev, Rendering Lists).
pub fn children()
    ensures attributes { Attributes }
    ensures rotated { Rotated }
    ensures equal_keys { EqualKeys }
{}

/// Updates that a render skips (react.dev, Queueing a Series of State Updates).
pub fn queues()
    ensures rebased { Rebased }
    ensures over_a_value { OverAValue }
    ensures reducer_rebased { ReducerRebased }
    ensures input_with_default { InputWithDefault }
    ensures lanes_go_round { LanesGoRound }
{}

/// Effects, in their order (react.dev, useEffect and useLayoutEffect).
pub fn effects()
    ensures change_and_removal { ChangeAndRemoval }
    ensures sync_runs_passive { SyncRunsPassive }
    ensures default_is_not_sliced { DefaultIsNotSliced }
{}

/// Contexts and given children (react.dev, useContext; Passing JSX as children).
pub fn contexts()
    ensures inside_and_outside { InsideAndOutside }
    ensures placed_twice { PlacedTwice }
{}

/// Renders that yield and are interrupted (react.dev, useTransition).
pub fn slices()
    ensures must_finish { MustFinish }
    ensures yields { Yields }
    ensures interrupted { Interrupted }
    ensures not_interrupted { NotInterrupted }
    ensures expired { Expired }
    ensures not_expired { NotExpired }
{}

/// Content that waits (react.dev, Suspense).
pub fn boundaries()
    ensures first_wait { FirstWait }
    ensures later_resolution { LaterResolution }
    ensures resolved_twice { ResolvedTwice }
    ensures waiting_fallback { WaitingFallback }
    ensures hidden_hosts { HiddenHosts }
    ensures hiding_and_showing { HidingAndShowing }
{}

/// What is thrown (react.dev, Catching rendering errors with an error boundary).
pub fn throws()
    ensures caught { Caught }
    ensures caught_anew { CaughtAnew }
    ensures caught_late { CaughtLate }
{}

/// Transitions that wait, and updates that hidden content missed (react.dev, useTransition and Suspense).
pub fn transitions()
    ensures owed { Owed }
    ensures deferred { Deferred }
    ensures deferred_then_resolved { DeferredThenResolved }
    ensures new_deadline { NewDeadline }
    ensures linked { Linked }
{}

/// A script whose runs meet the premises of the law of Sync, so that it speaks of something.
pub fn sync()
    ensures premises { SyncPremises }
    ensures all_sync { AllSyncPremises }
{}
