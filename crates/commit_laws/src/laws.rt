// Laws of the definitions.
ghost use Rattle.std.specs.Prelude.{◌≡◌, ◌&&◌, not, map, ℕ, true, false, List, [], ◌∷◌, ◌++◌, Option, Some, ◌≤◌, length, is_some};
ghost use Rattle.std.specs.List.{list_any};
ghost use Rattle.rx_base.specs.Awaits.{Awaits, resource_limit};
ghost use Rattle.rx_base.specs.Awaits as awaits;
ghost use Rattle.rx_base.specs.declared.cut.Cut.{Cut};
ghost use Rattle.rx_lane.specs.Lanes.{Lanes};
ghost use Rattle.rx_ast.specs.Syntax.{Program};
ghost use Rattle.rx_rules.specs.Bounds.{depth_bound, may_throw_in};
ghost use Rattle.rx_rules.specs.Names.{resources};
ghost use Rattle.rx_susp.specs.declared.boundary.BoundaryState.TheVariants.{Hidden};
ghost use Rattle.rx_elem.specs.Elements.{Element, Elements, same_element, Key, listed, boundary};
ghost use Rattle.rx_elem.specs.Trees.{Node, node, Mark, of_boundary, Forest, element_of};
ghost use Rattle.rx_elem.specs.Spots.{visible_instances, kept_instances};
ghost use Rattle.rx_elem.specs.Numbers.{Numbers, numbered};
ghost use Rattle.rx_queue.specs.History.{stands_done};
ghost use Rattle.rx_queue.specs.Journal.{Journal, Posted, Resolution, hook, same_target, is_included, belongs_to, marked_update, resolutions_by, resolved_by};
ghost use Rattle.rx_meaning.specs.Fresh.{Sight, Contexts, Part, part, shape_of, rendered, render_part, made, one_waits, fresh, depth_limit, default_contexts, root_element, resources_seen, version_seen, versions_seen};
ghost use Rattle.rx_meaning.specs.Catches.{Catches};
ghost use Rattle.rx_meaning.specs.Outcome.{journal_after, newly_hidden, all_awaits, is_awaited};
ghost use Rattle.rx_meaning.specs.Touched.{Setting, visited, instances_in, is_waiting_still, may_throw_anew, sees_refresh};
ghost use Rattle.rx_meaning.specs.Levels.{Fits};
ghost use Rattle.rx_meaning.specs.Settled.{Known, IfSettled, IsSettled, IsOwn, known_by, DoneBefore, has_cause, kept_shape, IsStill, HasValuesOf, IsSound, IsCalm, ReadsHold, includes};
ghost use Rattle.rx_rules.specs.Reads.{ReadsDeclared};
ghost use Rattle.rx_meaning.specs.Again.{NoneTouched, IsFreeOf, AccountedBefore, NoneOwed, AllValuesAgree, AreUnresolved, WaitsAreSmall, AllOpen, NoNewUpdate};
ghost use Rattle.commit_laws.specs.Idle.{IsIdle};
ghost use Rattle.commit_laws.specs.HiddenWaits.{later_sight, journal_since, IfNumbered, Numbered, HiddenWaits, OwnWaits, Seen, AllSeen};
ghost use Rattle.commit_laws.specs.Quiet.{NoneHidden, AllDone, RefreshesDone};

/// A place without a cause of its own renders its own children again, and a subtree in which nothing has a cause is rendered to itself.
pub fn nothing_new_comes()
    ensures shape { (s : Sight) (cs : Contexts) (e : Element) (m : Mark) (ns fs : Forest) → DoneBefore s.cut s.journal.updates
        → IsOwn s.program (known_by s) e m ns fs → has_cause s cs m ≡ false
        → shape_of s cs e (Some (node e m ns fs)) ≡ kept_shape cs e m ns fs }
    ensures subtree { (s : Sight) (cs : Contexts) (o : Node) (levels : ℕ) → DoneBefore s.cut s.journal.updates
        → IsSettled s.program (known_by s) o → IsStill s cs o → Fits levels s.program (element_of o)
        → rendered levels s cs (element_of o) (Some o) ≡ made o }
    ensures elements { (e f : Element) → same_element e f ≡ true → e ≡ f }
{}

/// A subtree is rendered to itself if each of its instances has the values that are committed, nothing in it is hidden,
/// and it reads what the contexts of its place give and the versions that the
/// render sees; so no body of it need be evaluated. A subtree of which no included
/// update has yet to be done is such a one (react.dev, useState: React skips the children too).
pub fn idle_trees_stay()
    ensures tree { (s : Sight) (cs : Contexts) (o : Node) (levels : ℕ) → IsSettled s.program (known_by s) o
        → IsIdle s o → ReadsHold (version_seen s) cs o → Fits levels s.program (element_of o)
        → rendered levels s cs (element_of o) (Some o) ≡ made o }
    ensures calm { (s : Sight) (o : Node) → DoneBefore s.cut s.journal.updates → IsCalm s o → IsIdle s o }
{}

/// What is kept of the committed tree: a commit keeps it, and so do an update that is accepted and a resolution.
pub fn soundness_is_kept()
    ensures commit { (s : Sight) (old : Option Node) (new : Node) (from : Numbers) (rs : List Resolution)
        → depth_bound s.program ≤ depth_limit → ReadsDeclared s.program → DoneBefore s.cut s.journal.updates
        → HasValuesOf rs (resolutions_by s.cut s.journal)
        → IsSound s.program (record { updates = s.journal.updates; resolutions = rs }) from.instance old
        → fresh s old ≡ made new
        → IsSound s.program (record { updates = (journal_after s.lanes s.cut (numbered from new).1 s.journal).updates; resolutions = resolutions_by s.cut s.journal }) (numbered from new).0.instance (Some (numbered from new).1) }
    ensures update { (p : Program) (us : List Posted) (rs : List Resolution) (next : ℕ) (tree : Option Node) (u : Posted)
        → stands_done u.standing ≡ false → ((k i : ℕ) → next ≤ i → same_target (hook i k) u.target ≡ false)
        → IsSound p (record { updates = us; resolutions = rs }) next tree
        → IsSound p (record { updates = us ++ u ∷ []; resolutions = rs }) next tree }
    ensures resolution { (p : Program) (us : List Posted) (rs more : List Resolution) (next : ℕ) (tree : Option Node)
        → HasValuesOf rs more → IsSound p (record { updates = us; resolutions = rs }) next tree
        → IsSound p (record { updates = us; resolutions = more }) next tree }
    ensures calm { (s : Sight) (cs : Contexts) (n : Node) → IsCalm s n → ReadsHold (version_seen s) cs n → IsStill s cs n }
{}

/// In a subtree in which nothing has a cause no component place is touched; and lanes tell if nothing has one: by then no update of a visible instance is owed.
pub fn untouched_is_told()
    ensures places { (s : Sight) (at : Setting) (o : Node) (levels : ℕ) → DoneBefore s.cut s.journal.updates
        → IsSettled s.program (known_by s) o → IsStill s at.contexts o → Fits levels s.program (element_of o)
        → NoneTouched (visited levels s at (element_of o) (Some o)) }
    ensures lanes { (s : Sight) (set : List ℕ) (us : List Posted) → IsFreeOf s.lanes set us
        → list_any (λ u. is_included s.lanes s.cut u && (not (stands_done u.standing) && belongs_to set u.target)) us ≡ false }
    ensures owed { (s : Sight) (visible kept : List ℕ) (us : List Posted) → AccountedBefore s.cut us
        → NoneOwed visible (map (marked_update s.lanes s.cut visible kept) us) }
{}

/// The children of a hidden boundary wait for the same again if nothing that they wait for has a value, no update of what it keeps
/// is new, no resource has another version, and nothing may throw anew: no component may throw, or no resource got its value since.
pub fn hidden_waits_again()
    ensures attempt { (s : Sight) (j : Journal) (lanes : Lanes) (cut : Cut) → WaitsAreSmall s.program
        → versions_seen s ≡ versions_seen (later_sight s j lanes cut)
        → HasValuesOf (resolutions_by s.cut s.journal) (resolutions_by cut j)
        → (may_throw_in s.program ≡ true → resources_seen s ≡ resources_seen (later_sight s j lanes cut))
        → (levels : ℕ) (p : Part) (a : Awaits) → AllValuesAgree s (later_sight s j lanes cut) p.old
        → render_part (rendered levels s) p ≡ one_waits a → AreUnresolved (later_sight s j lanes cut) a
        → render_part (rendered levels (later_sight s j lanes cut)) p ≡ one_waits a }
    ensures commit { (s : Sight) (old : Option Node) (new : Node) (from : Numbers) → IfNumbered old → fresh s old ≡ made new
        → HiddenWaits depth_limit s (default_contexts s.program) (numbered from new).1 × Numbered (numbered from new).1 }
    ensures listed { (x : Node) → Seen (visible_instances (Some x)) (kept_instances (Some x)) true x }
    ensures small { (p : Program) → length (resources p) ≤ resource_limit → WaitsAreSmall p }
    ensures resources { (j : Journal) (us : List Posted) (more : List Resolution) (cut later : Cut)
        → cut.resolutions ≤ later.resolutions
        → HasValuesOf (resolutions_by cut j) (resolutions_by later (record { updates = us; resolutions = j.resolutions ++ more })) }
    ensures as_many { (j : Journal) (us : List Posted) (more : List Resolution) (cut later : Cut)
        → cut.resolutions ≤ length j.resolutions → later.resolutions ≡ cut.resolutions
        → resolutions_by cut j ≡ resolutions_by later (record { updates = us; resolutions = j.resolutions ++ more }) }
    ensures awaits { (t : Sight) (a : Awaits)
        → list_any (λ r. is_some (resolved_by t.cut t.journal r (version_seen t r))) a ≡ false → AreUnresolved t a }
    ensures tested { (t : Sight) (e : Element) (a : Awaits) (ns fs : Forest) → length (resources t.program) ≤ resource_limit
        → sees_refresh t ≡ false → is_waiting_still t (node e (of_boundary (Hidden a)) ns fs) (Hidden a) ≡ true
        → AreUnresolved t a × NoNewUpdate t.lanes t.cut (instances_in ns) t.journal.updates × (may_throw_anew t ≡ false) }
    ensures untouched { (s : Sight) (lanes : Lanes) (cut : Cut) (visible kept : List ℕ)
        → ((i : ℕ) → includes kept i ≡ true → includes visible i ≡ false) → s.cut.updates ≤ cut.updates
        → (new : List Posted) (resolutions : List Resolution) → AccountedBefore s.cut s.journal.updates
        → AllOpen new → WaitsAreSmall s.program
        → (n : ℕ) (cs : Contexts) (key : Key) (f : Element) (es : Elements) (a : Awaits) (ns : Forest)
        → OwnWaits n s cs (boundary key f es) (of_boundary (Hidden a)) ns → AllSeen visible kept false ns
        → NoNewUpdate lanes cut (instances_in ns) (map (marked_update s.lanes s.cut visible kept) s.journal.updates)
        → NoNewUpdate lanes cut (instances_in ns) new
        → sees_refresh (later_sight s (journal_since s visible kept new resolutions) lanes cut) ≡ false
        → HasValuesOf (resolutions_by s.cut s.journal) (resolutions_by cut (journal_since s visible kept new resolutions))
        → (may_throw_in s.program ≡ true → (s.cut.resolutions ≤ cut.resolutions)
        × (cut.resolutions ≡ s.cut.resolutions → resolutions_by s.cut s.journal ≡ resolutions_by cut (journal_since s visible kept new resolutions)))
        → may_throw_anew (later_sight s (journal_since s visible kept new resolutions) lanes cut) ≡ false
        → AreUnresolved (later_sight s (journal_since s visible kept new resolutions) lanes cut) a
        → render_part (rendered n (later_sight s (journal_since s visible kept new resolutions) lanes cut)) (part cs (listed es) ns) ≡ one_waits a }
{}

/// If nothing is hidden, and each update of a visible instance and each refresh of a resource is done, any render gives the committed tree again; a commit leaves the root's element at the root.
pub fn quiet_trees_stay()
    ensures tree { (s : Sight) (x : Node) (rs : List Resolution) (next : ℕ) → depth_bound s.program ≤ depth_limit
        → DoneBefore s.cut s.journal.updates → HasValuesOf rs (resolutions_by s.cut s.journal)
        → IsSound s.program (record { updates = s.journal.updates; resolutions = rs }) next (Some x) → Numbered x
        → element_of x ≡ root_element s.program → NoneHidden x
        → AllDone (visible_instances (Some x)) s.journal.updates → RefreshesDone s.journal.updates → fresh s (Some x) ≡ made x }
    ensures root { (s : Sight) (old : Option Node) (new : Node) (from : Numbers) → fresh s old ≡ made new
        → element_of (numbered from new).1 ≡ root_element s.program }
{}

/// A render waits only for resources that have no value that it sees, in the version that it sees: so do the visible boundaries that are hidden after a
/// commit, and all that a deferral waits for.
pub fn awaited_has_no_value()
    ensures committed { (s : Sight) (old : Option Node) (new : Node) (from : Numbers) → depth_bound s.program ≤ depth_limit
        → fresh s old ≡ made new → (r : ℕ) → is_awaited (Some (numbered from new).1) r ≡ true
        → resolved_by s.cut s.journal r (version_seen s r) ≡ None }
    ensures deferred { (s : Sight) (k : Known) (old : Option Node) (new : Node) → depth_bound s.program ≤ depth_limit
        → IfSettled s.program k old → fresh s old ≡ made new → (r : ℕ)
        → awaits.has (all_awaits (newly_hidden old new)) r ≡ true → resolved_by s.cut s.journal r (version_seen s r) ≡ None }
{}

/// In a tree that a render gives, and in the one that it becomes at its commit, each visible error boundary has caught what
/// it had caught, or else what its children throw.
pub fn error_boundaries_catch()
    ensures { (s : Sight) (old : Option Node) (new : Node) (from : Numbers) → depth_bound s.program ≤ depth_limit
        → fresh s old ≡ made new → Catches depth_limit s (default_contexts s.program) old (numbered from new).1 }
{}
