// Laws of rendering.
ghost use Rattle.std.specs.Prelude.{◌≡◌, ℕ, suc, ◌+◌, ◌*◌, ◌<◌, ◌≤◌, false, List, ◌++◌, Option, Some, length};
ghost use Rattle.std.specs.List.{AllByRecursion};
ghost use Rattle.rx_base.specs.Awaits.{Awaits};
ghost use Rattle.rx_ast.specs.Syntax.{Program};
ghost use Rattle.rx_rules.specs.Bounds.{node_bound, depth_bound};
ghost use Rattle.rx_rules.specs.Versions.{node_limit};
ghost use Rattle.rx_elem.specs.Elements.{Element};
ghost use Rattle.rx_elem.specs.Trees.{Node};
ghost use Rattle.rx_elem.specs.Spots.{node_count, spots_in, at_root};
ghost use Rattle.rx_queue.specs.Journal.{Journal, Posted, Resolution};
ghost use Rattle.rx_meaning.specs.Fresh.{IsTree, Sight, Contexts, Place, made, one_waits, Part, Shape, two_lists, shape_of, render_part, rendered, fresh, depth_limit, default_contexts, root_element, IsTree};
ghost use Rattle.rx_meaning.specs.Touched.{visits, evaluated};
ghost use Rattle.rx_rules.specs.Keys.{KeysApart};
ghost use Rattle.rx_meaning.specs.Cursor.{Frame, falling, Cursor, at_place, ended, open_part, arrive, begin, start, unit, after, is_over, HasLevel, StandsAtNode};
ghost use Rattle.rx_meaning.specs.Rest.{gives};
ghost use Rattle.rx_meaning.specs.Counts.{each_unit, each_begun, each_place, each_body, next_counts, whole, left, spent, counted};
ghost use Rattle.render_laws.specs.TouchedCounts.{each_touched, touched_in, NonePassedOver};
ghost use Rattle.rx_meaning.specs.Settled.{Known, IsSettled, IfSettled};
ghost use Rattle.render_laws.specs.OldNodes.{CursorHas};
ghost use Rattle.render_laws.specs.InProgress.{InProgress};
ghost use Rattle.render_laws.specs.Attempts.{attempts};
ghost use Rattle.render_laws.specs.SameSight.{SeesSame, AllAfter};

/// A unit changes nothing of what a render gives, at its start the fresh tree; if no unit is left, it has given that.
pub fn units_give_fresh()
    ensures kept { (s : Sight) (c : Cursor) → gives s (unit s c) ≡ gives s c }
    ensures always { (s : Sight) (old : Option Node) (k : ℕ) → gives s (after k s old) ≡ fresh s old }
    ensures at_end { (s : Sight) (old : Option Node) (k : ℕ) (p : Place) → after k s old ≡ ended p → p ≡ fresh s old }
{}

/// A render takes a number of units that only its sight and the old tree decide, at most two for each place that it
/// begins, and so at most two for each node of the bound. What is left falls by one with each.
pub fn units_are_bounded()
    ensures falls { (s : Sight) (old : Option Node) (k : ℕ) → k ≤ whole each_unit s old
        → k + left each_unit s (after k s old) ≡ whole each_unit s old }
    ensures before { (s : Sight) (old : Option Node) (k : ℕ) → k < whole each_unit s old → is_over (after k s old) ≡ false }
    ensures last { (s : Sight) (old : Option Node) → after (whole each_unit s old) s old ≡ ended (fresh s old) }
    ensures twice { (s : Sight) (old : Option Node) → whole each_unit s old ≤ 2 * whole each_begun s old }
    ensures bound { (s : Sight) (old : Option Node) → KeysApart s.program → node_bound s.program ≤ node_limit s.program
        → whole each_unit s old ≤ 2 * node_bound s.program }
{}

/// A whole render evaluates the component places that it visits, and takes more units than that if it gives a tree.
pub fn bodies_are_counted()
    ensures visited { (s : Sight) (old : Option Node) → whole each_body s old ≡ length (evaluated s old) }
    ensures places { (s : Sight) (old : Option Node) → whole each_place s old ≡ length (visits s old) }
    ensures parts { (s : Sight) (old : Option Node) (k : ℕ)
        → spent each_body k s old + left each_body s (after k s old) ≡ whole each_body s old }
    ensures fewer { (s : Sight) (old : Option Node) (n : Node) → fresh s old ≡ made n
        → whole each_body s old < whole each_unit s old }
{}

/// Each place that a render comes to has a level left, so units need not count levels.
pub fn levels_suffice()
    ensures { (s : Sight) → depth_bound s.program ≤ depth_limit → (old : Option Node) (k : ℕ) → HasLevel (after k s old) }
{}

/// A render in progress: its start, each kind of unit, a longer journal, and its end.
pub fn progress_is_kept()
    ensures start { (s : Sight) (old : Option Node) → depth_bound s.program ≤ depth_limit → InProgress s old 0 0 (start s old) }
    ensures unit { (s : Sight) (old : Option Node) (units bodies : ℕ) (c : Cursor) → InProgress s old units bodies c
        → is_over c ≡ false → (evaluated : ℕ) → evaluated ≤ next_counts each_body s c
        → InProgress s old (suc units) (bodies + evaluated) (unit s c) }
    ensures skips { (s : Sight) (old : Option Node) (units bodies n : ℕ) (fs : List Frame) (cs : Contexts) (e : Element)
        (o : Option Node) (shape : Shape) → shape_of s cs e o ≡ shape
        → InProgress s old units bodies (at_place (suc n) fs cs e o)
        → InProgress s old (suc units) bodies (begin n fs e o shape) }
    ensures takes_over { (s : Sight) (old : Option Node) (units bodies n : ℕ) (fs : List Frame) (cs : Contexts) (e : Element) (o : Node)
        → rendered n s cs e (Some o) ≡ made o → InProgress s old units bodies (at_place n fs cs e (Some o))
        → InProgress s old (suc units) bodies (arrive n fs (Some o)) }
    ensures skips_attempt { (s : Sight) (old : Option Node) (units bodies n : ℕ) (fs : List Frame) (cs : Contexts) (e : Element)
        (o : Option Node) (p f : Part) (a : Awaits) → shape_of s cs e o ≡ two_lists p f
        → render_part (rendered n s) p ≡ one_waits a
        → InProgress s old units bodies (at_place (suc n) fs cs e o)
        → InProgress s old (suc units) bodies (open_part n fs (falling e o a) f) }
    ensures later { (s : Sight) (j : Journal) (old : Option Node) (units bodies : ℕ) (c : Cursor) → SeesSame s j
        → InProgress s old units bodies c → InProgress (record s { journal = j }) old units bodies c }
    ensures longer { (s : Sight) (new : List Posted) (more : List Resolution) → AllAfter s.cut.updates new
        → s.cut.resolutions ≤ length s.journal.resolutions
        → SeesSame s (record { updates = s.journal.updates ++ new; resolutions = s.journal.resolutions ++ more }) }
    ensures unfinished { (s : Sight) (old : Option Node) (units bodies : ℕ) (c : Cursor) → InProgress s old units bodies c
        → is_over c ≡ false → units < whole each_unit s old }
    ensures last { (s : Sight) (old : Option Node) (units bodies : ℕ) (n : Node) → InProgress s old units bodies (ended (made n))
        → (fresh s old ≡ made n) × (bodies < units) }
{}

/// What the root gives doesn't depend on the depth limit: any greater limit gives the same.
pub fn depth_suffices()
    ensures { (s : Sight) → depth_bound s.program ≤ depth_limit → (n : ℕ) → depth_limit ≤ n → (old : Option Node)
        → rendered n s (default_contexts s.program) (root_element s.program) old ≡ fresh s old }
{}

/// No tree of a program, and nothing that is rendered against one, has more nodes than the bound, kept primaries
/// counted.
pub fn nodes_are_bounded()
    ensures committed { (p : Program) (tree : Option Node) → KeysApart p → node_bound p ≤ node_limit p → IsTree p tree
        → node_count tree ≤ node_bound p }
    ensures rendered { (p : Program) (s : Sight) (old : Option Node) (new : Node) → s.program ≡ p → KeysApart p
        → node_bound p ≤ node_limit p → IsTree p old → fresh s old ≡ made new
        → node_count (Some new) ≤ node_bound p }
{}

/// No render begins more places than the bound, whatever the old tree is; those of attempts that are given up count
/// too.
pub fn begun_nodes_are_bounded()
    ensures begun { (s : Sight) → KeysApart s.program → node_bound s.program ≤ node_limit s.program → (old : Option Node)
        → whole each_begun s old ≤ node_bound s.program }
    ensures visited { (s : Sight) → KeysApart s.program → node_bound s.program ≤ node_limit s.program → (old : Option Node)
        → length (visits s old) ≤ node_bound s.program }
{}

/// No attempt of a render against such a tree has more nodes than the bound.
pub fn attempts_are_bounded()
    ensures { (s : Sight) (p : Program) (old : Option Node) → s.program ≡ p → KeysApart p → node_bound p ≤ node_limit p
        → IsTree p old
        → AllByRecursion (λ ns. length (spots_in at_root ns) ≤ node_bound p) (attempts depth_limit s (default_contexts s.program) (root_element s.program) old) }
{}

/// No touched component place is passed over: at the end those that were evaluated are as many as there are.
pub fn touched_are_evaluated()
    ensures start { (s : Sight) (old : Option Node) → NonePassedOver s old 0 (start s old) }
    ensures unit { (s : Sight) (old : Option Node) (touched : ℕ) (c : Cursor) → StandsAtNode c → NonePassedOver s old touched c
        → NonePassedOver s old (touched + next_counts (each_touched s) s c) (unit s c) }
    ensures takes_over { (s : Sight) (old : Option Node) (touched n : ℕ) (fs : List Frame) (cs : Contexts) (e : Element) (o : Node)
        → rendered n s cs e (Some o) ≡ made o → counted (each_touched s) n s cs e (Some o) ≡ 0
        → NonePassedOver s old touched (at_place n fs cs e (Some o))
        → NonePassedOver s old touched (arrive n fs (Some o)) }
    ensures last { (s : Sight) (old : Option Node) (touched : ℕ) (p : Place) → NonePassedOver s old touched (ended p)
        → touched ≡ touched_in (visits s old) }
{}

/// Each old node that a render may still come to is settled, if the old tree is: at the start, after each unit, and
/// past a subtree that is taken over or an attempt that is skipped.
pub fn old_nodes_are_settled()
    ensures start { (p : Program) (k : Known) (s : Sight) (old : Option Node) → IfSettled p k old
        → CursorHas (IsSettled p k) (start s old) }
    ensures unit { (p : Program) (k : Known) (s : Sight) (c : Cursor) → CursorHas (IsSettled p k) c
        → CursorHas (IsSettled p k) (unit s c) }
    ensures takes_over { (p : Program) (k : Known) (n : ℕ) (fs : List Frame) (cs : Contexts) (e : Element) (o : Node)
        → CursorHas (IsSettled p k) (at_place n fs cs e (Some o))
        → IsSettled p k o × CursorHas (IsSettled p k) (arrive n fs (Some o)) }
    ensures skips_attempt { (p : Program) (k : Known) (n : ℕ) (fs : List Frame) (s : Sight) (cs : Contexts) (e : Element) (o : Option Node)
        (q f : Part) (a : Awaits) → shape_of s cs e o ≡ two_lists q f
        → CursorHas (IsSettled p k) (at_place (suc n) fs cs e o)
        → CursorHas (IsSettled p k) (open_part n fs (falling e o a) f) }
{}
