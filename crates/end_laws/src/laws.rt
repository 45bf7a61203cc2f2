// Laws of the definitions: a tree and the same tree without the vacant places at the ends of its lists answer alike.
ghost use Rattle.std.specs.Prelude.{◌≡◌, ℕ, List, Option, length};
ghost use Rattle.rx_base.specs.Awaits.{Awaits};
ghost use Rattle.rx_base.specs.declared.cut.Cut.{Cut};
ghost use Rattle.rx_lane.specs.Lanes.{Lanes};
ghost use Rattle.rx_elem.specs.Elements.{Element};
ghost use Rattle.rx_elem.specs.Trees.{Node, Forest};
ghost use Rattle.rx_elem.specs.Spots.{node_count, hidden_count, mounted, visible_instances, kept_instances};
ghost use Rattle.rx_elem.specs.Numbers.{Numbers, numbered};
ghost use Rattle.rx_elem.specs.Compare.{compare_trees};
ghost use Rattle.rx_effect.specs.EffectLog.{layout_log, passive_of};
ghost use Rattle.rx_forest.specs.Hosts.{hosts};
ghost use Rattle.rx_forest.specs.HostOps.{host_ops};
ghost use Rattle.rx_queue.specs.Journal.{Journal};
ghost use Rattle.rx_meaning.specs.Outcome.{newly_hidden, newly_caught, all_awaits, outcome, journal_after, visible_awaits, is_awaited, awaits_resolved, still_pending};
ghost use Rattle.rx_meaning.specs.Again.{AllValuesAgree};
ghost use Rattle.rx_meaning.specs.Fresh.{Sight, Contexts, rendered, render_part, part, one_waits};
ghost use Rattle.end_laws.specs.Trimmed.{trimmed, trimmed_in, trimmed_if};
ghost use Rattle.end_laws.specs.Places.{trimmed_place};
ghost use Rattle.end_laws.specs.Outcomes.{trimmed_outcome};

/// What is read out of one tree: its instances, hosts and hidden boundaries, and what a commit of it leaves in the
/// journal and pending.
pub fn ends_are_not_read()
    ensures mounted { (t : Option Node) → mounted (trimmed_if t) ≡ mounted t }
    ensures hosts { (t : Option Node) → hosts (trimmed_if t) ≡ hosts t }
    ensures nodes { (t : Option Node) → node_count (trimmed_if t) ≡ node_count t }
    ensures hidden { (t : Option Node) → hidden_count (trimmed_if t) ≡ hidden_count t }
    ensures visible { (t : Option Node) → visible_instances (trimmed_if t) ≡ visible_instances t }
    ensures kept { (t : Option Node) → kept_instances (trimmed_if t) ≡ kept_instances t }
    ensures waits { (t : Option Node) → visible_awaits (trimmed_if t) ≡ visible_awaits t }
    ensures awaited { (t : Option Node) (r : ℕ) → is_awaited (trimmed_if t) r ≡ is_awaited t r }
    ensures resolved { (lanes : Lanes) (cut : Cut) (j : Journal) (new : Node)
        → awaits_resolved lanes cut j (trimmed new) ≡ awaits_resolved lanes cut j new }
    ensures pending { (lanes : Lanes) (cut : Cut) (j : Journal) (new : Node)
        → still_pending lanes cut j (trimmed new) ≡ still_pending lanes cut j new }
    ensures journal { (lanes : Lanes) (cut : Cut) (new : Node) (j : Journal)
        → journal_after lanes cut (trimmed new) j ≡ journal_after lanes cut new j }
{}

/// The numbers that a commit gives: the trimmed tree gets the same, and leaves the same to come next.
pub fn ends_are_not_numbered()
    ensures { (next : Numbers) (n : Node) → numbered next (trimmed n) ≡ ((numbered next n).0, trimmed (numbered next n).1) }
{}

/// What a comparison of the new tree with the old one gives: the effects that are destroyed and created, the operations
/// on hosts, the values that error boundaries catch, the boundaries that are newly hidden and what they wait for, and whether
/// the render is committed.
pub fn ends_are_not_compared()
    ensures layout { (old : Option Node) (new : Node)
        → layout_log (compare_trees (trimmed_if old) (trimmed new)) ≡ layout_log (compare_trees old new) }
    ensures passive { (old : Option Node) (new : Node)
        → passive_of (compare_trees (trimmed_if old) (trimmed new)) ≡ passive_of (compare_trees old new) }
    ensures ops { (old : Option Node) (new : Node) → host_ops (trimmed_if old) (trimmed new) ≡ host_ops old new }
    ensures caught { (old : Option Node) (new : Node) → newly_caught (trimmed_if old) (trimmed new) ≡ newly_caught old new }
    ensures hidden { (old : Option Node) (new : Node)
        → length (newly_hidden (trimmed_if old) (trimmed new)) ≡ length (newly_hidden old new) }
    ensures awaits { (old : Option Node) (new : Node)
        → all_awaits (newly_hidden (trimmed_if old) (trimmed new)) ≡ all_awaits (newly_hidden old new) }
    ensures outcome { (lanes : Lanes) (old : Option Node) (new : Node)
        → outcome lanes (trimmed_if old) (trimmed new) ≡ trimmed_outcome (outcome lanes old new) }
{}

/// What a render against an old tree gives: against the trimmed one it gives the same, trimmed. So children that wait do so
/// for the same.
pub fn ends_are_not_rendered()
    ensures place { (n : ℕ) (s : Sight) (cs : Contexts) (e : Element) (old : Option Node)
        → trimmed_place (rendered n s cs e (trimmed_if old)) ≡ trimmed_place (rendered n s cs e old) }
    ensures waits { (n : ℕ) (s : Sight) (cs : Contexts) (es : List Element) (ns ms : Forest) (a : Awaits)
        → trimmed_in ns ≡ trimmed_in ms → render_part (rendered n s) (part cs es ns) ≡ one_waits a
        → render_part (rendered n s) (part cs es ms) ≡ one_waits a }
    ensures values { (s t : Sight) (ns ms : Forest) → trimmed_in ns ≡ trimmed_in ms
        → AllValuesAgree s t ns → AllValuesAgree s t ms }
{}
