// Laws of what a render costs.
ghost use Rattle.std.specs.Prelude.{◌≡◌, ℕ, ◌+◌, ◌++◌, ◌≤◌, true, suc, [], ◌∷◌, List, length, Option, Some, IfSome};
ghost use Rattle.std.specs.List.{All};
ghost use Rattle.rx_base.specs.Awaits.{Awaits};
ghost use Rattle.rx_elem.specs.Elements.{Element};
ghost use Rattle.rx_elem.specs.Trees.{Mark, Node, element_of};
ghost use Rattle.rx_queue.specs.Journal.{Journal, Posted, Resolution};
ghost use Rattle.rx_meaning.specs.Fresh.{Sight, Contexts, Place, made, one_waits, Part, two_lists, shape_of, render_part, rendered, root_element, version_seen};
ghost use Rattle.rx_meaning.specs.Again.{AllOpen};
ghost use Rattle.rx_meaning.specs.Counts.{each_body, whole};
ghost use Rattle.rx_meaning.specs.Cursor.{Frame, falling, Cursor, at_place, ended, open_part, arrive, start, unit};
ghost use Rattle.rx_meaning.specs.Settled.{DoneBefore, IfSettled, IsSettled, ReadsHold, known_by};
ghost use Rattle.commit_laws.specs.Each.{ForEach};
ghost use Rattle.commit_laws.specs.Idle.{IsIdle};
ghost use Rattle.render_laws.specs.SameSight.{SeesSame, AllAfter};
ghost use Rattle.cost_laws.specs.Evaluated.{Flag, evaluated, stood, whole_evaluated};
ghost use Rattle.cost_laws.specs.Left.{Costs, Flags, flag, MayGo, next_evaluated, unit_flags};
ghost use Rattle.cost_laws.specs.Places.{AllApart, AreEvaluated, dirty_places, evaluated_places, whole_comings};
ghost use Rattle.cost_laws.specs.SameWork.{SeesSameWork};
ghost use Rattle.cost_laws.specs.Undue.{IsUndue};
ghost use Rattle.cost_laws.specs.Untouched.{is_untouched};

/// A render evaluates exactly the bodies of components that have a cause, and of those whose element is another one, what
/// untouched hidden boundaries keep apart. That holds at its start, and is kept by a unit that evaluates what it has to and tries
/// no untouched boundary, by a subtree that is taken over if nothing of it is evaluated, by an attempt of an untouched
/// boundary that is left out, and by a longer journal.
pub fn bodies_are_counted()
    ensures start { (s : Sight) (old : Option Node) → Costs s old 0 [] (start s old) }
    ensures unit { (s : Sight) (old : Option Node) (bodies evaluated : ℕ) (us : Flags) (c : Cursor) → MayGo s us c → Costs s old bodies us c
        → evaluated ≡ next_evaluated s c → Costs s old (bodies + evaluated) (unit_flags s us c) (unit s c) }
    ensures takes_over { (s : Sight) (old : Option Node) (bodies n : ℕ) (us : Flags) (fs : List Frame) (cs : Contexts) (e : Element) (o : Node)
        → rendered n s cs e (Some o) ≡ made o → evaluated n s (flag us) cs e (Some o) ≡ 0
        → Costs s old bodies us (at_place n fs cs e (Some o)) → Costs s old bodies us (arrive n fs (Some o)) }
    ensures skips_attempt { (s : Sight) (old : Option Node) (bodies n : ℕ) (us : Flags) (fs : List Frame) (cs : Contexts) (e : Element)
        (o : Option Node) (p f : Part) (a : Awaits) → shape_of s cs e o ≡ two_lists p f
        → render_part (rendered n s) p ≡ one_waits a → is_untouched s (stood (flag us)) e o ≡ true
        → Costs s old bodies us (at_place (suc n) fs cs e o)
        → Costs s old bodies (flag us ∷ us) (open_part n fs (falling e o a) f) }
    ensures later { (s : Sight) (j : Journal) (old : Option Node) (bodies : ℕ) (us : Flags) (c : Cursor) → SeesSame s j → SeesSameWork s j
        → Costs s old bodies us c → Costs (record s { journal = j }) old bodies us c }
    ensures longer { (s : Sight) (new : List Posted) (more : List Resolution) → AllAfter s.cut.updates new → AllOpen new
        → SeesSameWork s (record { updates = s.journal.updates ++ new; resolutions = s.journal.resolutions ++ more }) }
    ensures last { (s : Sight) (old : Option Node) (bodies : ℕ) (us : Flags) (p : Place) → Costs s old bodies us (ended p)
        → bodies ≡ whole_evaluated s old }
    ensures at_most { (s : Sight) (old : Option Node) (bodies : ℕ) (us : Flags) (c : Cursor) → Costs s old bodies us c
        → bodies ≤ whole_evaluated s old }
    // Each body is that of one place, and each place that has a cause is one.
    ensures places { (s : Sight) (old : Option Node) → length (evaluated_places s old) ≡ whole_evaluated s old }
    ensures each { (s : Sight) (old : Option Node) → All (λ v. v.caused ≡ true → v.evaluated ≡ true) (whole_comings s old) }
    ensures once { (s : Sight) (old : Option Node) → AllApart (evaluated_places s old) }
    // The places that are evaluated are exactly the dirty ones.
    ensures exact { (s : Sight) (old : Option Node) → IfSome old (λ x. element_of x ≡ root_element s.program) → evaluated_places s old ≡ dirty_places s old }
    ensures fewer { (s : Sight) (old : Option Node) → whole_evaluated s old ≤ whole each_body s old }
    // Nothing is evaluated of a tree whose own element is given again, that is idle, whose instances have each included update
    // done, and in which reads hold.
    ensures rests { (s : Sight) (u : Flag) (cs : Contexts) (x : Node) (n : ℕ) → IsSettled s.program (known_by s) x → IsIdle s x
        → ForEach (IsUndue s) x → ReadsHold (version_seen s) cs x → evaluated n s u cs (element_of x) (Some x) ≡ 0 }
    ensures undue_later { (s : Sight) (j : Journal) (m : Mark) → SeesSameWork s j → IsUndue s m → IsUndue (record s { journal = j }) m }
{}

/// The places whose bodies a render evaluates over a committed tree: each that has a cause is one; each of them has one, or lies
/// below a place that has one or that is tried again; and none is there twice.
pub fn places_are_evaluated()
    ensures { (s : Sight) (old : Option Node) → IfSettled s.program (known_by s) old → DoneBefore s.cut s.journal.updates
        → IfSome old (λ x. element_of x ≡ root_element s.program) → AreEvaluated s old }
{}
