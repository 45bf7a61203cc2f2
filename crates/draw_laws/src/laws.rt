// Laws of what a render draws.
ghost use Rattle.std.specs.Prelude.{◌≡◌, ℕ, suc, ℤ, Bool, List, [], Option, Some, true};
ghost use Rattle.rx_base.specs.Awaits.{Awaits};
ghost use Rattle.rx_ast.specs.Syntax.{Component, Program};
ghost use Rattle.rx_rules.specs.Names.{component_at};
ghost use Rattle.rx_check.specs.Checks.{unknowns, is_rooted};
ghost use Rattle.rx_elem.specs.Elements.{Element, Elements, gathered, listed};
ghost use Rattle.rx_elem.specs.Trees.{Instance, Node};
ghost use Rattle.rx_elem.specs.Numbers.{Numbers, numbered};
ghost use Rattle.rx_elem.specs.declared.effect.EffectRecord.{EffectRecord};
ghost use Rattle.rx_elem.specs.declared.effect.ContextRead.{ContextRead};
ghost use Rattle.rx_elem.specs.declared.effect.VersionRead.{VersionRead};
ghost use Rattle.rx_meaning.specs.Body.{Inputs, body_of, ready};
ghost use Rattle.rx_meaning.specs.Fresh.{Sight, Contexts, Part, made, old_instance, root_element, shape_of, two_lists};
ghost use Rattle.rx_meaning.specs.Cursor.{Frame, Cursor, at_place, ended, falling, arrive, open_part, start, unit};
ghost use Rattle.draw_laws.specs.Drawn.{IsDrawn, AreDrawn};
ghost use Rattle.draw_laws.specs.Cursors.{CursorDrawn};
ghost use Rattle.draw_laws.specs.Made.{BeginsMeeting, EachMounted, InstancesMade, IsNewOrMeets, MountedMeets, Passes, TreeMade};

/// If each name of a program is known, the elements of a body that is ready fit the program, provided the children that it
/// is given do; and so does the root's element.
pub fn bodies_are_drawn()
    ensures body { (p : Program) (number : ℕ) (c : Component) (i : Inputs) (es : List Element) (effects : List EffectRecord)
        (initials : List ℤ) (reads : List ContextRead) (versions : List VersionRead) → unknowns p ≡ [] → component_at p number ≡ Some c
        → AreDrawn p (gathered i.children) → body_of p c i ≡ ready es effects initials reads versions → AreDrawn p (gathered es) }
    ensures root { (p : Program) → is_rooted p ≡ true → IsDrawn p (root_element p) }
    ensures given { (p : Program) (es : Elements) → AreDrawn p es → AreDrawn p (gathered (listed es)) }
{}

/// What a render of such a program has yet to come to fits it: at its start, after each unit, and past a subtree that is
/// taken over or an attempt that is skipped. So does the element of each place that it comes to.
pub fn cursors_are_drawn()
    ensures start { (s : Sight) (old : Option Node) → is_rooted s.program ≡ true → CursorDrawn s.program (start s old) }
    ensures unit { (s : Sight) (c : Cursor) → unknowns s.program ≡ [] → CursorDrawn s.program c → CursorDrawn s.program (unit s c) }
    ensures takes_over { (p : Program) (n : ℕ) (fs : List Frame) (cs : Contexts) (e : Element) (o : Node)
        → CursorDrawn p (at_place n fs cs e (Some o)) → CursorDrawn p (arrive n fs (Some o)) }
    ensures skips_attempt { (s : Sight) (n : ℕ) (fs : List Frame) (cs : Contexts) (e : Element) (o : Option Node) (q f : Part)
        (a : Awaits) → unknowns s.program ≡ [] → shape_of s cs e o ≡ two_lists q f
        → CursorDrawn s.program (at_place (suc n) fs cs e o) → CursorDrawn s.program (open_part n fs (falling e o a) f) }
    ensures place { (p : Program) (n : ℕ) (fs : List Frame) (cs : Contexts) (e : Element) (o : Option Node)
        → CursorDrawn p (at_place n fs cs e o) → IsDrawn p e }
{}

/// What holds of the instances that a render has made: a test of each visible one that had a number before, and another
/// of each one that a hidden boundary keeps. It holds at the start if each mounted instance passes the second test; a
/// unit keeps it that begins no component's place, or one whose old instance passes the first; the old instance of each
/// place passes the second. At the end each instance
/// of the new tree passes its test, but for the new ones once they have their numbers.
pub fn instances_are_made()
    ensures start { (shown kept : ℕ → List ℤ → Bool) (s : Sight) (old : Option Node)
        → EachMounted (λ m. Passes kept m.number m.initials) old → InstancesMade (Passes shown) (Passes kept) (start s old) }
    ensures unit { (shown kept : ℕ → List ℤ → Bool) (s : Sight) (c : Cursor) → BeginsMeeting (Passes shown) c
        → InstancesMade (Passes shown) (Passes kept) c → InstancesMade (Passes shown) (Passes kept) (unit s c) }
    ensures takes_over { (shown kept : ℕ → List ℤ → Bool) (n : ℕ) (fs : List Frame) (cs : Contexts) (e : Element) (o : Node)
        → TreeMade (Passes shown) (Passes kept) o → InstancesMade (Passes shown) (Passes kept) (at_place n fs cs e (Some o))
        → InstancesMade (Passes shown) (Passes kept) (arrive n fs (Some o)) }
    ensures skips_attempt { (shown kept : ℕ → List ℤ → Bool) (s : Sight) (n : ℕ) (fs : List Frame) (cs : Contexts) (e : Element)
        (o : Option Node) (q f : Part) (a : Awaits) → shape_of s cs e o ≡ two_lists q f
        → InstancesMade (Passes shown) (Passes kept) (at_place (suc n) fs cs e o)
        → InstancesMade (Passes shown) (Passes kept) (open_part n fs (falling e o a) f) }
    ensures place { (shown kept : ℕ → List ℤ → Bool) (n : ℕ) (fs : List Frame) (cs : Contexts) (e : Element) (o : Option Node)
        (i : Instance) (k : ℕ) → InstancesMade (Passes shown) (Passes kept) (at_place n fs cs e o) → old_instance o ≡ Some i
        → i.number ≡ Some k → Passes kept k i.initials }
    ensures more { (shown kept seen held : ℕ → List ℤ → Bool) (c : Cursor)
        → ((n : ℕ) (xs : List ℤ) → Passes shown n xs → Passes seen n xs)
        → ((n : ℕ) (xs : List ℤ) → Passes kept n xs → Passes held n xs)
        → InstancesMade (Passes shown) (Passes kept) c → InstancesMade (Passes seen) (Passes held) c }
    ensures last { (shown kept : ℕ → List ℤ → Bool) (n : Node) → InstancesMade (Passes shown) (Passes kept) (ended (made n))
        → EachMounted (MountedMeets (Passes shown) (Passes kept)) (Some n) }
    ensures numbered { (shown kept : ℕ → List ℤ → Bool) (n : Node) (next : Numbers)
        → InstancesMade (Passes shown) (Passes kept) (ended (made n))
        → EachMounted (IsNewOrMeets next.instance (Passes shown) (Passes kept)) (Some (numbered next n).1) }
{}
