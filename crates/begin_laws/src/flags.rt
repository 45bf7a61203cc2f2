// Laws of flags.
ghost use Rattle.std.specs.Prelude.{◌≡◌, ◌∷◌, ℕ, List, Option, Some};
ghost use Rattle.rx_ctx.specs.Contexts.{Stack};
ghost use Rattle.rx_lists.specs.Shapes as shapes;
ghost use Rattle.rx_lists.specs.Shapes.{Shape};
ghost use Rattle.rx_links.specs.Drafts.{Draft, taken, made, Trees, Fits, entry, valued};
ghost use Rattle.rx_links.specs.Places.{Around, below, placed};
ghost use Rattle.rx_meaning.specs.Cursor.{Frame};
ghost use Rattle.rx_fiber.specs.Fibers.{Fiber};
ghost use Rattle.rx_fiber.specs.Surround.{moved_along};
ghost use Rattle.rx_fiber.specs.Unwound.{IsWithin};
ghost use Rattle.rx_complete.specs.Ends.{Outer, nearest, nearest_catch, next_after};
ghost use Rattle.cost_laws.specs.Evaluated.{Flag};
ghost use Rattle.cost_laws.specs.Left.{Flags, flag, outer};
ghost use Rattle.begin_laws.specs.Flagged.{AllBare, AreTold, KeepsTold, FlagsAfter, FlagsAtEnd, FlagsHere, FlagsOpened, HasThrown, HasUnwound};

/// Where a unit leads, the flags of the lists that are open go along: past a node that is completed or taken over, to the
/// children or the fallback of one that is opened, and out of what a wait or a throw drops.
pub fn flags_are_kept()
    ensures completes { (t new : Trees Fiber) (q : ℕ) (us : Flags) (m : Fiber → Fiber) → Fits t → FlagsAtEnd t q us
        → new.draft ≡ valued q m t.draft → new.current ≡ t.current → FlagsAfter new (outer us) (next_after t.draft q) }
    ensures passes { (t : Trees Fiber) (q : ℕ) (kids : Draft Fiber) (us : Flags) → Fits t → FlagsHere t q kids us
        → FlagsAfter t us (next_after t.draft q) }
    ensures opens { (t new : Trees Fiber) (p : ℕ) (us : Flags) (u : Flag) (kids : Draft Fiber) (m : Fiber → Fiber) → FlagsHere t p (taken shapes.none) us
        → ((k : Around Fiber) (v : Fiber) (o : Option ℕ) (rs : Draft Fiber) → t.draft ≡ placed k (made p v o (taken shapes.none) rs) → (new.draft ≡ placed k (made p (m v) o kids rs)) × KeepsTold (flag us) (m v) × (u.moved ≡ moved_along t.current (below p (m v) o rs k)))
        → new.current ≡ t.current → AllBare kids → AreTold u kids → FlagsOpened new p (u ∷ us) (entry kids) }
    ensures opens_beside { (t new : Trees Fiber) (p id : ℕ) (us : Flags) (u : Flag) (kids : Draft Fiber) (m : Fiber → Fiber) (w : Fiber) (old : Option ℕ) (kept : Option ℕ → Shape Fiber)
        → FlagsHere t p (taken shapes.none) us
        → ((k : Around Fiber) (v : Fiber) (o : Option ℕ) (rs : Draft Fiber) → t.draft ≡ placed k (made p v o (taken shapes.none) rs)
        → (new.draft ≡ placed k (made p (m v) o (taken (kept o)) (made id w old kids rs))) × (u.moved ≡ moved_along t.current (below id w old rs k)))
        → new.current ≡ t.current → KeepsTold (flag us) w → AllBare kids → AreTold u kids → FlagsOpened new id (u ∷ us) (entry kids) }
    ensures unwinds { (t new : Trees Fiber) (st : Stack) (p : ℕ) (kids : Draft Fiber) (fs : List Frame) (us : Flags) → Fits t → (h : FlagsHere t p kids us) → IsWithin t st p fs
        → (u : Outer) → nearest h.around ≡ Some u → new.draft ≡ placed u.around (made u.id u.value u.old (taken shapes.none) u.rest) → new.current ≡ t.current
        → HasUnwound new u.id u.value fs us }
    ensures throws_out { (t new : Trees Fiber) (st : Stack) (p : ℕ) (kids : Draft Fiber) (fs : List Frame) (us : Flags) → Fits t → (h : FlagsHere t p kids us) → IsWithin t st p fs
        → (u : Outer) → nearest_catch h.around ≡ Some u → new.draft ≡ placed u.around (made u.id u.value u.old (taken shapes.none) u.rest) → new.current ≡ t.current
        → HasThrown new u.id fs us }
{}
