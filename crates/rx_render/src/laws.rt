// Laws of renders in progress.
ghost use Rattle.std.specs.Prelude.{◌≡◌, ◌<◌, ℕ, ℤ, Some, length};
ghost use Rattle.rx_ast.specs.Syntax.{Program};
ghost use Rattle.rx_elem.specs.Trees.{Node};
ghost use Rattle.rx_links.specs.Drafts.{grafted};
ghost use Rattle.rx_meaning.specs.Fresh.{fresh, made};
ghost use Rattle.rx_model.specs.State.{State, Progress};
ghost use Rattle.rx_model.specs.Accepting.{with_value};
ghost use Rattle.rx_model.specs.Committing.{sight_of};
ghost use Rattle.rx_model.specs.HooksOf.{KeepsAllHooks};
ghost use Rattle.rx_model.specs.Laws.{IsBounded};
ghost use Rattle.rx_model.specs.Turns.{unit_bound};
ghost use Rattle.rx_fiber.specs.Reading.{IsTreeOf};
ghost use Rattle.rx_hook_store.specs.Store.{Kept, kept_hooks};
ghost use Rattle.cost_laws.specs.Places.{AreEvaluated, evaluated_places};
ghost use Rattle.rx_render.specs.declared.at.At.TheVariants.{Over};
ghost use Rattle.rx_render.specs.Rendering.{Rendering, IfLeft};
ghost use Rattle.rx_render.specs.Renders.{Renders, IsLater, with_hooks};

/// What is dispatched and resolved between two units changes nothing of a render in progress, once the hooks stand for it.
pub fn later_renders()
    ensures { (p : Program) (st later : State) (g : Progress) (v : Rendering) (hooks : Kept) → Renders p st g v → IsLater g st later
        → KeepsAllHooks p later (kept_hooks hooks) → Renders p later g (with_hooks v hooks) }
{}

/// Whatever leaves the journal, the committed tree, the links and what the last commit saw leaves a render in progress: the
/// end of an event, a later time. So does another count of its units and bodies, and a resource that gets its value, which
/// the render doesn't see.
pub fn renders_stay()
    ensures same { (p : Program) (st later : State) (g : Progress) (v : Rendering) → Renders p st g v → later.journal ≡ st.journal → later.tree ≡ st.tree
        → later.linked ≡ st.linked → later.seen ≡ st.seen → Renders p later g v }
    ensures counted { (p : Program) (st : State) (g h : Progress) (v : Rendering) → Renders p st g v → h.lanes ≡ g.lanes → h.cut ≡ g.cut → Renders p st h v }
    ensures resolved { (p : Program) (st : State) (g : Progress) (v : Rendering) (resource : ℕ) (value : ℤ) → Renders p st g v → Renders p (with_value st resource value) g v }
{}

/// If no unit is left, the tree in progress is that of the node that fresh rendering gives, and there were fewer bodies
/// than units. These are the bodies of a set of places: each that has a cause is in it, and each in it has one, or lies below a
/// place that has one or that is tried again; none is there twice.
pub fn renders_end()
    ensures { (p : Program) → IsBounded p → (st : State) (g : Progress) (v : Rendering) → Renders p st g v → v.at ≡ Over
        → (x : Node) × IsTreeOf (Some x) (grafted v.trees.draft) × (fresh (sight_of p st g) st.tree ≡ made x) × (v.bodies < v.units)
        × (v.bodies ≡ length (evaluated_places (sight_of p st g) st.tree)) × AreEvaluated (sight_of p st g) st.tree }
{}

/// If a unit is left, fewer were taken than the bound of the machine.
pub fn renders_are_bounded()
    ensures { (p : Program) → IsBounded p → (st : State) (g : Progress) (v : Rendering) → Renders p st g v → IfLeft v.at (v.units < unit_bound p) }
{}
