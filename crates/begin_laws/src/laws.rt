// Laws of what the beginning of a place costs.
ghost use Rattle.std.specs.Prelude.{◌≡◌, ◌≤◌, ℕ, suc, Bool, List, Option, Some, if◌then◌else◌};
ghost use Rattle.rx_ast.specs.Syntax.{Program};
ghost use Rattle.rx_ctx.specs.Contexts.{Stack};
ghost use Rattle.rx_elem.specs.Elements.{Element};
ghost use Rattle.rx_elem.specs.Trees.{Node};
ghost use Rattle.rx_hooks.specs.declared.hook.Hook.{Hook};
ghost use Rattle.rx_links.specs.Drafts.{Fits, Trees, entry};
ghost use Rattle.rx_meaning.specs.Counts.{each_body, next_counts};
ghost use Rattle.rx_meaning.specs.Cursor.{Frame, at_place};
ghost use Rattle.rx_meaning.specs.Fresh.{Contexts, Sight, shape_of};
ghost use Rattle.rx_fiber.specs.Fibers.{Fiber};
ghost use Rattle.rx_fiber.specs.Standing.{StandsAt};
ghost use Rattle.rx_causes.specs.declared.scene.Scene.{Scene};
ghost use Rattle.rx_causes.specs.Scenes.{IsSceneOf};
ghost use Rattle.cost_laws.specs.Left.{Flags, MayGo, next_evaluated, unit_flags};
ghost use Rattle.begin_laws.specs.Flagged.{FlagsAtPlace, FlagsOpened};
ghost use Rattle.rx_model.specs.State.{Progress, State};
ghost use Rattle.rx_model.specs.Committing.{sight_of};
ghost use Rattle.rx_model.specs.HooksOf.{KeepsAllHooks};
ghost use Rattle.rx_begin.specs.Beginning.{HasLists};
ghost use Rattle.begin_laws.specs.Mounting.{HasInstances};
ghost use Rattle.begin_laws.specs.Telling.{OpensKids, TellsBody, TellsCauses, TellsIf, TellsTries};

/// A unit that begins a place evaluates its body exactly if that is told, and tries no untouched boundary; it opens lists whose
/// fibers are as their flags tell.
pub fn places_cost()
    ensures bodies { (s : Sight) (scene : Scene) (kept : ℕ → Option (List Hook)) (t : Trees Fiber) (st : Stack) (id n : ℕ) (fs : List Frame) (cs : Contexts) (e : Element) (old : Option Node) (evaluated : Bool)
        → IsSceneOf scene s → Fits t → StandsAt t st (Some id) (at_place (suc n) fs cs e old) → TellsIf s kept old → TellsBody scene kept t cs id evaluated
        → (if evaluated then 1 else 0) ≤ next_counts each_body s (at_place (suc n) fs cs e old)
        → (if evaluated then 1 else 0) ≡ next_evaluated s (at_place (suc n) fs cs e old) }
    ensures tries { (s : Sight) (scene : Scene) (kept : ℕ → Option (List Hook)) (t : Trees Fiber) (st : Stack) (id n : ℕ) (fs : List Frame) (cs : Contexts) (e : Element) (old : Option Node) (us : Flags)
        → IsSceneOf scene s → Fits t → StandsAt t st (Some id) (at_place (suc n) fs cs e old) → TellsIf s kept old → FlagsAtPlace t id us → TellsTries scene kept t st id
        → MayGo s us (at_place (suc n) fs cs e old) }
    ensures opens { (s : Sight) (t new : Trees Fiber) (st : Stack) (id n : ℕ) (fs : List Frame) (cs : Contexts) (e : Element) (old : Option Node) (us : Flags)
        → Fits t → StandsAt t st (Some id) (at_place (suc n) fs cs e old) → FlagsAtPlace t id us → HasLists (shape_of s cs e old) → (k : OpensKids t new id)
        → FlagsOpened new id (unit_flags s us (at_place (suc n) fs cs e old)) (entry k.kids.kids) }
{}

/// Kept hooks that stand for the machine's state tell the causes of each node of the committed tree.
pub fn hooks_tell_causes()
    ensures { (p : Program) (st : State) (g : Progress) (kept : ℕ → Option (List Hook)) (x : Node) → KeepsAllHooks p st kept
        → HasInstances st.tree x → TellsCauses (sight_of p st g) kept x }
{}
