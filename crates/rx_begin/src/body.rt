// A component's place begins with its body.
ghost use Rattle.std.specs.Prelude.{◌≡◌, ◌+◌, ◌≤◌, ℕ, ℤ, Bool, true, false, not, List, Option, Some, None, length, IfOk, IfSome, OnOk, IsSome, if◌then◌else◌, option_map, option_and_then};
ghost use Rattle.std.specs.Option.{option_copied};
ghost use Rattle.rx_rules.specs.Names.{component_at, prop_names};
ghost use Rattle.rx_elem.specs.Elements.{Elements, Key, listed};
ghost use Rattle.rx_elem.specs.Elements as elements;
ghost use Rattle.rx_elem.specs.Trees as trees;
ghost use Rattle.rx_elem.specs.Trees.{Node, instance_in, of_instance};
ghost use Rattle.rx_links.specs.Drafts.{old_of};
ghost use Rattle.rx_meaning.specs.Body.{body_of};
ghost use Rattle.rx_meaning.specs.Fresh.{Sight, Contexts, values_of, instance_after, inputs_at, old_instance, shape_of_body, shape_of_component};
ghost use Rattle.rx_meaning.specs.Settled.{DoneBefore, IfSettled, known_by};
ghost use Rattle.rx_model.specs.State.{State};
ghost use Rattle.rx_model.specs.HooksOf.{KeepsAllHooks};
ghost use Rattle.rx_eval.specs.Given.{body_seen};
ghost use Rattle.rx_node.specs.MarkView.{instance_seen};
ghost use Rattle.rx_fiber.specs.Reading.{IsOld};
ghost use Rattle.rx_hook_store.specs.Store.{kept_hooks};
ghost use Rattle.rx_hook_store.specs.Gives.{GivesValues};
ghost use Rattle.rx_links.specs.Readers.{list_from};
ghost use Rattle.rx_fiber.specs.Fibers.{as_cloned, as_matched, begun};
ghost use Rattle.rx_fiber.specs.OldLists.{primary_list, old_elements, old_fibers};
ghost use Rattle.rx_causes.specs.Marks.{keeps_children, mark_at};
ghost use Rattle.rx_causes.specs.Scenes.{IsSceneOf, IsCalmAt, TellsCalm, GivesHooks, number_in};
ghost use Rattle.rx_children.specs.Nodes.{IsBareAt, HasOpened, begun_over};
ghost use Rattle.rx_children.specs.Origins.{StoodIn};
ghost use Rattle.rx_begin.specs.Bodies.{HasShape};
ghost use Rattle.rx_begin.specs.Beginning.{awaited_again, is_opened, is_taken};
ghost use Rattle.rx_begin.specs.Kids.{HasKids, kids_as};
ghost use Rattle.rx_children.specs.declared.node.Begun.TheVariants.{Suspended, Thrown};

use crate::place::Place;
use rx_base::{Int, Ints, Steps};
use rx_causes::{Scene, read_another};
use rx_children::{Begun, keep_node, old_instance, open_node};
use rx_elem::{ContextRead, EffectRecord, Element, VersionRead};
use rx_eval::{Body, Evaluator, Inputs, eval_body};
use rx_fiber::{Fiber, Stage};
use rx_hook_store::HookStore;
use rx_links::{FiberId, FiberTree};
use rx_node::{Instance, InstanceParts, Mark};
use std::alloc::{AllocError, Global};
use std::rc::Rc;
use std::sync::ledger::Ledger;

// The values of the hooks of an instance, if it has a number.
fn values_of(
    alloc: Global,
    scene: &Scene,
    number: Option<u64>,
    hooks: &mut HookStore,
) -> Result<Option<Ints>, AllocError>
    requires { IfSome number (λ n. IsSome (kept_hooks hooks.old n)) }
    ensures values { IfOk result (λ v. (s : Sight) (old : Option trees.Instance) → IsSceneOf scene.now s → number_in old ≡ number → GivesHooks s (kept_hooks hooks.old) old → v ≡ option_and_then (values_of s) old) }
    ensures still { (s : Sight) (k : ℕ) (initials : List ℤ) → IsSceneOf scene.now s → GivesValues s (kept_hooks hooks.old) k initials → GivesValues s (kept_hooks hooks.new) k initials }
    ensures states { (st : State) → DoneBefore scene.now.cut st.journal.updates → KeepsAllHooks scene.now.checked.now st (kept_hooks hooks.old) → KeepsAllHooks scene.now.checked.now st (kept_hooks hooks.new) }
{
    match number {
        None => Ok(None),
        Some(number) => {
            let fold = Evaluator::new(scene.checked);
            let values = hooks.render_values(alloc, number, &fold, scene.lanes, scene.cut)?;
            Ok(Some(values))
        }
    }
}

fn slice_of(values: &Option<Ints>) -> Option<&[Int]>
    ensures { option_copied result ≡ values.now }
{
    match values {
        Some(values) => Some(values.as_slice()),
        None => None,
    }
}

// A component's body, if its hooks have these states.
fn evaluate<'x, L: Ledger>(
    alloc: Global,
    scene: &'x Scene<'x>,
    component: u32,
    props: &'x Ints,
    children: &'x [Element],
    states: Option<&'x [Int]>,
    contexts: &'x [Int],
    steps: &mut Steps<L>,
) -> Result<Body, AllocError>
    requires { option_map (λ d. length (prop_names d)) (component_at scene.now.checked.now component) ≡ Some (length props.now) }
    ensures body { IfOk result (λ b. option_map (λ d. body_of scene.now.checked.now d (record { props = props.now; children = children.now; hooks = option_copied states.entry; contexts = contexts.now; versions = scene.now.versions.now; resources = scene.now.resources.now }))
        (component_at scene.now.checked.now component) ≡ Some (body_seen b)) }
    ensures once { steps.new ≡ steps.old + 1 }
{
    let versions = scene.versions;
    let resources = scene.resources;
    let inputs = Inputs {
        props: props.as_slice(),
        children,
        hooks: states,
        contexts,
        versions,
        resources,
    };
    eval_body(alloc, scene.checked, component, &inputs, steps)
}

// A component's body, from the hooks of its old instance.
fn body_at<L: Ledger>(
    alloc: Global,
    scene: &Scene,
    component: u32,
    props: &Ints,
    children: &[Element],
    number: Option<u64>,
    hooks: &mut HookStore,
    contexts: &[Int],
    steps: &mut Steps<L>,
) -> Result<Body, AllocError>
    requires given { option_map (λ d. length (prop_names d)) (component_at scene.now.checked.now component) ≡ Some (length props.now) }
    requires kept { IfSome number (λ n. IsSome (kept_hooks hooks.old n)) }
    ensures body { IfOk result (λ b. (s : Sight) (old : Option trees.Instance) (kids : Elements) → IsSceneOf scene.now s → number_in old ≡ number → GivesHooks s (kept_hooks hooks.old) old → listed kids ≡ children.now
        → option_map (λ d. body_of s.program d (inputs_at s contexts.now props.now kids old)) (component_at s.program component) ≡ Some (body_seen b)) }
    ensures once { OnOk result (steps.new ≡ steps.old + 1) }
    ensures rises { steps.old ≤ steps.new }
    ensures at_most_one { steps.new ≤ steps.old + 1 }
    ensures still { (s : Sight) (k : ℕ) (initials : List ℤ) → IsSceneOf scene.now s → GivesValues s (kept_hooks hooks.old) k initials → GivesValues s (kept_hooks hooks.new) k initials }
    ensures states { (st : State) → DoneBefore scene.now.cut st.journal.updates → KeepsAllHooks scene.now.checked.now st (kept_hooks hooks.old) → KeepsAllHooks scene.now.checked.now st (kept_hooks hooks.new) }
{
    let values = values_of(alloc, scene, number, hooks)?;
    evaluate(
        alloc,
        scene,
        component,
        props,
        children,
        slice_of(&values),
        contexts,
        steps,
    )
}

// What an evaluation of an instance left of a kind, for its next parts. Most left nothing, before and after: then what was
// kept before is handed on.
fn shared<T: Drop>(
    alloc: Global,
    kept: Vec<T>,
    before: &Rc<Vec<T>>,
) -> Result<Rc<Vec<T>>, AllocError>
    ensures { IfOk result (λ r. r.value.items ≡ kept.items) }
{
    if kept.is_empty() && before.is_empty() {
        return before.clone();
    }
    Ok(Rc::new(alloc, kept)?)
}

// An instance keeps its number and its initial values (react.dev, State as a Snapshot).
fn instance_after(
    alloc: Global,
    component: u32,
    old: Option<Instance>,
    initials: Ints,
    reads: Vec<ContextRead>,
    versions: Vec<VersionRead>,
    effects: Vec<EffectRecord>,
) -> Result<Instance, AllocError>
    ensures { IfOk result (λ i. instance_seen i ≡ instance_after component (option_map instance_seen old) initials reads.items versions.items effects.items) }
{
    match old {
        Some(old) => Ok(Instance {
            number: old.number,
            parts: Rc::new(
                alloc,
                InstanceParts {
                    component,
                    initials: old.parts.initials.clone()?,
                    reads: shared(alloc, reads, &old.parts.reads)?,
                    versions: shared(alloc, versions, &old.parts.versions)?,
                    effects: shared(alloc, effects, &old.parts.effects)?,
                },
            )?,
        }),
        None => Ok(Instance {
            number: None,
            parts: Rc::new(
                alloc,
                InstanceParts {
                    component,
                    initials: Rc::new(alloc, initials)?,
                    reads: Rc::new(alloc, reads)?,
                    versions: Rc::new(alloc, versions)?,
                    effects: Rc::new(alloc, effects)?,
                },
            )?,
        }),
    }
}

fn number_of(instance: &Option<Instance>) -> Option<u64>
    ensures { result ≡ number_in (option_map instance_seen instance.now) }
{
    match instance {
        Some(instance) => instance.number,
        None => None,
    }
}

// A component's fiber is begun over what its body gives, elements of this generation.
fn open_body(
    alloc: Global,
    tree: &mut FiberTree<Fiber>,
    at: FiberId,
    component: u32,
    old: Option<Instance>,
    body: Body,
    steady: bool,
    generation: u32,
) -> Result<Begun, AllocError>
    requires bare { IsBareAt tree.old at }
    ensures opened { IfOk result (λ b. (cs : Contexts) (node : Option Node) (again : Bool) → option_map instance_seen old ≡ old_instance node → HasShape again steady generation (shape_of_body cs component node (body_seen body)) cs node tree.old tree.new at b) }
    ensures anew { IfOk result (λ b. is_taken b ≡ false) }
    ensures own { IfOk result (λ b. awaited_again b ≡ None) }
    ensures kids { IfOk result (λ b. is_opened b ≡ true → (h : HasKids (as_matched steady generation) tree.old tree.new at) × (b ≡ begun_over h.kids)) }
    ensures waits { IfOk result (λ b. (r : ℕ) → b ≡ Suspended r → tree.new ≡ tree.old) }
    ensures throws { IfOk result (λ b. (x : ℤ) → b ≡ Thrown x → tree.new ≡ tree.old) }
    ensures current { tree.new.current ≡ tree.old.current }
{
    match body {
        Body::Wait(resource, _) => Ok(Begun::Suspended(resource)),
        Body::Throw(value) => Ok(Begun::Thrown(value)),
        Body::Ready {
            elements,
            effects,
            initials,
            reads,
            versions,
        } => {
            let instance = instance_after(
                alloc, component, old, initials, reads, versions, effects,
            )?;
            let stage = Stage::Begun(Mark::Instance(instance));
            open_node(alloc, tree, at, stage, &elements, steady, generation)
        }
    }
}

// Whether an instance has no cause to be rendered anew: its hooks have no work, and the contexts that it read have the values
// that it found, and the resources the versions.
fn is_calm(instance: &Option<Instance>, scene: &Scene, hooks: &HookStore, contexts: &[Int]) -> bool
    requires { IfSome (number_in (option_map instance_seen instance.now)) (λ n. IsSome (kept_hooks hooks.now n)) }
    ensures there { result ≡ true → IsSome instance.now }
    ensures exact { TellsCalm scene.now (kept_hooks hooks.now) contexts.now (option_map instance_seen instance.now) result }
    ensures calm { result ≡ true → (s : Sight) → IsSceneOf scene.now s → GivesHooks s (kept_hooks hooks.now) (option_map instance_seen instance.now)
        → (i : trees.Instance) × (option_map instance_seen instance.now ≡ Some i) × IsCalmAt s contexts.now i }
{
    match instance {
        Some(instance) => match instance.number {
            Some(number) => {
                !hooks.has_work(number, scene.lanes, scene.cut)
                    && !read_another(instance, scene, contexts)
            }
            None => false,
        },
        None => false,
    }
}

// Whether a body is skipped: the element is as before, and its instance has no cause to be rendered anew.
fn is_skipped(
    again: bool,
    instance: &Option<Instance>,
    scene: &Scene,
    hooks: &HookStore,
    contexts: &[Int],
) -> bool
    requires { IfSome (number_in (option_map instance_seen instance.now)) (λ n. IsSome (kept_hooks hooks.now n)) }
    ensures again { result ≡ true → again ≡ true }
    ensures there { result ≡ true → IsSome instance.now }
    ensures exact { again ≡ true → TellsCalm scene.now (kept_hooks hooks.now) contexts.now (option_map instance_seen instance.now) result }
    ensures calm { result ≡ true → (s : Sight) → IsSceneOf scene.now s → GivesHooks s (kept_hooks hooks.now) (option_map instance_seen instance.now)
        → (i : trees.Instance) × (option_map instance_seen instance.now ≡ Some i) × IsCalmAt s contexts.now i }
{
    if again {
        is_calm(instance, scene, hooks, contexts)
    } else {
        false
    }
}

// A component's fiber is begun over clones of its children, as its old instance stands.
fn keep_body(
    tree: &mut FiberTree<Fiber>,
    at: FiberId,
    old: Option<Instance>,
    steady: bool,
) -> Result<Begun, AllocError>
    requires bare { IsBareAt tree.old at }
    requires there { IsSome old }
    ensures kept { IfOk result (λ b. (i : trees.Instance) → option_map instance_seen old ≡ Some i → HasOpened (as_cloned steady) tree.old tree.new at (begun (of_instance i))
        (old_elements (primary_list (list_from tree.old.current (old_of tree.old.draft at)))) (old_fibers (primary_list (list_from tree.old.current (old_of tree.old.draft at)))) b) }
    ensures kids { IfOk result (λ b. (h : HasKids (as_cloned steady) tree.old tree.new at) × (b ≡ begun_over h.kids)) }
    ensures current { tree.new.current ≡ tree.old.current }
{
    match old {
        Some(instance) => keep_node(tree, at, Stage::Begun(Mark::Instance(instance)), steady),
        None => unreachable!(),
    }
}

// A component's place begins: its body is evaluated, once, unless it has no cause to be. What the body gives is of this
// generation.
pub(crate) fn begin_component<L: Ledger>(
    alloc: Global,
    tree: &mut FiberTree<Fiber>,
    at: FiberId,
    scene: &Scene,
    place: Place,
    component: u32,
    props: &Ints,
    children: &[Element],
    hooks: &mut HookStore,
    contexts: &[Int],
    steps: &mut Steps<L>,
) -> Result<(Begun, bool), AllocError>
    requires bare { IsBareAt tree.old at }
    requires given { option_map (λ d. length (prop_names d)) (component_at scene.now.checked.now component) ≡ Some (length props.now) }
    requires kept { IfSome (number_in (option_and_then instance_in (mark_at tree.old.current (old_of tree.old.draft at)))) (λ n. IsSome (kept_hooks hooks.old n)) }
    ensures evaluated { IfOk result (λ b. (s : Sight) (old : Option Node) (key : Key) (kids : Elements) → IsSceneOf scene.now s → IsOld tree.old.current (old_of tree.old.draft at) old → GivesHooks s (kept_hooks hooks.old) (old_instance old)
        → IfSettled s.program (known_by s) old → (place.again ≡ true → StoodIn old (elements.comp component key props.now kids))
        → listed kids ≡ children.now → HasShape place.again place.steady place.generation (shape_of_component s contexts.now component props.now kids old (component_at s.program component)) contexts.now old tree.old tree.new at b.0) }
    ensures current { tree.new.current ≡ tree.old.current }
    ensures own { IfOk result (λ b. (is_taken b.0 ≡ false) × (awaited_again b.0 ≡ None)) }
    ensures kids { IfOk result (λ b. is_opened b.0 ≡ true → (h : HasKids (kids_as b.1 place.steady place.generation) tree.old tree.new at) × (b.0 ≡ begun_over h.kids)) }
    ensures waits { IfOk result (λ b. (r : ℕ) → b.0 ≡ Suspended r → tree.new ≡ tree.old) }
    ensures throws { IfOk result (λ b. (x : ℤ) → b.0 ≡ Thrown x → tree.new ≡ tree.old) }
    ensures once { IfOk result (λ b. steps.new ≡ steps.old + (if b.1 then 1 else 0)) }
    ensures anew { IfOk result (λ b. place.again ≡ false → b.1 ≡ true) }
    ensures kept { IfOk result (λ b. b.1 ≡ false → keeps_children place.again (mark_at tree.old.current (old_of tree.old.draft at)) ≡ true) }
    ensures taken { IfOk result (λ b. is_taken b.0 ≡ true → b.1 ≡ false) }
    ensures exact { IfOk result (λ b. place.again ≡ true → TellsCalm scene.now (kept_hooks hooks.old) contexts.now (option_and_then instance_in (mark_at tree.old.current (old_of tree.old.draft at))) (not b.1)) }
    ensures rises { steps.old ≤ steps.new }
    ensures at_most_one { steps.new ≤ steps.old + 1 }
    ensures still { (s : Sight) (k : ℕ) (initials : List ℤ) → IsSceneOf scene.now s → GivesValues s (kept_hooks hooks.old) k initials → GivesValues s (kept_hooks hooks.new) k initials }
    ensures states { (st : State) → DoneBefore scene.now.cut st.journal.updates → KeepsAllHooks scene.now.checked.now st (kept_hooks hooks.old) → KeepsAllHooks scene.now.checked.now st (kept_hooks hooks.new) }
{
    tree.place_facts();
    let old = old_instance(tree, tree.alternate(at))?;
    if is_skipped(place.again, &old, scene, hooks, contexts) {
        let begun = keep_body(tree, at, old, place.steady)?;
        return Ok((begun, false));
    }
    let number = number_of(&old);
    let body = body_at(
        alloc, scene, component, props, children, number, hooks, contexts, steps,
    )?;
    let begun = open_body(
        alloc,
        tree,
        at,
        component,
        old,
        body,
        place.steady,
        place.generation,
    )?;
    Ok((begun, true))
}
