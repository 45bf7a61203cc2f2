// An instance is looked up, hooks are shown, and what a boundary waits for is read.
ghost use Rattle.std.specs.Prelude.{IfOk};
ghost use Rattle.rx_fiber.specs.Subtrees.{IsGathered};

use rx_ast::{Body, Component, Declaration, Expr, Program, Slot, Statement};
use rx_base::{Awaits, Int, Ints, Name};
use rx_check::{Checked, check};
use rx_dispatch::dispatch_path;
use rx_elem::{Element, ElementKind};
use rx_fiber::{Fiber, Stage, StageChange, Subtree};
use rx_hook_store::HookStore;
use rx_instances::{awaited, find_instance, hidden_count, node_count, show_hooks};
use rx_links::FiberTree;
use rx_node::{Instance, InstanceParts, Mark};
use rx_report::Report;
use rx_step::{Dispatch, LaneWord, Path};
use rx_susp::BoundaryState;
use rx_ways::Ways;
use std::alloc::{AllocError, Global};
use std::rc::Rc;
use std::test::Fail;

// `const [n, setN] = useState(0);`
fn state(alloc: Global) -> Result<Vec<Statement>, AllocError> {
    let name = Name::new(alloc, "n")?;
    let setter = Name::new(alloc, "setN")?;
    let mut statements = Vec::new(alloc);
    statements.push(Statement::state(name, setter, Expr::number(0)))?;
    Ok(statements)
}

// `function App() { const [n, setN] = useState(0); return null; }`
fn app(alloc: Global) -> Result<Component, AllocError> {
    let statements = state(alloc)?;
    let name = Name::new(alloc, "App")?;
    let body = Body::slot(Slot::null());
    Ok(Component::new(name, false, false, Vec::new(alloc), statements, body))
}

// The program of that component.
fn counter(alloc: Global) -> Result<Program, AllocError> {
    let app = app(alloc)?;
    let mut declarations = Vec::new(alloc);
    declarations.push(Declaration::component(app))?;
    Ok(Program::new(false, declarations))
}

// A current fiber alone, of this stage.
fn alone(alloc: Global, stage: Stage) -> Result<FiberTree<Fiber>, AllocError>
    ensures { IfOk result (λ tree. IsGathered tree.current) }
{
    let element = Element::new(alloc, ElementKind::Null)?;
    let mut fiber = Fiber::new(0, element, stage);
    fiber.change(StageChange::Complete(Subtree::nothing()));
    let mut tree = FiberTree::new(alloc);
    tree.start(fiber)?;
    tree.swap();
    Ok(tree)
}

// The fibers of the counter.
fn counted(alloc: Global) -> Result<FiberTree<Fiber>, AllocError>
    ensures { IfOk result (λ tree. IsGathered tree.current) }
{
    let mut initials = Vec::new(alloc);
    initials.push(Int::of(0))?;
    let instance = Instance {
        number: Some(1),
        parts: Rc::new(
            alloc,
            InstanceParts {
                component: 0,
                initials: Rc::new(alloc, Ints::new(initials))?,
                reads: Rc::new(alloc, Vec::new(alloc))?,
                versions: Rc::new(alloc, Vec::new(alloc))?,
                effects: Rc::new(alloc, Vec::new(alloc))?,
            },
        )?,
    };
    alone(alloc, Stage::Begun(Mark::Instance(instance)))
}

// `set n = 7` of the counter.
fn set_seven(alloc: Global) -> Result<Dispatch, AllocError> {
    let mut parts = Vec::new(alloc);
    parts.push((Name::new(alloc, "App")?, 0))?;
    let name = Name::new(alloc, "n")?;
    let path = Path::new(alloc, parts)?;
    Ok(Dispatch::Set(LaneWord::Sync, path, name, Int::of(7)))
}

#[test]
fn a_path_leads_to_an_instance(rt: HostRuntime) -> Result<(), Fail> {
    let checked = check(rt.alloc(), counter(rt.alloc())?)?;
    let tree = counted(rt.alloc())?;
    let dispatch = set_seven(rt.alloc())?;
    let known = Ways::new(rt.alloc());
    let mut sent = Ways::new(rt.alloc());
    let found = find_instance(&checked, &tree, dispatch_path(&dispatch), &known, &mut sent);
    assert_eq!(rt; found.map(|f| f.number), Some(1));
    assert!(rt; sent.has(1));
    assert_eq!(rt; node_count(&tree), 1);
    assert_eq!(rt; hidden_count(&tree), 0);
    Ok(())
}

#[test]
fn what_is_known_is_not_sent(rt: HostRuntime) -> Result<(), Fail> {
    let checked = check(rt.alloc(), counter(rt.alloc())?)?;
    let tree = counted(rt.alloc())?;
    let dispatch = set_seven(rt.alloc())?;
    let known = Ways::everything(rt.alloc());
    let mut sent = Ways::new(rt.alloc());
    let found = find_instance(&checked, &tree, dispatch_path(&dispatch), &known, &mut sent);
    assert_eq!(rt; found.map(|f| f.number), Some(1));
    assert!(rt; !sent.has(1));
    Ok(())
}

// What is shown of a machine at its start.
fn shown(alloc: Global, checked: &Checked) -> Result<Report, AllocError> {
    let tree = FiberTree::new(alloc);
    let hooks = HookStore::new(alloc);
    let mut report = Report::new(alloc, false, false);
    show_hooks(alloc, &mut report, checked, &tree, &hooks)?;
    Ok(report)
}

#[test]
fn no_hooks_at_the_start(rt: HostRuntime) -> Result<(), Fail> {
    let checked = check(rt.alloc(), counter(rt.alloc())?)?;
    let report = shown(rt.alloc(), &checked)?;
    assert!(rt; report.bytes() == b"state\n".as_slice());
    Ok(())
}

#[test]
fn a_boundary_waits(rt: HostRuntime) -> Result<(), Fail> {
    let mark = Mark::Boundary(BoundaryState::Hidden(Awaits::one(3)));
    let tree = alone(rt.alloc(), Stage::Begun(mark))?;
    assert!(rt; awaited(&tree).has(3));
    assert_eq!(rt; hidden_count(&tree), 1);
    Ok(())
}
