// The first commit of a program with one hook.
ghost use Rattle.std.specs.Prelude.{◌≡◌, IfOk};
ghost use Rattle.machine_tests.specs.FirstTree.{counter, first_tree};

use rx_ast::{Body, Component, Declaration, Expr, Program, Slot, Statement};
use rx_base::{Cut, Int, Ints, Name};
use rx_check::check;
use rx_elem::{Element, ElementKind};
use rx_hook_store::HookStore;
use rx_lane::{Lane, Lanes};
use rx_node::{Instance, InstanceParts, Mark, Node};
use rx_settle::{settle_all, settle_hooks};
use std::alloc::{AllocError, Global};
use std::rc::Rc;
use std::test::Fail;

// `function App() { const [n, setN] = useState(5); return null; }`
fn counter(alloc: Global) -> Result<Program, AllocError>
    ensures { IfOk result (λ p. p ≡ counter) }
{
    let state = Statement::state(
        Name::new(alloc, "n")?,
        Name::new(alloc, "setN")?,
        Expr::number(5),
    );
    let mut statements = Vec::new(alloc);
    statements.push(state)?;
    let name = Name::new(alloc, "App")?;
    let body = Body::slot(Slot::null());
    let app = Component::new(name, false, false, Vec::new(alloc), statements, body);
    let mut declarations = Vec::new(alloc);
    declarations.push(Declaration::component(app))?;
    Ok(Program::new(false, declarations))
}

// Its first tree.
fn first_tree(alloc: Global) -> Result<Node, AllocError>
    ensures { IfOk result (λ n. n ≡ first_tree) }
{
    let mut initials = Vec::new(alloc);
    initials.push(Int::of(5))?;
    let instance = Instance {
        number: Some(1),
        parts: Rc::new(
            alloc,
            InstanceParts {
                component: 0,
                initials: Rc::new(alloc, Ints::new(initials))?,
                reads: Rc::new(alloc, Vec::new(alloc))?,
                versions: Rc::new(alloc, Vec::new(alloc))?,
                effects: Rc::new(alloc, Vec::new(alloc))?,
            },
        )?,
    };
    let app = ElementKind::Comp(0, None, Ints::new(Vec::new(alloc)), Vec::new(alloc));
    let element = Element::new(alloc, app)?;
    let mark = Mark::Instance(instance);
    Node::new(alloc, element, mark, Vec::new(alloc), Vec::new(alloc))
}

#[test]
fn a_new_instance_has_its_hooks(rt: HostRuntime) -> Result<(), Fail> {
    let alloc = rt.alloc();
    let checked = check(alloc, counter(alloc)?)?;
    // What is known of a program that is accepted.
    let _program = checked.program();
    let tree = first_tree(alloc)?;
    let lanes = Lanes::one(Lane::Default);
    let cut = Cut {
        updates: 0,
        resolutions: 0,
    };
    let mut store = HookStore::new(alloc);
    let settled = settle_hooks(alloc, &mut store, &checked, None, &tree, 1, lanes, cut)?;
    if !settled {
        panic!(rt; "nothing is left out");
    }
    let value = store.committed(1, 0);
    assert_eq!(rt; value, Int::of(5));
    let mut whole = HookStore::new(alloc);
    settle_all(alloc, &mut whole, &checked, None, &tree, 1, lanes, cut)?;
    let value = whole.committed(1, 0);
    assert_eq!(rt; value, Int::of(5));
    Ok(())
}
