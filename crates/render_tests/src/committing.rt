// The first commit, of an instance with two effects above a paragraph.
ghost use Rattle.std.specs.Prelude.{◌≡◌, [], Some, None, codes, IfOk};
ghost use Rattle.rx_elem.specs.Elements as elements;
ghost use Rattle.rx_elem.specs.Trees.{node, none, of_host};
ghost use Rattle.end_laws.specs.Trimmed.{trimmed};
ghost use Rattle.host_laws.specs.Commits.{IsCommit, TextsAreLeaves};
ghost use Rattle.rx_pruned.specs.Besides.{IsBeside};

use rx_base::{Ints, Name, Str};
use rx_changes::changes_between;
use rx_commit::{Shown, deferral};
use rx_elem::{EffectRecord, Element, ElementKind};
use rx_host_ops::hosts;
use rx_lane::{Lane, Lanes};
use rx_node::{Instance, InstanceParts, Mark, Node};
use rx_pruned::Beside;
use rx_report::Report;
use std::alloc::{AllocError, Global};
use std::rc::Rc;
use std::test::Fail;

fn effects(alloc: Global) -> Result<Vec<EffectRecord>, AllocError> {
    let mut effects = Vec::new(alloc);
    for layout in [true, false] {
        effects.push(EffectRecord {
            layout,
            label: Str::new(alloc, "shown")?,
            values: Ints::new(Vec::new(alloc)),
        })?;
    }
    Ok(effects)
}

fn instance(alloc: Global) -> Result<Instance, AllocError> {
    Ok(Instance {
        number: Some(1),
        parts: Rc::new(
            alloc,
            InstanceParts {
                component: 0,
                initials: Rc::new(alloc, Ints::new(Vec::new(alloc)))?,
                reads: Rc::new(alloc, Vec::new(alloc))?,
                versions: Rc::new(alloc, Vec::new(alloc))?,
                effects: Rc::new(alloc, effects(alloc)?)?,
            },
        )?,
    })
}

fn paragraph(alloc: Global) -> Result<Node, AllocError>
    ensures { IfOk result (λ n. n ≡ node (elements.host (codes "p") None [] elements.none) (of_host (Some 1)) none none) }
{
    let name = Name::new(alloc, "p")?;
    let kind = ElementKind::Host(name, None, Vec::new(alloc), Vec::new(alloc));
    let element = Element::new(alloc, kind)?;
    let mark = Mark::Host(Some(1));
    Node::new(alloc, element, mark, Vec::new(alloc), Vec::new(alloc))
}

fn first_tree(alloc: Global) -> Result<Node, AllocError>
    ensures commit { IfOk result (IsCommit None) }
    ensures leaves { IfOk result TextsAreLeaves }
    ensures ends { IfOk result (λ n. n ≡ trimmed n) }
{
    let kind = ElementKind::Comp(0, None, Ints::new(Vec::new(alloc)), Vec::new(alloc));
    let element = Element::new(alloc, kind)?;
    let mark = Mark::Instance(instance(alloc)?);
    let mut children = Vec::new(alloc);
    children.push(Some(paragraph(alloc)?))?;
    Node::new(alloc, element, mark, children, Vec::new(alloc))
}

// A first tree, beside which there is none.
fn beside_none(tree: Node) -> Beside
    ensures { IsBeside None tree result }
{
    Beside {
        pruned_old: None,
        pruned_new: tree,
    }
}

#[test]
fn a_tree_is_committed(rt: HostRuntime) -> Result<(), Fail> {
    let alloc = rt.alloc();
    let mut shown = Shown::new(alloc);
    let tree = first_tree(alloc)?;
    let lanes = Lanes::one(Lane::Default);
    let all = hosts(alloc, Some(&tree))?;
    let beside = beside_none(tree);
    assert!(rt; deferral(alloc, &beside, lanes)?.is_none());
    let pruned = beside.pruned_old.as_ref();
    let changes = changes_between(alloc, pruned, &beside.pruned_new)?;
    let left = hosts(alloc, Some(&beside.pruned_new))?;
    let prepared = shown.prepare(alloc, &beside, changes, &left, &all)?;
    let mut log = Report::new(alloc, false, true);
    prepared.write(&mut log, 1, lanes, 1, 1)?;
    shown.commit(prepared);
    shown.flush_passive(&mut log)?;
    shown.write_tree(&mut log)?;
    assert!(rt;
        log.bytes()
            == b"commit 1 Default\nop create #1 p\nop place #1 under #0 at end\nlayout + [1] \"shown\"\npassive + [1] \"shown\"\ntree\n  p\n".as_slice()
    );
    Ok(())
}
