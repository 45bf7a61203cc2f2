// Numbers for the instances and hosts that are new.
ghost use Rattle.std.specs.Prelude.{◌≡◌, ◌+◌, ◌^◌, ◌<◌, Some, IfSome};
ghost use Rattle.rx_elem.specs.Numbers.{numbered};
ghost use Rattle.rx_elem.specs.Trees as trees;
ghost use Rattle.rx_links.specs.Drafts.{Makes, made_size, grafted, valued};
ghost use Rattle.rx_links.specs.Readers.{made_value_of, made_kids_of};
ghost use Rattle.rx_fiber.specs.Fibers as fibers;
ghost use Rattle.rx_fiber.specs.FiberView.{stage_seen};
ghost use Rattle.rx_fiber.specs.Reading.{IsTreeOf};
ghost use Rattle.rx_read.specs.Lacking.{stage_lacks};
ghost use Rattle.rx_read.specs.NumbersView.{numbers_seen};
ghost use Rattle.rx_read.specs.Numbering.{numbered_fiber, numbered_first, numbered_draft, made_from, relisted, relisted_from, made_entry, AreHeld, IsAllNumbered};

use rx_fiber::{Fiber, Stage, StageChange};
use rx_links::{FiberId, FiberTree};
use rx_node::Mark;

/// The numbers that the next new instance and the next new host get.
#[derive(Clone, Copy)]
pub struct Numbers {
    pub instance: u64,
    pub host: u64,
}

// Which number a fiber lacks.
#[derive(Clone, Copy)]
enum Lack {
    Nothing,
    Instance,
    Host,
}

fn lack_of(stage: &Stage) -> Lack
    ensures { result ≡ stage_lacks (stage_seen stage.now) }
{
    match stage {
        Stage::Begun(Mark::Instance(instance)) => match instance.number {
            Some(_) => Lack::Nothing,
            None => Lack::Instance,
        },
        Stage::Begun(Mark::Host(None)) => Lack::Host,
        _ => Lack::Nothing,
    }
}

// A made fiber gets the next number, if it lacks one.
fn number_fiber(tree: &mut FiberTree<Fiber>, id: FiberId, next: Numbers) -> Numbers
    requires made { Makes tree.old.draft id }
    requires room { (v : fibers.Fiber) → Some v ≡ made_value_of tree.old.draft id → AreHeld (numbered_fiber (numbers_seen next) v).0 }
    ensures value { tree.new ≡ record tree.old { draft = valued id (λ v. (numbered_fiber (numbers_seen next) v).1) tree.old.draft } }
    ensures next { (v : fibers.Fiber) → Some v ≡ made_value_of tree.old.draft id → numbers_seen result ≡ (numbered_fiber (numbers_seen next) v).0 }
{
    tree.facts();
    match lack_of(tree.value(id).stage()) {
        Lack::Nothing => next,
        Lack::Instance => {
            tree.mark_made(id, &StageChange::Number(next.instance));
            Numbers {
                instance: next.instance + 1,
                host: next.host,
            }
        }
        Lack::Host => {
            tree.mark_made(id, &StageChange::Number(next.host));
            Numbers {
                instance: next.instance,
                host: next.host + 1,
            }
        }
    }
}

/// The first child of a made fiber, if its children are made too. Those that were taken over have the current fiber for their
/// parent.
pub fn made_child(tree: &FiberTree<Fiber>, id: FiberId) -> Option<FiberId>
    requires { Makes tree.now.draft id }
    ensures entry { result ≡ made_entry (made_kids_of tree.now.draft id) }
    ensures made { IfSome result (Makes tree.now.draft) }
{
    tree.facts();
    let child = tree.first_child(id)?;
    let parent = tree.parent(child)?;
    if parent.same(id) { Some(child) } else { None }
}

// Numbers a made fiber, and then what is made below it.
#[cycle(number)]
fn number_node(tree: &mut FiberTree<Fiber>, id: FiberId, next: Numbers) -> Numbers
    requires made { Makes tree.old.draft id }
    requires room { AreHeld (numbered_first (numbers_seen next) (made_from tree.old.draft (Some id))).0 }
    ensures trees { tree.new ≡ record tree.old { draft = relisted id (λ d. (numbered_first (numbers_seen next) d).1) tree.old.draft } }
    ensures next { numbers_seen result ≡ (numbered_first (numbers_seen next) (made_from tree.old.draft (Some id))).0 }
{
    tree.facts();
    let behind = number_fiber(tree, id, next);
    tree.facts();
    let child = made_child(tree, id);
    number_list(tree, child, behind)
}

// Numbers the list that begins with a made fiber.
#[cycle(number)]
fn number_list(tree: &mut FiberTree<Fiber>, first: Option<FiberId>, next: Numbers) -> Numbers
    requires made { IfSome first (Makes tree.old.draft) }
    requires room { AreHeld (numbered_draft (numbers_seen next) (made_from tree.old.draft first)).0 }
    ensures trees { tree.new ≡ record tree.old { draft = relisted_from first (λ d. (numbered_draft (numbers_seen next) d).1) tree.old.draft } }
    ensures next { numbers_seen result ≡ (numbered_draft (numbers_seen next) (made_from tree.old.draft first)).0 }
{
    let mut numbers = next;
    let mut at = first;
    'numbering: while let Some(id) = at {
        tree.facts();
        numbers = number_node(tree, id, numbers);
        tree.facts();
        at = tree.next_sibling(id);
    }
    numbers
}

/// Gives each instance and each host of the tree in progress that is new its number, in tree order: a parent before its children,
/// and these before its later siblings. What has a number keeps it; the current tree stays as it is, and so does what was taken
/// over from it. Takes no memory. Returns the numbers that come next.
pub fn number_made(tree: &mut FiberTree<Fiber>, next: Numbers) -> Numbers
    requires instances { next.instance + made_size tree.old.draft < 2 ^ 64 }
    requires hosts { next.host + made_size tree.old.draft < 2 ^ 64 }
    ensures draft { tree.new ≡ record tree.old { draft = (numbered_draft (numbers_seen next) tree.old.draft).1 } }
    ensures next { numbers_seen result ≡ (numbered_draft (numbers_seen next) tree.old.draft).0 }
    ensures tree { (x : trees.Node) → IsTreeOf (Some x) (grafted tree.old.draft) → IsAllNumbered tree.old → IsTreeOf (Some (numbered (numbers_seen next) x).1) (grafted tree.new.draft) }
    ensures numbers { (x : trees.Node) → IsTreeOf (Some x) (grafted tree.old.draft) → IsAllNumbered tree.old → numbers_seen result ≡ (numbered (numbers_seen next) x).0 }
{
    tree.facts();
    let root = tree.in_progress();
    number_list(tree, root, next)
}
