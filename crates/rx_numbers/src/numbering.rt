// Numbers for the instances and hosts that are new.
ghost use Rattle.std.specs.Prelude.{◌≡◌, IfOk, OnOk};
ghost use Rattle.rx_elem.specs.Numbers.{numbered, numbered_in, numbered_mark};
ghost use Rattle.rx_elem.specs.Trees.{forest};
ghost use Rattle.rx_node.specs.MarkView.{mark_seen};
ghost use Rattle.rx_numbers.specs.Room.{FitIn, numbers_seen};

use rx_node::{Instance, Mark, Node};
use std::alloc::{AllocError, Global};

/// The numbers that the next new instance and the next new host get.
#[derive(Clone, Copy)]
pub struct Numbers {
    pub instance: u64,
    pub host: u64,
}

// An instance with a number: its own, or else the next one.
fn number_instance(instance: &Instance, next: &mut Numbers) -> Result<Mark, AllocError>
    requires { FitIn (numbered_mark (numbers_seen next.old) (mark_seen (Mark.Instance instance.now))).0 }
    ensures mark { IfOk result (λ m. mark_seen m ≡ (numbered_mark (numbers_seen next.old) (mark_seen (Mark.Instance instance.now))).1) }
    ensures next { OnOk result (numbers_seen next.new ≡ (numbered_mark (numbers_seen next.old) (mark_seen (Mark.Instance instance.now))).0) }
{
    let mut numbered = instance.copy()?;
    if numbered.number.is_none() {
        numbered.number = Some(next.instance);
        next.instance += 1;
    }
    Ok(Mark::Instance(numbered))
}

// The number of a host: its own, or else the next one.
fn number_host(number: Option<u64>, next: &mut Numbers) -> Mark
    requires { FitIn (numbered_mark (numbers_seen next.old) (mark_seen (Mark.Host number))).0 }
    ensures mark { mark_seen result ≡ (numbered_mark (numbers_seen next.old) (mark_seen (Mark.Host number))).1 }
    ensures next { numbers_seen next.new ≡ (numbered_mark (numbers_seen next.old) (mark_seen (Mark.Host number))).0 }
{
    match number {
        Some(number) => Mark::Host(Some(number)),
        None => {
            let number = next.host;
            next.host += 1;
            Mark::Host(Some(number))
        }
    }
}

// A mark with its number.
fn number_mark(mark: &Mark, next: &mut Numbers) -> Result<Mark, AllocError>
    requires { FitIn (numbered_mark (numbers_seen next.old) (mark_seen mark.now)).0 }
    ensures mark { IfOk result (λ m. mark_seen m ≡ (numbered_mark (numbers_seen next.old) (mark_seen mark.now)).1) }
    ensures next { OnOk result (numbers_seen next.new ≡ (numbered_mark (numbers_seen next.old) (mark_seen mark.now)).0) }
{
    match mark {
        Mark::Instance(instance) => number_instance(instance, next),
        Mark::Host(number) => Ok(number_host(*number, next)),
        Mark::Boundary(state) => Ok(Mark::Boundary(*state)),
        Mark::Catch(state) => Ok(Mark::Catch(*state)),
        Mark::Plain => Ok(Mark::Plain),
    }
}

/// The same tree, in which each new instance and each new host has a number: the next ones in tree order. A host and an instance
/// that have one keep it. After an `Err` the numbers are of no use.
///
/// # Errors
///
/// Only if out of memory.
#[cycle(numbering)]
pub fn number(alloc: Global, node: &Node, next: &mut Numbers) -> Result<Node, AllocError>
    requires { FitIn (numbered (numbers_seen next.old) node.now).0 }
    ensures tree { IfOk result (λ n. n ≡ (numbered (numbers_seen next.old) node.now).1) }
    ensures next { OnOk result (numbers_seen next.new ≡ (numbered (numbers_seen next.old) node.now).0) }
{
    if node.is_fixed() {
        return node.copy();
    }
    let mark = number_mark(node.mark(), next)?;
    let children = number_all(alloc, node.children(), next)?;
    let fallback = number_all(alloc, node.fallback(), next)?;
    let element = node.element().copy()?;
    Node::new(alloc, element, mark, children, fallback)
}

// The same of the trees of a list.
#[cycle(numbering)]
fn number_all(
    alloc: Global,
    places: &[Option<Node>],
    next: &mut Numbers,
) -> Result<Vec<Option<Node>>, AllocError>
    requires { FitIn (numbered_in (numbers_seen next.old) (forest places.now)).0 }
    ensures trees { IfOk result (λ v. forest v.items ≡ (numbered_in (numbers_seen next.old) (forest places.now)).1) }
    ensures next { OnOk result (numbers_seen next.new ≡ (numbered_in (numbers_seen next.old) (forest places.now)).0) }
{
    let mut all = Vec::with_capacity(alloc, places.len())?;
    for place in places {
        match place {
            Some(node) => all.push(Some(number(alloc, node, next)?))?,
            None => all.push(None)?,
        }
    }
    Ok(all)
}
