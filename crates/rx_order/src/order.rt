// An order in which numbers are finished.
ghost use Rattle.std.specs.Prelude.{◌≡◌, ◌⊎◌, ◌<◌, ℕ, [], ◌∷◌, ◌++◌, IfOk, OnOk, IsTrue, length, slice_index_or, true, false};
ghost use Rattle.std.specs.List.{list_all};
ghost use Rattle.rx_order.specs.Graphs.{next_of, is_among, IsFinished};

use crate::graph::Row;
use std::alloc::{AllocError, Global};
use std::marker::Model;

/// Numbers in the order in which they are finished: each leads only to earlier ones. Contracts see the numbers in order.
#[derive(Debug, Drop)]
pub struct Order {
    numbers: Vec<usize>,
    /// For each number, whether it is one of them.
    done: Vec<bool>,
}

impl Model for Order {
    ghost use Rattle.std.specs.Prelude.{◌≡◌, ℕ, List, slice_index_or, false};
    ghost use Rattle.rx_order.specs.Graphs.{is_among};

    ghost Value = { List ℕ };

    ghost view = { λ o. o.numbers.items };

    ghost invariant = { λ o. (x : ℕ) → slice_index_or o.done.items x false ≡ is_among o.numbers.items x };
}

/// Whether a number is done.
fn is_done(done: &[bool], number: usize) -> bool
    ensures { result ≡ slice_index_or done.now number false }
{
    match done.get(number) {
        None => false,
        Some(done) => *done,
    }
}

impl Order {
    /// No number yet; numbers will be below this one.
    fn new(alloc: Global, width: usize) -> Result<Order, AllocError>
        ensures { IfOk result (λ o. o ≡ []) }
    {
        let done = vec![in alloc; false; width]?;
        Ok(Order {
            numbers: Vec::new(alloc),
            done,
        })
    }

    /// Puts a number behind the others, if it is not too great.
    fn push(&mut self, number: usize) -> Result<(), AllocError>
        ensures { OnOk result ((self.new ≡ self.old) ⊎ (self.new ≡ self.old ++ number ∷ [])) }
    {
        if number < self.done.len() {
            self.numbers.push(number)?;
            self.done[number] = true;
        }
        Ok(())
    }

    /// How many they are.
    fn len(&self) -> usize
        ensures { result ≡ length self.now }
    {
        self.numbers.len()
    }

    /// The numbers in order.
    pub fn numbers(&self) -> &[usize]
        ensures { result.now ≡ self.now }
    {
        &self.numbers
    }

    /// Whether a number is one of them.
    pub fn has(&self, number: usize) -> bool
        ensures { result ≡ is_among self.now number }
    {
        is_done(&self.done, number)
    }

    /// Whether all numbers below this one are among them.
    pub fn is_whole(&self, count: usize) -> bool
        ensures { IsTrue result → (x : ℕ) → x < count → is_among self.now x ≡ true }
    {
        for number in 0..count {
            if !self.has(number) {
                return false;
            }
        }
        true
    }
}

/// Puts a number into the row of each number to which it leads.
fn put_back(back: &mut [Vec<usize>], from: usize, row: &Row) -> Result<(), AllocError> {
    for to in row.items() {
        if let Some(found) = back.get_mut(*to) {
            found.push(from)?;
        }
    }
    Ok(())
}

/// For each number those that lead to it in one step, as often as they do.
fn reversed(alloc: Global, graph: &[Row]) -> Result<Vec<Vec<usize>>, AllocError> {
    let mut back = Vec::new(alloc);
    for _ in graph {
        back.push(Vec::new(alloc))?;
    }
    for from in 0..graph.len() {
        put_back(&mut back, from, &graph[from])?;
    }
    Ok(back)
}

/// For each number how many steps lead away from it.
fn steps_of(alloc: Global, graph: &[Row]) -> Result<Vec<usize>, AllocError> {
    let mut steps = Vec::new(alloc);
    for row in graph {
        steps.push(row.items().len())?;
    }
    Ok(steps)
}

/// The numbers from which no step leads away.
fn ends(alloc: Global, steps: &[usize]) -> Result<Vec<usize>, AllocError> {
    let mut numbers = Vec::new(alloc);
    for number in 0..steps.len() {
        if steps[number] == 0 {
            numbers.push(number)?;
        }
    }
    Ok(numbers)
}

/// Takes the steps from these numbers to one that is finished away, and puts those behind the others that have none left.
fn release(steps: &mut [usize], order: &mut Vec<usize>, from: &[usize]) -> Result<(), AllocError> {
    for number in from {
        if let Some(left) = steps.get_mut(*number) {
            if *left == 1 {
                order.push(*number)?;
            }
            *left = left.saturating_sub(1);
        }
    }
    Ok(())
}

/// An order in which numbers may be finished, which `finishing_order` looks at again: first those from which no step leads
/// away, and then each as soon as those are finished to which it leads.
fn proposed(alloc: Global, graph: &[Row]) -> Result<Vec<usize>, AllocError> {
    let back = reversed(alloc, graph)?;
    let mut steps = steps_of(alloc, graph)?;
    let mut order = ends(alloc, &steps)?;
    for at in 0..graph.len() {
        let Some(number) = order.get(at).copied() else {
            return Ok(order);
        };
        if let Some(from) = back.get(number) {
            release(&mut steps, &mut order, from)?;
        }
    }
    Ok(order)
}

/// Whether all numbers to which a number leads in one step are finished.
fn is_ready(graph: &[Row], order: &Order, number: usize) -> bool
    ensures { IsTrue result → list_all (is_among order.now) (next_of graph.now number) ≡ true }
{
    match graph.get(number) {
        None => false,
        Some(row) => has_all(order, row.items()),
    }
}

/// Whether all these numbers are finished.
fn has_all(order: &Order, numbers: &[usize]) -> bool
    ensures { result ≡ list_all (is_among order.now) numbers.now }
{
    for number in numbers {
        if !order.has(*number) {
            return false;
        }
    }
    true
}

/// Finishes a number, if all to which it leads are finished.
fn finish(graph: &[Row], order: &mut Order, number: usize) -> Result<(), AllocError>
    ensures { OnOk result (IsFinished graph.now order.old → IsFinished graph.now order.new) }
{
    if order.len() >= graph.len() {
        return Ok(());
    }
    if !is_ready(graph, order, number) {
        return Ok(());
    }
    order.push(number)?;
    Ok(())
}

/// The numbers that can be finished, in an order in which each leads only to earlier ones. What leads to itself, by
/// whatever way, is not among them; the contract does not say that all others are.
///
/// # Errors
///
/// Only if out of memory.
pub fn finishing_order(alloc: Global, graph: &[Row]) -> Result<Order, AllocError>
    ensures { IfOk result (λ o. IsFinished graph.now o) }
{
    let proposed = proposed(alloc, graph)?;
    let mut order = Order::new(alloc, graph.len())?;
    for number in &proposed {
        finish(graph, &mut order, *number)?;
    }
    Ok(order)
}
