// Which numbers lead to themselves.
ghost use Rattle.std.specs.Prelude.{◌≡◌, [], IfOk, MatchOption, Some, None, false, IsTrue, length, slice_index_or};
ghost use Rattle.rx_order.specs.Graphs.{first, leads_to, name_on_cycle, cycle_names, leads, lead_round, lead_rounds, IsFinished};

use crate::order::Order;
use rx_base::Name;
use std::alloc::{AllocError, Global};
use std::marker::Model;

/// The numbers to which a number leads in one step.
#[derive(Debug, Drop)]
pub struct Row {
    items: Vec<usize>,
}

impl Model for Row {
    ghost use Rattle.std.specs.Prelude.{ℕ, List};

    ghost Value = { List ℕ };

    ghost view = { λ r. r.items.items };
}

impl Row {
    /// The row of these numbers.
    pub fn new(items: Vec<usize>) -> Row
        ensures { result ≡ items.items }
    {
        Row { items }
    }

    /// The numbers.
    pub fn items(&self) -> &[usize]
        ensures { result.now ≡ self.now }
    {
        &self.items
    }
}

/// What is known of a number.
fn known(table: &[bool], number: usize) -> bool
    ensures { result ≡ slice_index_or table.now number false }
{
    match table.get(number) {
        None => false,
        Some(leads) => *leads,
    }
}

/// Whether a row leads to a number, by what is known of the others.
fn leads(target: usize, table: &[bool], row: &Row) -> bool
    ensures { result ≡ leads target table.now row.now }
{
    for number in &row.items {
        if *number == target || known(table, *number) {
            return true;
        }
    }
    false
}

/// One round over all numbers.
fn lead_round(
    alloc: Global,
    graph: &[Row],
    target: usize,
    table: &[bool],
) -> Result<Vec<bool>, AllocError>
    ensures { IfOk result (λ t. t.items ≡ lead_round graph.now target table.now) }
{
    let mut next = Vec::new(alloc);
    for row in graph {
        next.push(leads(target, table, row))?;
    }
    Ok(next)
}

/// Whether a round changed nothing.
fn are_same(a: &[bool], b: &[bool]) -> bool
    ensures { IsTrue result → a.now ≡ b.now }
{
    if a.len() != b.len() {
        return false;
    }
    for at in 0..a.len() {
        if a[at] != b[at] {
            return false;
        }
    }
    true
}

/// Which numbers lead to a number: rounds until nothing changes.
fn settled(alloc: Global, graph: &[Row], target: usize) -> Result<Vec<bool>, AllocError>
    ensures { IfOk result (λ t. t.items ≡ lead_rounds graph.now target (length graph.now) []) }
{
    let mut table: Vec<bool> = Vec::new(alloc);
    let mut left = graph.len();
    while left > 0 {
        let next = lead_round(alloc, graph, target, &table)?;
        if are_same(&next, &table) {
            return Ok(table);
        }
        table = next;
        left -= 1;
    }
    Ok(table)
}

/// Whether a number leads to itself.
fn is_on_cycle(alloc: Global, graph: &[Row], number: usize) -> Result<bool, AllocError>
    ensures { IfOk result (λ b. b ≡ leads_to graph.now (length graph.now) number number) }
{
    let table = settled(alloc, graph, number)?;
    Ok(known(&table, number))
}

/// The name of a number that leads to itself.
fn name_on_cycle<'a>(
    alloc: Global,
    graph: &[Row],
    names: &'a [Name],
    number: usize,
) -> Result<Option<&'a str>, AllocError>
    ensures { IfOk result (λ o. MatchOption o (name_on_cycle graph.now names.now number ≡ None) (λ x. name_on_cycle graph.now names.now number ≡ Some x.now)) }
{
    if !is_on_cycle(alloc, graph, number)? {
        return Ok(None);
    }
    match names.get(number) {
        None => Ok(None),
        Some(name) => Ok(Some(name.text())),
    }
}

/// The name of a number that leads to itself; a number that is finished in the order is not looked at.
fn name_unless_finished<'a>(
    alloc: Global,
    graph: &[Row],
    order: &Order,
    names: &'a [Name],
    number: usize,
) -> Result<Option<&'a str>, AllocError>
    requires { IsFinished graph.now order.now }
    ensures { IfOk result (λ o. MatchOption o (name_on_cycle graph.now names.now number ≡ None) (λ x. name_on_cycle graph.now names.now number ≡ Some x.now)) }
{
    if order.has(number) {
        return Ok(None);
    }
    name_on_cycle(alloc, graph, names, number)
}

/// The name of the first number that leads to itself. Those that are finished in an order are not looked at.
///
/// # Errors
///
/// Only if out of memory.
pub fn first_cycle<'a>(
    alloc: Global,
    graph: &[Row],
    order: &Order,
    names: &'a [Name],
) -> Result<Option<&'a str>, AllocError>
    requires { IsFinished graph.now order.now }
    ensures { IfOk result (λ o. MatchOption o (first (cycle_names graph.now names.now) ≡ None) (λ x. first (cycle_names graph.now names.now) ≡ Some x.now)) }
{
    let mut number = 0;
    for row in graph {
        if let Some(name) = name_unless_finished(alloc, graph, order, names, number)? {
            return Ok(Some(name));
        }
        number += 1;
    }
    Ok(None)
}
