// What expressions cost.
ghost use Rattle.std.specs.Prelude.{◌≡◌, ℕ, List, [], ◌∷◌, ◌++◌, true, IfOk, length, slice_index, map};
ghost use Rattle.std.specs.List.{list_all};
ghost use Rattle.rx_ast.specs.Syntax.{exprs_of, slots_of, body_slots, functions};
ghost use Rattle.rx_ast.specs.ExprView.{links_of};
ghost use Rattle.rx_ast.specs.SlotView.{key_place_of};
ghost use Rattle.rx_order.specs.Graphs.{next_of, is_among, IsFinished};
ghost use Rattle.rx_mentions.specs.Ways.{calls};
ghost use Rattle.rx_figures.specs.Costs.{AreCosts, function_cost, cost_limit, cost_over, first_over};
ghost use Rattle.rx_figures.specs.Costs.{expr_cost, links_cost, exprs_cost, lines_cost, body_cost, attribute_cost, attributes_cost, key_cost, slot_cost, slots_cost, tag_cost, statement_cost, statements_cost, cost_from, cost_round, cost_rounds};

use crate::held::{held_product, held_sum};
use rx_ast::{
    Attribute, AttributeKind, Body, BodyKind, Child, ChildKind, Content, Declaration,
    DeclarationKind, Element, Expr, ExprKind, Fragment, Function, KeyPlace, Line, Link, Slot,
    SlotKind, Statement, StatementKind, Tag,
};
use rx_names::Index;
use rx_order::Order;
use std::alloc::{AllocError, Global};

/// The greatest cost of a declaration.
const COST_LIMIT: u64 = 1_000_000;

/// The cost of a function that is known.
fn known(costs: &[u64], function: usize) -> u64
    ensures { result ≡ slice_index costs.now function }
{
    match costs.get(function) {
        None => 0,
        Some(cost) => *cost,
    }
}

/// The cost of an expression.
#[cycle(expr_cost)]
fn expr(program: &Index, costs: &[u64], expr: &Expr) -> u64
    ensures { result ≡ expr_cost (slice_index costs.now) program.now expr.now }
{
    match &expr.kind {
        ExprKind::Number(_) | ExprKind::Variable(_) => 1,
        ExprKind::Group(inner) => self::expr(program, costs, inner),
        ExprKind::Prefixed { operand, .. } => held_sum(1, self::expr(program, costs, operand)),
        ExprKind::Chain {
            first,
            links: others,
        } => {
            let first = self::expr(program, costs, first);
            held_sum(first, links(program, costs, others))
        }
        ExprKind::Choice {
            test,
            first,
            second,
        } => {
            let test = self::expr(program, costs, test);
            let first = self::expr(program, costs, first);
            let second = self::expr(program, costs, second);
            held_sum(1, held_sum(test, held_sum(first, second)))
        }
        ExprKind::Call(call) => {
            let own = known(costs, program.function_number(call.function.text()));
            held_sum(1, held_sum(exprs(program, costs, &call.arguments), own))
        }
    }
}

/// The cost of operators with the operands behind them.
#[cycle(expr_cost)]
fn links(program: &Index, costs: &[u64], links: &[Link]) -> u64
    ensures { result ≡ links_cost (slice_index costs.now) program.now (links_of links.now) }
{
    let mut at = links.len();
    let mut sum = 0;
    while at > 0 {
        at -= 1;
        sum = held_sum(held_sum(1, expr(program, costs, &links[at].operand)), sum);
    }
    sum
}

/// The cost of each expression.
#[cycle(expr_cost)]
fn exprs(program: &Index, costs: &[u64], exprs: &[Expr]) -> u64
    ensures { result ≡ exprs_cost (slice_index costs.now) program.now (exprs_of exprs.now) }
{
    let mut at = exprs.len();
    let mut sum = 0;
    while at > 0 {
        at -= 1;
        sum = held_sum(expr(program, costs, &exprs[at]), sum);
    }
    sum
}

/// The cost of a function's lines.
fn lines(program: &Index, costs: &[u64], lines: &[Line]) -> u64
    ensures { result ≡ lines_cost (slice_index costs.now) program.now lines.now }
{
    let mut at = lines.len();
    let mut sum = 0;
    while at > 0 {
        at -= 1;
        sum = held_sum(expr(program, costs, lines[at].value()), sum);
    }
    sum
}

/// The cost of what a function computes.
fn function(program: &Index, costs: &[u64], function: &Function) -> u64
    ensures { result ≡ body_cost (slice_index costs.now) program.now function.now }
{
    let before = lines(program, costs, function.lines());
    held_sum(before, expr(program, costs, function.answer()))
}

/// The cost of an attribute.
fn attribute(program: &Index, costs: &[u64], attribute: &Attribute) -> u64
    ensures { result ≡ attribute_cost (slice_index costs.now) program.now attribute.now }
{
    match &attribute.kind {
        AttributeKind::Key(value) | AttributeKind::Computed { value, .. } => {
            expr(program, costs, value)
        }
        AttributeKind::Literal { .. } => 0,
    }
}

/// The cost of attributes.
fn attributes(program: &Index, costs: &[u64], attributes: &[Attribute]) -> u64
    ensures { result ≡ attributes_cost (slice_index costs.now) program.now attributes.now }
{
    let mut at = attributes.len();
    let mut sum = 0;
    while at > 0 {
        at -= 1;
        sum = held_sum(attribute(program, costs, &attributes[at]), sum);
    }
    sum
}

/// The cost of a key.
fn key(program: &Index, costs: &[u64], place: &KeyPlace) -> u64
    ensures { result ≡ key_cost (slice_index costs.now) program.now (key_place_of place.now) }
{
    match place {
        KeyPlace::Unkeyed => 0,
        KeyPlace::First(value) | KeyPlace::Last(value) => expr(program, costs, value),
    }
}

/// The cost of what an opening tag is given.
#[cycle(slot_cost)]
fn tag(program: &Index, costs: &[u64], tag: &Tag) -> u64
    ensures { result ≡ tag_cost (slice_index costs.now) program.now tag.now }
{
    match tag {
        Tag::Host {
            attributes: given,
            ..
        }
        | Tag::Component {
            attributes: given,
            ..
        } => attributes(program, costs, given),
        Tag::Suspense {
            key: place,
            fallback,
        }
        | Tag::Catch {
            key: place,
            fallback,
        } => {
            let place = key(program, costs, place);
            held_sum(place, slot(program, costs, fallback))
        }
        Tag::Provider {
            key: place,
            value,
            ..
        } => {
            let place = key(program, costs, place);
            held_sum(place, expr(program, costs, value))
        }
    }
}

/// The cost of an element.
#[cycle(slot_cost)]
fn element(program: &Index, costs: &[u64], element: &Element) -> u64
    ensures { result ≡ slot_cost (slice_index costs.now) program.now element.now }
{
    let given = tag(program, costs, &element.tag);
    match &element.content {
        Content::AtOnce => held_sum(given, 0),
        Content::Children(children) => held_sum(given, slots(program, costs, children)),
    }
}

/// The cost of a slot.
#[cycle(slot_cost)]
fn slot(program: &Index, costs: &[u64], slot: &Slot) -> u64
    ensures { result ≡ slot_cost (slice_index costs.now) program.now slot.now }
{
    match &slot.kind {
        SlotKind::Null | SlotKind::Text(_) | SlotKind::Children => 0,
        SlotKind::Value(value) => expr(program, costs, value),
        SlotKind::For(repetition) => {
            let bound = expr(program, costs, &repetition.bound);
            let item = self::slot(program, costs, &repetition.item);
            held_sum(bound, held_product(repetition.limit, item))
        }
        SlotKind::Choice {
            test,
            first,
            second,
        } => {
            let test = expr(program, costs, test);
            let first = self::slot(program, costs, first);
            let second = self::slot(program, costs, second);
            held_sum(test, held_sum(first, second))
        }
        SlotKind::Element(inner) | SlotKind::Enclosed(inner) => element(program, costs, inner),
    }
}

/// The cost of a place of a child list.
#[cycle(slot_cost)]
fn child(program: &Index, costs: &[u64], child: &Child) -> u64
    ensures { result ≡ slot_cost (slice_index costs.now) program.now child.now }
{
    match &child.kind {
        ChildKind::Element(inner) => element(program, costs, inner),
        ChildKind::Braced(inner) => slot(program, costs, inner),
    }
}

/// The cost of a child list.
#[cycle(slot_cost)]
fn slots(program: &Index, costs: &[u64], children: &[Child]) -> u64
    ensures { result ≡ slots_cost (slice_index costs.now) program.now (slots_of children.now) }
{
    let mut at = children.len();
    let mut sum = 0;
    while at > 0 {
        at -= 1;
        sum = held_sum(child(program, costs, &children[at]), sum);
    }
    sum
}

/// The cost of a fragment.
fn fragment(program: &Index, costs: &[u64], fragment: &Fragment) -> u64
    ensures { result ≡ slots_cost (slice_index costs.now) program.now fragment.now }
{
    slots(program, costs, fragment.children())
}

/// The cost of what a component returns.
fn body(program: &Index, costs: &[u64], body: &Body) -> u64
    ensures { result ≡ slots_cost (slice_index costs.now) program.now (body_slots body.now) }
{
    match &body.kind {
        BodyKind::Slot(only) => held_sum(slot(program, costs, only), 0),
        BodyKind::Fragment(inner) | BodyKind::Enclosed(inner) => fragment(program, costs, inner),
    }
}

/// The cost of a statement.
fn statement(program: &Index, costs: &[u64], statement: &Statement) -> u64
    ensures { result ≡ statement_cost (slice_index costs.now) program.now statement.now }
{
    match &statement.kind {
        StatementKind::State { initial, .. } | StatementKind::Reducer { initial, .. } => {
            expr(program, costs, initial)
        }
        StatementKind::Constant { value, .. } | StatementKind::Throw { value } => {
            expr(program, costs, value)
        }
        StatementKind::Effect { dependencies, .. } => exprs(program, costs, dependencies),
        StatementKind::Transition { .. }
        | StatementKind::Context { .. }
        | StatementKind::Resource { .. } => 0,
    }
}

/// The cost of statements.
fn statements(program: &Index, costs: &[u64], statements: &[Statement]) -> u64
    ensures { result ≡ statements_cost (slice_index costs.now) program.now statements.now }
{
    let mut at = statements.len();
    let mut sum = 0;
    while at > 0 {
        at -= 1;
        sum = held_sum(statement(program, costs, &statements[at]), sum);
    }
    sum
}

/// The cost of a declaration.
fn declaration(program: &Index, costs: &[u64], declaration: &Declaration) -> u64
    ensures { result ≡ cost_from (slice_index costs.now) program.now declaration.now }
{
    match &declaration.kind {
        DeclarationKind::Context(_) => 0,
        DeclarationKind::Function(inner) => function(program, costs, inner),
        DeclarationKind::Component(component) => {
            let before = statements(program, costs, component.statements());
            held_sum(before, body(program, costs, component.body()))
        }
    }
}

/// One round over all functions, from what was known before.
fn round(alloc: Global, program: &Index, costs: &[u64]) -> Result<Vec<u64>, AllocError>
    ensures { IfOk result (λ t. t.items ≡ cost_round program.now costs.now) }
{
    let mut next = Vec::new(alloc);
    for declaration in program.declarations() {
        if let DeclarationKind::Function(inner) = &declaration.kind {
            next.push(function(program, costs, inner))?;
        }
    }
    Ok(next)
}

/// Rounds until nothing changes, and at most so many.
fn settled(alloc: Global, program: &Index, most: usize) -> Result<Vec<u64>, AllocError>
    ensures { IfOk result (λ t. t.items ≡ cost_rounds most program.now []) }
{
    let mut table: Vec<u64> = Vec::new(alloc);
    let mut left = most;
    while left > 0 {
        let next = round(alloc, program, &table)?;
        if next.as_slice() == table.as_slice() {
            return Ok(table);
        }
        table = next;
        left -= 1;
    }
    Ok(table)
}

/// The first cost of these declarations that is over the limit.
fn first_over(program: &Index, costs: &[u64]) -> Option<u64>
    ensures { result ≡ first_over cost_limit (map (cost_from (slice_index costs.now) program.now) program.now.declarations) }
{
    for inner in program.declarations() {
        let cost = declaration(program, costs, inner);
        if COST_LIMIT < cost {
            return Some(cost);
        }
    }
    None
}

/// Puts the cost of one function more into the table, from those of the functions that it calls.
fn finish(program: &Index, costs: &mut Vec<u64>, number: usize)
    requires { length costs.old.items ≡ length (functions program.now) }
    ensures sized { length costs.new.items ≡ length costs.old.items }
    ensures more { (done : List ℕ) → AreCosts program.now costs.old.items done
        → list_all (is_among done) (next_of (calls program.now) number) ≡ true → AreCosts program.now costs.new.items (done ++ number ∷ []) }
{
    match program.function(number) {
        None => {}
        Some(inner) => {
            let found = function(program, costs.as_slice(), inner);
            costs[number] = found;
        }
    }
}

/// The costs of these functions, each from those of the functions that it calls, which are finished before it.
fn in_order(alloc: Global, program: &Index, order: &Order) -> Result<Vec<u64>, AllocError>
    requires { IsFinished (calls program.now) order.now }
    ensures costs { IfOk result (λ t. AreCosts program.now t.items order.now) }
    ensures sized { IfOk result (λ t. length t.items ≡ length (functions program.now)) }
{
    let mut costs = vec![in alloc; 0; program.function_count()]?;
    for number in order.numbers() {
        finish(program, &mut costs, *number);
    }
    Ok(costs)
}

/// The costs of all functions. In an order in which functions are finished each is looked at once; if not all are finished
/// in the order, rounds over all functions are made.
fn costs_of(alloc: Global, program: &Index, order: &Order) -> Result<Vec<u64>, AllocError>
    requires { IsFinished (calls program.now) order.now }
    ensures { IfOk result (λ t. function_cost (length (functions program.now)) program.now ≡ slice_index t.items) }
{
    let count = program.function_count();
    if order.is_whole(count) {
        let finished = in_order(alloc, program, order)?;
        return Ok(finished);
    }
    let table = settled(alloc, program, count)?;
    Ok(table)
}

/// The first cost of a declaration that is over the limit, with an order in which functions are finished.
///
/// # Errors
///
/// Only if out of memory.
pub fn cost_over(alloc: Global, program: &Index, order: &Order) -> Result<Option<u64>, AllocError>
    requires { IsFinished (calls program.now) order.now }
    ensures { IfOk result (λ o. o ≡ cost_over program.now) }
{
    let costs = costs_of(alloc, program, order)?;
    Ok(first_over(program, &costs))
}
