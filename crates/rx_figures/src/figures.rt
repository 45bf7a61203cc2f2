// Nodes, levels, waits and throws of slots.
ghost use Rattle.std.specs.Prelude.{◌≡◌, ℕ, List, [], ◌∷◌, ◌++◌, true, IfOk, Some, None, IsTrue, cond, length};
ghost use Rattle.rx_ast.specs.Syntax.{slots_of, body_slots, components};
ghost use Rattle.rx_rules.specs.Names.{component_number, root_name};
ghost use Rattle.rx_rules.specs.Bounds.{body_by, slot_by, slots_by, body_if, reads_resource, has_throw};
ghost use Rattle.std.specs.List.{list_all};
ghost use Rattle.rx_order.specs.Graphs.{next_of, is_among, IsFinished};
ghost use Rattle.rx_mentions.specs.Ways.{places};
ghost use Rattle.rx_figures.specs.Figures.{nesting_levels, earlier, reader_of, thrower_of, no_figures, text_figures, children_figures, beside_figures, around_figures, repeated_figures, boundary_figures, catcher_figures, component_figures, figures, known_in, tag_figures, round_of, rounds, AreFigures};

use crate::held::{held_product, held_sum};
use rx_ast::{
    Body, BodyKind, Child, ChildKind, Component, Content, DeclarationKind, Element, Fragment, Slot,
    SlotKind, StatementKind, Tag,
};
use rx_names::Index;
use rx_order::Order;
use std::alloc::{AllocError, Global};

/// Nodes, levels, waits and throws of a place.
#[derive(Clone, Copy, Debug, PartialEq, Eq)]
pub struct Figures {
    /// Nodes of its own.
    pub own: u64,
    /// Nodes for each node of the children that are given.
    pub given: u64,
    /// How deep its nodes nest.
    pub levels: u64,
    /// The number of the first component for whose resources it may wait.
    pub waits: Option<usize>,
    /// It places the given children where their wait would be its own.
    pub unguarded: bool,
    /// The number of the first component for which it may throw.
    pub throws: Option<usize>,
    /// It places the given children where their throw would be its own.
    pub uncaught: bool,
}

/// Nothing.
fn nothing() -> Figures
    ensures { result ≡ no_figures }
{
    Figures {
        own: 0,
        given: 0,
        levels: 0,
        waits: None,
        unguarded: false,
        throws: None,
        uncaught: false,
    }
}

/// A text.
fn text() -> Figures
    ensures { result ≡ text_figures }
{
    Figures {
        own: 1,
        given: 0,
        levels: 1,
        waits: None,
        unguarded: false,
        throws: None,
        uncaught: false,
    }
}

/// The children that are given.
fn given_children() -> Figures
    ensures { result ≡ children_figures }
{
    Figures {
        own: 1,
        given: 1,
        levels: 1,
        waits: None,
        unguarded: true,
        throws: None,
        uncaught: true,
    }
}

/// The earlier of two numbers, if there are two.
fn earlier(a: Option<usize>, b: Option<usize>) -> Option<usize>
    ensures { result ≡ earlier a b }
{
    match a {
        None => b,
        Some(first) => match b {
            None => a,
            Some(second) => Some(first.min(second)),
        },
    }
}

/// For which component the children that are given wait (or throw), if they stand so that their wait (or throw) is the
/// component's own.
fn if_unguarded(unguarded: bool, children: Option<usize>) -> Option<usize>
    ensures { result ≡ cond unguarded children None }
{
    if unguarded { children } else { None }
}

/// Two places beside each other.
fn beside(a: Figures, b: Figures) -> Figures
    ensures { result ≡ beside_figures a b }
{
    Figures {
        own: held_sum(a.own, b.own),
        given: held_sum(a.given, b.given),
        levels: a.levels.max(b.levels),
        waits: earlier(a.waits, b.waits),
        unguarded: a.unguarded || b.unguarded,
        throws: earlier(a.throws, b.throws),
        uncaught: a.uncaught || b.uncaught,
    }
}

/// A node around what is in it.
fn around(a: Figures) -> Figures
    ensures { result ≡ around_figures a }
{
    Figures {
        own: held_sum(1, a.own),
        given: a.given,
        levels: held_sum(1, a.levels),
        waits: a.waits,
        unguarded: a.unguarded,
        throws: a.throws,
        uncaught: a.uncaught,
    }
}

/// So many items.
fn repeated(limit: u64, a: Figures) -> Figures
    ensures { result ≡ repeated_figures limit a }
{
    Figures {
        own: held_sum(1, held_product(limit, a.own)),
        given: held_product(limit, a.given),
        levels: held_sum(1, a.levels),
        waits: a.waits,
        unguarded: a.unguarded,
        throws: a.throws,
        uncaught: a.uncaught,
    }
}

/// A boundary with its fallback: it waits if its fallback does.
fn boundary(a: Figures, b: Figures) -> Figures
    ensures { result ≡ boundary_figures a b }
{
    Figures {
        own: held_sum(1, held_sum(a.own, b.own)),
        given: held_sum(a.given, b.given),
        levels: held_sum(1, a.levels.max(b.levels)),
        waits: b.waits,
        unguarded: b.unguarded,
        throws: earlier(a.throws, b.throws),
        uncaught: a.uncaught || b.uncaught,
    }
}

/// An error boundary with its fallback: it throws if its fallback does.
fn catcher(a: Figures, b: Figures) -> Figures
    ensures { result ≡ catcher_figures a b }
{
    Figures {
        own: held_sum(1, held_sum(a.own, b.own)),
        given: held_sum(a.given, b.given),
        levels: held_sum(1, a.levels.max(b.levels)),
        waits: earlier(a.waits, b.waits),
        unguarded: a.unguarded || b.unguarded,
        throws: b.throws,
        uncaught: b.uncaught,
    }
}

/// A component with its body, given these children.
fn filled(c: Figures, k: Figures) -> Figures
    ensures { result ≡ component_figures c k }
{
    Figures {
        own: held_sum(1, held_sum(c.own, held_product(c.given, k.own))),
        given: held_product(c.given, k.given),
        levels: held_sum(1, held_sum(c.levels, k.levels)),
        waits: earlier(c.waits, if_unguarded(c.unguarded, k.waits)),
        unguarded: c.unguarded && k.unguarded,
        throws: earlier(c.throws, if_unguarded(c.uncaught, k.throws)),
        uncaught: c.uncaught && k.uncaught,
    }
}

/// What is known of a component.
fn known(table: &[Figures], component: usize) -> Figures
    ensures { result ≡ known_in table.now component }
{
    match table.get(component) {
        None => nothing(),
        Some(figures) => *figures,
    }
}

/// The figures of an element, from those of its children.
#[cycle(figures)]
fn tag(program: &Index, table: &[Figures], tag: &Tag, inner: Figures) -> Figures
    ensures { result ≡ tag_figures table.now program.now tag.now inner }
{
    match tag {
        Tag::Host { .. } | Tag::Provider { .. } => around(inner),
        Tag::Component { name, .. } => {
            filled(known(table, program.component_number(name.text())), inner)
        }
        Tag::Suspense { fallback, .. } => boundary(inner, slot(program, table, fallback)),
        Tag::Catch { fallback, .. } => catcher(inner, slot(program, table, fallback)),
    }
}

/// The figures of an element.
#[cycle(figures)]
fn element(program: &Index, table: &[Figures], element: &Element) -> Figures
    ensures { result ≡ slot_by (figures program.now) (known_in table.now) program.now element.now }
{
    match &element.content {
        Content::AtOnce => tag(program, table, &element.tag, nothing()),
        Content::Children(children) => {
            let inner = slots(program, table, children);
            tag(program, table, &element.tag, inner)
        }
    }
}

/// The figures of a slot.
#[cycle(figures)]
fn slot(program: &Index, table: &[Figures], slot: &Slot) -> Figures
    ensures { result ≡ slot_by (figures program.now) (known_in table.now) program.now slot.now }
{
    match &slot.kind {
        SlotKind::Null => nothing(),
        SlotKind::Text(_) | SlotKind::Value(_) => text(),
        SlotKind::Children => given_children(),
        SlotKind::For(repetition) => repeated(
            repetition.limit,
            self::slot(program, table, &repetition.item),
        ),
        SlotKind::Choice { first, second, .. } => {
            let first = self::slot(program, table, first);
            let second = self::slot(program, table, second);
            beside(first, second)
        }
        SlotKind::Element(inner) | SlotKind::Enclosed(inner) => { element(program, table, inner) }
    }
}

/// The figures of a place of a child list.
#[cycle(figures)]
fn child(program: &Index, table: &[Figures], child: &Child) -> Figures
    ensures { result ≡ slot_by (figures program.now) (known_in table.now) program.now child.now }
{
    match &child.kind {
        ChildKind::Element(inner) => element(program, table, inner),
        ChildKind::Braced(inner) => slot(program, table, inner),
    }
}

/// The figures of a child list.
#[cycle(figures)]
fn slots(program: &Index, table: &[Figures], children: &[Child]) -> Figures
    ensures { result ≡ slots_by (figures program.now) (known_in table.now) program.now (slots_of children.now) }
{
    let mut at = children.len();
    let mut sum = nothing();
    while at > 0 {
        at -= 1;
        sum = beside(child(program, table, &children[at]), sum);
    }
    sum
}

/// The figures of a fragment.
fn fragment(program: &Index, table: &[Figures], fragment: &Fragment) -> Figures
    ensures { result ≡ slots_by (figures program.now) (known_in table.now) program.now fragment.now }
{
    slots(program, table, fragment.children())
}

/// The figures of what a component returns.
fn body(program: &Index, table: &[Figures], body: &Body) -> Figures
    ensures { result ≡ slots_by (figures program.now) (known_in table.now) program.now (body_slots body.now) }
{
    match &body.kind {
        BodyKind::Slot(only) => {
            let figures = slot(program, table, only);
            beside(figures, nothing())
        }
        BodyKind::Fragment(inner) | BodyKind::Enclosed(inner) => { fragment(program, table, inner) }
    }
}

/// Whether a component reads a resource.
fn reads_resource(component: &Component) -> bool
    ensures { result ≡ reads_resource component.now }
{
    for statement in component.statements() {
        if let StatementKind::Resource { .. } = &statement.kind {
            return true;
        }
    }
    false
}

/// The number of a component, if it reads a resource.
fn reader_of(program: &Index, component: &Component) -> Option<usize>
    ensures { result ≡ reader_of program.now component.now }
{
    if reads_resource(component) {
        program
            .listing()
            .components
            .position(component.name().text())
    } else {
        None
    }
}

/// Whether a component may throw by itself.
pub fn has_throw(component: &Component) -> bool
    ensures { result ≡ has_throw component.now }
{
    for statement in component.statements() {
        if let StatementKind::Throw { .. } = &statement.kind {
            return true;
        }
    }
    false
}

/// The number of a component, if it may throw by itself.
fn thrower_of(program: &Index, component: &Component) -> Option<usize>
    ensures { result ≡ thrower_of program.now component.now }
{
    if has_throw(component) {
        program
            .listing()
            .components
            .position(component.name().text())
    } else {
        None
    }
}

/// The figures of a component's body.
fn component(program: &Index, table: &[Figures], component: &Component) -> Figures
    ensures { result ≡ body_if (figures program.now) (known_in table.now) program.now (Some component.now) }
{
    let inner = body(program, table, component.body());
    let reader = reader_of(program, component);
    let thrower = thrower_of(program, component);
    Figures {
        own: inner.own,
        given: inner.given,
        levels: inner.levels,
        waits: earlier(reader, inner.waits),
        unguarded: inner.unguarded,
        throws: earlier(thrower, inner.throws),
        uncaught: inner.uncaught,
    }
}

/// One round over all components, from what was known before.
fn round(alloc: Global, program: &Index, table: &[Figures]) -> Result<Vec<Figures>, AllocError>
    ensures { IfOk result (λ t. t.items ≡ round_of program.now table.now) }
{
    let mut next = Vec::new(alloc);
    for declaration in program.declarations() {
        if let DeclarationKind::Component(inner) = &declaration.kind {
            next.push(component(program, table, inner))?;
        }
    }
    Ok(next)
}

/// Whether two numbers, if there are two, are the same.
fn is_same_number(a: Option<usize>, b: Option<usize>) -> bool
    ensures { IsTrue result → a ≡ b }
{
    match a {
        None => b.is_none(),
        Some(first) => match b {
            None => false,
            Some(second) => first == second,
        },
    }
}

/// Whether there are as many nodes and levels.
fn are_same_sizes(a: &Figures, b: &Figures) -> bool
    ensures { IsTrue result → (a.now.own ≡ b.now.own) × (a.now.given ≡ b.now.given) × (a.now.levels ≡ b.now.levels) }
{
    a.own == b.own && a.given == b.given && a.levels == b.levels
}

/// Whether the given children stand in the same way: their waits, and their throws.
fn are_same_ways(a: &Figures, b: &Figures) -> bool
    ensures { IsTrue result → (a.now.unguarded ≡ b.now.unguarded) × (a.now.uncaught ≡ b.now.uncaught) }
{
    a.unguarded == b.unguarded && a.uncaught == b.uncaught
}

/// Whether the figures are the same.
#[tactic(auto, using(crate::proofs::Same::same_figures))]
fn is_same(a: &Figures, b: &Figures) -> bool
    ensures { IsTrue result → a.now ≡ b.now }
{
    if are_same_sizes(a, b) && are_same_ways(a, b) {
        return is_same_number(a.waits, b.waits) && is_same_number(a.throws, b.throws);
    }
    false
}

/// Whether a round changed nothing.
fn are_same(a: &[Figures], b: &[Figures]) -> bool
    ensures { IsTrue result → a.now ≡ b.now }
{
    if a.len() != b.len() {
        return false;
    }
    for at in 0..a.len() {
        if !is_same(&a[at], &b[at]) {
            return false;
        }
    }
    true
}

/// Rounds until nothing changes, and at most so many.
fn settled(alloc: Global, program: &Index, most: usize) -> Result<Vec<Figures>, AllocError>
    ensures { IfOk result (λ t. t.items ≡ rounds most program.now []) }
{
    let mut table: Vec<Figures> = Vec::new(alloc);
    let mut left = most;
    while left > 0 {
        let next = round(alloc, program, &table)?;
        if are_same(&next, &table) {
            return Ok(table);
        }
        table = next;
        left -= 1;
    }
    Ok(table)
}

/// How deep components may nest.
fn nesting_levels(program: &Index) -> usize
    ensures { result ≡ nesting_levels program.now }
{
    let count = program.component_count();
    if count < 256 { 256 } else { count }
}

/// Puts the figures of one component more into the table, from those of the components that its body places.
fn finish(program: &Index, table: &mut Vec<Figures>, number: usize)
    requires { length table.old.items ≡ length (components program.now) }
    ensures sized { length table.new.items ≡ length table.old.items }
    ensures more { (done : List ℕ) → AreFigures program.now table.old.items done
        → list_all (is_among done) (next_of (places program.now) number) ≡ true → AreFigures program.now table.new.items (done ++ number ∷ []) }
{
    match program.component(number) {
        None => {}
        Some(inner) => {
            let found = component(program, table.as_slice(), inner);
            table[number] = found;
        }
    }
}

/// The figures of these components, each from those of the components that its body places, which are finished before it.
fn in_order(alloc: Global, program: &Index, order: &Order) -> Result<Vec<Figures>, AllocError>
    requires { IsFinished (places program.now) order.now }
    ensures { IfOk result (λ t. AreFigures program.now t.items order.now) }
{
    let mut table = vec![in alloc; nothing(); program.component_count()]?;
    for number in order.numbers() {
        finish(program, &mut table, *number);
    }
    Ok(table)
}

/// The figures of the root's body. In an order in which components are finished each is looked at once; if the root is not
/// finished in the order, rounds over all components are made.
///
/// # Errors
///
/// Only if out of memory.
pub fn root_figures(alloc: Global, program: &Index, order: &Order) -> Result<Figures, AllocError>
    requires { IsFinished (places program.now) order.now }
    ensures { IfOk result (λ f. f ≡ body_by (figures program.now) (nesting_levels program.now) program.now (component_number program.now root_name)) }
{
    let root = program.component_number("App");
    if order.has(root) {
        let finished = in_order(alloc, program, order)?;
        return Ok(known(&finished, root));
    }
    let table = settled(alloc, program, nesting_levels(program))?;
    Ok(known(&table, root))
}
