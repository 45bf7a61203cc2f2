// All checks of a program, in their order.
ghost use Rattle.std.specs.Prelude.{◌≡◌, ◌≤◌, [], ◌∷◌, IfOk, MatchOption, MatchResult, Some, None, option_map, option_and_then, filter_map, length, slice_get};
ghost use Rattle.rx_rules.specs.Names.{component_names, component_number, root_name};
ghost use Rattle.rx_rules.specs.Bounds.{body_by, node_bound, depth_bound};
ghost use Rattle.rx_rules.specs.Versions.{node_limit};
ghost use Rattle.rx_names.specs.Listed.{IsListed, function_names};
ghost use Rattle.rx_order.specs.Graphs.{first, IsFinished};
ghost use Rattle.rx_mentions.specs.Mentions.{mentions as all_mentions};
ghost use Rattle.rx_mentions.specs.Ways.{calls, places};
ghost use Rattle.rx_figures.specs.Figures.{figures, nesting_levels};
ghost use Rattle.rx_figures.specs.Costs.{cost_over, first_over as over};
ghost use Rattle.rx_check.specs.Limits.{limit_of};
ghost use Rattle.rx_check.specs.Checks.{repeat_in, unknown_among, misfit_in, function_cycles, component_cycles, outside_uses, outside_throws};
ghost use Rattle.rx_check.specs.Refusals.{first_some, refused_name, refused_count, refused_root, name_refusals, way_refusals, count_refusals, size_refusals, refusal_of};
ghost use Rattle.rx_check.specs.Answers.{Answers};

use crate::checked::{Checked, accept};
use crate::checks::{first_misfit, first_over, first_repeat, first_unknown, is_rooted, limit_of};
use crate::refusal::Refusal;
use rx_ast::Program;
use rx_base::Name;
use rx_figures::{Figures, cost_over, held_sum, root_figures};
use rx_mentions::{Count, Mention, calls_of, mentions_of, places_of};
use rx_names::{Index, Listing, names_of};
use rx_order::{Order, Row, finishing_order, first_cycle};
use std::alloc::{AllocError, Global};

/// No program that is accepted has a greater node bound.
fn node_limit(program: &Index) -> u64
    ensures { result ≡ node_limit program.now }
{
    if program.program().is_second() {
        65_536
    } else {
        4096
    }
}

/// The name as it is told.
fn told(alloc: Global, name: &str) -> Result<Name, Refusal>
    ensures { MatchResult result (λ n. n ≡ name.now) (λ r. r ≡ Refusal.OutOfMemory) }
{
    let name = Name::new(alloc, name)?;
    Ok(name)
}

/// No name is declared or bound twice.
fn refuse_repeat(alloc: Global, mentions: &[Mention]) -> Result<(), Refusal>
    ensures { Answers (refused_name (λ x. Refusal.Duplicate x) (filter_map repeat_in mentions.now)) result }
{
    match first_repeat(mentions) {
        None => Ok(()),
        Some(name) => Err(Refusal::Duplicate(told(alloc, name)?)),
    }
}

/// All names are known.
fn refuse_unknown(alloc: Global, listing: &Listing, mentions: &[Mention]) -> Result<(), Refusal>
    ensures { Answers (refused_name (λ x. Refusal.Unknown x) (filter_map (unknown_among listing.now.functions listing.now.components listing.now.contexts) mentions.now)) result }
{
    match first_unknown(listing, mentions) {
        None => Ok(()),
        Some(name) => Err(Refusal::Unknown(told(alloc, name)?)),
    }
}

/// Functions and components are given what they take.
fn refuse_misfit(alloc: Global, program: &Index, mentions: &[Mention]) -> Result<(), Refusal>
    ensures { Answers (refused_name (λ x. Refusal.Arity x) (filter_map (misfit_in program.now) mentions.now)) result }
{
    match first_misfit(alloc, program, mentions)? {
        None => Ok(()),
        Some(name) => Err(Refusal::Arity(told(alloc, name)?)),
    }
}

/// The order in which functions are finished.
fn function_order(alloc: Global, program: &Index, graph: &[Row]) -> Result<Order, AllocError>
    requires { graph.now ≡ calls program.now }
    ensures { IfOk result (λ o. IsFinished (calls program.now) o) }
{
    finishing_order(alloc, graph)
}

/// The first function that reaches itself.
fn function_cycle<'a>(
    alloc: Global,
    program: &Index,
    graph: &[Row],
    order: &Order,
    names: &'a [Name],
) -> Result<Option<&'a str>, AllocError>
    requires graph { graph.now ≡ calls program.now }
    requires order { IsFinished (calls program.now) order.now }
    requires names { names.now ≡ function_names program.now }
    ensures { IfOk result (λ o. MatchOption o (first (function_cycles program.now) ≡ None) (λ x. first (function_cycles program.now) ≡ Some x.now)) }
{
    first_cycle(alloc, graph, order, names)
}

/// No function reaches itself; the order in which they are finished.
fn refuse_function_cycle(alloc: Global, program: &Index) -> Result<Order, Refusal>
    ensures answers { Answers (refused_name (λ x. Refusal.FunctionCycle x) (function_cycles program.now)) result }
    ensures order { IfOk result (λ o. IsFinished (calls program.now) o) }
{
    let graph = calls_of(alloc, program)?;
    let order = function_order(alloc, program, &graph)?;
    let names = program.listing().functions.items();
    match function_cycle(alloc, program, &graph, &order, names)? {
        None => Ok(order),
        Some(name) => Err(Refusal::FunctionCycle(told(alloc, name)?)),
    }
}

/// The order in which components are finished.
fn component_order(alloc: Global, program: &Index, graph: &[Row]) -> Result<Order, AllocError>
    requires { graph.now ≡ places program.now }
    ensures { IfOk result (λ o. IsFinished (places program.now) o) }
{
    finishing_order(alloc, graph)
}

/// The first component that reaches itself.
fn component_cycle<'a>(
    alloc: Global,
    program: &Index,
    graph: &[Row],
    order: &Order,
    names: &'a [Name],
) -> Result<Option<&'a str>, AllocError>
    requires graph { graph.now ≡ places program.now }
    requires order { IsFinished (places program.now) order.now }
    requires names { names.now ≡ component_names program.now }
    ensures { IfOk result (λ o. MatchOption o (first (component_cycles program.now) ≡ None) (λ x. first (component_cycles program.now) ≡ Some x.now)) }
{
    first_cycle(alloc, graph, order, names)
}

/// No component reaches itself; the order in which they are finished.
fn refuse_component_cycle(alloc: Global, program: &Index) -> Result<Order, Refusal>
    ensures answers { Answers (refused_name (λ x. Refusal.ComponentCycle x) (component_cycles program.now)) result }
    ensures order { IfOk result (λ o. IsFinished (places program.now) o) }
{
    let graph = places_of(alloc, program)?;
    let order = component_order(alloc, program, &graph)?;
    let names = program.listing().components.items();
    match component_cycle(alloc, program, &graph, &order, names)? {
        None => Ok(order),
        Some(name) => Err(Refusal::ComponentCycle(told(alloc, name)?)),
    }
}

/// There is a root without parameters.
fn refuse_root(program: &Index) -> Result<(), Refusal>
    ensures { Answers (refused_root program.now) result }
{
    if is_rooted(program) {
        Ok(())
    } else {
        Err(Refusal::NoApp)
    }
}

/// What was found is within its limit.
fn refuse_count(program: &Index, what: Count, over: Option<u64>) -> Result<(), Refusal>
    ensures { Answers (option_map (λ n. Refusal.Count what n (limit_of program.now what)) over) result }
{
    match over {
        None => Ok(()),
        Some(found) => Err(Refusal::Count {
            what,
            found,
            limit: limit_of(program, what),
        }),
    }
}

/// A number, if it is over the limit of what it counts.
fn number_over(program: &Index, what: Count, found: u64) -> Option<u64>
    ensures { result ≡ over (limit_of program.now what) (found ∷ []) }
{
    if limit_of(program, what) < found {
        Some(found)
    } else {
        None
    }
}

/// The name at a place, if there is one.
fn name_at<'a>(names: &'a [Name], place: Option<usize>) -> Option<&'a str>
    ensures { MatchOption result (option_and_then (slice_get names.now) place ≡ None) (λ x. option_and_then (slice_get names.now) place ≡ Some x.now) }
{
    match place {
        None => None,
        Some(place) => match names.get(place) {
            None => None,
            Some(name) => Some(name.text()),
        },
    }
}

/// The first component for whose resources the root waits, if there is a root.
fn outside_use<'a>(program: &Index, names: &'a [Name], waits: Option<usize>) -> Option<&'a str>
    requires names { names.now ≡ component_names program.now }
    requires waits { waits ≡ (body_by (figures program.now) (nesting_levels program.now) program.now (component_number program.now root_name)).waits }
    ensures { MatchOption result (first (outside_uses program.now) ≡ None) (λ x. first (outside_uses program.now) ≡ Some x.now) }
{
    match program.component_named("App") {
        None => None,
        Some(_) => name_at(names, waits),
    }
}

/// The root waits for no component.
fn refuse_outside_use(alloc: Global, program: &Index, waits: Option<usize>) -> Result<(), Refusal>
    requires { waits ≡ (body_by (figures program.now) (nesting_levels program.now) program.now (component_number program.now root_name)).waits }
    ensures { Answers (refused_name (λ x. Refusal.UseOutside x) (outside_uses program.now)) result }
{
    let names = program.listing().components.items();
    match outside_use(program, names, waits) {
        None => Ok(()),
        Some(name) => Err(Refusal::UseOutside(told(alloc, name)?)),
    }
}

/// The first component for which the root throws, if there is a root.
fn outside_throw<'a>(program: &Index, names: &'a [Name], throws: Option<usize>) -> Option<&'a str>
    requires names { names.now ≡ component_names program.now }
    requires throws { throws ≡ (body_by (figures program.now) (nesting_levels program.now) program.now (component_number program.now root_name)).throws }
    ensures { MatchOption result (first (outside_throws program.now) ≡ None) (λ x. first (outside_throws program.now) ≡ Some x.now) }
{
    match program.component_named("App") {
        None => None,
        Some(_) => name_at(names, throws),
    }
}

/// The root throws for no component.
fn refuse_outside_throw(
    alloc: Global,
    program: &Index,
    throws: Option<usize>,
) -> Result<(), Refusal>
    requires { throws ≡ (body_by (figures program.now) (nesting_levels program.now) program.now (component_number program.now root_name)).throws }
    ensures { Answers (refused_name (λ x. Refusal.ThrowOutside x) (outside_throws program.now)) result }
{
    let names = program.listing().components.items();
    match outside_throw(program, names, throws) {
        None => Ok(()),
        Some(name) => Err(Refusal::ThrowOutside(told(alloc, name)?)),
    }
}

/// The checks of names.
fn refuse_names(alloc: Global, program: &Index, mentions: &[Mention]) -> Result<(), Refusal>
    requires { mentions.now ≡ all_mentions program.now }
    ensures { Answers (first_some (name_refusals program.now)) result }
{
    refuse_repeat(alloc, mentions)?;
    refuse_unknown(alloc, program.listing(), mentions)?;
    refuse_misfit(alloc, program, mentions)
}

/// How functions are finished, and the figures of the root.
#[derive(Drop)]
struct Ways {
    calls: Order,
    root: Figures,
}

/// The checks of ways: cycles, waits, throws and the root.
fn refuse_ways(alloc: Global, program: &Index) -> Result<Ways, Refusal>
    ensures answers { Answers (first_some (way_refusals program.now)) result }
    ensures calls { IfOk result (λ w. IsFinished (calls program.now) w.calls) }
    ensures root { IfOk result (λ w. w.root ≡ body_by (figures program.now) (nesting_levels program.now) program.now (component_number program.now root_name)) }
{
    let calls = refuse_function_cycle(alloc, program)?;
    let places = refuse_component_cycle(alloc, program)?;
    let root = root_figures(alloc, program, &places)?;
    refuse_outside_use(alloc, program, root.waits)?;
    refuse_outside_throw(alloc, program, root.throws)?;
    refuse_root(program)?;
    Ok(Ways { calls, root })
}

/// A tree of few declarations is within its depth.
fn refuse_depth(program: &Index, depth: u64) -> Result<(), Refusal>
    requires few { length program.now.declarations ≤ 256 }
    requires depth { length program.now.declarations ≤ 256 → depth ≡ depth_bound program.now }
    ensures { Answers (refused_count program.now Count.Depth) result }
{
    refuse_count(
        program,
        Count::Depth,
        number_over(program, Count::Depth, depth),
    )
}

/// The checks of counts in the order of the text.
fn refuse_counts(program: &Index, mentions: &[Mention], depth: u64) -> Result<(), Refusal>
    requires mentioned { mentions.now ≡ all_mentions program.now }
    requires depth { length program.now.declarations ≤ 256 → depth ≡ depth_bound program.now }
    ensures { Answers (first_some (count_refusals program.now)) result }
{
    refuse_count(
        program,
        Count::Name,
        first_over(program, Count::Name, mentions),
    )?;
    refuse_count(
        program,
        Count::Text,
        first_over(program, Count::Text, mentions),
    )?;
    let declarations = program.declarations().len() as u64;
    refuse_count(
        program,
        Count::Declarations,
        number_over(program, Count::Declarations, declarations),
    )?;
    refuse_count(
        program,
        Count::Parameters,
        first_over(program, Count::Parameters, mentions),
    )?;
    refuse_count(
        program,
        Count::Statements,
        first_over(program, Count::Statements, mentions),
    )?;
    refuse_count(
        program,
        Count::Attributes,
        first_over(program, Count::Attributes, mentions),
    )?;
    refuse_count(
        program,
        Count::Dependencies,
        first_over(program, Count::Dependencies, mentions),
    )?;
    refuse_count(
        program,
        Count::List,
        first_over(program, Count::List, mentions),
    )?;
    let resources = program.listing().resources.len() as u64;
    refuse_count(
        program,
        Count::Resources,
        number_over(program, Count::Resources, resources),
    )?;
    refuse_depth(program, depth)
}

/// The node bound is within its limit.
fn refuse_nodes(program: &Index, bound: u64) -> Result<(), Refusal>
    ensures { Answers (option_map (λ n. Refusal.TreeBound n) (over (node_limit program.now) (bound ∷ []))) result }
{
    if node_limit(program) < bound {
        Err(Refusal::TreeBound(bound))
    } else {
        Ok(())
    }
}

/// The cost of each declaration is within its limit.
fn refuse_cost(alloc: Global, program: &Index, order: &Order) -> Result<(), Refusal>
    requires { IsFinished (calls program.now) order.now }
    ensures { Answers (option_map (λ n. Refusal.Cost n) (cost_over program.now)) result }
{
    match cost_over(alloc, program, order)? {
        None => Ok(()),
        Some(found) => Err(Refusal::Cost(found)),
    }
}

/// The checks of sizes.
fn refuse_sizes(alloc: Global, program: &Index, order: &Order, bound: u64) -> Result<(), Refusal>
    requires order { IsFinished (calls program.now) order.now }
    requires bound { bound ≡ node_bound program.now }
    ensures { Answers (first_some (size_refusals program.now)) result }
{
    refuse_nodes(program, bound)?;
    refuse_cost(alloc, program, order)
}

/// The most nodes and levels of a tree, the root with them.
#[derive(Clone, Copy)]
struct Bounds {
    nodes: u64,
    depth: u64,
}

/// All checks, in their order.
#[tactic(auto, unfolding(crate::specs::Refusals::refusal_of))]
fn refuse(alloc: Global, program: &Index) -> Result<Bounds, Refusal>
    ensures answers { Answers (refusal_of program.now) result }
    ensures nodes { IfOk result (λ b. b.nodes ≡ node_bound program.now) }
    ensures depth { IfOk result (λ b. b.depth ≡ depth_bound program.now) }
{
    let walk = mentions_of(alloc, program.program())?;
    refuse_names(alloc, program, walk.mentions())?;
    let ways = refuse_ways(alloc, program)?;
    let nodes = held_sum(1, ways.root.own);
    let depth = held_sum(1, ways.root.levels);
    refuse_counts(program, walk.mentions(), depth)?;
    refuse_sizes(alloc, program, &ways.calls, nodes)?;
    Ok(Bounds { nodes, depth })
}

/// All checks of a program whose names are listed.
fn refuse_listed(alloc: Global, program: &Program, listing: &Listing) -> Result<Bounds, Refusal>
    requires { IsListed program.now listing.now }
    ensures answers { Answers (refusal_of program.now) result }
    ensures nodes { IfOk result (λ b. b.nodes ≡ node_bound program.now) }
    ensures depth { IfOk result (λ b. b.depth ≡ depth_bound program.now) }
{
    let index = Index::new(alloc, program, listing)?;
    refuse(alloc, &index)
}

/// The program, if it meets every check.
///
/// # Errors
///
/// The refusal of the first check that it does not meet, in the order of `Refusal`'s variants, with the first place in the text that
/// the check refuses; or `OutOfMemory` if out of memory.
pub fn check(alloc: Global, program: Program) -> Result<Checked, Refusal>
    ensures program { IfOk result (λ c. c ≡ program) }
    ensures answers { Answers (refusal_of program) result }
{
    let listing = names_of(alloc, &program)?;
    let bounds = refuse_listed(alloc, &program, &listing)?;
    let checked = accept(alloc, program, listing, bounds.nodes, bounds.depth)?;
    Ok(checked)
}
