// The checks of names and counts.
ghost use Rattle.std.specs.Prelude.{◌≡◌, MatchOption, IfOk, Some, None, find, filter_map, is_some};
ghost use Rattle.std.specs.List.{list_all};
ghost use Rattle.rx_mentions.specs.Mentions.{given_names};
ghost use Rattle.rx_rules.specs.Names.{prop_names, has_name};
ghost use Rattle.rx_check.specs.Limits.{limit_of};
ghost use Rattle.rx_check.specs.Checks.{unless, repeat_in, unknown_among, misfit_in, is_children, fits, element_fits, takes_arguments, is_rooted, measure_in, same_count, count_in, name_length_in, text_length_in};
ghost use Rattle.rx_rules.specs.Versions.{list_limit};
ghost use Rattle.rx_figures.specs.Costs.{first_over};
ghost use Rattle.rx_order.specs.Graphs.{first};

use rx_ast::{Attribute, Component, ParameterKind};
use rx_mentions::{Count, Mention, MentionKind, names_given};
use rx_names::{Index, Listing, Names};
use std::alloc::{AllocError, Global};

/// The name, unless it is as it must be.
fn unless(ok: bool, name: &str) -> Option<&str>
    ensures { MatchOption result (unless ok name.now ≡ None) (λ x. unless ok name.now ≡ Some x.now) }
{
    if ok { None } else { Some(name) }
}

/// The first name that is introduced though it stands already.
pub fn first_repeat<'a>(mentions: &[Mention<'a>]) -> Option<&'a str>
    ensures { MatchOption result (first (filter_map repeat_in mentions.now) ≡ None) (λ x. first (filter_map repeat_in mentions.now) ≡ Some x.now) }
{
    for mention in mentions {
        if let MentionKind::Introduced { again, name } = &mention.kind {
            if *again {
                return Some(*name);
            }
        }
    }
    None
}

/// A function takes so many arguments.
fn takes_arguments(program: &Index, function: &str, arguments: usize) -> bool
    ensures { result ≡ takes_arguments program.now function.now arguments }
{
    match program.function_named(function) {
        None => false,
        Some(function) => function.parameters().len() == arguments,
    }
}

/// The names of a component's integer parameters.
fn props_of(alloc: Global, component: &Component) -> Result<Names, AllocError>
    ensures { IfOk result (λ names. names ≡ prop_names component.now) }
{
    let mut names = Names::new(alloc);
    for parameter in component.parameters() {
        if let ParameterKind::Integer(name) = &parameter.kind {
            names.push(alloc, name.text())?;
        }
    }
    Ok(names)
}

/// A component takes children.
fn takes_children(component: &Component) -> bool
    ensures { result ≡ is_some (find is_children component.now.parameters) }
{
    for parameter in component.parameters() {
        if let ParameterKind::Children = &parameter.kind {
            return true;
        }
    }
    false
}

/// Each of these names is one of those.
fn all_among(names: &Names, others: &Names) -> bool
    ensures { result ≡ list_all (has_name others.now) names.now }
{
    names
        .items()
        .iter()
        .all(|name| others.contains(name.text()))
}

/// The attributes are the integer parameters, and a child is given only if it is taken.
fn fits(
    alloc: Global,
    attributes: &Names,
    filled: bool,
    component: &Component,
) -> Result<bool, AllocError>
    ensures { IfOk result (λ b. b ≡ fits attributes.now filled component.now) }
{
    let props = props_of(alloc, component)?;
    Ok(
        all_among(attributes, &props)
            && all_among(&props, attributes)
            && (!filled || takes_children(component)),
    )
}

/// An element of a component has what the component takes.
fn element_fits(
    alloc: Global,
    program: &Index,
    component: &str,
    attributes: &[Attribute],
    filled: bool,
) -> Result<bool, AllocError>
    ensures { IfOk result (λ b. b ≡ element_fits program.now component.now (given_names attributes.now) filled) }
{
    let attributes = names_given(alloc, attributes)?;
    match program.component_named(component) {
        None => Ok(false),
        Some(component) => fits(alloc, &attributes, filled, component),
    }
}

/// The name that fails the check of arity in a mention.
fn misfit<'a>(
    alloc: Global,
    program: &Index,
    mention: &Mention<'a>,
) -> Result<Option<&'a str>, AllocError>
    ensures { IfOk result (λ o. MatchOption o (misfit_in program.now mention.now ≡ None) (λ x. misfit_in program.now mention.now ≡ Some x.now)) }
{
    match &mention.kind {
        MentionKind::Call {
            function,
            arguments,
        } => {
            let function = function.text();
            Ok(unless(takes_arguments(program, function, *arguments), function))
        }
        MentionKind::Reduction(function) => {
            let function = function.text();
            Ok(unless(takes_arguments(program, function, 2), function))
        }
        MentionKind::Element {
            filled,
            component,
            attributes,
        } => {
            let component = component.text();
            let fit = element_fits(alloc, program, component, *attributes, *filled)?;
            Ok(unless(fit, component))
        }
        _ => Ok(None),
    }
}

/// The first function or component that is given another number of parts than it takes.
pub fn first_misfit<'a>(
    alloc: Global,
    program: &Index,
    mentions: &[Mention<'a>],
) -> Result<Option<&'a str>, AllocError>
    ensures { IfOk result (λ o. MatchOption o (first (filter_map (misfit_in program.now) mentions.now) ≡ None) (λ x. first (filter_map (misfit_in program.now) mentions.now) ≡ Some x.now)) }
{
    for mention in mentions {
        if let Some(name) = misfit(alloc, program, mention)? {
            return Ok(Some(name));
        }
    }
    Ok(None)
}

/// The component `App` is there and has no parameters.
pub fn is_rooted(program: &Index) -> bool
    ensures { result ≡ is_rooted program.now }
{
    match program.component_named("App") {
        None => false,
        Some(component) => component.parameters().len() == 0,
    }
}

/// The bytes of the name that is mentioned.
fn name_length(mention: &Mention) -> Option<u64>
    ensures { result ≡ name_length_in mention.now }
{
    let name = match &mention.kind {
        MentionKind::Introduced { name, .. } => *name,
        MentionKind::Unknown(name)
        | MentionKind::Call { function: name, .. }
        | MentionKind::Reduction(name)
        | MentionKind::Context(name)
        | MentionKind::Element {
            component: name,
            ..
        }
        | MentionKind::Host(name)
        | MentionKind::Resource(name) => name.text(),
        MentionKind::Children { .. } | MentionKind::Quoted(_) | MentionKind::Counted { .. } =>
            return None,
    };
    Some(name.len() as u64)
}

/// The bytes between the quotes.
fn text_length(mention: &Mention) -> Option<u64>
    ensures { result ≡ text_length_in mention.now }
{
    match &mention.kind {
        MentionKind::Resource(name) => Some(name.text().len() as u64),
        MentionKind::Quoted(length) => Some(*length as u64),
        _ => None,
    }
}

/// How many are counted of this thing.
fn count_of(what: Count, mention: &Mention) -> Option<u64>
    ensures { result ≡ count_in what mention.now }
{
    match &mention.kind {
        MentionKind::Counted { what: other, found } if is_same(what, *other) => Some(*found),
        _ => None,
    }
}

/// Two counts are of one thing that is mentioned.
fn is_same(what: Count, other: Count) -> bool
    ensures { result ≡ same_count what other }
{
    match what {
        Count::Parameters => matches!(&other, Count::Parameters),
        Count::Statements => matches!(&other, Count::Statements),
        Count::Attributes => matches!(&other, Count::Attributes),
        Count::Dependencies => matches!(&other, Count::Dependencies),
        Count::List => matches!(&other, Count::List),
        _ => false,
    }
}

/// What is counted of this thing in a mention.
fn measure(what: Count, mention: &Mention) -> Option<u64>
    ensures { result ≡ measure_in what mention.now }
{
    match what {
        Count::Name => name_length(mention),
        Count::Text => text_length(mention),
        Count::Parameters
        | Count::Statements
        | Count::Attributes
        | Count::Dependencies
        | Count::List => count_of(what, mention),
        Count::Declarations | Count::Resources | Count::Depth => None,
    }
}

/// The most turns of a `for`.
fn list_limit(program: &Index) -> u64
    ensures { result ≡ list_limit program.now }
{
    if program.program().is_second() {
        1024
    } else {
        64
    }
}

/// The limit of what is counted.
pub fn limit_of(program: &Index, what: Count) -> u64
    ensures { result ≡ limit_of program.now what }
{
    match what {
        Count::Name | Count::Statements | Count::Resources => 64,
        Count::Text | Count::Declarations | Count::Depth => 256,
        Count::Parameters | Count::Attributes | Count::Dependencies => 16,
        Count::List => list_limit(program),
    }
}

/// The first count of this thing that is over its limit.
pub fn first_over(program: &Index, what: Count, mentions: &[Mention]) -> Option<u64>
    ensures { result ≡ first_over (limit_of program.now what) (filter_map (measure_in what) mentions.now) }
{
    let limit = limit_of(program, what);
    for mention in mentions {
        if let Some(found) = measure(what, mention) {
            if limit < found {
                return Some(found);
            }
        }
    }
    None
}

/// The name that is not known as what it stands for in a mention.
fn unknown<'a>(listing: &Listing, mention: &Mention<'a>) -> Option<&'a str>
    ensures { MatchOption result
        (unknown_among listing.now.functions listing.now.components listing.now.contexts mention.now ≡ None)
        (λ x. unknown_among listing.now.functions listing.now.components listing.now.contexts mention.now ≡ Some x.now) }
{
    match &mention.kind {
        MentionKind::Unknown(name) => Some(name.text()),
        MentionKind::Children { known } => unless(*known, "children"),
        MentionKind::Call { function: name, .. } | MentionKind::Reduction(name) => {
            unless(listing.functions.contains(name.text()), name.text())
        }
        MentionKind::Context(name) => unless(listing.contexts.contains(name.text()), name.text()),
        MentionKind::Element {
            component: name,
            ..
        } => unless(listing.components.contains(name.text()), name.text()),
        _ => None,
    }
}

/// The first name that is not known as what it stands for.
pub fn first_unknown<'a>(listing: &Listing, mentions: &[Mention<'a>]) -> Option<&'a str>
    ensures { MatchOption result
        (first (filter_map (unknown_among listing.now.functions listing.now.components listing.now.contexts) mentions.now) ≡ None)
        (λ x. first (filter_map (unknown_among listing.now.functions listing.now.components listing.now.contexts) mentions.now) ≡ Some x.now) }
{
    for mention in mentions {
        if let Some(name) = unknown(listing, mention) {
            return Some(name);
        }
    }
    None
}
