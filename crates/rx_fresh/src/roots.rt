// What a render begins with.
ghost use Rattle.std.specs.Prelude.{◌≡◌, IfOk};
ghost use Rattle.rx_meaning.specs.Fresh.{default_of, default_contexts, root_element};

use rx_ast::{Context, DeclarationKind};
use rx_base::{Int, Ints};
use rx_check::Checked;
use rx_elem::{Element, ElementKind};
use std::alloc::{AllocError, Global};

// The default of a context.
fn default_of(checked: &Checked, context: &Context) -> Int
    ensures { result ≡ default_of checked.now context.now }
{
    let width = checked.width();
    let value = Int::literal(width, context.number());
    if context.is_negative() {
        Int::neg(width, value)
    } else {
        value
    }
}

// The values of the contexts with no provider above, by their numbers (react.dev, createContext).
pub(crate) fn default_contexts(alloc: Global, checked: &Checked) -> Result<Vec<Int>, AllocError>
    ensures { IfOk result (λ v. v.items ≡ default_contexts checked.now) }
{
    let mut values = Vec::new(alloc);
    for declaration in checked.program().declarations() {
        if let DeclarationKind::Context(context) = &declaration.kind {
            values.push(default_of(checked, context))?;
        }
    }
    Ok(values)
}

// The element of the root: the component `App`, without props.
pub(crate) fn root_element(alloc: Global, checked: &Checked) -> Result<Element, AllocError>
    ensures { IfOk result (λ e. e ≡ root_element checked.now) }
{
    let number = checked.component("App").unwrap_or(0);
    let props = Ints::new(Vec::new(alloc));
    Element::new(
        alloc,
        ElementKind::Comp(number, None, props, Vec::new(alloc)),
    )
}
