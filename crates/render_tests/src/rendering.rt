// A first render, by example.
ghost use Rattle.std.specs.Prelude.{◌≡◌, ◌<◌, ◌^◌, [], IfOk};
ghost use Rattle.rx_rules.specs.Names.{resources};
ghost use Rattle.rx_render.specs.Rendering.{left_of};

use rx_ast::{Body, Component, Declaration, Element, Program, Slot, Tag};
use rx_base::{Cut, Name, Steps};
use rx_check::{Checked, check};
use rx_lane::{Lane, Lanes};
use rx_loop::{Driven, drive};
use rx_render::Renderer;
use rx_resources::ResourceStore;
use rx_ways::Ways;
use std::alloc::{AllocError, Global};
use std::marker::Brand;
use std::sync::ledger::{Blank, Ledger};
use std::test::Fail;

// `function App() { return <p/>; }`
fn paragraph(alloc: Global) -> Result<Program, AllocError> {
    let element = Element::ended(Tag::Host {
        name: Name::new(alloc, "p")?,
        attributes: Vec::new(alloc),
    });
    let app = Component::new(
        Name::new(alloc, "App")?,
        false,
        false,
        Vec::new(alloc),
        Vec::new(alloc),
        Body::slot(Slot::element(element)),
    );
    let mut declarations = Vec::new(alloc);
    declarations.push(Declaration::component(app))?;
    Ok(Program::new(false, declarations))
}

// A first render of a program that reads no resources, at its start.
fn first_render(alloc: Global, checked: Checked) -> Result<Renderer, AllocError>
    requires { resources checked ≡ [] }
    ensures left { IfOk result (λ r. 0 < left_of r) }
    ensures few { IfOk result (λ r. left_of r < 2 ^ 64) }
{
    let mut renderer = Renderer::new(alloc, checked)?;
    let cut = Cut {
        updates: 0,
        resolutions: 0,
    };
    let lanes = Lanes::one(Lane::Default);
    let store = ResourceStore::new(alloc, 0)?;
    let seen = store.seen(alloc, lanes, cut)?;
    renderer.start(lanes, cut, seen, &Ways::new(alloc))?;
    renderer.facts();
    Ok(renderer)
}

// Two slices of three units: what the first came to, and the second if there was one.
fn two_slices<L: Ledger>(
    renderer: &mut Renderer,
    steps: &mut Steps<L>,
) -> Result<Option<[Driven; 2]>, AllocError>
    requires left { 0 < left_of renderer.old }
    requires few { left_of renderer.old < 2 ^ 64 }
{
    let first = drive(renderer, 3, true, steps)?;
    let Driven::Yielded { .. } = first else {
        return Ok(None);
    };
    let second = drive(renderer, 3, true, steps)?;
    Ok(Some([first, second]))
}

// The slices of a first render.
fn render_in_slices<L: Ledger>(
    alloc: Global,
    checked: Checked,
    blank: Blank,
) -> Result<Option<[Driven; 2]>, AllocError>
    requires name { blank.name ≡ L.name }
    requires parts { blank.parts ≡ L.parts }
    requires one { blank.parts ≡ 1 }
{
    let mut steps: Steps<L> = Steps::new(blank);
    if !checked.resources().is_empty() {
        return Ok(None);
    }
    let mut renderer = first_render(alloc, checked)?;
    two_slices(&mut renderer, &mut steps)
}

#[test]
fn a_render_goes_on_where_it_yielded(rt: HostRuntime) -> Result<(), Fail> {
    let program = paragraph(rt.alloc())?;
    let checked = check(rt.alloc(), program)?;
    let slices = render_in_slices::<Brand>(rt.alloc(), checked, Blank::new(1))?;
    let first = Driven::Yielded { used: 3 };
    let second = Driven::Finished { used: 1 };
    assert_eq!(rt; slices, Some([first, second]));
    Ok(())
}
