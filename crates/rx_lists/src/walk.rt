// Walks over a whole list.
ghost use Rattle.std.specs.Prelude.{◌≡◌, ◌++◌, OnOk, Option};
ghost use Rattle.rx_lists.specs.Reads.{limit, shape_of, IsRead};
ghost use Rattle.rx_lists.specs.Shapes.{ids};

use rx_arena::{Arena, FiberId};
use std::alloc::AllocError;

/// Appends the fibers of a list with all below, in tree order.
pub fn ids_into<F>(
    nodes: &Arena<F>,
    link: Option<FiberId>,
    out: &mut Vec<FiberId>,
) -> Result<(), AllocError>
    requires { IsRead nodes.now link }
    ensures { OnOk result (out.new.items ≡ out.old.items ++ ids (shape_of limit nodes.now link)) }
{
    let mut next = link;
    while let Some(id) = next {
        out.push(id)?;
        let kids = nodes.child_of(id);
        ids_into(nodes, kids, out)?;
        next = nodes.sibling_of(id);
    }
    Ok(())
}
