// Return links to the fibers that took children over.
ghost use Rattle.std.specs.Prelude.{Option};
ghost use Rattle.rx_lists.specs.Reads.{limit, shape_of, IsRead};
ghost use Rattle.rx_lists.specs.Shapes.{IsTree};
ghost use Rattle.rx_lists.specs.Adopted.{CanAdopt, Relinks, Adopts};

use crate::release::own_of;
use rx_arena::{Arena, FiberId};

// Lets the return links of a list lead to a fiber.
fn set_returns<F>(nodes: &mut Arena<F>, link: Option<FiberId>, up: FiberId)
    requires read { IsRead nodes.old link }
    requires once { IsTree (shape_of limit nodes.old link) }
    ensures { Relinks nodes.old nodes.new (shape_of limit nodes.old link) up }
{
    let mut next = link;
    while let Some(id) = next {
        next = nodes.sibling_of(id);
        nodes.link_return(id, Some(up));
    }
}

/// Makes the return links below a list exact, down to what an alternate has too.
pub fn adopt<F>(nodes: &mut Arena<F>, link: Option<FiberId>)
    requires { CanAdopt nodes.old link }
    ensures { Adopts nodes.old nodes.new (shape_of limit nodes.old link) }
{
    let mut next = link;
    while let Some(id) = next {
        let node = nodes.node(id);
        let rest = node.sibling();
        let kids = node.child();
        let own = own_of(nodes, node);
        set_returns(nodes, kids, id);
        adopt(nodes, own);
        next = rest;
    }
}
