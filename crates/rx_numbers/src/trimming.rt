// A tree without the vacant places at the ends of its lists.
ghost use Rattle.std.specs.Prelude.{◌≡◌, IfOk};
ghost use Rattle.rx_elem.specs.Trees.{forest};
ghost use Rattle.end_laws.specs.Trimmed.{trimmed, trimmed_in};

use rx_node::Node;
use std::alloc::{AllocError, Global};

/// The same tree without the vacant places at the ends of its lists: nothing that a commit does or shows depends on these.
///
/// # Errors
///
/// Only if out of memory.
#[cycle(trimming)]
pub fn trim(alloc: Global, node: &Node) -> Result<Node, AllocError>
    ensures { IfOk result (λ n. n ≡ trimmed node.now) }
{
    if node.is_fixed() {
        return node.copy();
    }
    let children = trim_all(alloc, node.children())?;
    let fallback = trim_all(alloc, node.fallback())?;
    let element = node.element().copy()?;
    let mark = node.mark().copy()?;
    Node::new(alloc, element, mark, children, fallback)
}

// The trees of a list, up to the last that is there.
#[cycle(trimming)]
fn trim_all(alloc: Global, places: &[Option<Node>]) -> Result<Vec<Option<Node>>, AllocError>
    ensures { IfOk result (λ v. forest v.items ≡ trimmed_in (forest places.now)) }
{
    let mut all: Vec<Option<Node>> = Vec::with_capacity(alloc, places.len())?;
    let mut vacant = 0usize;
    for place in places {
        match place {
            Some(node) => {
                'vacant: for _vacant in 0..vacant {
                    all.push(None)?;
                }
                vacant = 0;
                all.push(Some(trim(alloc, node)?))?;
            }
            None => vacant += 1,
        }
    }
    Ok(all)
}
