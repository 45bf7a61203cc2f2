// A list of operations, one after another.
ghost use Rattle.std.specs.Prelude.{◌≡◌, ◌≤◌, length, IfOk, OnErr, OnOk};
ghost use Rattle.rx_forest.specs.Forests.{CanBeReplayed, Replays};
ghost use Rattle.rx_host.specs.Kept.{forest_kept};

use crate::tree::HostTree;
use rx_base::{Name, Str};
use rx_elem::AttrValue;
use rx_forest::HostOp;
use std::alloc::{AllocError, Global};

/// Does what these operations say, one after another. If out of memory, the tree stays as it was.
///
/// # Errors
///
/// Only if out of memory.
pub fn replay(alloc: Global, tree: &mut HostTree, ops: &[HostOp]) -> Result<(), AllocError>
    requires { CanBeReplayed (forest_kept tree.old) ops.now }
    ensures made { OnOk result (Replays (forest_kept tree.old) ops.now (forest_kept tree.new)) }
    ensures same { OnErr result (forest_kept tree.new ≡ forest_kept tree.old) }
{
    let copies = copy_all(alloc, ops)?;
    tree.reserve(ops.len() as u64)?;
    apply_all(tree, copies);
    Ok(())
}

/// Does what these operations say, one after another, for which there is room: it takes no memory.
pub fn apply_all(tree: &mut HostTree, ops: Vec<HostOp>)
    requires room { length ops.items ≤ tree.old.spare }
    requires can_be_made { CanBeReplayed (forest_kept tree.old) ops.items }
    ensures { Replays (forest_kept tree.old) ops.items (forest_kept tree.new) }
{
    'ops: for op in ops {
        tree.apply(op);
    }
}

// The same operations again.
fn copy_all(alloc: Global, ops: &[HostOp]) -> Result<Vec<HostOp>, AllocError>
    ensures { IfOk result (λ copies. copies.items ≡ ops.now) }
{
    let mut copies = Vec::new(alloc);
    'ops: for op in ops {
        copies.push(copy(alloc, op)?)?;
    }
    Ok(copies)
}

// The same operation again.
fn copy(alloc: Global, op: &HostOp) -> Result<HostOp, AllocError>
    ensures { IfOk result (λ other. other ≡ op.now) }
{
    Ok(match op {
        HostOp::Remove(host) => HostOp::Remove(*host),
        HostOp::Create(host, name) => HostOp::Create(*host, copy_name(alloc, name)?),
        HostOp::CreateText(host, text) => HostOp::CreateText(*host, copy_text(alloc, text)?),
        HostOp::Place {
            host,
            parent,
            before,
        } => HostOp::Place {
            host: *host,
            parent: *parent,
            before: *before,
        },
        HostOp::UnsetAttr(host, name) => HostOp::UnsetAttr(*host, copy_name(alloc, name)?),
        HostOp::SetAttr(host, name, value) => {
            HostOp::SetAttr(*host, copy_name(alloc, name)?, copy_value(alloc, value)?)
        }
        HostOp::SetText(host, text) => HostOp::SetText(*host, copy_text(alloc, text)?),
        HostOp::Hide(host) => HostOp::Hide(*host),
        HostOp::Show(host) => HostOp::Show(*host),
    })
}

fn copy_name(alloc: Global, name: &Name) -> Result<Name, AllocError>
    ensures { IfOk result (λ other. other ≡ name.now) }
{
    Name::new(alloc, name.text())
}

fn copy_text(alloc: Global, text: &Str) -> Result<Str, AllocError>
    ensures { IfOk result (λ other. other ≡ text.now) }
{
    Str::new(alloc, text.text())
}

fn copy_value(alloc: Global, value: &AttrValue) -> Result<AttrValue, AllocError>
    ensures { IfOk result (λ other. other ≡ value.now) }
{
    match value {
        AttrValue::Number(number) => Ok(AttrValue::Number(*number)),
        AttrValue::Text(text) => Ok(AttrValue::Text(copy_text(alloc, text)?)),
    }
}
