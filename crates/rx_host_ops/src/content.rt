// What a host is made with, and the changes of what it is.
ghost use Rattle.std.specs.Prelude.{◌≡◌, ◌++◌, Some, IfOk, OnOk};
ghost use Rattle.rx_base.specs.Values as base;
ghost use Rattle.rx_forest.specs.Hosts.{Content, by_name, content_of, letters, tag};
ghost use Rattle.rx_forest.specs.HostOps.{bare, content_ops, creation};

use crate::attrs::add_attr_ops;
use rx_base::{Name, Str};
use rx_elem::{Attr, Element, ElementKind};
use rx_forest::HostOp;
use std::alloc::{AllocError, Global};

// The operation that makes a host of this element.
pub(crate) fn creation_of(alloc: Global, host: u64, element: &Element) -> Result<HostOp, AllocError>
    ensures { (c : Content) → content_of element.now ≡ Some c → IfOk result (λ op. op ≡ creation host c) }
{
    match element.kind() {
        ElementKind::Text(text) => Ok(HostOp::CreateText(host, Str::new(alloc, text.text())?)),
        ElementKind::Host(name, _, _, _) => {
            Ok(HostOp::Create(host, Name::new(alloc, name.text())?))
        }
        _ => Ok(HostOp::CreateText(host, Str::new(alloc, "")?)),
    }
}

// The changes from a bare new host to one of this element.
pub(crate) fn add_first(
    alloc: Global,
    host: u64,
    new: &Element,
    ops: &mut Vec<HostOp>,
) -> Result<(), AllocError>
    ensures { (c : Content) → content_of new.now ≡ Some c → OnOk result (ops.new.items ≡ ops.old.items ++ content_ops host (bare c) c) }
{
    match new.kind() {
        ElementKind::Host(_, _, attrs, _) => add_attr_ops(alloc, host, &attrs[..0], attrs, ops),
        _ => Ok(()),
    }
}

// The change from a text to the one of this element, if that is another.
fn add_text(
    alloc: Global,
    host: u64,
    old: &Str,
    new: &Element,
    ops: &mut Vec<HostOp>,
) -> Result<(), AllocError>
    ensures { (c : Content) → content_of new.now ≡ Some c → OnOk result (ops.new.items ≡ ops.old.items ++ content_ops host (letters old.now) c) }
{
    match new.kind() {
        ElementKind::Text(text) if text.text() != old.text() => {
            let text = Str::new(alloc, text.text())?;
            ops.push(HostOp::SetText(host, text))?;
            Ok(())
        }
        _ => Ok(()),
    }
}

// The changes from a host with these attributes to one of this element.
fn add_tag(
    alloc: Global,
    host: u64,
    old: &[Attr],
    new: &Element,
    ops: &mut Vec<HostOp>,
) -> Result<(), AllocError>
    ensures { (name : base.Name) (c : Content) → content_of new.now ≡ Some c → OnOk result (ops.new.items ≡ ops.old.items ++ content_ops host (tag name (by_name old.now)) c) }
{
    match new.kind() {
        ElementKind::Host(_, _, attrs, _) => add_attr_ops(alloc, host, old, attrs, ops),
        _ => Ok(()),
    }
}

// The changes from a host of the old element to one of the new.
pub(crate) fn add_changes(
    alloc: Global,
    host: u64,
    old: &Element,
    new: &Element,
    ops: &mut Vec<HostOp>,
) -> Result<(), AllocError>
    ensures { (b c : Content) → content_of old.now ≡ Some b → content_of new.now ≡ Some c → OnOk result (ops.new.items ≡ ops.old.items ++ content_ops host b c) }
{
    match old.kind() {
        ElementKind::Text(text) => add_text(alloc, host, text, new, ops),
        ElementKind::Host(_, _, attrs, _) => add_tag(alloc, host, attrs, new, ops),
        _ => Ok(()),
    }
}
