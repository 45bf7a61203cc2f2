// The changes of a host's attributes.
ghost use Rattle.std.specs.Prelude.{◌≡◌, ◌≤◌, ◌++◌, IfOk, OnOk, insert, length};
ghost use Rattle.std.specs.Option.{option_copied};
ghost use Rattle.std.specs.List.{flat_map};
ghost use Rattle.rx_elem.specs.declared.attr.Attr as attr;
ghost use Rattle.rx_forest.specs.Hosts.{by_name, with_attr};
ghost use Rattle.rx_forest.specs.HostOps.{attr_named, attr_ops, has_attr};
ghost use Rattle.rx_host_ops.specs.Attrs.{seen, sets, unsets};

use rx_base::{Name, Str};
use rx_elem::{Attr, AttrValue};
use rx_forest::HostOp;
use std::alloc::{AllocError, Global};

// Where an attribute of a name goes among attributes in the order of their names: before others of that name.
fn place_of(attrs: &[&Attr], name: &Name) -> usize
    ensures within { result ≤ length attrs.now }
    ensures put { (a : attr.Attr) → a.name ≡ name.now → insert (seen attrs.now) result a ≡ with_attr a (seen attrs.now) }
{
    for place in 0..attrs.len() {
        if name.text() <= attrs[place].name.text() {
            return place;
        }
    }
    attrs.len()
}

// The attributes in the order of their names.
fn sorted<'a>(alloc: Global, attrs: &'a [Attr]) -> Result<Vec<&'a Attr>, AllocError>
    ensures { IfOk result (λ sorted. seen sorted.items ≡ by_name attrs.now) }
{
    let mut sorted = Vec::new(alloc);
    for place in (0..attrs.len()).rev() {
        let attr = &attrs[place];
        let before = place_of(&sorted, &attr.name);
        sorted.insert(before, attr)?;
    }
    Ok(sorted)
}

// The attribute of a name.
fn named<'a>(attrs: &[&'a Attr], name: &Name) -> Option<&'a Attr>
    ensures { option_copied result ≡ attr_named (seen attrs.now) name.now }
{
    for place in 0..attrs.len() {
        if attrs[place].name.text() == name.text() {
            return Some(attrs[place]);
        }
    }
    None
}

// True if an attribute is among these with the same value.
fn has(attrs: &[&Attr], attr: &Attr) -> bool
    ensures { result ≡ has_attr (seen attrs.now) attr.now }
{
    match named(attrs, &attr.name) {
        Some(other) => other.value.same(&attr.value),
        None => false,
    }
}

// The same value.
fn copy_of(alloc: Global, value: &AttrValue) -> Result<AttrValue, AllocError>
    ensures { IfOk result (λ v. v ≡ value.now) }
{
    match value {
        AttrValue::Number(number) => Ok(AttrValue::Number(*number)),
        AttrValue::Text(text) => Ok(AttrValue::Text(Str::new(alloc, text.text())?)),
    }
}

// Takes an attribute away that is not among the new ones.
fn add_unset(
    alloc: Global,
    host: u64,
    new: &[&Attr],
    attr: &Attr,
    ops: &mut Vec<HostOp>,
) -> Result<(), AllocError>
    ensures { OnOk result (ops.new.items ≡ ops.old.items ++ unsets host (seen new.now) attr.now) }
{
    if named(new, &attr.name).is_none() {
        let name = Name::new(alloc, attr.name.text())?;
        ops.push(HostOp::UnsetAttr(host, name))?;
    }
    Ok(())
}

// Gives an attribute its value that had another one or none.
fn add_set(
    alloc: Global,
    host: u64,
    old: &[&Attr],
    attr: &Attr,
    ops: &mut Vec<HostOp>,
) -> Result<(), AllocError>
    ensures { OnOk result (ops.new.items ≡ ops.old.items ++ sets host (seen old.now) attr.now) }
{
    if !has(old, attr) {
        let name = Name::new(alloc, attr.name.text())?;
        let value = copy_of(alloc, &attr.value)?;
        ops.push(HostOp::SetAttr(host, name, value))?;
    }
    Ok(())
}

fn add_unsets(
    alloc: Global,
    host: u64,
    old: &[&Attr],
    new: &[&Attr],
    ops: &mut Vec<HostOp>,
) -> Result<(), AllocError>
    ensures { OnOk result (ops.new.items ≡ ops.old.items ++ flat_map (unsets host (seen new.now)) (seen old.now)) }
{
    for place in 0..old.len() {
        add_unset(alloc, host, new, old[place], ops)?;
    }
    Ok(())
}

fn add_sets(
    alloc: Global,
    host: u64,
    old: &[&Attr],
    new: &[&Attr],
    ops: &mut Vec<HostOp>,
) -> Result<(), AllocError>
    ensures { OnOk result (ops.new.items ≡ ops.old.items ++ flat_map (sets host (seen old.now)) (seen new.now)) }
{
    for place in 0..new.len() {
        add_set(alloc, host, old, new[place], ops)?;
    }
    Ok(())
}

// The changes from one list of attributes to another: those that go, then those that are new or have another value, each in
// the order of names.
pub(crate) fn add_attr_ops(
    alloc: Global,
    host: u64,
    old: &[Attr],
    new: &[Attr],
    ops: &mut Vec<HostOp>,
) -> Result<(), AllocError>
    ensures { OnOk result (ops.new.items ≡ ops.old.items ++ attr_ops host (by_name old.now) (by_name new.now)) }
{
    let old = sorted(alloc, old)?;
    let new = sorted(alloc, new)?;
    add_unsets(alloc, host, &old, &new, ops)?;
    add_sets(alloc, host, &old, &new, ops)
}
