// Hosts, and the operations on them.
ghost use Rattle.std.specs.Prelude.{◌≡◌, ◌++◌, ◌*◌, codes, flat_map, replicate, OnOk};
ghost use Rattle.rx_base.specs.Values.{in_quotes};
ghost use Rattle.rx_forest.specs.Forests.{held_of};
ghost use Rattle.rx_forest.specs.Hosts.{Host};
ghost use Rattle.rx_host.specs.Kept.{held_as};
ghost use Rattle.rx_lines.specs.Lines.{Options};
ghost use Rattle.rx_lines.specs.Lines as report;
ghost use Rattle.rx_report.specs.TreeOrder.{IsByName};

use crate::draft::Draft;
use rx_base::{Name, Str};
use rx_elem::{Attr, AttrValue};
use rx_forest::HostOp;
use rx_host::{AttrList, HostKind, HostView};
use std::alloc::AllocError;

impl Draft {
    // A host, by its number.
    fn put_host(&mut self, host: u64) -> Result<(), AllocError>
        ensures put { OnOk result (self.new.begun ≡ self.old.begun ++ report.host_text host) }
        ensures done { self.new.done ≡ self.old.done }
    {
        self.put(b"#")?;
        self.put_number(host)
    }

    // Where a host is placed among its siblings.
    fn put_before(&mut self, before: Option<u64>) -> Result<(), AllocError>
        ensures put { OnOk result (self.new.begun ≡ self.old.begun ++ report.before_text before) }
        ensures done { self.new.done ≡ self.old.done }
    {
        match before {
            None => self.put(b"at end"),
            Some(host) => {
                self.put(b"before ")?;
                self.put_host(host)
            }
        }
    }

    // The value of an attribute.
    fn put_value(&mut self, value: &AttrValue) -> Result<(), AllocError>
        ensures put { OnOk result (self.new.begun ≡ self.old.begun ++ report.value_text value.now) }
        ensures done { self.new.done ≡ self.old.done }
    {
        match value {
            AttrValue::Number(number) => self.put_int(*number),
            AttrValue::Text(text) => self.put_quoted(text),
        }
    }

    // The attributes of a host.
    fn put_attrs(&mut self, attrs: &AttrList) -> Result<(), AllocError>
        ensures put { OnOk result (self.new.begun ≡ self.old.begun ++ flat_map (λ a. codes " " ++ a.name ++ codes "=" ++ report.value_text a.value) attrs.now) }
        ensures done { self.new.done ≡ self.old.done }
    {
        let mut rest = attrs;
        'attrs: while let Some((attr, behind)) = rest.first() {
            self.put_attr(attr)?;
            rest = behind;
        }
        Ok(())
    }

    // An attribute with its value.
    fn put_attr(&mut self, attr: &Attr) -> Result<(), AllocError>
        ensures put { OnOk result (self.new.begun ≡ self.old.begun ++ (codes " " ++ attr.now.name ++ codes "=" ++ report.value_text attr.now.value)) }
        ensures done { self.new.done ≡ self.old.done }
    {
        self.put(b" ")?;
        self.put_name(&attr.name)?;
        self.put(b"=")?;
        self.put_value(&attr.value)
    }

    // Two spaces for each level.
    fn put_level(&mut self, level: u64) -> Result<(), AllocError>
        ensures put { OnOk result (self.new.begun ≡ self.old.begun ++ replicate (2 * level) 32) }
        ensures done { self.new.done ≡ self.old.done }
    {
        'levels: for _above in 0..level {
            self.put(b"  ")?;
        }
        Ok(())
    }

    // What a host is: an element with its attributes, or a text.
    fn put_content(&mut self, host: &HostView) -> Result<(), AllocError>
        ensures put { (h : Host) → held_as host.now ≡ held_of h → IsByName h.content → OnOk result (self.new.begun ≡ self.old.begun ++ report.content_text h.content) }
        ensures done { self.new.done ≡ self.old.done }
    {
        match host.kind() {
            HostKind::Element(name) => {
                self.put_name(name)?;
                self.put_attrs(host.attrs())
            }
            HostKind::Text(text) => self.put_quoted(text),
        }
    }

    /// The line of a host on its level.
    pub fn put_view_line(&mut self, level: u64, host: &HostView) -> Result<(), AllocError>
        ensures put { (o : Options) (h : Host) → held_as host.now ≡ held_of h → IsByName h.content → OnOk result (self.new.begun ≡ self.old.begun ++ report.line_bytes o (report.tree_host level h)) }
        ensures done { self.new.done ≡ self.old.done }
    {
        self.put_level(level)?;
        self.put_content(host)?;
        self.put_hidden(host.is_hidden())?;
        self.put(b"\n")
    }

    // A placement.
    fn put_place(&mut self, host: u64, parent: u64, before: Option<u64>) -> Result<(), AllocError>
        ensures put { OnOk result (self.new.begun ≡ self.old.begun ++ report.op_text (HostOp.Place host parent before)) }
        ensures done { self.new.done ≡ self.old.done }
    {
        self.put(b"place ")?;
        self.put_host(host)?;
        self.put(b" under ")?;
        self.put_host(parent)?;
        self.put(b" ")?;
        self.put_before(before)
    }

    // A name behind what is done with it.
    fn put_named(&mut self, word: &[u8], host: u64, name: &Name) -> Result<(), AllocError>
        ensures put { OnOk result (self.new.begun ≡ self.old.begun ++ (word.now ++ report.host_text host ++ codes " " ++ name.now)) }
        ensures done { self.new.done ≡ self.old.done }
    {
        self.put(word)?;
        self.put_host(host)?;
        self.put(b" ")?;
        self.put_name(name)
    }

    // A text behind what is done with it.
    fn put_lettered(&mut self, word: &[u8], host: u64, text: &Str) -> Result<(), AllocError>
        ensures put { OnOk result (self.new.begun ≡ self.old.begun ++ (word.now ++ report.host_text host ++ codes " " ++ in_quotes text.now)) }
        ensures done { self.new.done ≡ self.old.done }
    {
        self.put(word)?;
        self.put_host(host)?;
        self.put(b" ")?;
        self.put_quoted(text)
    }

    // A host behind what is done with it.
    fn put_alone(&mut self, word: &[u8], host: u64) -> Result<(), AllocError>
        ensures put { OnOk result (self.new.begun ≡ self.old.begun ++ (word.now ++ report.host_text host)) }
        ensures done { self.new.done ≡ self.old.done }
    {
        self.put(word)?;
        self.put_host(host)
    }

    // The new value of an attribute.
    fn put_set_attr(&mut self, host: u64, name: &Name, value: &AttrValue) -> Result<(), AllocError>
        ensures put { OnOk result (self.new.begun ≡ self.old.begun ++ report.op_text (HostOp.SetAttr host name.now value.now)) }
        ensures done { self.new.done ≡ self.old.done }
    {
        self.put_named(b"attr ", host, name)?;
        self.put(b" ")?;
        self.put_value(value)
    }

    /// An operation.
    pub fn put_op(&mut self, op: &HostOp) -> Result<(), AllocError>
        ensures put { OnOk result (self.new.begun ≡ self.old.begun ++ report.op_text op.now) }
        ensures done { self.new.done ≡ self.old.done }
    {
        match op {
            HostOp::Remove(host) => self.put_alone(b"remove ", *host),
            HostOp::Create(host, name) => self.put_named(b"create ", *host, name),
            HostOp::CreateText(host, text) => self.put_lettered(b"text ", *host, text),
            HostOp::Place {
                host,
                parent,
                before,
            } => self.put_place(*host, *parent, *before),
            HostOp::UnsetAttr(host, name) => self.put_named(b"unattr ", *host, name),
            HostOp::SetAttr(host, name, value) => self.put_set_attr(*host, name, value),
            HostOp::SetText(host, text) => self.put_lettered(b"settext ", *host, text),
            HostOp::Hide(host) => self.put_alone(b"hide ", *host),
            HostOp::Show(host) => self.put_alone(b"show ", *host),
        }
    }
}
