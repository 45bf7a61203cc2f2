// The operations on the tree of hosts.
use rx_base::{Name, Str};
use rx_elem::AttrValue;

/// One operation on the tree of hosts. Hosts are named by their numbers, from 1; 0 is the container.
#[derive(Drop, Debug)]
pub enum HostOp {
    /// Takes out a host with all below it.
    Remove(u64),
    /// Makes a host of this name, without attributes and children, that has no parent yet.
    Create(u64, Name),
    /// Makes a text that has no parent yet.
    CreateText(u64, Str),
    /// Places a host under a parent, before one of its children or at the end.
    Place {
        host: u64,
        parent: u64,
        before: Option<u64>,
    },
    /// Takes an attribute away.
    UnsetAttr(u64, Name),
    /// Gives an attribute its value.
    SetAttr(u64, Name, AttrValue),
    /// Changes a text.
    SetText(u64, Str),
    /// Marks a host as hidden.
    Hide(u64),
    /// Takes that mark away.
    Show(u64),
}
