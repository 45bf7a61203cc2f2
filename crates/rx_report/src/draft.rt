// A report while a line of it is being written.
ghost use Rattle.std.specs.Prelude.{◌≡◌, [], ◌++◌, take, OnOk, OnErr};

use std::alloc::{AllocError, Global};
use std::marker::Model;

/// The bytes of a report. A line is written piece by piece, and is taken back if out of memory.
#[derive(Drop)]
pub struct Draft {
    bytes: Vec<u8>,
    // Where the line begins that is being written.
    from: usize,
}

impl Model for Draft {
    ghost use Rattle.std.specs.Prelude.{◌≤◌, vec_len, take, drop};
    ghost use Rattle.rx_report.specs.Draft.{Draft};

    ghost Value = { Draft };

    ghost view = { λ d. record { done = take d.from d.bytes.items; begun = drop d.from d.bytes.items } };

    ghost invariant = { λ d. d.from ≤ vec_len d.bytes };
}

impl Draft {
    /// No byte yet.
    pub fn new(alloc: Global) -> Draft
        ensures done { result.done ≡ [] }
        ensures begun { result.begun ≡ [] }
    {
        Draft {
            bytes: Vec::new(alloc),
            from: 0,
        }
    }

    /// No number yet, in a list that takes its memory where the bytes do.
    pub fn no_numbers(&self) -> Vec<u64>
        ensures { result.items ≡ [] }
    {
        Vec::new(*self.bytes.allocator())
    }

    /// All bytes so far.
    pub fn bytes(&self) -> &[u8]
        ensures { result.now ≡ self.now.done ++ self.now.begun }
    {
        &self.bytes
    }

    /// Begins a line: what is written so far is done.
    pub fn begin(&mut self)
        ensures done { self.new.done ≡ self.old.done ++ self.old.begun }
        ensures begun { self.new.begun ≡ [] }
    {
        self.from = self.bytes.len();
    }

    /// Writes a piece of the line.
    pub fn put(&mut self, piece: &[u8]) -> Result<(), AllocError>
        ensures put { OnOk result (self.new.begun ≡ self.old.begun ++ piece.now) }
        ensures done { self.new.done ≡ self.old.done }
    {
        self.bytes.extend_from_slice(piece)
    }

    /// Ends a line: it stays if all of it was written, and else is taken back.
    pub fn end(&mut self, written: Result<(), AllocError>) -> Result<(), AllocError>
        ensures same { result ≡ written }
        ensures done { self.new.done ≡ self.old.done }
        ensures begun { OnOk result (self.new.begun ≡ self.old.begun) }
        ensures taken_back { OnErr result (self.new.begun ≡ []) }
    {
        if written.is_err() {
            self.bytes.truncate(self.from);
        }
        written
    }

    /// Keeps so many bytes from the front.
    pub fn cut(&mut self, len: u64)
        ensures done { self.new.done ≡ take len (self.old.done ++ self.old.begun) }
        ensures begun { self.new.begun ≡ [] }
    {
        self.bytes.truncate(len as usize);
        self.from = self.bytes.len();
    }
}
