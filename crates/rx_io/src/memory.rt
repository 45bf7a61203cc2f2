// A source and a sink in memory, which fail in the calls that they were told.
ghost use Rattle.std.specs.Prelude.{◌≡◌, ◌≤◌, ◌<◌, ◌+◌, ◌-◌, ◌↔◌, ◌⊎◌, [], length, drop, take, min, IfOk, IsErr, OnErr, Contains, Some};
ghost use Rattle.std.specs.Io.{ReadsAtMost, WritesAtMost};
ghost use Rattle.std.specs.Io.KnownBytes.{ReadConsumes, WriteAppends};
ghost use Rattle.rx_io.specs.Causes.{HasCause};
ghost use Rattle.rx_io.specs.Mem.{Feed, Tray, any_count, next_count, after_read, after_failed_read, after_write, after_failed_write};

use crate::sink::Sink;
use crate::source::{Failed, Source, copy_front};
use std::alloc::{AllocError, Global};
use std::marker::Model;

/// A source of bytes in memory, which fails in the calls that it was told. Its counts stop at `u64::MAX`.
#[derive(Drop)]
pub struct MemSource {
    bytes: Vec<u8>,
    at: usize,
    most: usize,
    failing: Vec<u64>,
    calls: u64,
    faults: u64,
}

impl Model for MemSource {
    ghost use Rattle.std.specs.Prelude.{◌≤◌, ◌<◌, drop, vec_len};
    ghost use Rattle.rx_io.specs.Mem.{Feed};

    ghost Value = { Feed };

    ghost view = { λ s. record { left = drop s.at s.bytes.items; most = s.most; failing = s.failing.items; calls = s.calls; faults = s.faults } };

    ghost invariant = { λ s. (s.at ≤ vec_len s.bytes) × (0 < s.most) };
}

impl MemSource {
    /// A source of these bytes that fails in exactly the calls of `read` with these numbers, the first being 1.
    ///
    /// # Errors
    ///
    /// Only if out of memory.
    pub fn new(alloc: Global, bytes: &[u8], failing: &[u64]) -> Result<Self, AllocError>
        ensures { IfOk result (λ s. s ≡ record { left = bytes.now; most = any_count; failing = failing.now; calls = 0; faults = 0 }) }
    {
        Ok(MemSource {
            bytes: Vec::from_slice(alloc, bytes)?,
            at: 0,
            most: usize::MAX,
            failing: Vec::from_slice(alloc, failing)?,
            calls: 0,
            faults: 0,
        })
    }

    /// Lets each later call move at most this many bytes.
    pub fn pieces(&mut self, most: u64)
        requires { 0 < most }
        ensures { self.new ≡ record self.old { most = most } }
    {
        self.most = most as usize;
    }
}

impl Source for MemSource {
    ghost left = { λ s. Some s.left };

    ghost faults = { λ s. s.faults };

    fn read(&mut self, into: &mut [u8]) -> Result<usize, Failed>
        ensures bound { ReadsAtMost result into.new }
        ensures bytes { ReadConsumes (Some self.old.left) (Some self.new.left) result into.new }
        ensures cause { HasCause self.old.faults self.new.faults result }

        // It fails in exactly these calls, and else gives as many bytes as there are, fit, and may be moved.
        ensures fails { IsErr result ↔ Contains self.old.failing (next_count self.old.calls) }
        ensures count { IfOk result (λ n. n ≡ min (min (length self.old.left) (length into.new)) self.old.most) }
        ensures ok { IfOk result (λ n. self.new ≡ after_read self.old n) }
        ensures err { OnErr result (self.new ≡ after_failed_read self.old) }
    {
        self.calls = self.calls.saturating_add(1);
        if self.failing.contains(&self.calls) {
            self.faults = self.faults.saturating_add(1);
            return Err(Failed);
        }
        let count = copy_front(&self.bytes[self.at..], into, self.most);
        self.at += count;
        Ok(count)
    }
}

/// A sink in memory, which fails in the calls that it was told, and when it is full. Its counts stop at `u64::MAX`.
#[derive(Drop)]
pub struct MemSink {
    bytes: Vec<u8>,
    room: usize,
    most: usize,
    failing: Vec<u64>,
    calls: u64,
    faults: u64,
}

impl Model for MemSink {
    ghost use Rattle.std.specs.Prelude.{◌≤◌, ◌<◌, vec_capacity, vec_len};
    ghost use Rattle.rx_io.specs.Mem.{Tray};

    ghost Value = { Tray };

    ghost view = { λ s. record { written = s.bytes.items; room = s.room; most = s.most; failing = s.failing.items; calls = s.calls; faults = s.faults } };

    ghost invariant = { λ s. (vec_len s.bytes ≤ s.room) × (s.room ≤ vec_capacity s.bytes) × (0 < s.most) };
}

impl MemSink {
    /// An empty sink with room for this many bytes, which fails in exactly the calls of `write` with these numbers, the
    /// first being 1, and when it is full.
    ///
    /// # Errors
    ///
    /// Only if out of memory. The room is taken here, and a write takes none.
    pub fn new(alloc: Global, room: u64, failing: &[u64]) -> Result<Self, AllocError>
        ensures { IfOk result (λ s. s ≡ record { written = []; room = room; most = any_count; failing = failing.now; calls = 0; faults = 0 }) }
    {
        let room = room as usize;
        Ok(MemSink {
            bytes: Vec::with_capacity(alloc, room)?,
            room,
            most: usize::MAX,
            failing: Vec::from_slice(alloc, failing)?,
            calls: 0,
            faults: 0,
        })
    }

    /// Lets each later call move at most this many bytes.
    pub fn pieces(&mut self, most: u64)
        requires { 0 < most }
        ensures { self.new ≡ record self.old { most = most } }
    {
        self.most = most as usize;
    }

    /// What was written.
    pub fn bytes(&self) -> &[u8]
        ensures { result.now ≡ self.now.written }
    {
        &self.bytes
    }
}

impl Sink for MemSink {
    ghost written = { λ s. Some s.written };

    ghost faults = { λ s. s.faults };

    fn write(&mut self, from: &[u8]) -> Result<usize, Failed>
        ensures bound { WritesAtMost result from.now }
        ensures some { 0 < length from.now → IfOk result (λ n. 0 < n) }
        ensures bytes { WriteAppends (Some self.old.written) (Some self.new.written) result from.now }
        ensures cause { HasCause self.old.faults self.new.faults result }

        // It fails in exactly these calls, and when it is full, and else takes as many bytes as fit and may be moved.
        ensures fails { IsErr result ↔ (Contains self.old.failing (next_count self.old.calls)
            ⊎ ((0 < length from.now) × (self.old.room ≤ length self.old.written))) }
        ensures count { IfOk result (λ n. n ≡ min (min (length from.now) (self.old.room - length self.old.written)) self.old.most) }
        ensures ok { IfOk result (λ n. self.new ≡ after_write self.old (take n from.now)) }
        ensures err { OnErr result (self.new ≡ after_failed_write self.old) }
    {
        self.calls = self.calls.saturating_add(1);
        let count = from.len().min(self.room - self.bytes.len()).min(self.most);
        if self.failing.contains(&self.calls) || (count == 0 && !from.is_empty()) {
            self.faults = self.faults.saturating_add(1);
            return Err(Failed);
        }
        self.bytes.extend_from_slice(&from[..count]).unwrap();
        Ok(count)
    }
}
