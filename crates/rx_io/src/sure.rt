// A source and a sink that never fail.
ghost use Rattle.std.specs.Prelude.{◌≡◌, Some, None};

use crate::sink::Sink;
use crate::source::{Failed, Source, copy_front};

/// A source of the bytes of a slice, which never fails.
#[derive(Drop)]
pub struct SureSource<'a> {
    left: &'a [u8],
}

impl<'a> SureSource<'a> {
    /// A source of these bytes.
    pub fn new(bytes: &'a [u8]) -> Self
        ensures { result.left.now ≡ bytes.now }
    {
        SureSource { left: bytes }
    }
}

impl Source for SureSource<'_> {
    ghost left = { λ s. Some s.left.now };

    ghost faults = { λ _. 0 };

    fn read(&mut self, into: &mut [u8]) -> Result<usize, Failed> {
        let count = copy_front(self.left, into, usize::MAX);
        self.left = &self.left[count..];
        Ok(count)
    }
}

/// A sink that takes every byte, keeps none and tells none. It never fails, since it takes no memory.
#[derive(Clone, Copy, Debug, Default)]
pub struct SureSink;

impl Sink for SureSink {
    ghost written = { λ _. None };

    ghost faults = { λ _. 0 };

    fn write(&mut self, from: &[u8]) -> Result<usize, Failed> {
        Ok(from.len())
    }
}
