// Reading a source to its end, and writing a whole piece.
ghost use Rattle.std.specs.Prelude.{◌≡◌, ◌+◌, ◌<◌, List, ℕ, MatchResult, OnOk, OnErr, IsErrOf};
ghost use Rattle.std.specs.Io.KnownBytes.{Consumes, IsAtEnd, Appends};
ghost use Rattle.rx_io.specs.declared.whole.ReadError.TheVariants.{Failed as ReadFailed, OutOfMemory};
ghost use Rattle.rx_io.specs.Causes.{Rose, HasCause};
ghost use Rattle.rx_io.specs.Whole.{TookFor, Refuses, AppendsPart};

use crate::sink::Sink;
use crate::source::{Failed, Source};
use std::alloc::{AllocError, Global};

/// Why a source was not read to its end.
#[derive(Clone, Copy, Debug, PartialEq, Eq)]
pub enum ReadError {
    /// The source failed.
    Failed,
    /// The source had more bytes than were allowed.
    TooLong,
    /// There was no memory for the bytes.
    OutOfMemory,
}

impl From<Failed> for ReadError {
    ghost from_gives = { λ _ e. e ≡ ReadFailed };

    fn from(_: Failed) -> Self {
        ReadError::Failed
    }
}

impl From<AllocError> for ReadError {
    ghost from_gives = { λ _ e. e ≡ OutOfMemory };

    fn from(_: AllocError) -> Self {
        ReadError::OutOfMemory
    }
}

/// All the bytes that the source has left, of which there may be `limit`.
///
/// # Errors
///
/// `TooLong` exactly if one byte more than `limit` was taken, `Failed` only if the source's count of faults rose in
/// this call, and `OutOfMemory` if out of memory. What was taken until then is lost.
pub fn read_all<S: Source>(alloc: Global, src: &mut S, limit: usize) -> Result<Vec<u8>, ReadError>
    // The bytes that were taken, and what each answer says of them.
    ensures taken { (taken : List ℕ) × Consumes (S.left src.old) (S.left src.new) taken
        × MatchResult result (λ bytes. TookFor limit bytes.items taken) (λ e. Refuses limit e taken) }
    ensures end { OnOk result (IsAtEnd (S.left src.new)) }

    // The count of faults rose if it failed, and stayed if it did not.
    ensures failed { IsErrOf result ReadError.Failed → Rose (S.faults src.old) (S.faults src.new) }
    ensures kept { (IsErrOf result ReadError.Failed → ⊥) → S.faults src.new ≡ S.faults src.old }
{
    let mut bytes = Vec::new(alloc);
    let mut piece = [0u8; 4096];
    'reading: while bytes.len() <= limit {
        let room = (limit - bytes.len()).min(4095) + 1;
        let count = src.read(&mut piece[..room])?;
        if count == 0 {
            return Ok(bytes);
        }
        bytes.extend_from_slice(&piece[..count])?;
    }
    Err(ReadError::TooLong)
}

/// Writes the whole piece, and of an empty one nothing.
///
/// # Errors
///
/// `Failed`, exactly if the sink failed in this call, as its count of faults tells. A prefix of the piece was written
/// then, and not all of it.
pub fn write_all<K: Sink>(out: &mut K, piece: &[u8]) -> Result<(), Failed>
    ensures ok { OnOk result (Appends (K.written out.old) (K.written out.new) piece.now) }
    ensures err { OnErr result (AppendsPart (K.written out.old) (K.written out.new) piece.now) }
    ensures cause { HasCause (K.faults out.old) (K.faults out.new) result }
{
    let mut done = 0;
    'writing: while done < piece.len() {
        done += out.write(&piece[done..])?;
    }
    Ok(())
}
