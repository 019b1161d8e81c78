ghost use Rattle.std.specs.Prelude.{◌≡◌, ◌<◌, ◌≤◌, ◌^◌, ℕ, List, [], length, take, drop, Option, Some, IfOk, OnOk, OnErr, vec_len, IfErr};
ghost use Rattle.std.specs.Io.KnownBytes.{Consumes, IsAtEnd};
ghost use Rattle.pa_io.specs.Outside.{Told, IsFile, with_given, IsLonger, Rose, OnFailed, OnLong, UnlessFailed, Grew, Stayed, GrewByProperPrefix, CameWhole, CamePartly, source_seen};

use std::alloc::{AllocError, Global};
use thiserror::Error;

/// Why a shelf gives no file, or a source not all that it has left.
#[derive(Clone, Copy, Debug, PartialEq, Eq, Error)]
pub enum ShelfFault {
    /// The reading failed, or there is no file of that name.
    #[error("the bytes could not be read")]
    Failed,
    /// There are more bytes than were allowed.
    #[error("there are more bytes than allowed")]
    Long,
    /// Out of memory, and nothing else.
    #[error("out of memory")]
    Memory,
}

impl From<Failed> for ShelfFault {
    ghost use Rattle.std.specs.Prelude.{◌≡◌};
    ghost use Rattle.pa_io.specs.declared.outside.ShelfFault.TheVariants as fault;

    ghost from_gives = { λ _ f. f ≡ fault.Failed };

    fn from(_: Failed) -> ShelfFault {
        ShelfFault::Failed
    }
}

impl From<AllocError> for ShelfFault {
    ghost use Rattle.std.specs.Prelude.{◌≡◌};
    ghost use Rattle.pa_io.specs.declared.outside.ShelfFault.TheVariants as fault;

    ghost from_gives = { λ _ f. f ≡ fault.Memory };

    fn from(_: AllocError) -> ShelfFault {
        ShelfFault::Memory
    }
}

/// A source gave no bytes, or a sink took none, because of a fault.
#[derive(Clone, Copy, Debug, PartialEq, Eq, Error)]
#[error("the reading or writing failed")]
pub struct Failed;

/// Files by name. The shelf counts its faults, and keeps the name of the last one; the count never falls.
pub trait Shelf {
    ghost use Rattle.pa_io.specs.declared.files.MemFile.{MemFile};

    // The count of faults so far.
    ghost faults: { Self → ℕ };

    // The name of the last call that answered `Failed`.
    ghost failed: { Self → Option (List ℕ) };

    // What the shelf tells of each name.
    ghost told: { Self → List ℕ → Told };

    // The files that it gave, in order, but for those whose bytes it tells.
    ghost given: { Self → List MemFile };

    /// All the bytes of the file of that name, at most `limit` of them. It is `Long` where the file has more, `Failed` where
    /// there is none or it can't be read, and `Memory` where it is out of memory.
    fn read(&mut self, alloc: Global, name: &str, limit: u64) -> Result<Vec<u8>, ShelfFault>
        ensures whole { IfOk result (λ bytes. IsFile (told self.old name.now) bytes.items) }
        ensures within { IfOk result (λ bytes. vec_len bytes ≤ limit) }
        ensures longer { OnLong result (IsLonger (told self.old name.now) limit) }
        ensures tells { told self.new ≡ told self.old }

        // A shelf that doesn't tell the name keeps the file that it gave; any other answer leaves what it keeps.
        ensures given { IfOk result (λ bytes. given self.new ≡ with_given (told self.old name.now) (given self.old) name.now bytes.items) }
        ensures kept { OnErr result (given self.new ≡ given self.old) }

        // A fault is counted, and its name kept; any other answer leaves both.
        ensures fault { OnFailed result (Rose (faults self.old) (faults self.new) × (failed self.new ≡ Some name.now)) }
        ensures others { UnlessFailed result ((faults self.new ≡ faults self.old) × (failed self.new ≡ failed self.old)) };

    ghost bounded: { (s : Self) → faults s < 2 ^ 64 };
}

/// Bytes that come one piece after another. The source counts its faults; the count never falls.
pub trait Source {
    // The count of faults so far.
    ghost faults: { Self → ℕ };

    // The bytes that are left, where they are told.
    ghost left: { Self → Option (List ℕ) };

    // The bytes that it gave so far, where it keeps them.
    ghost given: { Self → Option (List ℕ) };

    /// Puts the next bytes at the buffer's front, and answers how many. Zero for a buffer that isn't empty means the end.
    fn read(&mut self, buffer: &mut [u8]) -> Result<usize, Failed>
        ensures within { IfOk result (λ n. n ≤ length buffer.old) }
        ensures next { IfOk result (λ n. Consumes (left self.old) (left self.new) (take n buffer.new)) }
        ensures rest { IfOk result (λ n. drop n buffer.new ≡ drop n buffer.old) }
        ensures end { IfOk result (λ n. n ≡ 0 → 0 < length buffer.old → IsAtEnd (left self.old)) }
        ensures given { IfOk result (λ n. Grew (given self.old) (given self.new) (take n buffer.new)) }
        ensures kept { OnErr result (Stayed (given self.old) (given self.new)) }

        // A fault is counted; any other answer leaves the count.
        ensures fault { OnErr result (Rose (faults self.old) (faults self.new)) }
        ensures others { OnOk result (faults self.new ≡ faults self.old) };

    ghost bounded: { (s : Self) → faults s < 2 ^ 64 };
}

/// Takes bytes one piece after another. The sink counts its faults; the count never falls.
pub trait Sink {
    // The count of faults so far.
    ghost faults: { Self → ℕ };

    // The bytes that were written, where they are told.
    ghost written: { Self → Option (List ℕ) };

    /// Takes the first bytes of the piece, and answers how many. Zero for a piece that isn't empty is a fault.
    fn write(&mut self, bytes: &[u8]) -> Result<usize, Failed>
        ensures within { IfOk result (λ n. n ≤ length bytes.now) }
        ensures appended { IfOk result (λ n. Grew (written self.old) (written self.new) (take n bytes.now)) }
        ensures stayed { OnErr result (Stayed (written self.old) (written self.new)) }

        // A fault is counted; any other answer leaves the count.
        ensures fault { OnErr result (Rose (faults self.old) (faults self.new)) }
        ensures nothing { IfOk result (λ n. n ≡ 0 → 0 < length bytes.now → Rose (faults self.old) (faults self.new)) }
        ensures others { IfOk result (λ n. (n ≡ 0 → bytes.now ≡ []) → faults self.new ≡ faults self.old) };

    ghost bounded: { (s : Self) → faults s < 2 ^ 64 };
}

/// Writes all the bytes, in as many pieces as the sink takes them. It gives up where the sink fails or takes nothing.
pub fn write_all<K: Sink>(out: &mut K, bytes: &[u8]) -> Result<(), Failed>
    ensures all { OnOk result (Grew (K.written out.old) (K.written out.new) bytes.now) }
    ensures prefix { OnErr result (GrewByProperPrefix (K.written out.old) (K.written out.new) bytes.now) }
    ensures fault { OnErr result (Rose (K.faults out.old) (K.faults out.new)) }
    ensures others { OnOk result (K.faults out.new ≡ K.faults out.old) }
{
    let mut rest = bytes;
    while !rest.is_empty() {
        let taken = out.write(rest)?;
        if taken == 0 {
            return Err(Failed);
        }
        rest = &rest[taken..];
    }
    Ok(())
}

/// How many bytes are read at a time.
pub(crate) const PIECE: usize = 65_536;

/// All the bytes that the source has left, at most `limit` of them. It is `Long` where there are more, and then `limit` + 1 bytes
/// were taken, `Failed` where the source fails, and `Memory` where it is out of memory.
pub fn read_all<S: Source>(alloc: Global, input: &mut S, limit: u64) -> Result<Vec<u8>, ShelfFault>
    ensures ok { IfOk result (λ bytes. CameWhole limit (source_seen S.left S.given S.faults input.old)
        (source_seen S.left S.given S.faults input.new) bytes.items) }
    ensures err { IfErr result (CamePartly limit (source_seen S.left S.given S.faults input.old)
        (source_seen S.left S.given S.faults input.new)) }
{
    let mut bytes = Vec::new(alloc);
    let mut piece = [0; PIECE];
    let mut budget = limit;
    loop {
        let room = budget.min(PIECE as u64 - 1) as usize + 1;
        let count = input.read(&mut piece[..room])?;
        if count == 0 {
            return Ok(bytes);
        }
        if count as u64 > budget {
            return Err(ShelfFault::Long);
        }
        budget -= count as u64;
        bytes.extend_from_slice(&piece[..count])?;
    }
}
