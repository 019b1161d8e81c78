ghost use Rattle.std.specs.Prelude.{◌≡◌, ◌<◌, ◌≤◌, ◌^◌, [], length, take, drop, IfOk, IfSome, vec_len};
ghost use Rattle.std.specs.Io.KnownBytes.{Consumes, IsAtEnd};
ghost use Rattle.pa_io.specs.Outside.{OnLong, Grew};

use crate::files::{MemFile, MemFiles};
use crate::outside::{Failed, PIECE, Shelf, ShelfFault, Sink, Source};
use pa_num::{Bytes, Name};
use std::alloc::Global;
use std::fs;
use std::io::{Read, Stdin, Stdout, Write};

/// The files of the disk. Nothing is told of their bytes.
#[derive(Debug, Drop)]
pub struct DiskShelf {
    rt: HostRuntime,
    /// The faults so far.
    pub faults: u64,
    /// The name of the last call that answered `Failed`.
    pub failed: Option<Name>,
    /// The files that it gave, in order.
    pub given: MemFiles,
    ghost counted: { faults < 2 ^ 64 },
}

impl DiskShelf {
    ghost use Rattle.std.specs.Prelude.{None, []};

    /// The disk, without a fault and a file given so far.
    pub fn new(rt: HostRuntime) -> DiskShelf
        ensures faults { (result.faults ≡ 0) × (result.failed ≡ None) }
        ensures given { result.given ≡ [] }
    {
        DiskShelf {
            rt,
            faults: 0,
            failed: None,
            given: MemFiles::new(rt.alloc()),
        }
    }
}

impl Shelf for DiskShelf {
    ghost use Rattle.pa_io.specs.Outside.{Untold};

    ghost faults = { λ s. s.faults };

    ghost failed = { λ s. s.failed };

    ghost told = { λ _ _. Untold };

    ghost given = { λ s. s.given };

    fn read(&mut self, alloc: Global, name: &str, limit: u64) -> Result<Vec<u8>, ShelfFault> {
        let asked = Name::from_slice(alloc, name.as_bytes())?;
        let answer = match fs::open(&self.rt, name) {
            Ok(mut file) => read_to_end(alloc, &mut file, limit),
            Err(_) => Err(ShelfFault::Failed),
        };
        match answer {
            Ok(bytes) => {
                let copy = Bytes::from_slice(alloc, &bytes)?;
                self.given.push(MemFile::new(asked, copy))?;
                Ok(bytes)
            }
            Err(ShelfFault::Failed) => {
                self.faults = self.faults.saturating_add(1);
                self.failed = Some(asked);
                Err(ShelfFault::Failed)
            }
            Err(fault) => Err(fault),
        }
    }

    ghost bounded = { λ s. s.counted };
}

/// All the bytes up to the end, where they are at most `limit`. Each turn but the last takes a byte at least, so there are
/// at most `limit` + 1 turns.
fn read_to_end<R: Read>(alloc: Global, file: &mut R, limit: u64) -> Result<Vec<u8>, ShelfFault>
    ensures whole { IfOk result (λ bytes. IfSome (R.remaining file.old) (λ all. bytes.items ≡ all)) }
    ensures within { IfOk result (λ bytes. vec_len bytes ≤ limit) }
    ensures longer { OnLong result (IfSome (R.remaining file.old) (λ all. limit < length all)) }
{
    let mut bytes = Vec::new(alloc);
    let mut piece = [0; PIECE];
    let mut budget = limit;
    loop {
        let count = file.read(&mut piece).map_err(|_| ShelfFault::Failed)?;
        if count == 0 {
            return Ok(bytes);
        }
        if count as u64 > budget {
            return Err(ShelfFault::Long);
        }
        budget -= count as u64;
        bytes.extend_from_slice(&piece[..count])?;
    }
}

/// Puts the reader's next bytes at the buffer's front, and answers how many.
fn read_piece<R: Read>(input: &mut R, buffer: &mut [u8]) -> Result<usize, Failed>
    ensures within { IfOk result (λ n. n ≤ length buffer.old) }
    ensures next { IfOk result (λ n. Consumes (R.remaining input.old) (R.remaining input.new) (take n buffer.new)) }
    ensures rest { IfOk result (λ n. drop n buffer.new ≡ drop n buffer.old) }
    ensures end { IfOk result (λ n. n ≡ 0 → 0 < length buffer.old → IsAtEnd (R.remaining input.new)) }
{
    let mut piece = [0; PIECE];
    let most = buffer.len().min(PIECE);
    let count = input.read(&mut piece[..most]).map_err(|_| Failed)?;
    buffer[..count].copy_from_slice(&piece[..count]);
    Ok(count)
}

/// Adds the piece to what is kept, or keeps nothing from then on where there is no memory for it.
fn keep(kept: &mut Option<Bytes>, piece: &[u8])
    ensures { Grew kept.old kept.new piece.now }
{
    if let Some(mut bytes) = kept.take() {
        if bytes.extend_from_slice(piece).is_ok() {
            *kept = Some(bytes);
        }
    }
}

/// Standard input. Nothing is told of its bytes; what it gave is kept, until there is no memory for it.
#[derive(Debug, Drop)]
pub struct StdinSource {
    input: Stdin,
    /// All the bytes that it gave, or none once there was no memory to keep them.
    pub given: Option<Bytes>,
    /// The faults so far.
    pub faults: u64,
    ghost counted: { faults < 2 ^ 64 },
}

impl StdinSource {
    ghost use Rattle.std.specs.Prelude.{Some};

    /// Standard input, without a fault and a byte given so far.
    pub fn new(rt: HostRuntime) -> StdinSource
        ensures faults { result.faults ≡ 0 }
        ensures given { result.given ≡ Some [] }
    {
        StdinSource {
            input: rt.stdin(),
            given: Some(Bytes::new(rt.alloc())),
            faults: 0,
        }
    }
}

impl Source for StdinSource {
    ghost use Rattle.std.specs.Prelude.{None};

    ghost faults = { λ s. s.faults };

    ghost left = { λ _. None };

    ghost given = { λ s. s.given };

    fn read(&mut self, buffer: &mut [u8]) -> Result<usize, Failed> {
        match read_piece(&mut self.input, buffer) {
            Ok(count) => {
                keep(&mut self.given, &buffer[..count]);
                Ok(count)
            }
            Err(fault) => {
                self.faults = self.faults.saturating_add(1);
                Err(fault)
            }
        }
    }

    ghost bounded = { λ s. s.counted };
}

/// Standard output. Nothing is told of its bytes.
#[derive(Debug, Drop)]
pub struct StdoutSink {
    output: Stdout,
    /// The faults so far.
    pub faults: u64,
    ghost counted: { faults < 2 ^ 64 },
}

impl StdoutSink {
    /// Standard output, without a fault so far.
    pub fn new(rt: HostRuntime) -> StdoutSink
        ensures { result.faults ≡ 0 }
    {
        StdoutSink {
            output: rt.stdout(),
            faults: 0,
        }
    }
}

impl Sink for StdoutSink {
    ghost use Rattle.std.specs.Prelude.{None};

    ghost faults = { λ s. s.faults };

    ghost written = { λ _. None };

    fn write(&mut self, bytes: &[u8]) -> Result<usize, Failed> {
        let answer = self.output.write(bytes).map_err(|_| Failed);
        if answer.is_err() || answer == Ok(0) && !bytes.is_empty() {
            self.faults = self.faults.saturating_add(1);
        }
        answer
    }

    ghost bounded = { λ s. s.counted };
}
