ghost use Rattle.std.specs.Prelude.{◌≡◌, ◌++◌, min, length, take, drop, if◌then◌else◌, Ok, IfOk, IsTrue};

use crate::files::{MemFiles, copy_file, find_file};
use crate::moves::move_bytes;
use crate::outside::{Failed, Shelf, ShelfFault, Sink, Source};
use pa_num::Bytes;
use std::alloc::Global;

/// A shelf of files in memory that never fails: a name that isn't there is that of the empty file.
#[derive(Debug, Drop)]
pub struct SureShelf {
    /// The files that aren't empty, and maybe others.
    pub files: MemFiles,
}

impl SureShelf {
    /// A shelf of these files.
    pub fn new(files: MemFiles) -> SureShelf
        ensures { result ≡ record { files = files } }
    {
        SureShelf { files }
    }
}

impl Shelf for SureShelf {
    ghost use Rattle.std.proofs.Common.{lit<};
    ghost use Rattle.std.specs.Prelude.{[], None};
    ghost use Rattle.pa_io.specs.Files.{tells_all};

    ghost faults = { λ _. 0 };

    ghost failed = { λ _. None };

    ghost told = { λ s. tells_all s.files };

    ghost given = { λ _. [] };

    #[tactic(auto, unfolding(crate::specs::Files::tells_all))]
    fn read(&mut self, alloc: Global, name: &str, limit: u64) -> Result<Vec<u8>, ShelfFault> {
        let file = find_file(self.files.as_slice(), name.as_bytes());
        copy_file(alloc, Some(file.unwrap_or(&[])), limit)
    }

    ghost bounded = { λ _. lit< tt };
}

/// A source of bytes in memory that never fails.
#[derive(Debug, Drop)]
pub struct SureSource {
    /// The bytes that are left.
    pub left: Bytes,
}

impl SureSource {
    /// A source of these bytes.
    pub fn new(left: Bytes) -> SureSource
        ensures { result ≡ record { left = left } }
    {
        SureSource { left }
    }
}

impl Source for SureSource {
    ghost use Rattle.std.proofs.Common.{lit<};
    ghost use Rattle.std.specs.Prelude.{Some, None};

    ghost faults = { λ _. 0 };

    ghost left = { λ s. Some s.left };

    ghost given = { λ _. None };

    fn read(&mut self, buffer: &mut [u8]) -> Result<usize, Failed>
        ensures count { result ≡ Ok (min (length self.old.left) (length buffer.old)) }
        ensures moved { IfOk result (λ n. buffer.new ≡ take n self.old.left ++ drop n buffer.old) }
        ensures left { IfOk result (λ n. self.new.left ≡ drop n self.old.left) }
    {
        Ok(move_bytes(&mut self.left, buffer))
    }

    ghost bounded = { λ _. lit< tt };
}

/// A sink of bytes in memory that never fails. Where it has no memory to grow, the bytes of that call are lost, and from
/// then on it takes all bytes and tells nothing.
#[derive(Debug, Drop)]
pub struct SureSink {
    /// The bytes that were written, up to the first that were lost.
    pub written: Bytes,
    /// Whether bytes were lost.
    pub lost: bool,
}

impl SureSink {
    /// A sink after these bytes.
    pub fn new(written: Bytes, lost: bool) -> SureSink
        ensures { result ≡ record { written = written; lost = lost } }
    {
        SureSink { written, lost }
    }
}

impl Sink for SureSink {
    ghost use Rattle.std.proofs.Common.{lit<};
    ghost use Rattle.std.specs.Prelude.{Some, None};

    ghost faults = { λ _. 0 };

    ghost written = { λ s. if s.lost then None else Some s.written };

    fn write(&mut self, bytes: &[u8]) -> Result<usize, Failed>
        ensures all { result ≡ Ok (length bytes.now) }
        ensures lost { IsTrue self.old.lost → IsTrue self.new.lost }
        ensures written { self.new.written ≡ (if self.new.lost then self.old.written else self.old.written ++ bytes.now) }
    {
        if !self.lost && self.written.extend_from_slice(bytes).is_err() {
            self.lost = true;
        }
        Ok(bytes.len())
    }

    ghost bounded = { λ _. lit< tt };
}
