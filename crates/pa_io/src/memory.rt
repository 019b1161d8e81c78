ghost use Rattle.std.specs.Prelude.{◌≡◌, ◌++◌, ◌↔◌, ◌<◌, ◌≤◌, ◌||◌, min, length, take, drop, if◌then◌else◌, is_some, IsTrue, IsErr, IfOk, OnOk, OnErr};

use crate::calls::{Calls, count_call};
use crate::files::{MemFiles, copy_file, find_file};
use crate::moves::move_bytes;
use crate::outside::{Failed, Shelf, ShelfFault, Sink, Source};
use pa_num::{Bytes, Name};
use std::alloc::Global;

/// A shelf of files in memory, whose listed calls fail. A call that answers `Memory` isn't counted.
#[derive(Debug, Drop)]
pub struct MemShelf {
    /// All the files that it has. Another name is missing.
    pub files: MemFiles,
    /// The calls so far.
    pub calls: u64,
    /// The calls that fail, from 1, ascending.
    pub fails: Calls,
    /// The calls so far that asked for a name without a file.
    pub missing: u64,
    /// The name of the last call that answered `Failed`.
    pub failed: Option<Name>,
}

impl MemShelf {
    /// A shelf of these files, with its counts and its failed name as they stand.
    pub fn new(
        files: MemFiles,
        calls: u64,
        fails: Calls,
        missing: u64,
        failed: Option<Name>,
    ) -> MemShelf
        ensures { result ≡ record { files = files; calls = calls; fails = fails; missing = missing; failed = failed } }
    {
        MemShelf {
            files,
            calls,
            fails,
            missing,
            failed,
        }
    }
}

impl Shelf for MemShelf {
    ghost use Rattle.std.specs.Prelude.{Some, []};
    ghost use Rattle.pa_io.specs.Answer.{call_answer, Gives, OnMemory, UnlessMemory};
    ghost use Rattle.pa_io.specs.Calls.{next_count, is_to_fail};
    ghost use Rattle.pa_io.specs.Files.{file_of, tells};
    ghost use Rattle.pa_io.specs.Memory.{shelf_faults, shelf_faults-lt};
    ghost use Rattle.pa_io.specs.Outside.{IsFile, with_given, IsLonger, OnFailed, OnLong, UnlessFailed, Rose};

    ghost faults = { shelf_faults };

    ghost failed = { λ s. s.failed };

    ghost told = { λ s. tells s.files };

    ghost given = { λ _. [] };

    #[tactic(auto, unfolding(crate::specs::Memory::shelf_faults, crate::specs::Files::tells))]
    fn read(&mut self, alloc: Global, name: &str, limit: u64) -> Result<Vec<u8>, ShelfFault>
        ensures answer { Gives result (call_answer (is_to_fail self.old.fails self.old.calls)
            (file_of self.old.files name.now) limit) }
        ensures counted { UnlessMemory result (self.new.calls ≡ next_count self.old.calls) }
        ensures missing { UnlessMemory result (self.new.missing ≡
            (if is_to_fail self.old.fails self.old.calls || is_some (file_of self.old.files name.now)
            then self.old.missing else next_count self.old.missing)) }
        ensures memory { OnMemory result (self.new ≡ self.old) }
        ensures same { (self.new.files ≡ self.old.files) × (self.new.fails ≡ self.old.fails) }

        // What every shelf says.
        ensures whole { IfOk result (λ bytes. IsFile (tells self.old.files name.now) bytes.items) }
        ensures given { IfOk result (λ bytes. [] ≡ with_given (tells self.old.files name.now) [] name.now bytes.items) }
        ensures longer { OnLong result (IsLonger (tells self.old.files name.now) limit) }
        ensures fault { OnFailed result (Rose (shelf_faults self.old) (shelf_faults self.new)
            × (self.new.failed ≡ Some name.now)) }
        ensures others { UnlessFailed result ((shelf_faults self.new ≡ shelf_faults self.old)
            × (self.new.failed ≡ self.old.failed)) }
    {
        let asked = Name::from_slice(alloc, name.as_bytes())?;
        let file = find_file(self.files.as_slice(), name.as_bytes());
        let answer = copy_file(alloc, file, limit);
        if matches!(answer, Err(ShelfFault::Memory)) {
            return answer;
        }
        if count_call(&mut self.calls, self.fails.as_slice()) {
            self.failed = Some(asked);
            return Err(ShelfFault::Failed);
        }
        if matches!(answer, Err(ShelfFault::Failed)) {
            self.missing = self.missing.saturating_add(1);
            self.failed = Some(asked);
        }
        answer
    }

    ghost bounded = { shelf_faults-lt };
}

/// A source of bytes in memory, whose listed calls fail.
#[derive(Debug, Drop)]
pub struct MemSource {
    /// The bytes that are left.
    pub left: Bytes,
    /// The calls so far.
    pub calls: u64,
    /// The calls that fail, from 1, ascending.
    pub fails: Calls,
}

impl MemSource {
    /// A source of these bytes, with its count of calls as it stands.
    pub fn new(left: Bytes, calls: u64, fails: Calls) -> MemSource
        ensures { result ≡ record { left = left; calls = calls; fails = fails } }
    {
        MemSource { left, calls, fails }
    }
}

impl Source for MemSource {
    ghost use Rattle.std.specs.Prelude.{Some, None};
    ghost use Rattle.pa_io.specs.Calls.{next_count, is_to_fail};
    ghost use Rattle.pa_io.specs.Memory.{source_faults, source_faults-lt};
    ghost use Rattle.pa_io.specs.Outside.{Rose};

    ghost faults = { source_faults };

    ghost left = { λ s. Some s.left };

    ghost given = { λ _. None };

    #[tactic(auto, unfolding(crate::specs::Memory::source_faults))]
    fn read(&mut self, buffer: &mut [u8]) -> Result<usize, Failed>
        ensures fails { IsErr result ↔ IsTrue (is_to_fail self.old.fails self.old.calls) }
        ensures counted { (self.new.calls ≡ next_count self.old.calls) × (self.new.fails ≡ self.old.fails) }
        ensures kept { OnErr result ((self.new.left ≡ self.old.left) × (buffer.new ≡ buffer.old)) }
        ensures count { IfOk result (λ n. n ≡ min (length self.old.left) (length buffer.old)) }
        ensures moved { IfOk result (λ n. buffer.new ≡ take n self.old.left ++ drop n buffer.old) }
        ensures left { IfOk result (λ n. self.new.left ≡ drop n self.old.left) }

        // What every source says.
        ensures fault { OnErr result (Rose (source_faults self.old) (source_faults self.new)) }
        ensures others { OnOk result (source_faults self.new ≡ source_faults self.old) }
    {
        if count_call(&mut self.calls, self.fails.as_slice()) {
            return Err(Failed);
        }
        Ok(move_bytes(&mut self.left, buffer))
    }

    ghost bounded = { source_faults-lt };
}

/// A sink of bytes in memory, whose listed calls fail.
#[derive(Debug, Drop)]
pub struct MemSink {
    /// The bytes that were written.
    pub written: Bytes,
    /// The greatest number of bytes that one call takes, at least 1.
    pub most: u64,
    /// The calls so far.
    pub calls: u64,
    /// The calls that fail, from 1, ascending.
    pub fails: Calls,
    /// The calls so far that failed because there was no memory to grow.
    pub refused: u64,
    ghost takes_some: { 0 < most },
}

impl MemSink {
    /// A sink after these bytes, with its counts as they stand.
    pub fn new(written: Bytes, most: u64, calls: u64, fails: Calls, refused: u64) -> MemSink
        requires { 0 < most }
        ensures written { result.written ≡ written }
        ensures most { result.most ≡ most }
        ensures calls { result.calls ≡ calls }
        ensures fails { result.fails ≡ fails }
        ensures refused { result.refused ≡ refused }
    {
        MemSink {
            written,
            most,
            calls,
            fails,
            refused,
        }
    }
}

impl Sink for MemSink {
    ghost use Rattle.std.specs.Prelude.{Some, is_err, not, ◌&&◌};
    ghost use Rattle.pa_io.specs.Calls.{next_count, is_to_fail};
    ghost use Rattle.pa_io.specs.Memory.{sink_faults, sink_faults-lt};
    ghost use Rattle.pa_io.specs.Outside.{Rose};

    ghost faults = { sink_faults };

    ghost written = { λ s. Some s.written };

    #[tactic(auto, unfolding(crate::specs::Memory::sink_faults))]
    fn write(&mut self, bytes: &[u8]) -> Result<usize, Failed>
        ensures fails { IsTrue (is_to_fail self.old.fails self.old.calls) → IsErr result }
        ensures counted { self.new.calls ≡ next_count self.old.calls }
        ensures count { IfOk result (λ n. n ≡ min (length bytes.now) self.old.most) }
        ensures appended { IfOk result (λ n. self.new.written ≡ self.old.written ++ take n bytes.now) }
        ensures stayed { OnErr result (self.new.written ≡ self.old.written) }
        ensures refused { self.new.refused ≡ (if is_err result && not (is_to_fail self.old.fails self.old.calls)
            then next_count self.old.refused else self.old.refused) }
        ensures same { (self.new.most ≡ self.old.most) × (self.new.fails ≡ self.old.fails) }

        // What every sink says.
        ensures fault { OnErr result (Rose (sink_faults self.old) (sink_faults self.new)) }
        ensures others { OnOk result (sink_faults self.new ≡ sink_faults self.old) }
    {
        if count_call(&mut self.calls, self.fails.as_slice()) {
            return Err(Failed);
        }
        let count = bytes.len().min(self.most as usize);
        if self.written.extend_from_slice(&bytes[..count]).is_err() {
            self.refused = self.refused.saturating_add(1);
            return Err(Failed);
        }
        Ok(count)
    }

    ghost bounded = { sink_faults-lt };
}
