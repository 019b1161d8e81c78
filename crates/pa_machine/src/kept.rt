//! Instructions that are decoded once.

ghost use Rattle.std.specs.Prelude.{◌≡◌, ◌<◌, ◌≤◌, ◌+◌, ◌*◌, List, IfOk, OnOk, IfSome, Some, true, length, HoldsAt};
ghost use Rattle.pa_mem.specs.Memory.{Region, all_apart};
ghost use Rattle.pa_processor.specs.Processor.{instruction_at};
ghost use Rattle.pa_machine.specs.Kept.{IsRight, IsOf, AreRight, AreOf, IsEntry};

use pa_a64::Instr;
use pa_mem::{Extent, Space};
use pa_num::Memory;
use std::alloc::Global;

/// How many bytes an instruction has.
const WORD: u64 = 4;

/// The instructions of a region that were met: entry k is the one at `base + 4 * k`.
#[derive(Drop)]
pub struct Table {
    base: u64,
    entries: Vec<Option<Instr>>,
}

/// An entry of a table, both by their numbers.
#[derive(Clone, Copy)]
struct Place {
    table: usize,
    entry: usize,
}

impl Table {
    fn new(alloc: Global, extent: Extent) -> Result<Table, Memory>
        ensures right { IfOk result (λ table. (memory : List Region) → IsRight memory table) }
        ensures base { IfOk result (λ table. table.base ≡ extent.base) }
        ensures room { IfOk result (λ table. 4 * length table.entries.items ≤ extent.len) }
    {
        let entries = vec![in alloc; None; (extent.len / WORD) as usize]?;
        Ok(Table {
            base: extent.base,
            entries,
        })
    }

    // The number of the entry for an address.
    fn index(&self, at: u64) -> Option<usize>
        ensures within { IfSome result (λ k. k < length self.now.entries.items) }
        ensures place { IfSome result (λ k. self.now.base + 4 * k ≡ at) }
    {
        let offset = at.checked_sub(self.base)?;
        let index = (offset / WORD) as usize;
        if offset % WORD == 0 && index < self.entries.len() {
            Some(index)
        } else {
            None
        }
    }

    fn keep(&mut self, entry: usize, instr: Instr)
        requires { entry < length self.old.entries.items }
        ensures right { (memory : List Region) → IsRight memory self.old → instruction_at memory (self.old.base + 4 * entry) ≡ Some instr → IsRight memory self.new }
        ensures own { (memory : List Region) → IsOf memory self.old → IsOf memory self.new }
    {
        self.entries[entry] = Some(instr);
    }
}

/// The instructions that were met in regions that may be run and may not be written. What is fetched there never changes,
/// whatever is written elsewhere.
#[derive(Drop)]
pub struct Kept {
    tables: Vec<Table>,
}

impl Kept {
    /// Room for the instructions of the regions that may be run and may not be written.
    pub fn new(alloc: Global, space: &Space) -> Result<Kept, Memory>
        ensures right { IfOk result (λ kept. (memory : List Region) → AreRight memory kept) }
        ensures own { IfOk result (λ kept. AreOf space.now kept) }
        ensures apart { IfOk result (λ kept. all_apart space.now ≡ true) }
    {
        let mut kept = Kept {
            tables: Vec::new(alloc),
        };
        for number in 0..space.count() {
            let extent = space.extent(number);
            if extent.rights.run && !extent.rights.write {
                kept.add(Table::new(alloc, extent)?)?;
            }
        }
        Ok(kept)
    }

    fn add(&mut self, table: Table) -> Result<(), Memory>
        ensures right { OnOk result ((memory : List Region) → AreRight memory self.old → IsRight memory table → AreRight memory self.new) }
        ensures own { OnOk result ((memory : List Region) → AreOf memory self.old → IsOf memory table → AreOf memory self.new) }
    {
        match self.tables.push(table) {
            Ok(()) => Ok(()),
            Err(_) => Err(Memory),
        }
    }

    fn place(&self, at: u64) -> Option<Place>
        ensures table { IfSome result (λ place. place.table < length self.now.tables.items) }
        ensures entry { IfSome result (λ place. HoldsAt (IsEntry at place.entry) self.now.tables.items place.table) }
    {
        for (number, table) in self.tables.iter().enumerate() {
            if let Some(entry) = table.index(at) {
                return Some(Place {
                    table: number,
                    entry,
                });
            }
        }
        None
    }

    /// The instruction that was met at an address, if it is kept.
    pub fn get(&self, at: u64) -> Option<Instr>
        ensures { (memory : List Region) → AreRight memory self.now → IfSome result (λ instr. instruction_at memory at ≡ Some instr) }
    {
        let place = self.place(at)?;
        self.tables[place.table].entries[place.entry]
    }

    /// Keeps the instruction at an address, where there is room for it.
    pub fn keep(&mut self, at: u64, instr: Instr)
        ensures right { (memory : List Region) → AreRight memory self.old → instruction_at memory at ≡ Some instr → AreRight memory self.new }
        ensures own { (memory : List Region) → AreOf memory self.old → AreOf memory self.new }
    {
        if let Some(place) = self.place(at) {
            self.tables[place.table].keep(place.entry, instr);
        }
    }
}
