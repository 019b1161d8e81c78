ghost use Rattle.std.specs.Prelude.{◌≡◌, ◌≤◌, ◌<◌, HoldsAt, [], ◌∷◌, ◌++◌, ◌&&◌, length, drop, map, slice_get, true, is_ok, position, IfOk, OnOk, OnErr, MatchResult, IfSome, IfNone, Some, None, false};
ghost use Rattle.byteorder.specs.Endian.{little_number};
ghost use Rattle.pa_mem.specs.Access.{byte_count};
ghost use Rattle.pa_mem.specs.Memory.{Read, Write, allowed, offers, inside, bytes_at, with_bytes, load, store, fetch, apart_from_all, all_apart, region_of};
ghost use Rattle.pa_mem.specs.Extents.{extent_of};
ghost use Rattle.pa_mem.specs.Place.{IsPlace, IsOffered};

use crate::access::{Abort, Rights, Size};
use crate::mapping::{Extent, Mapping};
use byteorder::{ByteOrder, LittleEndian};
use pa_num::{Bytes, Memory};
use std::alloc::Global;
use std::marker::Model;

/// The memory of the guest: regions of bytes with rights, no address in two of them.
#[derive(Debug, Drop)]
pub struct Space {
    regions: Vec<Mapping>,
    // The index of the region that is tried before the others: the longest that may be written, which is the stack's.
    likely: usize,
}

impl Model for Space {
    ghost use Rattle.std.specs.Prelude.{◌≡◌, true, List};
    ghost use Rattle.pa_mem.specs.Memory.{Region, all_apart};

    ghost Value = { List Region };

    ghost view = { λ s. s.regions.items };

    ghost invariant = { λ s. all_apart s.regions.items ≡ true };
}

/// The most bytes that one `copy` moves.
pub const COPY_LIMIT: usize = 4096;

// A region by its index, and where in its bytes an access begins.
#[derive(Clone, Copy, Debug, PartialEq, Eq)]
struct Place {
    region: usize,
    start: usize,
}

#[tactic(auto, using(crate::proofs::Found::allowing, crate::proofs::Numbers::reading))]
impl Space {
    /// Memory without a region. It takes no memory.
    pub fn new(alloc: Global) -> Space
        ensures { result ≡ [] }
    {
        Space {
            regions: Vec::new(alloc),
            likely: 0,
        }
    }

    /// Adds a region of these bytes from `base` on. After want of memory the regions are as before.
    pub fn add(&mut self, base: u64, bytes: Bytes, rights: Rights) -> Result<(), Memory>
        requires apart { apart_from_all (region_of base bytes rights) self.old ≡ true }
        ensures ok { OnOk result (self.new ≡ self.old ++ region_of base bytes rights ∷ []) }
        ensures err { OnErr result (self.new ≡ self.old) }
    {
        let likely = self.likely_with(bytes.len(), rights);
        match self.regions.push(Mapping::new(base, bytes, rights)) {
            Ok(()) => {
                self.likely = likely;
                Ok(())
            }
            Err(_) => Err(Memory),
        }
    }

    // The likely region once one of so many bytes with these rights stands behind the others.
    fn likely_with(&self, length: usize, rights: Rights) -> usize {
        let is_longest = self.regions.iter().all(|region| !region.rights.write
            || region.bytes.len() < length);
        if rights.write && is_longest {
            self.regions.len()
        } else {
            self.likely
        }
    }

    /// How many regions there are.
    pub fn count(&self) -> usize
        ensures count { result ≡ length self.now }

        // No address is in two of them.
        ensures apart { all_apart self.now ≡ true }
    {
        self.regions.len()
    }

    /// The region of this number, from 0, in the order in which they were added.
    pub fn extent(&self, number: usize) -> Extent
        requires { number < length self.now }
        ensures { slice_get (map extent_of self.now) number ≡ Some result }
    {
        self.regions[number].extent()
    }

    /// Whether the `count` bytes from `at` on lie inside one region that has at least these rights. No byte at all lies
    /// inside a region at each of its addresses and at its end.
    pub fn inside(&self, at: u64, count: u64, rights: Rights) -> bool
        ensures { result ≡ inside rights self.now at count }
    {
        self.find(at, count, rights).is_ok()
    }

    /// The number that the bytes from `at` on stand for, the lowest first. They have to lie in one region that may be
    /// read.
    pub fn read(&self, at: u64, size: Size) -> Result<u64, Abort>
        ensures allowed { allowed Read self.now at (byte_count size) ≡ is_ok result }
        ensures value { IfOk result (λ value. value ≡ load (byte_count size) self.now at) }
    {
        let bytes = self.read_bytes(at, size.count())?;
        Ok(read_number(bytes, size))
    }

    /// Writes the lowest bytes of `value` from `at` on, the lowest first, into one region that may be written.
    pub fn write(&mut self, at: u64, size: Size, value: u64) -> Result<(), Abort>
        ensures allowed { allowed Write self.old at (byte_count size) ≡ is_ok result }
        ensures ok { OnOk result (self.new ≡ store (byte_count size) self.old at value) }
        ensures err { OnErr result (self.new ≡ self.old) }
    {
        let bytes = value.to_le_bytes();
        self.write_bytes(at, &bytes[..size.count() as usize])
    }

    /// The instruction word at `at`, a multiple of 4. Its bytes have to lie in one region that may be run.
    #[tactic(auto, using(crate::proofs::Fetches::fetching, crate::proofs::Numbers::reading))]
    pub fn fetch(&self, at: u64) -> Result<u32, Abort>
        ensures { MatchResult result (λ word. fetch self.now at ≡ Some word)
            (λ _. fetch self.now at ≡ None) }
    {
        if at % 4 != 0 {
            return Err(Abort);
        }
        let bytes = self.slice(at, 4, Rights::RUN)?;
        Ok(LittleEndian::read_u32(bytes))
    }

    /// The `count` bytes from `at` on, which have to lie in one region that may be read.
    pub fn read_bytes(&self, at: u64, count: u64) -> Result<&[u8], Abort>
        ensures allowed { allowed Read self.now at count ≡ is_ok result }
        ensures value { IfOk result (λ bytes. bytes.now ≡ bytes_at count self.now at) }
    {
        self.slice(at, count, Rights::READ)
    }

    /// Writes these bytes from `at` on, into one region that may be written.
    pub fn write_bytes(&mut self, at: u64, bytes: &[u8]) -> Result<(), Abort>
        ensures allowed { allowed Write self.old at (length bytes.now) ≡ is_ok result }
        ensures ok { OnOk result (self.new ≡ with_bytes self.old at bytes.now) }
        ensures err { OnErr result (self.new ≡ self.old) }
    {
        let place = self.find(at, bytes.len() as u64, Rights::WRITE)?;
        self.regions[place.region].patch(place.start, bytes);
        Ok(())
    }

    /// Writes the `count` bytes from `from` on to `to`, all of them read before the first is written.
    pub fn copy(&mut self, to: u64, from: u64, count: u64) -> Result<(), Abort>
        requires { count ≤ COPY_LIMIT }
        ensures allowed { (allowed Read self.old from count && allowed Write self.old to count) ≡ is_ok result }
        ensures ok { OnOk result (self.new ≡ with_bytes self.old to (bytes_at count self.old from)) }
        ensures err { OnErr result (self.new ≡ self.old) }
    {
        let mut buffer = [0; COPY_LIMIT];
        fill(&mut buffer, self.read_bytes(from, count)?);
        self.write_bytes(to, &buffer[..count as usize])
    }

    fn slice(&self, at: u64, count: u64, rights: Rights) -> Result<&[u8], Abort>
        ensures inside { inside rights self.now at count ≡ is_ok result }
        ensures value { IfOk result (λ bytes. bytes.now ≡ bytes_at count self.now at) }
    {
        let place = self.find(at, count, rights)?;
        let region = &self.regions[place.region];
        Ok(&region.bytes[place.start..place.start + count as usize])
    }

    #[inline(always)]
    fn find(&self, at: u64, count: u64, rights: Rights) -> Result<Place, Abort>
        ensures inside { inside rights self.now at count ≡ is_ok result }
        ensures region { IfOk result (λ place. place.region < length self.now) }
        ensures place { IfOk result (λ place. HoldsAt (IsPlace at count place.start) self.now place.region) }
    {
        let Some(region) = self.index(at, count, rights) else {
            return Err(Abort);
        };
        let found = &self.regions[region];
        let start = (at - found.base) as usize;
        Ok(Place { region, start })
    }

    // The likely region, or else the first that offers these bytes.
    #[inline(always)]
    fn index(&self, at: u64, count: u64, rights: Rights) -> Option<usize>
        ensures none { IfNone result (inside rights self.now at count ≡ false) }
        ensures some { IfSome result (λ index. IsOffered rights at count self.now index) }
    {
        match self.regions.get(self.likely) {
            Some(region) if region.offers(at, count, rights) => Some(self.likely),
            _ => self.first(at, count, rights),
        }
    }

    // It stays a function of its own, so that what most accesses need is small where it is inlined.
    #[inline(never)]
    fn first(&self, at: u64, count: u64, rights: Rights) -> Option<usize>
        ensures { result ≡ position (offers rights at count) self.now }
    {
        self.regions
            .iter()
            .position(|region| region.offers(at, count, rights))
    }
}

// Puts these bytes at the front of the buffer.
fn fill(buffer: &mut [u8], bytes: &[u8])
    requires { length bytes.now ≤ length buffer.old }
    ensures { buffer.new ≡ bytes.now ++ drop (length bytes.now) buffer.old }
{
    buffer[..bytes.len()].copy_from_slice(bytes);
}

fn read_number(bytes: &[u8], size: Size) -> u64
    requires { byte_count size ≤ length bytes.now }
    ensures { result ≡ little_number (byte_count size) bytes.now }
{
    match size {
        Size::B1 => u64::from(bytes[0]),
        Size::B2 => u64::from(LittleEndian::read_u16(bytes)),
        Size::B4 => u64::from(LittleEndian::read_u32(bytes)),
        Size::B8 => LittleEndian::read_u64(bytes),
    }
}
