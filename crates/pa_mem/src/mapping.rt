ghost use Rattle.std.specs.Prelude.{◌≡◌, ◌≤◌, ◌+◌, length};
ghost use Rattle.pa_mem.specs.Memory.{offers, region_of};
ghost use Rattle.pa_mem.specs.Place.{patched};
ghost use Rattle.pa_mem.specs.Extents.{extent_of};

use crate::access::Rights;
use pa_num::Bytes;
use std::marker::Model;

/// Where a region begins, how many bytes it has, and what may be done with them.
#[derive(Clone, Copy, Debug, PartialEq, Eq)]
pub struct Extent {
    pub base: u64,
    pub len: u64,
    pub rights: Rights,
}

/// A region: bytes from an address on, and what may be done with them.
#[derive(Debug, Drop)]
pub struct Mapping {
    pub base: u64,
    pub bytes: Vec<u8>,
    pub rights: Rights,
}

impl Model for Mapping {
    ghost use Rattle.pa_mem.specs.Memory.{Region, region_of};

    ghost Value = { Region };

    ghost view = { λ m. region_of m.base m.bytes.items m.rights };
}

impl Mapping {
    pub fn new(base: u64, bytes: Bytes, rights: Rights) -> Mapping
        ensures { result ≡ region_of base bytes rights }
    {
        Mapping {
            base,
            bytes: bytes.into_vec(),
            rights,
        }
    }

    /// Whether the `count` bytes from `at` on lie inside, and may be used under these rights.
    pub fn offers(&self, at: u64, count: u64, rights: Rights) -> bool
        ensures { result ≡ offers rights at count self.now }
    {
        let length = self.bytes.len() as u64;
        match at.checked_sub(self.base) {
            Some(start) => {
                start <= length && count <= length - start && self.rights.include(rights)
            }
            None => false,
        }
    }

    pub fn extent(&self) -> Extent
        ensures { result ≡ extent_of self.now }
    {
        Extent {
            base: self.base,
            len: self.bytes.len() as u64,
            rights: self.rights,
        }
    }

    /// Puts these bytes in the place of those from `start` on.
    pub fn patch(&mut self, start: usize, bytes: &[u8])
        requires { start + length bytes.now ≤ length self.old.bytes }
        ensures { self.new ≡ patched self.old start bytes.now }
    {
        self.bytes[start..start + bytes.len()].copy_from_slice(bytes);
    }
}
