use pa_fixups::{Bounds, Fixes};
use pa_num::Bytes;

/// The bytes of a page.
pub const PAGE: usize = 0x4000;

/// What the slots of `__DATA` are checked against, and where flaws are told: where `__DATA` and the starts of its pages stand
/// in the file, the sizes of `__auth_got` and `__data`, the count of imports, and the image's base and its size.
#[derive(Clone, Copy, Debug, PartialEq, Eq)]
pub struct SlotsAt {
    pub place: u64,
    pub starts: u64,
    pub got: u32,
    pub cells: u32,
    pub imports: u32,
    pub base: u64,
    pub size: u64,
}

/// What `__DATA` holds: the bytes of `__data`, with zeros where a slot stands, and the slots by their offsets in `__DATA`.
#[derive(Debug, Drop)]
pub struct Slots {
    pub cells: Bytes,
    pub fixes: Fixes,
}

impl SlotsAt {
    ghost use Rattle.std.specs.Prelude.{◌≡◌, ◌<◌, ◌*◌, ◌^◌};
    ghost use Rattle.pa_slots.specs.Pages.{bounds_of, cells_from};

    /// What the slots of page `page` are checked against.
    pub(crate) fn bounds(&self, page: u32) -> Bounds
        requires { page < 2 ^ 18 }
        ensures { result ≡ bounds_of self.now page }
    {
        Bounds {
            page: 0x4000 * page,
            got: self.got,
            cells: self.cells,
            imports: self.imports,
            base: self.base,
            size: self.size,
        }
    }

    /// Where `__data` begins in `__DATA`.
    pub(crate) fn cells_from(&self) -> usize
        ensures { result ≡ cells_from self.now }
    {
        (self.got as usize + 15) / 16 * 16
    }
}
