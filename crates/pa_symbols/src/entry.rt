ghost use Rattle.std.specs.Prelude.{true, ◌≡◌, ◌≤◌, ◌+◌, ◌*◌, ◌&&◌, ◌==◌, length};
ghost use Rattle.pa_symbols.specs.Symbols.{kind_of};
ghost use Rattle.pa_symbols.specs.Reading as spec;

use crate::places::TextAt;
use pa_layout::{number_of_eight, number_of_four, number_of_two};

/// The bytes of an entry.
pub(crate) const ENTRY_SIZE: usize = 16;

/// n_type and after it n_sect of a name that other images see (N_SECT with N_EXT) in section 1, which is `__text`.
pub(crate) const PUBLIC: u16 = 0x010f;

/// The same of a name that no other image sees (N_SECT).
pub(crate) const PRIVATE: u16 = 0x010e;

/// An entry of the symbol table (mach-o/nlist.h: nlist_64): n_strx, n_type with n_sect, n_desc and n_value.
#[derive(Clone, Copy, Debug, PartialEq, Eq)]
pub(crate) struct Entry {
    pub place: u32,
    pub kind: u16,
    pub description: u16,
    pub address: u64,
}

impl Entry {
    /// The entry number `k`.
    pub fn read(symbols: &[u8], k: usize) -> Entry
        requires { 16 * k + 16 ≤ length symbols.now }
        ensures { result ≡ spec.entry_in symbols.now k }
    {
        let at = ENTRY_SIZE * k;
        Entry {
            place: number_of_four(symbols, at),
            kind: number_of_two(symbols, at + 4),
            description: number_of_two(symbols, at + 6),
            address: number_of_eight(symbols, at + 8),
        }
    }

    /// Other images see its name.
    pub fn is_public(self) -> bool
        ensures { result ≡ (self.kind == kind_of true) }
    {
        self.kind == PUBLIC
    }

    /// It is of a word of the code, by its own fields.
    pub fn is_of_code(self, text: TextAt) -> bool
        ensures { result ≡ (spec.is_kind self.kind && ((self.description == 0) && spec.is_of_word text self.address)) }
    {
        (self.kind == PUBLIC || self.kind == PRIVATE)
            && self.description == 0
            && is_of_word(self.address, text)
    }
}

/// The address is that of a word of the code.
fn is_of_word(address: u64, text: TextAt) -> bool
    ensures { result ≡ spec.is_of_word text address }
{
    if address < text.address {
        return false;
    }
    let offset = address - text.address;
    offset % 4 == 0 && offset / 4 < text.words as u64
}

/// The address of entry `k` is above that of the entry before.
pub(crate) fn ascends(symbols: &[u8], k: usize) -> bool
    requires { 16 * k + 16 ≤ length symbols.now }
    ensures { result ≡ spec.ascends_at symbols.now k }
{
    k == 0 || Entry::read(symbols, k - 1).address < Entry::read(symbols, k).address
}
