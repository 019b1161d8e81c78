ghost use Rattle.std.specs.Prelude.{◌≡◌, ◌≤◌, ◌<◌, ◌+◌, ◌*◌, ◌^◌, length, IfOk};
ghost use Rattle.pa_layout.specs.Fields.{numbers};
ghost use Rattle.pa_macho.specs.Layout.{Ordered};
ghost use Rattle.pa_image.specs.Bytes as spec;
ghost use Rattle.pa_image.specs.Reading as reading;

use pa_fixups::DataAt;
use pa_layout::number_of_four;
use pa_macho::{FRONT, Header, Places, Role};
use pa_num::Words;
use pa_slots::SlotsAt;
use pa_symbols::{SymbolsAt, TextAt};
use std::alloc::{AllocError, Global};

/// The bytes between two places.
pub(crate) fn part(bytes: &[u8], low: u128, high: u128) -> &[u8]
    requires order { low ≤ high }
    requires inside { high ≤ length bytes.now }
    ensures { result.now ≡ spec.part low high bytes.now }
{
    &bytes[low as usize..high as usize]
}

/// The words from a place on.
pub(crate) fn read_words(
    alloc: Global,
    bytes: &[u8],
    at: usize,
    count: u32,
) -> Result<Words, AllocError>
    requires { at + 4 * count ≤ length bytes.now }
    ensures { IfOk result (λ words. words ≡ numbers count 4 at bytes.now) }
{
    let mut words = Words::new(alloc);
    for k in 0..count as usize {
        words.push(number_of_four(bytes, at + 4 * k))?;
    }
    Ok(words)
}

/// Where `__DATA` lies.
pub(crate) fn data_at(role: Role, places: &Places) -> DataAt
    requires order { Ordered places.now }
    requires small { places.now.linkedit < 2 ^ 40 }
    ensures { result ≡ spec.data_at role places.now }
{
    let segments = match role {
        Role::Main => 4,
        Role::Library => 3,
    };
    DataAt {
        segments,
        offset: places.got as u64,
        pages: places.pages() as u32,
    }
}

/// What the slots are checked against.
pub(crate) fn slots_at(header: &Header, places: &Places, imports: u32) -> SlotsAt
    requires order { Ordered places.now }
    requires small { places.now.end < 2 ^ 62 }
    ensures { result ≡ spec.slots_at header.now places.now imports }
{
    SlotsAt {
        place: places.got as u64,
        starts: places.linkedit as u64 + 78,
        got: header.got,
        cells: header.cells,
        imports,
        base: header.role.base(),
        size: places.end as u64,
    }
}

/// The code that symbols name.
pub(crate) fn text_at(header: &Header) -> TextAt
    ensures { result ≡ spec.text_at header.now }
{
    TextAt {
        address: header.role.base() + FRONT as u64,
        words: header.text / 4,
    }
}

/// Where the symbols and the strings stand.
pub(crate) fn symbols_at(places: &Places) -> SymbolsAt
    requires order { Ordered places.now }
    requires small { places.now.end < 2 ^ 62 }
    ensures { result ≡ reading.symbols_at places.now }
{
    SymbolsAt {
        symbols: places.symbols as u64,
        strings: places.strings as u64,
    }
}
