ghost use Rattle.std.specs.Prelude.{◌≡◌, ◌%◌, ◌<◌, ◌^◌, length};

use pa_num::{Fault, ImageRule, Memory, Name};
use pa_object::{Mark, Marks};
use pa_symbols::{SymbolsAt, TextAt, legal_marks, read_symbols, write_symbols};
use std::alloc::{AllocError, Global};
use std::test::Fail;

const TEXT: TextAt = TextAt {
    address: 0x1_0000_0400,
    words: 10,
};

const AT: SymbolsAt = SymbolsAt {
    symbols: 0x8030,
    strings: 0x8050,
};

// `_main` at the first word, which other images see, and `f.1` at the word 9, which they don't.
const SYMBOLS: [u8; 32] = [
    1, 0, 0, 0, 0x0f, 1, 0, 0, 0, 4, 0, 0, 1, 0, 0, 0, 7, 0, 0, 0, 0x0e, 1, 0, 0, 0x24, 4, 0, 0, 1,
    0, 0, 0,
];

const STRINGS: [u8; 11] = [0, b'_', b'm', b'a', b'i', b'n', 0, b'f', b'.', b'1', 0];

fn push(
    marks: &mut Marks,
    alloc: Global,
    name: &[u8],
    at: u32,
    public: bool,
) -> Result<(), AllocError> {
    let name = Name::from_slice(alloc, name)?;
    marks.push(Mark { name, at, public })
}

fn two(alloc: Global) -> Result<Marks, AllocError> {
    let mut marks = Marks::new(alloc);
    push(&mut marks, alloc, b"_main", 0, true)?;
    push(&mut marks, alloc, b"f.1", 9, false)?;
    Ok(marks)
}

#[test]
fn spells_two_marks(rt: HostRuntime) -> Result<(), Fail> {
    let marks = two(rt.alloc())?;
    assert!(rt; legal_marks(marks.as_slice(), TEXT));
    let Ok(tables) = write_symbols(rt.alloc(), marks.as_slice(), TEXT) else {
        return Err(Fail::from("memory"));
    };
    assert_eq!(rt; tables.symbols.as_slice(), SYMBOLS.as_slice());
    assert_eq!(rt; tables.strings.as_slice(), STRINGS.as_slice());
    let Ok(read) = read_symbols(rt.alloc(), &SYMBOLS, &STRINGS, TEXT, AT) else {
        return Err(Fail::from("marks"));
    };
    assert_eq!(rt; read.len(), 2);
    for (mark, (name, at, public)) in read.as_slice().iter().zip([
        (b"_main".as_slice(), 0, true),
        (b"f.1".as_slice(), 9, false),
    ]) {
        assert_eq!(rt; mark.name.as_slice(), name);
        assert_eq!(rt; (mark.at, mark.public), (at, public));
    }
    Ok(())
}

/// Reads, and answers the place of the flaw, or 0 where there is none.
fn flaw(alloc: Global, symbols: &[u8], strings: &[u8]) -> Result<u64, Memory>
    requires whole { length symbols.now % 16 ≡ 0 }
    requires small { length symbols.now < 2 ^ 32 }
{
    match read_symbols(alloc, symbols, strings, TEXT, AT) {
        Ok(_) => Ok(0),
        Err(Fault::Refused { rule, place }) => {
            if rule == ImageRule::H5 {
                Ok(place)
            } else {
                Ok(1)
            }
        }
        Err(Fault::Memory) => Err(Memory),
    }
}

#[test]
fn tells_the_entry_of_a_wrong_field(rt: HostRuntime) {
    // A byte of the symbols that changes, and where the flaw is told: the place of a name, the type, the section, the
    // description, and an address that is below the code, behind it, in a word, or that of the entry before.
    let flaws = [
        (0, 2, 0x8030),
        (3, 1, 0x8030),
        (4, 0x0d, 0x8030),
        (5, 2, 0x8030),
        (6, 1, 0x8030),
        (7, 1, 0x8030),
        (8, 2, 0x8030),
        (9, 3, 0x8030),
        (15, 1, 0x8030),
        (16, 8, 0x8040),
        (20, 0x1f, 0x8040),
        (21, 0, 0x8040),
        (22, 1, 0x8040),
        (24, 0x28, 0x8040),
        (24, 0x22, 0x8040),
        (24, 0, 0x8040),
        (4, 0x0e, 0),
        (20, 0x0f, 0),
        (24, 4, 0),
    ];
    for (at, byte, place) in flaws {
        let mut symbols = SYMBOLS;
        assert!(rt; at < 32);
        symbols[at] = byte;
        assert_eq!(rt; flaw(rt.alloc(), &symbols, &STRINGS), Ok(place), "at {at}");
    }
}

#[test]
fn tells_where_strings_are_wrong(rt: HostRuntime) {
    // A byte of the strings that changes, and where the flaw is told: the first byte, a name without a byte, names that
    // run on or have no end, and strings that end later than the last name.
    let flaws = [
        (0, 1, 0x8050),
        (1, 0, 0x8030),
        (6, b'x', 0x8040),
        (7, 0, 0x8040),
        (8, 0, 0x8050),
        (10, b'x', 0x8040),
        (1, 0xff, 0),
    ];
    for (at, byte, place) in flaws {
        let mut strings = STRINGS;
        assert!(rt; at < 11);
        strings[at] = byte;
        assert_eq!(rt; flaw(rt.alloc(), &SYMBOLS, &strings), Ok(place), "at {at}");
    }
    for (len, place) in [
        (0, 0x8030),
        (1, 0x8030),
        (6, 0x8030),
        (7, 0x8040),
        (10, 0x8040),
    ] {
        assert!(rt; len < 11);
        assert_eq!(rt;
            flaw(rt.alloc(), &SYMBOLS, &STRINGS[..len]),
            Ok(place),
            "at {len}"
        );
    }
    assert_eq!(rt; flaw(rt.alloc(), &SYMBOLS[..16], &STRINGS), Ok(0x8050));
    assert_eq!(rt; flaw(rt.alloc(), &SYMBOLS[..16], &STRINGS[..7]), Ok(0));
}

#[test]
fn an_empty_table_has_a_zero_byte(rt: HostRuntime) {
    for (strings, place) in [
        ([0].as_slice(), 0),
        ([].as_slice(), 0x8050),
        ([1].as_slice(), 0x8050),
        ([0, 0].as_slice(), 0x8050),
    ] {
        assert_eq!(rt; flaw(rt.alloc(), &[], strings), Ok(place));
    }
    assert!(rt; legal_marks(&[], TEXT));
    let Ok(tables) = write_symbols(rt.alloc(), &[], TEXT) else {
        return assert!(rt; false);
    };
    assert!(rt; tables.symbols.is_empty());
    assert_eq!(rt; tables.strings.as_slice(), [0].as_slice());
}

#[test]
fn only_public_names_are_distinct(rt: HostRuntime) -> Result<(), Fail> {
    let strings = [0, b'a', 0, b'a', 0];
    for (first, second, place) in [
        (false, false, 0),
        (true, false, 0),
        (false, true, 0),
        (true, true, 0x8040),
    ] {
        let mut symbols = SYMBOLS;
        symbols[4] = if first { 0x0f } else { 0x0e };
        symbols[16] = 3;
        symbols[20] = if second { 0x0f } else { 0x0e };
        assert_eq!(rt; flaw(rt.alloc(), &symbols, &strings), Ok(place));
        let mut marks = Marks::new(rt.alloc());
        push(&mut marks, rt.alloc(), b"a", 0, first)?;
        push(&mut marks, rt.alloc(), b"a", 9, second)?;
        assert_eq!(rt; legal_marks(marks.as_slice(), TEXT), place == 0);
    }
    Ok(())
}

#[test]
fn tells_legal_marks(rt: HostRuntime) -> Result<(), Fail> {
    // A second mark behind `a` at the word 4.
    for (name, at, legal) in [
        (b"b".as_slice(), 5, true),
        (b"b".as_slice(), 9, true),
        (b"b".as_slice(), 10, false),
        (b"b".as_slice(), 4, false),
        (b"b".as_slice(), 3, false),
        (b"".as_slice(), 5, false),
        (b"b\0".as_slice(), 5, false),
        (b"\xff".as_slice(), 5, true),
    ] {
        let mut marks = Marks::new(rt.alloc());
        push(&mut marks, rt.alloc(), b"a", 4, true)?;
        push(&mut marks, rt.alloc(), name, at, true)?;
        assert_eq!(rt; legal_marks(marks.as_slice(), TEXT), legal, "at {at}");
    }
    // The last word would stand behind the last address.
    for (at, legal) in [(8, true), (9, false)] {
        let mut marks = Marks::new(rt.alloc());
        push(&mut marks, rt.alloc(), b"a", at, true)?;
        let text = TextAt {
            address: 0xffff_ffff_ffff_ffdc,
            words: 10,
        };
        assert_eq!(rt; legal_marks(marks.as_slice(), text), legal);
    }
    Ok(())
}

#[test]
fn many_names_come_back(rt: HostRuntime) -> Result<(), Fail> {
    let text = TextAt {
        address: 0x1_8000_0400,
        words: 1000,
    };
    let mut marks = Marks::new(rt.alloc());
    for at in 0..600 {
        let name = [1 + (at / 25) as u8, 1 + (at % 25) as u8];
        push(&mut marks, rt.alloc(), &name, at, true)?;
    }
    if !legal_marks(marks.as_slice(), text) {
        return Err(Fail::from("legal"));
    }
    let Ok(tables) = write_symbols(rt.alloc(), marks.as_slice(), text) else {
        return Err(Fail::from("memory"));
    };
    assert_eq!(rt; tables.symbols.len(), 9600);
    assert_eq!(rt; tables.strings.len(), 1801);
    push(&mut marks, rt.alloc(), &[24, 25], 999, true)?;
    assert!(rt; !legal_marks(marks.as_slice(), text));
    Ok(())
}
