mod fronts;

use pa_macho::{FRONT, Header, Role, header_fits, read_header, write_header};
use pa_num::{Fault, ImageRule};
use std::alloc::Global;
use std::test::Fail;

/// An image of 11 words with one function.
const PROGRAM: Header = Header {
    role: Role::Main,
    text: 44,
    stubs: 0,
    consts: 0,
    got: 0,
    cells: 0,
    fixups: 81,
    symbols: 16,
    strings: 7,
};

/// An image of 6 words with two functions.
const LIBRARY: Header = Header {
    role: Role::Library,
    text: 24,
    stubs: 0,
    consts: 0,
    got: 0,
    cells: 0,
    fixups: 81,
    symbols: 32,
    strings: 19,
};

/// The bytes before `__text` of the files that have the header.
fn front(alloc: Global, header: &Header) -> Result<Vec<u8>, Fail> {
    if !header_fits(header) {
        return Err(Fail::from("header"));
    }
    let Ok(bytes) = write_header(alloc, header) else {
        return Err(Fail::from("memory"));
    };
    Ok(bytes)
}

/// A file that has the header, and zeros where its parts are.
fn file(alloc: Global, header: &Header) -> Result<Vec<u8>, Fail> {
    let mut bytes = front(alloc, header)?;
    let end = header.places().end;
    for _ in 0..0x10_0000 {
        if bytes.len() as u128 >= end {
            return Ok(bytes);
        }
        bytes.push(0)?;
    }
    Err(Fail::from("a long file"))
}

#[test]
fn spells_both_roles(rt: HostRuntime) -> Result<(), Fail> {
    let program = file(rt.alloc(), &PROGRAM)?;
    assert_eq!(rt; program.len(), 32_879);
    assert_eq!(rt; read_header(&program), Ok(PROGRAM));
    let library = file(rt.alloc(), &LIBRARY)?;
    assert_eq!(rt; library.len(), 32_907);
    assert_eq!(rt; read_header(&library), Ok(LIBRARY));
    assert!(rt; 824 <= program.len());
    assert!(rt; 728 <= library.len());
    let start = [
        0xcf, 0xfa, 0xed, 0xfe, 0x0c, 0, 0, 1, 2, 0, 0, 0, 2, 0, 0, 0, 8, 0, 0, 0, 0x18, 3, 0, 0,
        0x85, 0, 0x20, 0,
    ];
    assert!(rt; program.starts_with(&start));
    assert_eq!(rt; &program[808..824], b"libpal.dylib\0\0\0\0".as_slice());
    assert_eq!(rt; &library[712..728], b"libpal.dylib\0\0\0\0".as_slice());
    assert_eq!(rt; FRONT, 0x400);
    Ok(())
}

#[test]
fn spells_every_field(rt: HostRuntime) -> Result<(), Fail> {
    let cases = [
        (fronts::PROGRAM, fronts::PROGRAM_WORDS.as_slice()),
        (fronts::LIBRARY, fronts::LIBRARY_WORDS.as_slice()),
    ];
    for (header, words) in cases {
        let mut expected = Vec::new(rt.alloc());
        for word in words {
            expected.extend_from_slice(&word.to_le_bytes())?;
        }
        expected.resize(FRONT, 0)?;
        assert_eq!(rt; front(rt.alloc(), &header)?.as_slice(), expected.as_slice());
    }
    Ok(())
}

#[test]
fn spells_every_part(rt: HostRuntime) -> Result<(), Fail> {
    let header = Header {
        stubs: 32,
        consts: 5,
        got: 16,
        cells: 0x4001,
        fixups: 83,
        ..PROGRAM
    };
    let places = header.places();
    assert_eq!(rt;
        (places.stubs, places.consts, places.consts_end),
        (0x430, 0x450, 0x455)
    );
    assert_eq!(rt;
        (places.got, places.cells, places.cells_end),
        (0x4000, 0x4010, 0x8011)
    );
    assert_eq!(rt;
        (places.linkedit, places.symbols, places.strings),
        (0xc000, 0xc058, 0xc068)
    );
    let bytes = file(rt.alloc(), &header)?;
    assert_eq!(rt; read_header(&bytes), Ok(header));
    Ok(())
}

#[test]
fn tells_where_a_cut_or_longer_file_breaks(rt: HostRuntime) -> Result<(), Fail> {
    let cuts = [
        (PROGRAM, 0, ImageRule::H1, 0),
        (PROGRAM, 31, ImageRule::H1, 0),
        (PROGRAM, 32, ImageRule::H2, 20),
        (PROGRAM, 823, ImageRule::H2, 20),
        (PROGRAM, 824, ImageRule::H3, 152),
        (PROGRAM, 16_383, ImageRule::H3, 152),
        (PROGRAM, 16_384, ImageRule::H3, 464),
        (PROGRAM, 32_767, ImageRule::H3, 464),
        (PROGRAM, 32_768, ImageRule::H3, 696),
        (PROGRAM, 32_878, ImageRule::H3, 696),
        (PROGRAM, 32_880, ImageRule::H3, 32_879),
        (LIBRARY, 727, ImageRule::H2, 20),
        (LIBRARY, 728, ImageRule::H3, 80),
        (LIBRARY, 16_384, ImageRule::H3, 392),
        (LIBRARY, 32_768, ImageRule::H3, 624),
        (LIBRARY, 32_908, ImageRule::H3, 32_907),
    ];
    for (header, len, rule, place) in cuts {
        let mut bytes = file(rt.alloc(), &header)?;
        bytes.push(0)?;
        assert!(rt; len <= bytes.len());
        let answer = read_header(&bytes[..len]);
        assert_eq!(rt; answer, Err(Fault::Refused { rule, place }), "at {len}");
    }
    Ok(())
}

#[test]
fn tells_which_field_breaks(rt: HostRuntime) -> Result<(), Fail> {
    // A byte that changes in a header's file, and the flaw.
    let changes = [
        (PROGRAM, 0, 0, ImageRule::H1, 0),
        (PROGRAM, 8, 0, ImageRule::H1, 8),
        (PROGRAM, 12, 3, ImageRule::H1, 12),
        (PROGRAM, 12, 6, ImageRule::H1, 24),
        (PROGRAM, 16, 9, ImageRule::H2, 16),
        (PROGRAM, 36, 1, ImageRule::H2, 32),
        (PROGRAM, 32, 0x1a, ImageRule::H4, 32),
        (PROGRAM, 784, 0xd, ImageRule::H4, 784),
        (PROGRAM, 56, 1, ImageRule::H3, 56),
        (PROGRAM, 216, 46, ImageRule::H3, 216),
        (PROGRAM, 216, 240, ImageRule::H3, 288),
        (PROGRAM, 769, 0, ImageRule::H3, 768),
        (PROGRAM, 1_023, 1, ImageRule::H3, 1_023),
        (PROGRAM, 1_068, 1, ImageRule::H3, 1_068),
        (PROGRAM, 20_000, 1, ImageRule::H3, 20_000),
        (PROGRAM, 32_855, 1, ImageRule::H3, 32_855),
        (LIBRARY, 12, 2, ImageRule::H1, 24),
        (LIBRARY, 16, 8, ImageRule::H2, 16),
        (LIBRARY, 36, 72, ImageRule::H2, 32),
        (LIBRARY, 688, 0xc, ImageRule::H4, 688),
        (LIBRARY, 600, 1, ImageRule::H3, 600),
        (LIBRARY, 712, 0, ImageRule::H3, 712),
        (LIBRARY, 728, 1, ImageRule::H3, 728),
    ];
    for (header, at, byte, rule, place) in changes {
        let mut bytes = file(rt.alloc(), &header)?;
        assert!(rt; at < bytes.len());
        bytes[at] = byte;
        let answer = read_header(&bytes);
        assert_eq!(rt; answer, Err(Fault::Refused { rule, place }), "at {at}");
    }
    Ok(())
}

#[test]
fn tells_sizes_that_the_file_has_not(rt: HostRuntime) -> Result<(), Fail> {
    // A size of 8 bytes that changes in the program's file, and the flaw, or no flaw: `__text`, `__auth_stubs`,
    // `__auth_got`, `__data`, `__const`.
    let rule = ImageRule::H3;
    let changes: [(usize, u64, Option<u64>); 8] = [
        (216, 0xffff_ffff_ffff_fffc, Some(136)),
        (216, 8, Some(288)),
        (296, 8, Some(296)),
        (528, 2, Some(528)),
        (528, 8, Some(600)),
        (608, 0xffff_ffff_ffff_ffff, Some(448)),
        (608, 8, None),
        (376, 2, None),
    ];
    for (at, size, flaw) in changes {
        let mut bytes = file(rt.alloc(), &PROGRAM)?;
        assert!(rt; at + 8 <= bytes.len());
        bytes[at..at + 8].copy_from_slice(&size.to_le_bytes());
        match (read_header(&bytes), flaw) {
            (Err(fault), Some(place)) => {
                assert_eq!(rt; fault, Fault::Refused { rule, place }, "at {at}");
            }
            (answer, _) => assert!(rt; answer.is_ok() && flaw.is_none(), "at {at}"),
        }
    }
    // The same of one of 4 bytes: the fixups' size, and the count of symbols.
    for (at, size, place) in [(732, 0xffff_ffff_u32, 680), (748, 2, 696)] {
        let mut bytes = file(rt.alloc(), &PROGRAM)?;
        assert!(rt; at + 4 <= bytes.len());
        bytes[at..at + 4].copy_from_slice(&size.to_le_bytes());
        let answer = read_header(&bytes);
        assert_eq!(rt; answer, Err(Fault::Refused { rule, place }), "at {at}");
    }
    Ok(())
}

#[test]
fn fixups_may_end_before_their_imports(rt: HostRuntime) -> Result<(), Fail> {
    // With two pages the starts end behind 82 bytes and the padding behind 84.
    for fixups in [60, 82, 83] {
        let header = Header {
            cells: 0x4001,
            fixups,
            ..PROGRAM
        };
        let bytes = file(rt.alloc(), &header)?;
        assert_eq!(rt; read_header(&bytes), Ok(header));
    }
    Ok(())
}

#[test]
fn tells_the_padding_of_the_fixups(rt: HostRuntime) -> Result<(), Fail> {
    // Two pages have four bytes of starts, and two bytes stand before the imports.
    let header = Header {
        cells: 0x4001,
        fixups: 85,
        ..PROGRAM
    };
    let mut bytes = file(rt.alloc(), &header)?;
    assert!(rt; 0xc053 < bytes.len());
    bytes[0xc053] = 1;
    let place = 0xc053;
    let answer = read_header(&bytes);
    assert_eq!(rt;
        answer,
        Err(Fault::Refused {
            rule: ImageRule::H3,
            place
        })
    );
    Ok(())
}

#[test]
fn writes_what_fits(rt: HostRuntime) {
    let misfits = [
        Header {
            text: 46,
            ..PROGRAM
        },
        Header {
            stubs: 8,
            ..PROGRAM
        },
        Header { got: 4, ..PROGRAM },
        Header {
            symbols: 8,
            ..PROGRAM
        },
        Header {
            cells: 0xffff_ffff,
            ..PROGRAM
        },
    ];
    for header in misfits {
        assert!(rt; !header_fits(&header));
    }
    assert!(rt; header_fits(&PROGRAM));
}
