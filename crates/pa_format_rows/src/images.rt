use pa_fixups::{Fix, FixKind, Fixes, Sig};
use pa_image::{Image, is_small, legal, places, read_image, write_image};
use pa_layout::put_zeros;
use pa_macho::{Header, Role, header_fits, write_header};
use pa_num::{Bytes, Fault, ImageRule, Name, Names, Words};
use pa_object::{Mark, Marks};
use pa_pac::Key;
use std::alloc::Global;
use std::test::Fail;

/// The header of an image whose code is `start` and a function of eight words, and which has nothing else.
const PROGRAM: Header = Header {
    role: Role::Main,
    text: 44,
    stubs: 0,
    consts: 0,
    got: 0,
    cells: 0,
    fixups: 81,
    symbols: 16,
    strings: 7,
};

const WORDS: [u32; 11] = [
    0x94000003, 0xd4000061, 0xd4200000, 0xd503237f, 0xd10043ff, 0xa9007bfd, 0xd503201f, 0xa9407bfd,
    0x910043ff, 0xd2800000, 0xd65f0fff,
];

/// The symbol of `_main` at the fourth word, and the strings.
const SYMBOLS: [u8; 23] = [
    1, 0, 0, 0, 0x0f, 1, 0, 0, 0x0c, 4, 0, 0, 1, 0, 0, 0, 0, b'_', b'm', b'a', b'i', b'n', 0,
];

/// The bytes of that image, laid out by hand.
fn program(alloc: Global) -> Result<Vec<u8>, Fail> {
    if !header_fits(&PROGRAM) {
        return Err(Fail::from("header"));
    }
    let Ok(mut bytes) = write_header(alloc, &PROGRAM) else {
        return Err(Fail::from("memory"));
    };
    for word in WORDS {
        bytes.extend_from_slice(&word.to_le_bytes())?;
    }
    put_zeros(&mut bytes, 0x8000 - 0x42c)?;
    bytes.extend_from_slice(&FIXUPS)?;
    put_zeros(&mut bytes, 7)?;
    bytes.extend_from_slice(&SYMBOLS)?;
    Ok(bytes)
}

/// The fixups of an image with one page that has no slot, and without imports.
const FIXUPS: [u8; 81] = [
    0, 0, 0, 0, 32, 0, 0, 0, 80, 0, 0, 0, 80, 0, 0, 0, 0, 0, 0, 0, 1, 0, 0, 0, 0, 0, 0, 0, 0, 0, 0,
    0, 4, 0, 0, 0, 0, 0, 0, 0, 0, 0, 0, 0, 24, 0, 0, 0, 0, 0, 0, 0, 0, 0, 0, 0, 24, 0, 0, 0, 0,
    0x40, 1, 0, 0, 0x40, 0, 0, 0, 0, 0, 0, 0, 0, 0, 0, 1, 0, 0xff, 0xff, 0,
];

#[test]
fn reads_an_image(rt: HostRuntime) -> Result<(), Fail> {
    let bytes = program(rt.alloc())?;
    assert_eq!(rt; bytes.len(), 32_879);
    let Ok(image) = read_image(rt.alloc(), &bytes) else {
        return Err(Fail::from("an image"));
    };
    assert_eq!(rt; image.role, Role::Main);
    assert_eq!(rt; image.text.as_slice(), WORDS.as_slice());
    assert_eq!(rt;
        (image.stubs.len(), image.consts.len(), image.cells.len()),
        (0, 0, 0)
    );
    assert_eq!(rt;
        (image.imports.len(), image.fixes.len(), image.marks.len()),
        (0, 0, 1)
    );
    for mark in image.marks.as_slice() {
        assert_eq!(rt; mark.name.as_slice(), b"_main".as_slice());
        assert_eq!(rt; (mark.at, mark.public), (3, true));
    }
    Ok(())
}

#[test]
fn tells_where_a_cut_image_breaks(rt: HostRuntime) -> Result<(), Fail> {
    let bytes = program(rt.alloc())?;
    let cuts = [
        (0, ImageRule::H1, 0),
        (31, ImageRule::H1, 0),
        (32, ImageRule::H2, 20),
        (100, ImageRule::H2, 20),
        (823, ImageRule::H2, 20),
        (824, ImageRule::H3, 152),
        (16_383, ImageRule::H3, 152),
        (16_384, ImageRule::H3, 464),
        (32_767, ImageRule::H3, 464),
        (32_768, ImageRule::H3, 696),
        (32_878, ImageRule::H3, 696),
    ];
    for (len, rule, place) in cuts {
        assert!(rt; len < bytes.len());
        let Err(fault) = read_image(rt.alloc(), &bytes[..len]) else {
            return Err(Fail::from("a flaw"));
        };
        assert_eq!(rt; fault, Fault::Refused { rule, place }, "at {len}");
    }
    Ok(())
}

#[test]
fn tells_the_first_flaw(rt: HostRuntime) -> Result<(), Fail> {
    // A byte that changes, and the flaw.
    let changes = [
        (0, 0, ImageRule::H1, 0),
        (8, 0, ImageRule::H1, 8),
        (16, 9, ImageRule::H2, 16),
        (32, 0x1a, ImageRule::H4, 32),
        (56, 1, ImageRule::H3, 56),
        (769, 0, ImageRule::H3, 768),
        (32_768, 1, ImageRule::F2, 32_768),
        (32_846, 0, ImageRule::F4, 32_846),
        (32_848, 1, ImageRule::F2, 32_848),
        (32_856, 2, ImageRule::H5, 32_856),
        (32_860, 0x0d, ImageRule::H5, 32_856),
        (32_864, 0x0d, ImageRule::H5, 32_856),
        (32_872, 1, ImageRule::H5, 32_872),
        (32_878, 1, ImageRule::H5, 32_856),
    ];
    for (at, byte, rule, place) in changes {
        let mut bytes = program(rt.alloc())?;
        assert!(rt; at < bytes.len());
        bytes[at] = byte;
        let Err(fault) = read_image(rt.alloc(), &bytes) else {
            return Err(Fail::from("a flaw"));
        };
        assert_eq!(rt; fault, Fault::Refused { rule, place }, "at {at}");
    }
    let mut longer = program(rt.alloc())?;
    longer.push(0)?;
    let Err(fault) = read_image(rt.alloc(), &longer) else {
        return Err(Fail::from("a flaw"));
    };
    let (rule, place) = (ImageRule::H3, 32_879);
    assert_eq!(rt; fault, Fault::Refused { rule, place });
    let mut other = program(rt.alloc())?;
    assert!(rt; 1036 < other.len());
    other[1036] = 0;
    assert!(rt; read_image(rt.alloc(), &other).is_ok());
    Ok(())
}

/// The image as data again, written and read.
fn again(alloc: Global, image: &Image) -> Result<Vec<u8>, Fail> {
    if !legal(image) {
        return Err(Fail::from("legal"));
    }
    let Ok(bytes) = write_image(alloc, image) else {
        return Err(Fail::from("memory"));
    };
    Ok(bytes)
}

#[test]
fn writes_what_it_reads(rt: HostRuntime) -> Result<(), Fail> {
    let bytes = program(rt.alloc())?;
    let Ok(image) = read_image(rt.alloc(), &bytes) else {
        return Err(Fail::from("an image"));
    };
    let written = again(rt.alloc(), &image)?;
    assert_eq!(rt; written.as_slice(), bytes.as_slice());
    Ok(())
}

const SIG: Sig = Sig {
    key: Key::IA,
    addr: true,
    disc: 0,
};

fn mark(alloc: Global, name: &[u8], at: u32, public: bool) -> Result<Mark, Fail> {
    let name = Name::from_slice(alloc, name)?;
    Ok(Mark { name, at, public })
}

/// An image with every part, whose slots stand on both sides of a page's border.
fn every_part(alloc: Global, role: Role) -> Result<Image, Fail> {
    let mut marks = Marks::new(alloc);
    marks.push(mark(alloc, b"_main", 3, true)?)?;
    marks.push(mark(alloc, b"_helper", 7, false)?)?;
    let mut imports = Names::new(alloc);
    for name in [
        b"_putchar".as_slice(),
        b"".as_slice(),
        b"_putchar".as_slice(),
    ] {
        imports.push(Name::from_slice(alloc, name)?)?;
    }
    let import = FixKind::AuthBind {
        ordinal: 0,
        sig: SIG,
    };
    let place = FixKind::Rebase {
        target: role.base() + 0x400,
        high8: 0,
    };
    let function = FixKind::AuthRebase {
        target: 0x40c,
        sig: SIG,
    };
    let before = FixKind::Bind {
        ordinal: 2,
        addend: -5,
    };
    let fixes = [
        Fix {
            at: 0,
            kind: import,
        },
        Fix {
            at: 0x3ff8,
            kind: place,
        },
        Fix {
            at: 0x4000,
            kind: function,
        },
        Fix {
            at: 0x4010,
            kind: place,
        },
        Fix {
            at: 0x4018,
            kind: before,
        },
    ];
    let mut cells = Vec::new(alloc);
    put_zeros(&mut cells, 0x4010)?;
    cells.extend_from_slice(&[1, 2, 3, 4, 5])?;
    Ok(Image {
        role,
        text: Words::from_slice(alloc, &WORDS)?,
        stubs: Words::from_slice(alloc, &[1, 2, 3, 4])?,
        consts: Bytes::from_slice(alloc, b"text")?,
        got: 8,
        cells: Bytes::from_vec(cells),
        marks,
        imports,
        fixes: Fixes::from_slice(alloc, &fixes)?,
    })
}

/// That image as a library, behind its header: its bytes by eights where they aren't all zero, as another program spells them.
const LIBRARY: [(usize, u64); 34] = [
    (0x400, 0xd400_0061_9400_0003),
    (0x408, 0xd503_237f_d420_0000),
    (0x410, 0xa900_7bfd_d100_43ff),
    (0x418, 0xa940_7bfd_d503_201f),
    (0x420, 0xd280_0000_9100_43ff),
    (0x428, 0xd65f_0fff),
    (0x430, 0x2_0000_0001),
    (0x438, 0x4_0000_0003),
    (0x440, 0x7478_6574),
    (0x4000, 0xfff9_0000_0000_0000),
    (0x7ff8, 0x1_8000_0400),
    (0x8000, 0x8011_0000_0000_040c),
    (0x8010, 0x0008_0001_8000_0400),
    (0x8018, 0x4007_fffb_0000_0002),
    (0x8020, 0x5_0403_0201),
    (0xc000, 0x20_0000_0000),
    (0xc008, 0x60_0000_0054),
    (0xc010, 0x1_0000_0003),
    (0xc020, 3),
    (0xc028, 24),
    (0xc038, 0x0001_4000_0000_001a),
    (0xc040, 0x4000),
    (0xc048, 0x2_0000_0000),
    (0xc050, 0x201_0000_0000),
    (0xc058, 0x1601_0000_1401),
    (0xc060, 0x6168_6374_7570_5f00),
    (0xc068, 0x6374_7570_5f00_0072),
    (0xc070, 0x72_6168),
    (0xc078, 0x10f_0000_0001),
    (0xc080, 0x1_8000_040c),
    (0xc088, 0x10e_0000_0007),
    (0xc090, 0x1_8000_041c),
    (0xc098, 0x5f00_6e69_616d_5f00),
    (0xc0a0, 0x7265_706c_6568),
];

#[test]
fn spells_a_library(rt: HostRuntime) -> Result<(), Fail> {
    let bytes = again(rt.alloc(), &every_part(rt.alloc(), Role::Library)?)?;
    assert!(rt; bytes.len() == 0xc0a7);
    let Some(front) = bytes.get(..0x400) else {
        return Err(Fail::from("front"));
    };
    let mut expected = Vec::from_slice(rt.alloc(), front)?;
    put_zeros(&mut expected, 0xbca8)?;
    for (at, word) in LIBRARY {
        assert!(rt; at < expected.len() && expected.len() - at >= 8);
        expected[at..at + 8].copy_from_slice(&word.to_le_bytes());
    }
    assert!(rt; expected.starts_with(&bytes));
    Ok(())
}

/// An image whose one function has a name of so many bytes. With 14,238 it has 16 MiB.
fn large(alloc: Global, name_len: usize) -> Result<Image, Fail> {
    let mut name = Vec::new(alloc);
    name.resize(name_len, b'f')?;
    let mut marks = Marks::new(alloc);
    marks.push(mark(alloc, &name, 0, true)?)?;
    let mut cells = Vec::new(alloc);
    cells.resize(0xff_8000, 0)?;
    Ok(Image {
        role: Role::Main,
        text: Words::from_slice(alloc, &[0xd65f_0fff])?,
        stubs: Words::new(alloc),
        consts: Bytes::new(alloc),
        got: 0,
        cells: Bytes::from_vec(cells),
        marks,
        imports: Names::new(alloc),
        fixes: Fixes::new(alloc),
    })
}

#[test]
fn tells_small_images(rt: HostRuntime) -> Result<(), Fail> {
    for (name_len, end, small) in [(14_238, 0x100_0000, true), (14_239, 0x100_0001, false)] {
        let image = large(rt.alloc(), name_len)?;
        if !legal(&image) {
            return Err(Fail::from("legal"));
        }
        let extent = places(&image);
        assert_eq!(rt;
            (extent.got, extent.linkedit, extent.end),
            (0x4000, 0xff_c000, end)
        );
        assert_eq!(rt; is_small(&image), small);
    }
    Ok(())
}

#[test]
fn reads_what_it_writes(rt: HostRuntime) -> Result<(), Fail> {
    for role in [Role::Main, Role::Library] {
        let image = every_part(rt.alloc(), role)?;
        let bytes = again(rt.alloc(), &image)?;
        let Ok(read) = read_image(rt.alloc(), &bytes) else {
            return Err(Fail::from("an image"));
        };
        assert_eq!(rt; read.role, role);
        assert_eq!(rt; read.fixes.as_slice(), image.fixes.as_slice());
        assert_eq!(rt; read.cells.as_slice(), image.cells.as_slice());
        assert_eq!(rt; read.consts.as_slice(), b"text".as_slice());
        assert_eq!(rt; (read.got, read.imports.len(), read.marks.len()), (8, 3, 2));
        let twice = again(rt.alloc(), &read)?;
        assert_eq!(rt; twice.as_slice(), bytes.as_slice());
    }
    Ok(())
}

#[test]
fn tells_a_slot_without_a_fix(rt: HostRuntime) -> Result<(), Fail> {
    let mut image = every_part(rt.alloc(), Role::Main)?;
    image.got = 16;
    image.fixes = Fixes::from_slice(
        rt.alloc(),
        &[Fix {
            at: 0,
            kind: FixKind::AuthBind {
                ordinal: 0,
                sig: SIG,
            },
        }],
    )?;
    let mut bytes = again(rt.alloc(), &image)?;
    assert!(rt; 0x400d < bytes.len());
    bytes[0x400d] = 1;
    let Err(fault) = read_image(rt.alloc(), &bytes) else {
        return Err(Fail::from("a flaw"));
    };
    let (rule, place) = (ImageRule::H3, 0x400d);
    assert_eq!(rt; fault, Fault::Refused { rule, place });
    Ok(())
}

#[test]
fn writes_legal_images_alone(rt: HostRuntime) -> Result<(), Fail> {
    let image = every_part(rt.alloc(), Role::Main)?;
    assert!(rt; legal(&image));
    let shifted = Image { got: 12, ..image };
    assert!(rt; !legal(&shifted));
    let mut hidden = every_part(rt.alloc(), Role::Main)?;
    assert!(rt; 0x3fe8 < hidden.cells.len());
    hidden.cells.set(0x3fe8, 1);
    assert!(rt; !legal(&hidden));
    let mut twice = every_part(rt.alloc(), Role::Main)?;
    twice.marks.push(mark(rt.alloc(), b"_main", 8, true)?)?;
    assert!(rt; !legal(&twice));
    Ok(())
}
