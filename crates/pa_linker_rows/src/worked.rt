//! The image of the program.

ghost use Rattle.std.specs.Prelude.{IfOk};
ghost use Rattle.pa_linker_rows.specs.Program as spec;

use crate::objects::objects;
use pa_fixups::{Fix, FixKind, Sig};
use pa_image::{Image, legal, read_image, write_image};
use pa_linker::link;
use pa_num::Memory;
use pa_pac::Key;
use std::alloc::Global;
use std::test::Fail;

/// By the tables of the Arm Architecture Reference Manual: `start` at 0x400, `_f` at 0x40c, `_main` at 0x424.
const TEXT: [u32; 12] = [
    0x9400_0009, // bl _main
    0xD400_0061, // svc #3
    0xD420_0000, // brk #0
    0xD503_237F, // pacibsp
    0x9400_0008, // bl the first stub
    0x9400_0007, // bl the first stub
    0x9000_0020, // adrp x0, four pages on
    0x9100_8000, // add x0, x0, #0x20
    0xD65F_0FFF, // retab
    0xD503_237F, // pacibsp
    0x97FF_FFF9, // bl _f
    0xD65F_0FFF, // retab
];

/// At 0x430 and 0x440, for the slots at 0x4000 and 0x4008.
const STUBS: [u32; 8] = [
    0x9000_0031, // adrp x17, four pages on
    0x9100_0231, // add x17, x17, #0
    0xF940_0230, // ldr x16, [x17]
    0xD71F_0A11, // braa x16, x17
    0x9000_0031, // adrp x17, four pages on
    0x9100_2231, // add x17, x17, #8
    0xF940_0230, // ldr x16, [x17]
    0xD71F_0A11, // braa x16, x17
];

/// `_s` and `_t`.
const CONSTS: [u8; 5] = [104, 105, 0, 33, 0];

/// `_c`, zeros up to the next multiple of 16, the pointers' slots, and `_d`.
const CELLS: [u8; 44] = [
    5, 0, 0, 0, 0, 0, 0, 0, 0, 0, 0, 0, 0, 0, 0, 0, 0, 0, 0, 0, 0, 0, 0, 0, 0, 0, 0, 0, 0, 0, 0, 0,
    0, 0, 0, 0, 0, 0, 0, 0, 1, 2, 3, 4,
];

fn ia(disc: u16) -> Sig {
    Sig {
        key: Key::IA,
        addr: true,
        disc,
    }
}

/// The slots of the imports, and the pointers.
fn fixes() -> [Fix; 5] {
    [
        Fix {
            at: 0,
            kind: FixKind::AuthBind {
                ordinal: 0,
                sig: ia(0),
            },
        },
        Fix {
            at: 8,
            kind: FixKind::AuthBind {
                ordinal: 1,
                sig: ia(0),
            },
        },
        Fix {
            at: 32,
            kind: FixKind::Rebase {
                target: 0x1_0000_0410,
                high8: 0,
            },
        },
        Fix {
            at: 40,
            kind: FixKind::AuthRebase {
                target: 0x40c,
                sig: ia(7),
            },
        },
        Fix {
            at: 48,
            kind: FixKind::AuthBind {
                ordinal: 1,
                sig: ia(9),
            },
        },
    ]
}

/// The image of the three objects.
fn image(alloc: Global) -> Result<Image, Memory> {
    let objects = objects(alloc)?;
    link(alloc, objects.as_slice())
}

fn has_parts(image: &Image) -> bool {
    image.text.as_slice() == TEXT.as_slice()
        && image.stubs.as_slice() == STUBS.as_slice()
        && image.consts.as_slice() == CONSTS.as_slice()
        && image.got == 16
        && image.cells.as_slice() == CELLS.as_slice()
        && image.fixes.as_slice() == fixes().as_slice()
}

#[test]
fn three_objects_are_linked(rt: HostRuntime) -> Result<(), Fail> {
    let Ok(image) = image(rt.alloc()) else {
        return Err(Fail::new("memory"));
    };
    assert!(rt; has_parts(&image));
    let [function, main] = image.marks.as_slice() else {
        return Err(Fail::new("two marks"));
    };
    assert_eq!(rt; function.at, 3);
    assert_eq!(rt; main.at, 9);
    assert_eq!(rt; main.name.as_slice(), b"_main".as_slice());
    Ok(())
}

#[test]
fn the_image_is_written_and_read(rt: HostRuntime) -> Result<(), Fail> {
    let alloc = rt.alloc();
    let Ok(image) = image(alloc) else {
        return Err(Fail::new("memory"));
    };
    if !legal(&image) {
        return Err(Fail::new("legal"));
    }
    let Ok(bytes) = write_image(alloc, &image) else {
        return Err(Fail::new("memory"));
    };
    let Ok(read) = read_image(alloc, bytes.as_slice()) else {
        return Err(Fail::new("read"));
    };
    assert!(rt; has_parts(&read));
    Ok(())
}
