use super::{load_program, program_image};
use pa_image::{Image, legal, write_image};
use pa_mem::{Abort, Size};
use pa_num::Memory;
use pa_pac::FoldPac;
use pa_straight::read;
use std::alloc::Global;
use std::test::Fail;

const HELLO: &[u8] =
    b"#include <stdio.h>\nint main(void){\nputchar(72);\nputchar(105);\nreturn 7;\n}\n";

const QUIET: &[u8] = b"#include <stdio.h>\nint main(void){\nreturn 0;\n}\n";

/// By the tables of the Arm Architecture Reference Manual.
const HELLO_TEXT: [u32; 17] = [
    0x9400_0003, // bl _main
    0xD400_0061, // svc #3
    0xD420_0000, // brk #0
    0xD503_237F, // pacibsp
    0xD100_43FF, // sub sp, sp, #16
    0xA900_7BFD, // stp x29, x30, [sp]
    0xD280_0900, // movz x0, #72
    0xF2A0_0000, // movk x0, #0, lsl #16
    0x9400_000C, // bl the stub
    0xD280_0D20, // movz x0, #105
    0xF2A0_0000, // movk x0, #0, lsl #16
    0x9400_0009, // bl the stub
    0xD280_00E0, // movz x0, #7
    0xF2A0_0000, // movk x0, #0, lsl #16
    0xA940_7BFD, // ldp x29, x30, [sp]
    0x9100_43FF, // add sp, sp, #16
    0xD65F_0FFF, // retab
];

const STUB: [u32; 4] = [
    0x9000_0031, // adrp x17, the slot's page, four pages on
    0x9100_0231, // add x17, x17, #0
    0xF940_0230, // ldr x16, [x17]
    0xD71F_0A11, // braa x16, x17
];

fn image_of(alloc: Global, text: &[u8]) -> Result<Option<Image>, Memory> {
    match read(alloc, text)? {
        Some(program) => Ok(Some(program_image(alloc, &program)?)),
        None => Ok(None),
    }
}

#[test]
fn hello_becomes_an_image(rt: HostRuntime) -> Result<(), Fail> {
    let image = image_of(rt.alloc(), HELLO)?.expect(&rt, "a program");
    assert_eq!(rt; image.text.as_slice(), HELLO_TEXT.as_slice());
    assert_eq!(rt; image.stubs.as_slice(), STUB.as_slice());
    assert_eq!(rt; image.got, 8);
    assert_eq!(rt; image.imports.len(), 1);
    assert_eq!(rt; image.fixes.len(), 1);
    assert!(rt; legal(&image));
    assert_eq!(rt; write_image(rt.alloc(), &image)?.len(), 0x8077);
    Ok(())
}

#[test]
fn nothing_is_imported_where_nothing_is_printed(rt: HostRuntime) -> Result<(), Fail> {
    let image = image_of(rt.alloc(), QUIET)?.expect(&rt, "a program");
    assert_eq!(rt; image.text.len(), 11);
    assert!(rt; image.stubs.is_empty());
    assert!(rt; image.imports.is_empty());
    assert_eq!(rt; image.got, 0);
    assert!(rt; legal(&image));
    Ok(())
}

#[test]
fn a_loaded_program_has_its_signed_slot(rt: HostRuntime) -> Result<(), Fail> {
    let program = read(rt.alloc(), HELLO)?.expect(&rt, "a program");
    let image = program_image(rt.alloc(), &program)?;
    let mut loaded = load_program(rt.alloc(), &image, 1, &FoldPac)?;
    assert_eq!(rt; loaded.pc, 0x1_0000_4400);
    assert_eq!(rt; loaded.sp, 0x1_7000_0000);
    assert_eq!(rt; loaded.space.fetch(0x1_0000_4400), Ok(0x9400_0003));
    assert_eq!(rt; loaded.space.fetch(0x1_8000_0400), Ok(0xD503_237F));
    assert_eq!(rt;
        loaded.space.read(0x1_0000_8000, Size::B8),
        Ok(0x0400_0001_8000_0400)
    );
    assert_eq!(rt; loaded.space.write(0x1_0000_4400, Size::B4, 0), Err(Abort));
    assert_eq!(rt; loaded.log.entries().len(), 1);
    Ok(())
}
