//! Programs in assembly, by hand, and their slots.

use crate::program::Program;
use pa_fixups::{Fix, FixKind, Sig};
use pa_macho::Role;
use pa_pac::Key;

/// Saves its return address in its frame, and returns.
pub const RETURNS: &str = ".globl _main
pacibsp
sub sp, sp, #16
stp x29, x30, [sp, #0]
nop
ldp x29, x30, [sp, #0]
add sp, sp, #16
movz x0, #0
retab
";

/// The words of its function.
pub const RETURNS_WORDS: [u32; 8] = [
    0xd503_237f,
    0xd100_43ff,
    0xa900_7bfd,
    0xd503_201f,
    0xa940_7bfd,
    0x9100_43ff,
    0xd280_0000,
    0xd65f_0fff,
];

/// Stores a raw code pointer in a window.
pub const STORES_RAW: &str = ".globl _main
pacibsp
autiza x16
str x16, [sp, #0]
blr x16
retab
";

/// The same without the store.
pub const CALLS_AUTHENTICATED: &str = ".globl _main
pacibsp
autiza x16
blr x16
retab
";

/// Calls the function of the first of two slots, which prints `a`; the other one's prints `b`.
pub const CALLS_FIRST: &str = ".globl _main
pacibsp
sub sp, sp, #16
stp x29, x30, [sp, #0]
adrp x8, #4
ldr x16, [x8, #16]
movz x17, #7
autia x16, x17
blr x16
ldp x29, x30, [sp, #0]
add sp, sp, #16
movz x0, #0
retab
.globl _a
pacibsp
sub sp, sp, #16
stp x29, x30, [sp, #0]
movz x0, #97
bl putchar
ldp x29, x30, [sp, #0]
add sp, sp, #16
retab
.globl _b
pacibsp
sub sp, sp, #16
stp x29, x30, [sp, #0]
movz x0, #98
bl putchar
ldp x29, x30, [sp, #0]
add sp, sp, #16
retab
brk #0
putchar:
adrp x17, #4
add x17, x17, #0
ldr x16, [x17, #0]
braa x16, x17
";

/// The same where the slot's address is part of the modifier.
pub const CALLS_FIRST_BY_ADDRESS: &str = ".globl _main
pacibsp
sub sp, sp, #16
stp x29, x30, [sp, #0]
adrp x17, #4
add x17, x17, #16
ldr x16, [x17, #0]
movk x17, #7, lsl #48
autia x16, x17
blr x16
ldp x29, x30, [sp, #0]
add sp, sp, #16
movz x0, #0
retab
.globl _a
pacibsp
sub sp, sp, #16
stp x29, x30, [sp, #0]
movz x0, #97
bl putchar
ldp x29, x30, [sp, #0]
add sp, sp, #16
retab
.globl _b
pacibsp
sub sp, sp, #16
stp x29, x30, [sp, #0]
movz x0, #98
bl putchar
ldp x29, x30, [sp, #0]
add sp, sp, #16
retab
putchar:
adrp x17, #4
add x17, x17, #0
ldr x16, [x17, #0]
braa x16, x17
";

/// Writes over the slot of `_putchar`, and calls that.
pub const CLEARS_IMPORT: &str = ".globl _main
pacibsp
sub sp, sp, #16
stp x29, x30, [sp, #0]
adrp x8, #4
str xzr, [x8, #0]
movz x0, #65
bl putchar
ldp x29, x30, [sp, #0]
add sp, sp, #16
movz x0, #0
retab
brk #0
brk #0
putchar:
adrp x17, #4
add x17, x17, #0
ldr x16, [x17, #0]
braa x16, x17
";

/// Slot 0 of `__auth_got`.
pub const IMPORT: Fix = Fix {
    at: 0,
    kind: FixKind::AuthBind {
        ordinal: 0,
        sig: Sig {
            key: Key::IA,
            addr: true,
            disc: 0,
        },
    },
};

/// A slot of `__DATA` with a function's address, signed under IA with 7, and with its own address where `addr` says so.
pub fn function_slot(at: u32, target: u32, addr: bool) -> Fix {
    let sig = Sig {
        key: Key::IA,
        addr,
        disc: 7,
    };
    let kind = FixKind::AuthRebase { target, sig };
    Fix { at, kind }
}

/// A program that imports `_putchar`, with two slots in `__data`.
pub fn importing<'a>(functions: &'a str, fixes: &'a [Fix]) -> Program<'a> {
    Program {
        role: Role::Main,
        functions,
        stub_words: 4,
        imports: &[b"_putchar"],
        cells: &[0; 16],
        fixes,
    }
}
