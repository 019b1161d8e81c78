//! The programs that are attacked.

/// Calls a function that keeps its return address in its frame, and ends with what that returns, 0.
pub const RETURNS: &[u32] = &[
    0x9400_0003, // bl #3
    0xd400_0061, // svc #3
    0xd503_201f, // nop
    0xd503_237f, // pacibsp
    0xd100_43ff, // sub sp, sp, #16
    0xa900_7bfd, // stp x29, x30, [sp, #0]
    0xd503_201f, // nop
    0xa940_7bfd, // ldp x29, x30, [sp, #0]
    0x9100_43ff, // add sp, sp, #16
    0xd280_0000, // movz x0, #0
    0xd65f_0fff, // retab
];

/// Calls a function from two places with one stack pointer, and prints a digit behind each call.
pub const CALLS_TWICE: &[u32] = &[
    0x9400_0008, // bl #8
    0xd280_0620, // movz x0, #49
    0xd400_0021, // svc #1
    0x9400_0005, // bl #5
    0xd280_0640, // movz x0, #50
    0xd400_0021, // svc #1
    0xd280_0000, // movz x0, #0
    0xd400_0061, // svc #3
    0xd503_237f, // pacibsp
    0xd100_43ff, // sub sp, sp, #16
    0xa900_7bfd, // stp x29, x30, [sp, #0]
    0xd503_201f, // nop
    0xa940_7bfd, // ldp x29, x30, [sp, #0]
    0x9100_43ff, // add sp, sp, #16
    0xd65f_0fff, // retab
];

/// Prints A as often as a counter on the stack says, which begins with 2.
pub const COUNTS: &[u32] = &[
    0xd100_43ff, // sub sp, sp, #16
    0xd280_0041, // movz x1, #2
    0xf900_03e1, // str x1, [sp, #0]
    0xd280_0820, // movz x0, #65
    0xd400_0021, // svc #1
    0xf940_03e1, // ldr x1, [sp, #0]
    0xd100_0421, // sub x1, x1, #1
    0xf900_03e1, // str x1, [sp, #0]
    0xb5ff_ff61, // cbnz x1, #-5
    0xd280_0000, // movz x0, #0
    0xd400_0061, // svc #3
];

/// Prints the first byte of its data.
pub const PRINTS: &[u32] = &[
    0x9000_0029, // adrp x9, #4
    0x3940_0120, // ldrb x0, [x9, #0]
    0xd400_0021, // svc #1
    0xd280_0000, // movz x0, #0
    0xd400_0061, // svc #3
];

/// Keeps 65 on the stack for a while, and prints one more.
pub const SPILLS: &[u32] = &[
    0xd100_43ff, // sub sp, sp, #16
    0xd280_0820, // movz x0, #65
    0xf900_07e0, // str x0, [sp, #8]
    0xd503_201f, // nop
    0xf940_07e0, // ldr x0, [sp, #8]
    0x9100_0400, // add x0, x0, #1
    0xd400_0021, // svc #1
    0xd280_0000, // movz x0, #0
    0xd400_0061, // svc #3
];

/// Keeps a signed pointer to a function that gives B in its data, and calls it there. Behind it stands one that gives C.
pub const CALLS_POINTER: &[u32] = &[
    0x9000_0008, // adrp x8, #0
    0x9110_c108, // add x8, x8, #1072
    0x9000_0029, // adrp x9, #4
    0xdac1_0128, // pacia x8, x9
    0xf900_0128, // str x8, [x9, #0]
    0xf940_0128, // ldr x8, [x9, #0]
    0xd73f_0909, // blraa x8, x9
    0xd400_0021, // svc #1
    0xd280_0000, // movz x0, #0
    0xd400_0061, // svc #3
    0xd503_201f, // nop
    0xd503_201f, // nop
    0xd280_0840, // movz x0, #66
    0xd65f_03c0, // ret x30
    0xd280_0860, // movz x0, #67
    0xd65f_03c0, // ret x30
];

/// Signs a pointer to each of two functions under one modifier, 7, keeps both in its data, and calls the first there. It
/// prints a, the second function b.
pub const CALLS_FIRST: &[u32] = &[
    0x9000_0029, // adrp x9, #4
    0xd280_00ea, // movz x10, #7
    0x9000_0008, // adrp x8, #0
    0x9110_e108, // add x8, x8, #1080
    0xdac1_0148, // pacia x8, x10
    0xf900_0128, // str x8, [x9, #0]
    0x9000_0008, // adrp x8, #0
    0x9111_1108, // add x8, x8, #1092
    0xdac1_0148, // pacia x8, x10
    0xf900_0528, // str x8, [x9, #8]
    0xf940_0128, // ldr x8, [x9, #0]
    0xd73f_090a, // blraa x8, x10
    0xd280_0000, // movz x0, #0
    0xd400_0061, // svc #3
    0xd280_0c20, // movz x0, #97
    0xd400_0021, // svc #1
    0xd65f_03c0, // ret x30
    0xd280_0c40, // movz x0, #98
    0xd400_0021, // svc #1
    0xd65f_03c0, // ret x30
];

/// The same with modifiers of the pointers' own addresses, and 7 in their upper bits.
pub const CALLS_FIRST_BY_PLACE: &[u32] = &[
    0x9000_0029, // adrp x9, #4
    0x9000_0008, // adrp x8, #0
    0x9111_3108, // add x8, x8, #1100
    0x9100_012a, // add x10, x9, #0
    0xf2e0_00ea, // movk x10, #7, lsl #48
    0xdac1_0148, // pacia x8, x10
    0xf900_0128, // str x8, [x9, #0]
    0x9000_0008, // adrp x8, #0
    0x9111_6108, // add x8, x8, #1112
    0x9100_212a, // add x10, x9, #8
    0xf2e0_00ea, // movk x10, #7, lsl #48
    0xdac1_0148, // pacia x8, x10
    0xf900_0528, // str x8, [x9, #8]
    0xf940_0128, // ldr x8, [x9, #0]
    0x9100_012a, // add x10, x9, #0
    0xf2e0_00ea, // movk x10, #7, lsl #48
    0xd73f_090a, // blraa x8, x10
    0xd280_0000, // movz x0, #0
    0xd400_0061, // svc #3
    0xd280_0c20, // movz x0, #97
    0xd400_0021, // svc #1
    0xd65f_03c0, // ret x30
    0xd280_0c40, // movz x0, #98
    0xd400_0021, // svc #1
    0xd65f_03c0, // ret x30
];

/// Prints A again and again.
pub const PRINTS_FOREVER: &[u32] = &[
    0xd280_0820, // movz x0, #65
    0xd400_0021, // svc #1
    0x17ff_fffe, // b #-2
];
