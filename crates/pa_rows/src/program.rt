//! The program around a case's instruction: it sets registers, and prints what the instruction left.

ghost use Rattle.std.specs.Prelude.{◌≡◌, IfOk, length};

use pa_log::Log;
use pa_machine::{End, Loaded, Machine};
use pa_mem::{Rights, Space};
use pa_num::{Bytes, Memory, Sequence};
use pa_pac::FoldPac;
use std::alloc::Global;

/// Where the four numbers that a case is given stand, before the program's words.
const GIVEN: u64 = 0x1_0000_0000;

/// Where the cells stand; behind them is room for what is printed.
const DATA: u64 = 0x20_0000;

/// The stack pointer, and x4: the third cell.
pub const SP: u64 = DATA + 16;

/// The four numbers in memory around the stack pointer.
pub const CELLS: [u64; 4] = [
    0x0123_4567_89ab_cdef,
    0xfedc_ba98_7654_3210,
    0x7fff_0080_8000_7f80,
    0x8000_0000_ffff_ff7f,
];

/// The place behind a case's instruction, and the place behind the one that stands there.
pub const NEXT: u64 = GIVEN + 0x44;

/// How many instructions come before that of a case.
pub const FIRST: u32 = 8;

/// x0 to x3 are what is given, x4 and sp the third cell, x30 is x1, and the flags are those of x2 - x3.
const BEFORE: [u32; 8] = [
    0x9000_0005, // adrp x5, #0
    0xd2a0_0404, // movz x4, #0x20, lsl #16
    0x9100_4084, // add x4, x4, #16
    0x9100_009f, // add sp, x4, #0
    0xa940_04a0, // ldp x0, x1, [x5, #0]
    0xa941_0ca2, // ldp x2, x3, [x5, #16]
    0x9100_003e, // add x30, x1, #0
    0xeb03_005f, // subs xzr, x2, x3
];

/// Prints the cells, x0, x1, x30, x6, sp and the flags as one number, eight bytes each. The first instruction, which a branch
/// may skip, makes x6 one.
const BEHIND: [u32; 24] = [
    0xd280_0026, // movz x6, #1
    0xd2a0_0407, // movz x7, #0x20, lsl #16
    0xa902_04e0, // stp x0, x1, [x7, #32]
    0xa903_18fe, // stp x30, x6, [x7, #48]
    0x9100_03e8, // add x8, sp, #0
    0x9a9f_57e9, // csinc x9, xzr, xzr, #5
    0x9a9f_17ea, // csinc x10, xzr, xzr, #1
    0x9a9f_37eb, // csinc x11, xzr, xzr, #3
    0x9a9f_77ec, // csinc x12, xzr, xzr, #7
    0x8b09_0129, // add x9, x9, x9
    0x8b0a_0129, // add x9, x9, x10
    0x8b09_0129, // add x9, x9, x9
    0x8b0b_0129, // add x9, x9, x11
    0x8b09_0129, // add x9, x9, x9
    0x8b0c_0129, // add x9, x9, x12
    0xa904_24e8, // stp x8, x9, [x7, #64]
    0xd280_0a08, // movz x8, #80
    0x3940_00e0, // ldrb x0, [x7, #0]
    0xd400_0021, // svc #1
    0x9100_04e7, // add x7, x7, #1
    0xd100_0508, // sub x8, x8, #1
    0xb5ff_ff88, // cbnz x8, #-4
    0xd280_0000, // movz x0, #0
    0xd400_0061, // svc #3
];

/// What a case left: its end, what it printed before the numbers, the ten numbers that it printed, and its log.
#[derive(Debug, Drop)]
pub struct Left {
    pub end: End,
    pub printed: Bytes,
    pub numbers: Sequence<u64>,
    pub log: Log,
}

/// What stands in memory and in the registers before the instruction and is printed if nothing changes it.
#[derive(Clone, Copy, Debug)]
pub struct State {
    pub cells: [u64; 4],
    pub x0: u64,
    pub x1: u64,
    pub link: u64,
    pub skips: bool,
    pub sp: u64,
    pub flags: u8,
}

impl State {
    pub fn given(given: [u64; 4]) -> State {
        let [x0, x1, x2, x3] = given;
        State {
            cells: CELLS,
            x0,
            x1,
            link: x1,
            skips: false,
            sp: SP,
            flags: flags_of(x2, x3),
        }
    }

    pub fn numbers(self) -> [u64; 10] {
        let [a, b, c, d] = self.cells;
        let goes = if self.skips { 0 } else { 1 };
        let flags = u64::from(self.flags);
        [
            a, b, c, d, self.x0, self.x1, self.link, goes, self.sp, flags,
        ]
    }
}

// N, Z, C and V of `x` - `y` from bit 3 down.
fn flags_of(x: u64, y: u64) -> u8 {
    let (difference, overflow) = x.cast_signed().overflowing_sub(y.cast_signed());
    let flag = |set: bool, bit: u8| if set { bit } else { 0 };
    flag(difference < 0, 8) + flag(difference == 0, 4) + flag(x >= y, 2) + flag(overflow, 1)
}

fn code(alloc: Global, word: u32, given: [u64; 4]) -> Result<Bytes, Memory> {
    let mut code = Bytes::new(alloc);
    for number in given {
        code.extend_from_slice(&number.to_le_bytes())?;
    }
    for before in BEFORE {
        code.extend_from_slice(&before.to_le_bytes())?;
    }
    code.extend_from_slice(&word.to_le_bytes())?;
    for behind in BEHIND {
        code.extend_from_slice(&behind.to_le_bytes())?;
    }
    Ok(code)
}

// The cells, and room for six numbers behind them.
fn cells(alloc: Global) -> Result<Bytes, Memory>
    ensures { IfOk result (λ bytes. length bytes ≡ 80) }
{
    let mut bytes = [0; 80];
    for (index, cell) in CELLS.iter().enumerate() {
        bytes[8 * index..8 * index + 8].copy_from_slice(&cell.to_le_bytes());
    }
    let cells = Bytes::from_slice(alloc, &bytes)?;
    Ok(cells)
}

fn space(alloc: Global, word: u32, given: [u64; 4]) -> Result<Space, Memory> {
    let data = Rights {
        read: true,
        write: true,
        run: false,
    };
    let code_rights = Rights {
        read: true,
        write: false,
        run: true,
    };
    let mut space = Space::new(alloc);
    space.add(DATA, cells(alloc)?, data)?;
    space.add(GIVEN, code(alloc, word, given)?, code_rights)?;
    Ok(space)
}

fn numbers_of(alloc: Global, output: &[u8]) -> Result<Sequence<u64>, Memory> {
    let mut numbers = Sequence::new(alloc);
    let mut rest = output;
    while let Some((bytes, behind)) = rest.split_first_chunk::<8>() {
        numbers.push(u64::from_le_bytes(*bytes))?;
        rest = behind;
    }
    Ok(numbers)
}

/// Runs the instruction with x0 to x3 given.
pub fn run(alloc: Global, word: u32, given: [u64; 4]) -> Result<Left, Memory> {
    let loaded = Loaded {
        space: space(alloc, word, given)?,
        log: Log::new(alloc),
        pc: GIVEN + 32,
        sp: 0,
    };
    let mut machine = Machine::new(alloc, loaded, b"z", &FoldPac)?;
    let end = machine.run(&[], 1000)?;
    let (output, log) = machine.into_parts();
    let (printed, shown) = output.as_slice().split_at(output.len() % 8);
    Ok(Left {
        end,
        printed: Bytes::from_slice(alloc, printed)?,
        numbers: numbers_of(alloc, shown)?,
        log,
    })
}
