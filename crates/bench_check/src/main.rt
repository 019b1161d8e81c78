//! Checks an image a number of times, to be timed from outside: `bench_check SHAPE WORDS TIMES`. Its text has about so many
//! words: functions as a compiler makes them, or one function, half of branches into words that open windows. It prints each
//! answer.
#![tactic(auto)]

use pa_check::check;
use pa_fixups::Fixes;
use pa_image::{Image, legal};
use pa_macho::Role;
use pa_num::{Bytes, Name, Names, Words};
use pa_object::{Mark, Marks};
use std::alloc::{AllocError, Global};
use std::{env, io};

const START: [u32; 3] = [
    0x9400_0003, // bl _main
    0xd400_0061, // svc #3
    0xd420_0000, // brk #0
];

const PACIBSP: u32 = 0xd503_237f;

const RETAB: u32 = 0xd65f_0fff;

const AUTIZA_X16: u32 = 0xdac1_33f0;

/// adrp x16 of a page without an add behind it
const ADRP_X16: u32 = 0x9000_0010;

/// A function with a frame, branches, a call of itself, a call through a pointer, and a pointer that is signed.
const FUNCTION: [u32; 32] = [
    PACIBSP,
    0xd100_83ff, // sub sp, sp, #32
    0xa901_7bfd, // stp x29, x30, [sp, #16]
    0xd280_0020, // movz x0, #1
    0xf900_03e0, // str x0, [sp, #0]
    0xf940_03e1, // ldr x1, [sp, #0]
    0x8b01_0000, // add x0, x0, x1
    0xeb01_001f, // subs xzr, x0, x1
    0x5400_0040, // b.eq #2
    0xd280_0000, // movz x0, #0
    0xb400_0040, // cbz x0, #2
    0x97ff_fff5, // bl #-11
    0xf940_07f0, // ldr x16, [sp, #8]
    0x9100_23f1, // add x17, sp, #8
    0xdac1_1230, // autia x16, x17
    0xd280_0020, // movz x0, #1
    0xd280_0041, // movz x1, #2
    0xd63f_0200, // blr x16
    0xb900_0be0, // strw x0, [sp, #8]
    0xb980_0be1, // ldrsw x1, [sp, #8]
    0x9b01_7c00, // madd x0, x0, x1, xzr
    0x8a01_0000, // and x0, x0, x1
    0xf940_07f0, // ldr x16, [sp, #8]
    AUTIZA_X16,
    0xd280_00f1, // movz x17, #7
    0xdac1_0230, // pacia x16, x17
    0xf900_07f0, // str x16, [sp, #8]
    0xd503_201f, // nop
    0xa941_7bfd, // ldp x29, x30, [sp, #16]
    0x9100_83ff, // add sp, sp, #32
    0xd280_0000, // movz x0, #0
    RETAB,
];

/// The words of a text, and where its functions begin.
struct Code {
    words: Words,
    marks: Marks,
}

fn mark(alloc: Global, marks: &mut Marks, at: usize) -> Result<(), AllocError> {
    let name: &[u8] = if marks.is_empty() { b"_main" } else { b"_f" };
    marks.push(Mark {
        name: Name::from_slice(alloc, name)?,
        at: at.min(0xffff_ffff) as u32,
        public: false,
    })
}

fn functions(alloc: Global, count: usize) -> Result<Code, AllocError> {
    let mut words = Words::from_slice(alloc, &START)?;
    let mut marks = Marks::new(alloc);
    for _ in 0..count / 32 {
        mark(alloc, &mut marks, words.len())?;
        words.extend_from_slice(&FUNCTION)?;
    }
    Ok(Code { words, marks })
}

/// One function: as many branches as words that may open a window, each branch to one of them that is no window's second
/// word.
fn branches(alloc: Global, count: usize, opening: u32) -> Result<Code, AllocError> {
    let mut words = Words::from_slice(alloc, &START)?;
    let mut marks = Marks::new(alloc);
    mark(alloc, &mut marks, words.len())?;
    words.push(PACIBSP)?;
    let half = (count / 4 * 2).min(0x100_0000);
    for k in 0..half {
        let even = k * 7919 % half / 2 * 2;
        let ahead = half - k + even;
        words.push(0x1400_0000 + ahead as u32)?;
    }
    for _ in 0..half {
        words.push(opening)?;
    }
    words.push(RETAB)?;
    Ok(Code { words, marks })
}

fn code_of(alloc: Global, shape: &str, count: usize) -> Result<Code, AllocError> {
    match shape {
        "broken" => branches(alloc, count, AUTIZA_X16),
        "pages" => branches(alloc, count, ADRP_X16),
        _ => functions(alloc, count),
    }
}

fn image(alloc: Global, shape: &str, count: usize) -> Result<Image, AllocError> {
    let Code { words, marks } = code_of(alloc, shape, count)?;
    Ok(Image {
        role: Role::Main,
        text: words,
        stubs: Words::new(alloc),
        consts: Bytes::new(alloc),
        got: 0,
        cells: Bytes::new(alloc),
        marks,
        imports: Names::new(alloc),
        fixes: Fixes::new(alloc),
    })
}

fn main(rt: HostRuntime) -> io::Result<()> {
    let words: Vec<String> = env::args(&rt)?.skip(1).collect(rt.alloc())?;
    let [shape, count, times] = words.as_slice() else {
        println!(rt; "usage: bench_check functions|broken|pages WORDS TIMES")?;
        return Ok(());
    };
    let count: usize = count.parse().unwrap_or(0);
    let times: u32 = times.parse().unwrap_or(0);
    let image = image(rt.alloc(), shape.as_str(), count)?;
    if !legal(&image) {
        println!(rt; "not legal")?;
        return Ok(());
    }
    for _ in 0..times {
        println!(rt; "{:?}", check(&image))?;
    }
    Ok(())
}
