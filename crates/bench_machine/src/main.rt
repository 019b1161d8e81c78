//! Runs a loop of instructions under SipHash, to be timed from outside: `bench_machine LOOP COUNT` runs so many instructions
//! of the loop of that name, and prints the short report. The loops `spread` and `together` are that of arithmetic beside a
//! script of COUNT items.
#![tactic(auto)]

ghost use Rattle.std.specs.Prelude.{◌≡◌, ◌≤◌, ◌+◌, ◌*◌, IfOk, OnOk, length};
ghost use Rattle.bench_machine.specs.Layout.{AllBelow};

use pa_engine::{Ran, report};
use pa_io::StdoutSink;
use pa_log::Log;
use pa_machine::{Loaded, Machine};
use pa_mem::{Rights, Space};
use pa_num::{Bytes, Fault, Memory};
use pa_pac::SipPac;
use pa_script::{Script, ScriptRule, fits, read_script};
use std::alloc::Global;
use std::{env, io};

/// Where the loop's words stand.
const CODE: u64 = 0x1_0000_0400;

const CONTENTS: u64 = 0x1_0000_4000;

const LINKEDIT: u64 = 0x1_0000_8000;

const STACK: u64 = 0x1_6F80_0000;

const STACK_SIZE: usize = 0x80_0000;

const RUNTIME_TEXT: u64 = 0x1_8000_0000;

const RUNTIME_CONTENTS: u64 = 0x1_8000_4000;

const RUNTIME_LINKEDIT: u64 = 0x1_8000_8000;

/// The bytes of a segment.
const SEGMENT: usize = 0x4000;

/// `__TEXT` is read and run.
const TEXT: Rights = Rights {
    read: true,
    write: false,
    run: true,
};

/// `__DATA` and the stack are read and written.
const DATA: Rights = Rights {
    read: true,
    write: true,
    run: false,
};

const HOST: SipPac = SipPac {
    k0: 0x0706_0504_0302_0100,
    k1: 0x0f0e_0d0c_0b0a_0908,
};

const ARITHMETIC: [u32; 8] = [
    0x9100_0421, // add x1, x1, #1
    0xca01_0042, // eor x2, x2, x1
    0x9b02_0c23, // madd x3, x1, x2, x3
    0x9ac1_2464, // lsrv x4, x3, x1
    0xcb02_0085, // sub x5, x4, x2
    0xeb03_00a6, // subs x6, x5, x3
    0x9a81_14c7, // csinc x7, x6, x1, #1
    0x17ff_fff9, // b #-7
];

const MEMORY: [u32; 9] = [
    0xf900_03e1, // str x1, [sp, #0]
    0xf940_03e2, // ldr x2, [sp, #0]
    0xb900_0be2, // strw x2, [sp, #8]
    0xb980_0be3, // ldrsw x3, [sp, #8]
    0x3900_43e3, // strb x3, [sp, #16]
    0x3940_43e4, // ldrb x4, [sp, #16]
    0xa902_0be1, // stp x1, x2, [sp, #32]
    0xa942_1be5, // ldp x5, x6, [sp, #32]
    0x17ff_fff8, // b #-8
];

/// Calls a function through a signed pointer, as compiled code does.
const CALLS: [u32; 13] = [
    0x9000_0008, // adrp x8, #0
    0x9110_7108, // add x8, x8, #1052
    0xdac1_0128, // pacia x8, x9
    0xd280_00e0, // movz x0, #7
    0xd73f_0909, // blraa x8, x9
    0x8b00_0021, // add x1, x1, x0
    0x17ff_fffd, // b #-3
    0xd503_237f, // pacibsp
    0xd100_43ff, // sub sp, sp, #16
    0xa900_7bfd, // stp x29, x30, [sp, #0]
    0xa940_7bfd, // ldp x29, x30, [sp, #0]
    0x9100_43ff, // add sp, sp, #16
    0xd65f_0fff, // retab
];

const SIGNS: [u32; 5] = [
    0xdac1_0041, // pacia x1, x2
    0xdac1_1041, // autia x1, x2
    0xdac1_0c43, // pacdb x3, x2
    0xdac1_1c43, // autdb x3, x2
    0x17ff_fffc, // b #-4
];

/// Loads and stores in the program's data.
const GLOBALS: [u32; 6] = [
    0x9000_0028, // adrp x8, #4
    0xf900_0101, // str x1, [x8, #0]
    0xf940_0102, // ldr x2, [x8, #0]
    0xb900_0902, // strw x2, [x8, #8]
    0xb940_0903, // ldrw x3, [x8, #8]
    0x17ff_fffb, // b #-5
];

fn words_of(name: &str) -> &[u32]
    ensures { length result.now ≤ 16 }
{
    match name {
        "memory" => &MEMORY,
        "globals" => &GLOBALS,
        "calls" => &CALLS,
        "signs" => &SIGNS,
        _ => &ARITHMETIC,
    }
}

fn zeros(alloc: Global, count: usize) -> Result<Bytes, Memory>
    ensures { IfOk result (λ bytes. length bytes ≡ count) }
{
    Ok(Bytes::from_vec(vec![in alloc; 0; count]?))
}

fn code(alloc: Global, words: &[u32]) -> Result<Bytes, Memory>
    ensures { IfOk result (λ bytes. length bytes ≡ 4 * length words.now) }
{
    let mut code = Bytes::new(alloc);
    for word in words {
        code.extend_from_slice(&word.to_le_bytes())?;
    }
    Ok(code)
}

/// Adds a region behind the others.
fn add(space: &mut Space, base: u64, bytes: Bytes, rights: Rights) -> Result<(), Memory>
    requires { AllBelow base space.old }
    ensures { OnOk result (AllBelow (base + length bytes) space.new) }
{
    space.add(base, bytes, rights)
}

/// Memory as a loaded program has it, in the order in which it is loaded: three segments of the program, the stack, and three
/// of the runtime image.
fn space(alloc: Global, words: &[u32]) -> Result<Space, Memory>
    requires { length words.now ≤ 16 }
{
    let mut space = Space::new(alloc);
    add(&mut space, CODE, code(alloc, words)?, TEXT)?;
    add(&mut space, CONTENTS, zeros(alloc, SEGMENT)?, DATA)?;
    add(&mut space, LINKEDIT, zeros(alloc, SEGMENT)?, Rights::READ)?;
    add(&mut space, STACK, zeros(alloc, STACK_SIZE)?, DATA)?;
    add(&mut space, RUNTIME_TEXT, zeros(alloc, SEGMENT)?, TEXT)?;
    add(&mut space, RUNTIME_CONTENTS, zeros(alloc, SEGMENT)?, DATA)?;
    add(
        &mut space,
        RUNTIME_LINKEDIT,
        zeros(alloc, SEGMENT)?,
        Rights::READ,
    )?;
    Ok(space)
}

/// When the items of a script come in a run.
#[derive(Clone, Copy)]
enum Order {
    /// One before each instruction.
    Spread,
    /// All before the first.
    Together,
}

impl Order {
    /// Which items a loop of this name runs beside.
    fn of(name: &str) -> Option<Order> {
        match name {
            "spread" => Some(Order::Spread),
            "together" => Some(Order::Together),
            _ => None,
        }
    }

    fn step(self, item: u32) -> u32 {
        match self {
            Order::Spread => item,
            Order::Together => 0,
        }
    }
}

/// The text of a script of so many items, each of which writes a byte to the stack.
fn script_text(alloc: Global, order: Order, items: u32) -> Result<Vec<u8>, Memory> {
    let mut text = Vec::new(alloc);
    for item in 0..items {
        let line = format!(in alloc; "{} write 0x16ffffff0 00\n", order.step(item))?;
        text.extend_from_slice(line.as_bytes())?;
    }
    Ok(text)
}

/// The script beside which so many instructions of the loop of this name run.
fn script(alloc: Global, name: &str, count: u32) -> Result<Script, Fault<ScriptRule>> {
    match Order::of(name) {
        Some(order) => {
            let text = script_text(alloc, order, count)?;
            read_script(alloc, text.as_slice())
        }
        None => Ok(Script::new(alloc)),
    }
}

fn run(alloc: Global, name: &str, bound: u32) -> Result<Ran, Fault<ScriptRule>> {
    let script = script(alloc, name, bound)?;
    let loaded = Loaded {
        space: space(alloc, words_of(name))?,
        log: Log::new(alloc),
        pc: CODE,
        sp: STACK + STACK_SIZE as u64 - 64,
    };
    let mut machine = Machine::new(alloc, loaded, &[], &HOST)?;
    if let Some(line) = fits(&script, machine.space()) {
        return Err(Fault::Refused {
            rule: ScriptRule::P4,
            place: u64::from(line),
        });
    }
    let end = machine.run(script.as_slice(), bound)?;
    let (output, log) = machine.into_parts();
    Ok(Ran { output, end, log })
}

fn main(rt: HostRuntime) -> io::Result<()> {
    let words: Vec<String> = env::args(&rt)?.skip(1).collect(rt.alloc())?;
    let [name, count] = words.as_slice() else {
        println!(rt; "usage: bench_machine LOOP COUNT")?;
        return Ok(());
    };
    let bound: u32 = count.parse().unwrap_or(0);
    match run(rt.alloc(), name.as_str(), bound) {
        Ok(ran) => {
            let mut out = StdoutSink::new(rt);
            let _ = report(&ran, true, &mut out);
        }
        Err(Fault::Refused { rule, place }) => println!(rt; "refused {rule:?} {place}")?,
        Err(Fault::Memory) => println!(rt; "memory")?,
    }
    Ok(())
}
