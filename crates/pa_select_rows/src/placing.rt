//! Objects in memory, with their calls filled, behind a start that calls `main` and stops.

ghost use Rattle.std.specs.Prelude.{◌≡◌, length, IfOk};

use pa_log::Log;
use pa_machine::{End, Loaded, Machine};
use pa_mem::{Rights, Space};
use pa_num::{Bytes, Memory, Words};
use pa_object::Object;
use pa_pac::FoldPac;
use std::alloc::Global;

/// Where the code begins.
const TEXT: u64 = 0x1_0000_0000;

/// The stack's end, where the stack pointer begins.
pub const SP: u64 = 0x20_0000;

/// How many bytes the stack has.
const STACK: u64 = 0x1_8000;

/// `bl`, whose word is filled, and `brk #0` behind it.
const START: [u32; 2] = [0x9400_0000, 0xd420_0000];

/// The functions of the runtime: `pacibsp`, `svc`, `retab`.
const PUTCHAR: [u32; 3] = [0xd503_237f, 0xd400_0021, 0xd65f_0fff];

const GETCHAR: [u32; 3] = [0xd503_237f, 0xd400_0041, 0xd65f_0fff];

/// What a run left: its end, x0, the stack pointer, and the output.
#[derive(Debug, Drop)]
pub struct Left {
    pub end: End,
    pub x0: u64,
    pub sp: u64,
    pub output: Bytes,
}

/// The place of a function in words from the start's first, where the runtime's functions come first.
fn place_of(objects: &[Object], name: &[u8]) -> Option<u32> {
    if name == b"_putchar".as_slice() {
        return Some(2);
    }
    if name == b"_getchar".as_slice() {
        return Some(5);
    }
    let mut at = 8;
    for object in objects {
        for mark in object.marks.as_slice() {
            if mark.name.as_slice() == name {
                return Some(at);
            }
        }
        let Ok(words) = u32::try_from(object.code.len()) else {
            return None;
        };
        at = at.wrapping_add(words);
    }
    None
}

/// A BL from one place to another.
fn call(from: u32, to: u32) -> u32 {
    0x9400_0000 | (to.wrapping_sub(from) & 0x3ff_ffff)
}

/// The words of an object from a place on, with its calls filled.
fn push_object(words: &mut Words, objects: &[Object], object: &Object) -> Result<(), Memory> {
    let first = words.len();
    words.extend_from_slice(object.code.as_slice())?;
    for reference in object.refs.as_slice() {
        let at = first.wrapping_add(reference.at as usize);
        let to = place_of(objects, reference.name.as_slice());
        if let (Some(to), Ok(from)) = (to, u32::try_from(at))
            && at < words.len()
        {
            words.set(at, call(from, to));
        }
    }
    Ok(())
}

fn words_of(alloc: Global, objects: &[Object]) -> Result<Words, Memory> {
    let mut words = Words::new(alloc);
    words.extend_from_slice(&START)?;
    words.extend_from_slice(&PUTCHAR)?;
    words.extend_from_slice(&GETCHAR)?;
    if let Some(to) = place_of(objects, b"_main") {
        words.set(0, call(0, to));
    }
    for object in objects {
        push_object(&mut words, objects, object)?;
    }
    Ok(words)
}

fn stack(alloc: Global) -> Result<Bytes, Memory>
    ensures { IfOk result (λ bytes. length bytes ≡ 0x1_8000) }
{
    let stack = Bytes::from_slice(alloc, &[0; 0x1_8000])?;
    Ok(stack)
}

fn space(alloc: Global, words: &[u32]) -> Result<Space, Memory> {
    let mut code = Bytes::new(alloc);
    for word in words {
        code.extend_from_slice(&word.to_le_bytes())?;
    }
    let data = Rights {
        read: true,
        write: true,
        run: false,
    };
    let text = Rights {
        read: true,
        write: false,
        run: true,
    };
    let mut space = Space::new(alloc);
    space.add(SP - STACK, stack(alloc)?, data)?;
    space.add(TEXT, code, text)?;
    Ok(space)
}

/// Runs the objects' `main` on an input.
pub fn run(alloc: Global, objects: &[Object], input: &[u8]) -> Result<Left, Memory> {
    let words = words_of(alloc, objects)?;
    let loaded = Loaded {
        space: space(alloc, words.as_slice())?,
        log: Log::new(alloc),
        pc: TEXT,
        sp: SP,
    };
    let mut machine = Machine::new(alloc, loaded, input, &FoldPac)?;
    let end = machine.run(&[], 100_000)?;
    let [x0, ..] = *machine.registers();
    let sp = machine.sp();
    let (output, _) = machine.into_parts();
    Ok(Left {
        end,
        x0,
        sp,
        output,
    })
}
