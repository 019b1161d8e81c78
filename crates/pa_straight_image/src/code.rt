ghost use Rattle.std.specs.Prelude.{◌≡◌, ◌≤◌, ◌<◌, ◌^◌, ◌+◌, ◌*◌, ◌++◌, length, map, All, IfOk, OnOk};
ghost use Rattle.pa_a64.specs.Decoding.{InRange, encoded};
ghost use Rattle.pa_straight.specs.Source.{IsSource};
ghost use Rattle.pa_straight_image.specs.Code.{start, prologue, in_x0, call, epilogue, gap_behind, pages_between, text, stub};

use pa_a64::{
    BranchAuthenticatedOp, BranchOp, ExceptionOp, Instr, LoadStoreOp, LoadStorePairOp, MoveWideOp,
    StackOp, SumImmediateOp, encode,
};
use pa_num::{Memory, Sequence, Words};
use pa_straight::Straight;
use std::alloc::Global;

/// The words of `__text`: `start`, which calls `_main` and ends the program with what that gives, and `_main`. Return addresses
/// are signed under the key IB over the stack pointer, and each return authenticates.
pub fn text(alloc: Global, straight: &Straight) -> Result<Words, Memory>
    requires { IsSource straight.now }
    ensures { IfOk result (λ words. words ≡ map encoded (text straight.now)) }
{
    let mut words = Sequence::new(alloc);
    append(&mut words, &start())?;
    append(&mut words, &prologue())?;
    let prints = straight.prints.as_slice();
    let gap = gap_behind(prints.len());
    for (index, number) in prints.iter().enumerate() {
        append(&mut words, &call(gap, *number, prints.len() - index - 1))?;
    }
    append(&mut words, &epilogue(straight.returns))?;
    Ok(words)
}

/// The words of the stub of `_putchar` after the text of `prints` calls.
pub fn stub_words(alloc: Global, prints: usize) -> Result<Words, Memory>
    requires { prints ≤ 1000 }
    ensures { IfOk result (λ words. words ≡ map encoded (stub (pages_between prints))) }
{
    let mut words = Sequence::new(alloc);
    append(&mut words, &stub(pages_between(prints)))?;
    Ok(words)
}

fn append(words: &mut Words, instructions: &[Instr]) -> Result<(), Memory>
    requires { All InRange instructions.now }
    ensures { OnOk result (words.new ≡ words.old ++ map encoded instructions.now) }
{
    for instruction in instructions {
        words.push(encode(*instruction))?;
    }
    Ok(())
}

/// How many words lie between the text of `prints` calls and the stub, which begins at a multiple of 16 bytes.
fn gap_behind(prints: usize) -> usize
    requires { prints ≤ 1000 }
    ensures { result ≡ gap_behind prints }
{
    (prints + 1) % 4
}

/// How many pages of 4,096 bytes lie between the stub's and the slot's.
fn pages_between(prints: usize) -> u16
    requires { prints ≤ 1000 }
    ensures { result ≡ pages_between prints }
{
    let stub = 0x400 + 12 * prints + 44 + 4 * gap_behind(prints);
    4 - (stub / 4096) as u16
}

fn start() -> [Instr; 3]
    ensures { result ≡ start }
{
    [
        Instr::Branch {
            op: BranchOp::Bl,
            words: 3,
        },
        Instr::Exception {
            op: ExceptionOp::Svc,
            imm: 3,
        },
        Instr::Exception {
            op: ExceptionOp::Brk,
            imm: 0,
        },
    ]
}

fn prologue() -> [Instr; 3]
    ensures { result ≡ prologue }
{
    [
        Instr::Stack {
            op: StackOp::Pacibsp,
        },
        Instr::SumImmediate {
            op: SumImmediateOp::Sub,
            rd: 31,
            rn: 31,
            imm: 16,
            shifted: false,
        },
        Instr::LoadStorePair {
            op: LoadStorePairOp::Stp,
            rt: 29,
            rt2: 30,
            rn: 31,
            imm: 0,
        },
    ]
}

/// The two parts of a number, each moved into x0.
fn in_x0(number: u32) -> [Instr; 2]
    ensures { result ≡ in_x0 number }
{
    [
        Instr::MoveWide {
            op: MoveWideOp::Movz,
            rd: 0,
            imm: (number % 0x1_0000) as u16,
            hw: 0,
        },
        Instr::MoveWide {
            op: MoveWideOp::Movk,
            rd: 0,
            imm: (number / 0x1_0000) as u16,
            hw: 1,
        },
    ]
}

/// A call of the stub, with `behind` calls after it and `gap` words between the text and the stub.
fn call(gap: usize, number: u32, behind: usize) -> [Instr; 3]
    requires behind { behind < 1000 }
    requires gap { gap < 4 }
    ensures { result ≡ call gap number behind }
{
    let [low, high] = in_x0(number);
    let words = (3 * behind + 6 + gap) as i32;
    [
        low,
        high,
        Instr::Branch {
            op: BranchOp::Bl,
            words,
        },
    ]
}

fn epilogue(number: u32) -> [Instr; 5]
    ensures { result ≡ epilogue number }
{
    let [low, high] = in_x0(number);
    [
        low,
        high,
        Instr::LoadStorePair {
            op: LoadStorePairOp::Ldp,
            rt: 29,
            rt2: 30,
            rn: 31,
            imm: 0,
        },
        Instr::SumImmediate {
            op: SumImmediateOp::Add,
            rd: 31,
            rn: 31,
            imm: 16,
            shifted: false,
        },
        Instr::Stack { op: StackOp::Retab },
    ]
}

/// Goes where the signed pointer leads that stands at the beginning of a page, `pages` pages of 4,096 bytes ahead. Registers
/// 16 and 17 are free between functions (Procedure Call Standard for the Arm 64-bit Architecture: IP0 and IP1).
fn stub(pages: u16) -> [Instr; 4]
    ensures { result ≡ stub pages }
{
    [
        Instr::Adrp {
            rd: 17,
            pages: i32::from(pages),
        },
        Instr::SumImmediate {
            op: SumImmediateOp::Add,
            rd: 17,
            rn: 17,
            imm: 0,
            shifted: false,
        },
        Instr::LoadStore {
            op: LoadStoreOp::Ldr,
            rt: 16,
            rn: 17,
            imm: 0,
        },
        Instr::BranchAuthenticated {
            op: BranchAuthenticatedOp::Braa,
            rn: 16,
            rm: 17,
        },
    ]
}
