//! A number of 64 bits in a register, in as few moves as serve.

ghost use Rattle.std.specs.Prelude.{◌≡◌, ◌≤◌, ◌<◌, ◌+◌, ◌++◌, OnOk};
ghost use Rattle.std.specs.List.{AllByRecursion};
ghost use Rattle.arrayvec.specs.ArrayVec.{array_vec_len};
ghost use Rattle.pa_select.specs.Constants as spec;
ghost use Rattle.pa_select.specs.Others.{other};

use crate::accesses::Instrs;
use arrayvec::ArrayVec;
use pa_a64::{Instr, MoveWideOp};
use std::alloc::AllocError;

/// Numbers of 16-bit parts of a number, from the lowest, which is 0.
type Parts = ArrayVec<u8, 4>;

/// One 16-bit part of a number.
fn part(value: u64, k: u8) -> u16
    requires { k < 4 }
    ensures { result ≡ spec.part value k }
{
    ((value >> (16 * k)) % 0x1_0000) as u16
}

/// What the first move leaves in the other parts: each bit is set after MOVN, and none after MOVZ.
fn left_by(inverted: bool) -> u16
    ensures { result ≡ spec.left_by inverted }
{
    if inverted { 0xffff } else { 0 }
}

/// Adds a part to others, where it differs from what the first move leaves there.
fn push_other(others: &mut Parts, inverted: bool, value: u64, k: u8)
    requires part { k < 4 }
    requires room { array_vec_len others.old < 4 }
    ensures parts { others.new.items ≡ others.old.items ++ other inverted value k }
    ensures count { array_vec_len others.new ≤ array_vec_len others.old + 1 }
{
    if part(value, k) != left_by(inverted) {
        others.push(k);
    }
}

/// The parts of a number that differ from what the first move leaves there.
#[tactic(auto, using(crate::proofs::Others::others_step))]
fn others(inverted: bool, value: u64) -> Parts
    ensures { result.items ≡ spec.others inverted value }
{
    let mut others = Parts::new();
    for k in 0..4 {
        push_other(&mut others, inverted, value, k);
    }
    others
}

/// The first move, which sets this part.
fn first_move(inverted: bool, register: u8, value: u64, k: u8) -> Instr
    requires { k < 4 }
    ensures { result ≡ spec.first_move inverted register value k }
{
    let part = part(value, k);
    let (op, imm) = if inverted {
        (MoveWideOp::Movn, 0xffff - part)
    } else {
        (MoveWideOp::Movz, part)
    };
    Instr::MoveWide {
        op,
        rd: register,
        imm,
        hw: k,
    }
}

/// Adds the moves behind the first.
fn push_more(code: &mut Instrs, register: u8, value: u64, parts: &[u8]) -> Result<(), AllocError>
    requires { AllByRecursion (λ k. k < 4) parts.now }
    ensures { OnOk result (code.new ≡ code.old ++ spec.more_moves register value parts.now) }
{
    let mut rest = parts;
    'parts: while let [k, tail @ ..] = rest {
        code.push(Instr::MoveWide {
            op: MoveWideOp::Movk,
            rd: register,
            imm: part(value, *k),
            hw: *k,
        })?;
        rest = tail;
    }
    Ok(())
}

/// Adds what makes a register this number.
pub(crate) fn push_constant(code: &mut Instrs, register: u8, value: u64) -> Result<(), AllocError>
    ensures { OnOk result (code.new ≡ code.old ++ spec.constant register value) }
{
    let inverted = others(true, value).len() < others(false, value).len();
    let parts = others(inverted, value);
    match parts.as_slice() {
        [] => code.push(first_move(inverted, register, value, 0)),
        [first, more @ ..] => {
            code.push(first_move(inverted, register, value, *first))?;
            push_more(code, register, value, more)
        }
    }
}
