//! The instructions of operators, of extensions, and of loads and stores, on registers.

ghost use Rattle.std.specs.Prelude.{◌≡◌, ◌≤◌, ◌++◌, OnOk};
ghost use Rattle.pa_lir.specs.WellFormed.{IsWidth};
ghost use Rattle.pa_select.specs.Computing as spec;

use crate::accesses::Instrs;
use crate::registers::{X9, X10, X11, XZR};
use pa_a64::{
    BitfieldOp, DivideOp, Instr, LoadStoreByteOp, LoadStoreHalfOp, LoadStoreOp, LoadStoreWordOp,
    LogicalOp, MultiplyAddOp, ShiftOp, SumOp,
};
use pa_lir::{BinOp, UnOp};
use std::alloc::AllocError;

/// Conditions, by their numbers. CS and HI are of numbers without a sign, GE and GT of signed ones.
const EQ: u8 = 0;

const NE: u8 = 1;

const CS: u8 = 2;

const HI: u8 = 8;

const GE: u8 = 10;

const GT: u8 = 12;

/// A sum, difference or comparison of x9 and x10.
fn sum(op: SumOp, rd: u8) -> Instr
    ensures { result ≡ spec.sum_of op rd }
{
    Instr::Sum {
        op,
        rd,
        rn: X9,
        rm: X10,
    }
}

fn divide(op: DivideOp, rd: u8) -> Instr
    ensures { result ≡ spec.quotient op rd }
{
    Instr::Divide {
        op,
        rd,
        rn: X9,
        rm: X10,
    }
}

fn logical(op: LogicalOp) -> Instr
    ensures { result ≡ spec.logical_of op }
{
    Instr::Logical {
        op,
        rd: X9,
        rn: X9,
        rm: X10,
    }
}

fn shift(op: ShiftOp) -> Instr
    ensures { result ≡ spec.shifted op }
{
    Instr::Shift {
        op,
        rd: X9,
        rn: X9,
        rm: X10,
    }
}

fn product() -> Instr
    ensures { result ≡ spec.product }
{
    Instr::MultiplyAdd {
        op: MultiplyAddOp::Madd,
        rd: X9,
        rn: X9,
        rm: X10,
        ra: XZR,
    }
}

/// Adds what makes x9 the remainder of x9 and x10.
fn push_remainder(code: &mut Instrs, op: DivideOp) -> Result<(), AllocError>
    ensures { OnOk result (code.new ≡ code.old ++ spec.remainder op) }
{
    code.push(divide(op, X11))?;
    code.push(Instr::MultiplyAdd {
        op: MultiplyAddOp::Msub,
        rd: X9,
        rn: X11,
        rm: X10,
        ra: X9,
    })
}

/// Adds what makes x9 1, and 0 where a condition holds of x9 and x10.
fn push_comparison(code: &mut Instrs, unless: u8) -> Result<(), AllocError>
    ensures { OnOk result (code.new ≡ code.old ++ spec.comparison unless) }
{
    code.push(sum(SumOp::Subs, XZR))?;
    code.push(Instr::Csinc {
        rd: X9,
        rn: XZR,
        rm: XZR,
        condition: unless,
    })
}

/// Adds what makes x9 the result of an operator on x9 and x10.
pub(crate) fn push_binary(code: &mut Instrs, op: BinOp) -> Result<(), AllocError>
    ensures { OnOk result (code.new ≡ code.old ++ spec.binary op) }
{
    match op {
        BinOp::Add => code.push(sum(SumOp::Add, X9)),
        BinOp::Sub => code.push(sum(SumOp::Sub, X9)),
        BinOp::Mul => code.push(product()),
        BinOp::SDiv => code.push(divide(DivideOp::Sdiv, X9)),
        BinOp::UDiv => code.push(divide(DivideOp::Udiv, X9)),
        BinOp::SRem => push_remainder(code, DivideOp::Sdiv),
        BinOp::URem => push_remainder(code, DivideOp::Udiv),
        BinOp::And => code.push(logical(LogicalOp::And)),
        BinOp::Or => code.push(logical(LogicalOp::Orr)),
        BinOp::Xor => code.push(logical(LogicalOp::Eor)),
        BinOp::Shl => code.push(shift(ShiftOp::Lslv)),
        BinOp::Lsr => code.push(shift(ShiftOp::Lsrv)),
        BinOp::Asr => code.push(shift(ShiftOp::Asrv)),
        BinOp::Eq => push_comparison(code, NE),
        BinOp::Ne => push_comparison(code, EQ),
        BinOp::SLt => push_comparison(code, GE),
        BinOp::SLe => push_comparison(code, GT),
        BinOp::ULt => push_comparison(code, CS),
        BinOp::ULe => push_comparison(code, HI),
    }
}

/// What makes x9 the result of an operator on it.
pub(crate) fn unary(op: UnOp) -> Instr
    ensures { result ≡ spec.unary op }
{
    match op {
        UnOp::Neg => Instr::Sum {
            op: SumOp::Sub,
            rd: X9,
            rn: XZR,
            rm: X9,
        },
        UnOp::Not => Instr::Logical {
            op: LogicalOp::Orn,
            rd: X9,
            rn: XZR,
            rm: X9,
        },
    }
}

/// What extends the low bits of x9.
pub(crate) fn extended(bits: u8, signed: bool) -> Instr
    requires { 1 ≤ bits }
    ensures { result ≡ spec.extended bits signed }
{
    Instr::Bitfield {
        op: if signed {
            BitfieldOp::Sbfm
        } else {
            BitfieldOp::Ubfm
        },
        rd: X9,
        rn: X9,
        immr: 0,
        imms: bits - 1,
    }
}

/// What loads so many bytes at the address in x9 into it.
pub(crate) fn load_sized(bytes: u8, signed: bool) -> Instr
    ensures { result ≡ spec.load_sized bytes signed }
{
    let (rt, rn, imm) = (X9, X9, 0);
    match (bytes, signed) {
        (1, true) => Instr::LoadStoreByte {
            op: LoadStoreByteOp::Ldrsb,
            rt,
            rn,
            imm,
        },
        (1, false) => Instr::LoadStoreByte {
            op: LoadStoreByteOp::Ldrb,
            rt,
            rn,
            imm,
        },
        (2, true) => Instr::LoadStoreHalf {
            op: LoadStoreHalfOp::Ldrsh,
            rt,
            rn,
            imm,
        },
        (2, false) => Instr::LoadStoreHalf {
            op: LoadStoreHalfOp::Ldrh,
            rt,
            rn,
            imm,
        },
        (4, true) => Instr::LoadStoreWord {
            op: LoadStoreWordOp::Ldrsw,
            rt,
            rn,
            imm,
        },
        (4, false) => Instr::LoadStoreWord {
            op: LoadStoreWordOp::Ldrw,
            rt,
            rn,
            imm,
        },
        _ => Instr::LoadStore {
            op: LoadStoreOp::Ldr,
            rt,
            rn,
            imm,
        },
    }
}

/// What stores so many low bytes of x10 at the address in x9.
pub(crate) fn store_sized(bytes: u8) -> Instr
    ensures { result ≡ spec.store_sized bytes }
{
    let (rt, rn, imm) = (X10, X9, 0);
    match bytes {
        1 => Instr::LoadStoreByte {
            op: LoadStoreByteOp::Strb,
            rt,
            rn,
            imm,
        },
        2 => Instr::LoadStoreHalf {
            op: LoadStoreHalfOp::Strh,
            rt,
            rn,
            imm,
        },
        4 => Instr::LoadStoreWord {
            op: LoadStoreWordOp::Strw,
            rt,
            rn,
            imm,
        },
        _ => Instr::LoadStore {
            op: LoadStoreOp::Str,
            rt,
            rn,
            imm,
        },
    }
}
