use crate::functions::{CASES, RESULTS};
use crate::placing::{Left, SP, run};
use crate::programs::{extending, of_one, of_two, program};
use crate::selectable::is_selectable;
use pa_lir::{BinOp, Lir, UnOp};
use pa_machine::{End, Trap};
use pa_num::Memory;
use pa_select::select;
use std::alloc::Global;
use std::test::Fail;

/// Selects a program, of which there has to be code, and runs it.
fn run_program(alloc: Global, lir: &Lir, input: &[u8]) -> Result<Left, Memory> {
    if !is_selectable(alloc, lir)? {
        return Err(Memory);
    }
    let objects = select(alloc, lir)?;
    run(alloc, objects.as_slice(), input)
}

const NUMBERS: [u64; 8] = [
    0,
    1,
    63,
    0xffff,
    0x7fff_ffff_ffff_ffff,
    0x8000_0000_0000_0000,
    0xffff_0000_ffff_0000,
    0xffff_ffff_ffff_ffff,
];

const OPERATORS: [BinOp; 19] = [
    BinOp::Add,
    BinOp::Sub,
    BinOp::Mul,
    BinOp::SDiv,
    BinOp::UDiv,
    BinOp::SRem,
    BinOp::URem,
    BinOp::And,
    BinOp::Or,
    BinOp::Xor,
    BinOp::Shl,
    BinOp::Lsr,
    BinOp::Asr,
    BinOp::Eq,
    BinOp::Ne,
    BinOp::SLt,
    BinOp::SLe,
    BinOp::ULt,
    BinOp::ULe,
];

/// What the operator means. None: it is undefined.
fn meant(op: BinOp, x: u64, y: u64) -> Option<u64> {
    let (signed_x, signed_y) = (x.cast_signed(), y.cast_signed());
    let divides = y != 0;
    match op {
        BinOp::Add => Some(x.wrapping_add(y)),
        BinOp::Sub => Some(x.wrapping_sub(y)),
        BinOp::Mul => Some(x.wrapping_mul(y)),
        BinOp::SDiv if divides => Some(signed_x.wrapping_div(signed_y).cast_unsigned()),
        BinOp::UDiv if divides => Some(x / y),
        BinOp::SRem if divides => Some(signed_x.wrapping_rem(signed_y).cast_unsigned()),
        BinOp::URem if divides => Some(x % y),
        BinOp::And => Some(x & y),
        BinOp::Or => Some(x | y),
        BinOp::Xor => Some(x ^ y),
        BinOp::Shl => Some(x << (y % 64)),
        BinOp::Lsr => Some(x >> (y % 64)),
        BinOp::Asr => Some((signed_x >> (y % 64)).cast_unsigned()),
        BinOp::Eq => Some(u64::from(x == y)),
        BinOp::Ne => Some(u64::from(x != y)),
        BinOp::SLt => Some(u64::from(signed_x < signed_y)),
        BinOp::SLe => Some(u64::from(signed_x <= signed_y)),
        BinOp::ULt => Some(u64::from(x < y)),
        BinOp::ULe => Some(u64::from(x <= y)),
        _ => None,
    }
}

#[test]
fn operators_on_two_numbers(rt: HostRuntime) -> Result<(), Fail> {
    for op in OPERATORS {
        for x in NUMBERS {
            for y in NUMBERS {
                if let Some(meant) = meant(op, x, y) {
                    let left = run_program(rt.alloc(), &of_two(rt.alloc(), op, x, y)?, b"")?;
                    assert_eq!(rt; left.x0, meant, "{op:?} {x} {y}");
                    assert_eq!(rt; left.sp, SP);
                    assert_eq!(rt; left.end, End::Trap(Trap::Break));
                }
            }
        }
    }
    Ok(())
}

#[test]
fn operators_on_one_number(rt: HostRuntime) -> Result<(), Fail> {
    for x in NUMBERS {
        let negative = run_program(rt.alloc(), &of_one(rt.alloc(), UnOp::Neg, x)?, b"")?;
        assert_eq!(rt; negative.x0, 0_u64.wrapping_sub(x));
        let turned = run_program(rt.alloc(), &of_one(rt.alloc(), UnOp::Not, x)?, b"")?;
        assert_eq!(rt; turned.x0, !x);
    }
    Ok(())
}

const EXTENSIONS: [(u8, bool, u64, u64); 8] = [
    (1, false, 3, 1),
    (1, true, 3, 0xffff_ffff_ffff_ffff),
    (8, false, 0x1ff, 0xff),
    (8, true, 0x180, 0xffff_ffff_ffff_ff80),
    (16, true, 0x7fff, 0x7fff),
    (32, true, 0x8000_0000, 0xffff_ffff_8000_0000),
    (63, true, 0x7fff_ffff_ffff_ffff, 0xffff_ffff_ffff_ffff),
    (64, true, 0x8000_0000_0000_0000, 0x8000_0000_0000_0000),
];

#[test]
fn extends(rt: HostRuntime) -> Result<(), Fail> {
    for (bits, signed, from, meant) in EXTENSIONS {
        let left = run_program(rt.alloc(), &extending(rt.alloc(), bits, signed, from)?, b"")?;
        assert_eq!(rt; left.x0, meant, "{bits} {signed} {from}");
    }
    Ok(())
}

#[test]
fn programs(rt: HostRuntime) -> Result<(), Fail> {
    for case in &CASES {
        let lir = program(rt.alloc(), case.functions)?;
        let left = run_program(rt.alloc(), &lir, case.input)?;
        assert_eq!(rt; left.end, End::Trap(Trap::Break));
        assert_eq!(rt; left.x0, case.result);
        assert_eq!(rt; left.sp, SP);
        assert_eq!(rt; left.output.as_slice(), case.output);
    }
    Ok(())
}

#[test]
fn results(rt: HostRuntime) -> Result<(), Fail> {
    for (functions, meant) in RESULTS {
        let lir = program(rt.alloc(), functions)?;
        let left = run_program(rt.alloc(), &lir, b"")?;
        assert_eq!(rt; left.end, End::Trap(Trap::Break));
        assert_eq!(rt; left.x0, meant);
        assert_eq!(rt; left.sp, SP);
        assert!(rt; left.output.is_empty());
    }
    Ok(())
}
