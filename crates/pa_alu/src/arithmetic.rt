//! Arithmetic on 64 bits that Rust has no operator for, as the instructions do it.

ghost use Rattle.std.specs.Prelude.{◌≡◌, ◌+◌, ◌-◌, ◌*◌, ◌/◌, ◌^◌, ◌<◌, ◌≤◌, ℤ, pos, ◌≤ℤ◌, ◌<ℤ◌};
ghost use Rattle.std.specs.Int.{w64};
ghost use Rattle.pa_num.specs.Arithmetic.{udiv64, sdiv64, lsl64, lsr64, asr64, scaled64, with_part, is_negative64};
ghost use Rattle.pa_object.specs.Effects.{bitfield, extended, moved, immediate_of, immediate_sum, logical, multiplied, quotient, shifted_by};

use pa_a64::{BitfieldOp, DivideOp, LogicalOp, MoveWideOp, MultiplyAddOp, ShiftOp, SumImmediateOp};
use pa_num::{Field, sext, trunc};

/// The quotient, and 0 where the divisor is 0.
#[tactic(auto, unfolding(pa_num::specs::Arithmetic::udiv64))]
pub fn udiv(x: u64, y: u64) -> u64
    ensures { result ≡ udiv64 x y }
{
    if y == 0 { 0 } else { x / y }
}

/// The quotient of the integers that the numbers stand for, cut towards zero; 0 where the divisor is 0, and the smallest
/// integer by -1 gives itself.
pub fn sdiv(x: u64, y: u64) -> u64
    ensures { result ≡ sdiv64 x y }
{
    if y == 0 {
        return 0;
    }
    x.cast_signed()
        .wrapping_div(y.cast_signed())
        .cast_unsigned()
}

/// A shift to the left by an amount that counts modulo 64.
#[tactic(auto, unfolding(pa_num::specs::Arithmetic::lsl64, pa_num::specs::Arithmetic::wrap))]
pub fn lsl(x: u64, amount: u64) -> u64
    ensures { result ≡ lsl64 x amount }
{
    x << (amount % 64)
}

/// A shift to the right by an amount that counts modulo 64, with zeros above.
#[tactic(auto, unfolding(pa_num::specs::Arithmetic::lsr64))]
pub fn lsr(x: u64, amount: u64) -> u64
    ensures { result ≡ lsr64 x amount }
{
    x >> (amount % 64)
}

/// Whether the top bit is set.
pub fn is_negative(x: u64) -> bool
    ensures { result ≡ is_negative64 x }
{
    x >= 1 << 63
}

/// A shift to the right by an amount that counts modulo 64, with copies of the top bit above.
#[tactic(auto, unfolding(pa_num::specs::Arithmetic::asr64, pa_num::specs::Arithmetic::not64))]
pub fn asr(x: u64, amount: u64) -> u64
    ensures { result ≡ asr64 x amount }
{
    let amount = amount % 64;
    if is_negative(x) {
        !(!x >> amount)
    } else {
        x >> amount
    }
}

/// The number with the 16-bit part at `at` replaced.
#[tactic(auto, unfolding(pa_num::specs::Arithmetic::with_part))]
pub fn with_part(x: u64, at: u8, part: u16) -> u64
    requires { at < 4 }
    ensures { result ≡ with_part x at part }
{
    let part = u64::from(part);
    match at {
        0 => Field::<0, 16>::put(x, part),
        1 => Field::<16, 16>::put(x, part),
        2 => Field::<32, 16>::put(x, part),
        _ => Field::<48, 16>::put(x, part),
    }
}

/// `scale` times an integer, in two's complement.
pub fn scaled(scale: u64, value: i32) -> u64
    requires { scale ≤ 4096 }
    ensures { result ≡ scaled64 scale value }
{
    scale.wrapping_mul(i64::from(value).cast_unsigned())
}

/// Bits `immr` to `imms` of the value, at bit 0; or its bits 0 to `imms`, at bit 64 - `immr`. Above them are copies of
/// the top one of these bits, or zeros.
#[tactic(auto, unfolding(pa_object::specs::Effects::bitfield, pa_num::specs::Arithmetic::wrap))]
pub fn bitfield(op: BitfieldOp, value: u64, immr: u8, imms: u8) -> u64
    requires low { immr < 64 }
    requires high { imms < 64 }
    ensures { result ≡ bitfield op value immr imms }
{
    if immr <= imms {
        extended(op, value >> immr, u32::from(imms - immr) + 1)
    } else {
        extended(op, value, u32::from(imms) + 1) << (64 - immr)
    }
}

fn extended(op: BitfieldOp, value: u64, bits: u32) -> u64
    requires some { 1 ≤ bits }
    requires within { bits ≤ 64 }
    ensures { result ≡ extended op bits value }
{
    match op {
        BitfieldOp::Sbfm => sext(value, bits),
        BitfieldOp::Ubfm => trunc(value, bits),
    }
}

fn part_at(at: u8, part: u16) -> u64
    requires { at < 4 }
    ensures { result ≡ part * 2 ^ (16 * at) }
{
    u64::from(part) << (16 * at)
}

/// What an immediate move makes of the old value: one 16-bit part of zero, of all ones, or of the old value.
#[tactic(auto, unfolding(pa_num::specs::Arithmetic::not64))]
pub fn moved(op: MoveWideOp, old: u64, imm: u16, hw: u8) -> u64
    requires { hw < 4 }
    ensures { result ≡ moved op old imm hw }
{
    match op {
        MoveWideOp::Movz => part_at(hw, imm),
        MoveWideOp::Movn => !part_at(hw, imm),
        MoveWideOp::Movk => with_part(old, hw, imm),
    }
}

/// An immediate of a sum, which counts 4096 each where it is shifted.
pub fn immediate(imm: u16, shifted: bool) -> u64
    ensures { result ≡ immediate_of imm shifted }
{
    if shifted {
        u64::from(imm) * 4096
    } else {
        u64::from(imm)
    }
}

#[tactic(auto, unfolding(pa_num::specs::Arithmetic::add64, pa_num::specs::Arithmetic::sub64, pa_num::specs::Arithmetic::wrap))]
pub fn immediate_sum(op: SumImmediateOp, x: u64, y: u64) -> u64
    ensures { result ≡ immediate_sum op x y }
{
    match op {
        SumImmediateOp::Add => x.wrapping_add(y),
        SumImmediateOp::Sub => x.wrapping_sub(y),
    }
}

#[tactic(auto, unfolding(pa_num::specs::Arithmetic::not64))]
pub fn logical(op: LogicalOp, x: u64, y: u64) -> u64
    ensures { result ≡ logical op x y }
{
    match op {
        LogicalOp::And => x & y,
        LogicalOp::Orr => x | y,
        LogicalOp::Eor => x ^ y,
        LogicalOp::Orn => x | !y,
    }
}

/// `z` with the product of `x` and `y` added or taken away.
#[tactic(auto, unfolding(pa_num::specs::Arithmetic::add64, pa_num::specs::Arithmetic::sub64, pa_num::specs::Arithmetic::mul64, pa_num::specs::Arithmetic::wrap))]
pub fn multiplied(op: MultiplyAddOp, x: u64, y: u64, z: u64) -> u64
    ensures { result ≡ multiplied op x y z }
{
    let product = x.wrapping_mul(y);
    match op {
        MultiplyAddOp::Madd => z.wrapping_add(product),
        MultiplyAddOp::Msub => z.wrapping_sub(product),
    }
}

pub fn quotient(op: DivideOp, x: u64, y: u64) -> u64
    ensures { result ≡ quotient op x y }
{
    match op {
        DivideOp::Udiv => udiv(x, y),
        DivideOp::Sdiv => sdiv(x, y),
    }
}

pub fn shifted_by(op: ShiftOp, x: u64, amount: u64) -> u64
    ensures { result ≡ shifted_by op x amount }
{
    match op {
        ShiftOp::Lslv => lsl(x, amount),
        ShiftOp::Lsrv => lsr(x, amount),
        ShiftOp::Asrv => asr(x, amount),
    }
}
