//! Arithmetic in integer types. None: the behaviour is undefined.

ghost use Rattle.std.specs.Prelude.{◌≡◌, ◌<◌, ◌+ℤ◌, ◌-ℤ◌, ◌*ℤ◌, IsTrue, Some};
ghost use Rattle.std.specs.Option.{option_and_then};
ghost use Rattle.pa_integer.specs.Integers as spec;

use crate::conversion::{is_in_range, of_bits, residue, wrapped};
use pa_typed::{BinaryOperation, Comparison};

/// The result of an operator in its type (C11 6.2.5p9, 6.5p5): an unsigned one wraps, a signed one has to fit.
fn settled(bits: u8, signed: bool, value: i128) -> Option<i128>
    requires { IsTrue (spec.is_width bits) }
    ensures { result ≡ spec.settled bits signed value }
{
    if !signed {
        Some(wrapped(bits, false, value))
    } else if is_in_range(bits, true, value) {
        Some(value)
    } else {
        None
    }
}

/// A product (C11 6.5.5p4).
fn product(bits: u8, signed: bool, left: i128, right: i128) -> Option<i128>
    requires width { IsTrue (spec.is_width bits) }
    requires left { IsTrue (spec.is_in_range bits signed left) }
    requires right { IsTrue (spec.is_in_range bits signed right) }
    ensures { result ≡ spec.settled bits signed (left *ℤ right) }
{
    if signed {
        settled(bits, true, left * right)
    } else {
        let whole = left as u128 * right as u128;
        let word = whole % (1u128 << bits);
        Some(word as i128)
    }
}

/// A quotient, which is cut towards zero (C11 6.5.5p5, p6).
fn quotient(bits: u8, signed: bool, left: i128, right: i128) -> Option<i128>
    requires width { IsTrue (spec.is_width bits) }
    requires left { IsTrue (spec.is_in_range bits signed left) }
    requires right { IsTrue (spec.is_in_range bits signed right) }
    ensures { result ≡ spec.quotient bits signed left right }
{
    if right == 0 {
        None
    } else {
        settled(bits, signed, left / right)
    }
}

/// A remainder, which has no value where the quotient has none (C11 6.5.5p6).
fn remainder(bits: u8, signed: bool, left: i128, right: i128) -> Option<i128>
    requires width { IsTrue (spec.is_width bits) }
    requires left { IsTrue (spec.is_in_range bits signed left) }
    requires right { IsTrue (spec.is_in_range bits signed right) }
    ensures { result ≡ spec.remainder bits signed left right }
{
    match quotient(bits, signed, left, right) {
        Some(_) => Some(left % right),
        None => None,
    }
}

/// By how many bits a shift goes: not negative, and below the width (C11 6.5.7p3).
fn amount(bits: u8, by: i128) -> Option<u32>
    requires { IsTrue (spec.is_width bits) }
    ensures { result ≡ spec.amount bits by }
{
    if 0 <= by && by < i128::from(bits) {
        Some(by as u32)
    } else {
        None
    }
}

/// A shift to the left by less than the width: not of a negative number, and a signed result has to fit (C11 6.5.7p4).
fn shifted_left(bits: u8, signed: bool, left: i128, by: u32) -> Option<i128>
    requires width { IsTrue (spec.is_width bits) }
    requires left { IsTrue (spec.is_in_range bits signed left) }
    requires by { by < bits }
    ensures { result ≡ spec.shifted_left bits signed left by }
{
    if left < 0 {
        None
    } else {
        settled(bits, signed, ((left as u128) << by) as i128)
    }
}

/// `left op right` in the integer type of both, or for a shift of the left one (C11 6.5.5 to 6.5.7, 6.5.10 to 6.5.12). None: the
/// behaviour is undefined.
#[tactic(auto, using(crate::proofs::Ranges::word_bounds))]
pub fn arithmetic(
    op: BinaryOperation,
    bits: u8,
    signed: bool,
    left: i128,
    right: i128,
) -> Option<i128>
    requires width { IsTrue (spec.is_width bits) }
    requires left { IsTrue (spec.is_in_range bits signed left) }
    requires right { IsTrue (spec.is_right_operand op bits signed right) }
    ensures { result ≡ spec.arithmetic op bits signed left right }
{
    match op {
        BinaryOperation::Multiply => product(bits, signed, left, right),
        BinaryOperation::Divide => quotient(bits, signed, left, right),
        BinaryOperation::Remainder => remainder(bits, signed, left, right),
        BinaryOperation::Add => settled(bits, signed, left + right),
        BinaryOperation::Subtract => settled(bits, signed, left - right),
        BinaryOperation::ShiftLeft => shifted_left(bits, signed, left, amount(bits, right)?),
        BinaryOperation::ShiftRight => Some(left >> amount(bits, right)?),
        BinaryOperation::And => {
            let word = residue(bits, left) & residue(bits, right);
            Some(of_bits(bits, signed, word))
        }
        BinaryOperation::Xor => {
            let word = residue(bits, left) ^ residue(bits, right);
            Some(of_bits(bits, signed, word))
        }
        BinaryOperation::Or => {
            let word = residue(bits, left) | residue(bits, right);
            Some(of_bits(bits, signed, word))
        }
    }
}

/// How two numbers compare (C11 6.5.8, 6.5.9).
pub fn compares(op: Comparison, left: i128, right: i128) -> bool
    ensures { result ≡ spec.compares op left right }
{
    match op {
        Comparison::Less => left < right,
        Comparison::Greater => left > right,
        Comparison::LessEqual => left <= right,
        Comparison::GreaterEqual => left >= right,
        Comparison::Equal => left == right,
        Comparison::NotEqual => left != right,
    }
}

/// `-value` (C11 6.5.3.3p3). None: the behaviour is undefined.
pub fn negated(bits: u8, signed: bool, value: i128) -> Option<i128>
    requires width { IsTrue (spec.is_width bits) }
    requires value { IsTrue (spec.is_in_range bits signed value) }
    ensures { result ≡ spec.negated bits signed value }
{
    settled(bits, signed, -value)
}

/// `~value` (C11 6.5.3.3p4).
pub fn complemented(bits: u8, signed: bool, value: i128) -> i128
    requires { IsTrue (spec.is_width bits) }
    ensures { Some result ≡ spec.complemented bits signed value }
{
    of_bits(bits, signed, residue(bits, -1) - residue(bits, value))
}
