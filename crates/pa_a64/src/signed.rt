ghost use Rattle.std.specs.Prelude.{◌≡◌, ◌^◌, ◌<◌, ◌≤◌, ◌↔◌, IsTrue};
ghost use Rattle.pa_a64.specs.Decoding.{IsSigned, bits_of_signed, signed_of_bits};

use pa_num::{sext, trunc};

/// The two's complement of `length` bits for a number that fits them.
pub(crate) fn to_bits(value: i32, length: u32) -> u64
    requires some { 1 ≤ length }
    requires within { length ≤ 32 }
    requires fits { IsSigned length value }
    ensures bits { result ≡ bits_of_signed length value }
    ensures fits { result < 2 ^ length }
{
    trunc(i64::from(value).cast_unsigned(), length)
}

/// The number whose two's complement of `length` bits this is.
pub(crate) fn from_bits(bits: u64, length: u32) -> i32
    requires some { 1 ≤ length }
    requires within { length ≤ 32 }
    requires fits { bits < 2 ^ length }
    ensures value { result ≡ signed_of_bits length bits }
    ensures fits { IsSigned length result }
{
    sext(bits, length).cast_signed() as i32
}

/// Whether a number fits the two's complement of `length` bits.
pub(crate) fn is_signed(value: i32, length: u32) -> bool
    requires some { 1 ≤ length }
    requires within { length ≤ 32 }
    ensures { IsTrue result ↔ IsSigned length value }
{
    let half = 1i64 << (length - 1);
    -half <= i64::from(value) && i64::from(value) < half
}
