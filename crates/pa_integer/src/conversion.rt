//! Conversions to integer types.

ghost use Rattle.std.specs.Prelude.{◌≡◌, ◌<◌, ◌^◌, ◌-◌, pos, IsTrue};
ghost use Rattle.pa_integer.specs.Integers as spec;

/// How many numbers an integer type of that many bits has.
fn modulus(bits: u8) -> i128
    requires { IsTrue (spec.is_width bits) }
    ensures { result ≡ pos (2 ^ bits) }
{
    match bits {
        8 => 0x100,
        16 => 0x1_0000,
        32 => 0x1_0000_0000,
        64 => 0x1_0000_0000_0000_0000,
        _ => unreachable!(),
    }
}

/// Half of how many numbers an integer type of that many bits has.
fn half(bits: u8) -> i128
    requires { IsTrue (spec.is_width bits) }
    ensures { result ≡ pos (2 ^ (bits - 1)) }
{
    match bits {
        8 => 0x80,
        16 => 0x8000,
        32 => 0x8000_0000,
        64 => 0x8000_0000_0000_0000,
        _ => unreachable!(),
    }
}

/// The bits of a number in two's complement (C11 6.2.6.2p2), in an integer type of that many bits.
pub fn residue(bits: u8, value: i128) -> u64
    requires { IsTrue (spec.is_width bits) }
    ensures value { result ≡ spec.residue bits value }
    ensures fits { result < 2 ^ bits }
{
    value.rem_euclid(modulus(bits)) as u64
}

/// The number of an integer type of that many bits whose bits these are.
pub fn of_bits(bits: u8, signed: bool, word: u64) -> i128
    requires width { IsTrue (spec.is_width bits) }
    requires word { word < 2 ^ bits }
    ensures { result ≡ spec.of_bits bits signed word }
{
    let value = i128::from(word);
    if signed && value >= half(bits) {
        value - modulus(bits)
    } else {
        value
    }
}

/// A number in an integer type of that many bits, other than `_Bool` (C11 6.3.1.3): modulo 2^bits, also where the type is signed.
pub fn wrapped(bits: u8, signed: bool, value: i128) -> i128
    requires { IsTrue (spec.is_width bits) }
    ensures { result ≡ spec.wrapped bits signed value }
{
    of_bits(bits, signed, residue(bits, value))
}

/// Whether an integer type of that many bits has the number.
pub(crate) fn is_in_range(bits: u8, signed: bool, value: i128) -> bool
    requires { IsTrue (spec.is_width bits) }
    ensures { result ≡ spec.is_in_range bits signed value }
{
    if signed {
        -half(bits) <= value && value < half(bits)
    } else {
        0 <= value && value < modulus(bits)
    }
}
