ghost use Rattle.std.specs.Prelude.{◌≡◌, ◌↔◌, IsTrue, Some};
ghost use Rattle.pa_a64.specs.Decoding.{decoded, encoded, row, InRange};
ghost use Rattle.pa_a64.specs.Parts.{fixed};
ghost use Rattle.pa_a64.specs.Table.{parts};

use crate::instr::*;
use crate::signed::{is_signed, to_bits};
use crate::table::table;
use pa_num::Field;

// Whether a value of this type fits a field of this place.
macro_rules! fits {
    (bool, $place:tt, $value:expr) => { true };
    (i8, [$low:literal, $length:literal], $value:expr) => { is_signed(i32::from($value), $length) };
    (i16, [$low:literal, $length:literal], $value:expr) => { is_signed(i32::from($value), $length) };
    (i32, [$low:literal, $length:literal], $value:expr) => { is_signed($value, $length) };
    (i32, [$high:literal, $upper:literal, $low:literal, $lower:literal], $value:expr) => { is_signed($value, $upper + $lower) };
    ($kind:ident, [$low:literal, $length:literal], $value:expr) => { u64::from($value) < 1 << $length };
}

// The fields of each line fit, and where a row has a condition it holds.
macro_rules! lines_in_range {
    ($instr:ident; $( $part:ident { $( [$($top:tt)*] {
        $( $line:ident $(= $word:literal)? $($op:ident : $ops:ident [ $($row:ident = $base:literal $(if $guard:expr)?),* ])?
            { $($field:ident : $kind:ident $place:tt;)* } )*
    } )* } )*) => {
        match $instr {
            $($($(
                Instr::$line { $($op,)? $($field),* } => {
                    true $(&& fits!($kind, $place, $field))* $($( $(&& ($op != $ops::$row || $guard))? )*)?
                }
            )*)*)*
        }
    };
}

/// Whether the fields of an instruction fit its word.
pub fn in_range(instr: Instr) -> bool
    ensures { IsTrue result ↔ InRange instr }
{
    table!(lines_in_range, instr)
}

// The fixed bits of each row.
macro_rules! fixed_bits_of_lines {
    ($instr:ident; $( $part:ident { $( [$($top:tt)*] {
        $( $line:ident $(= $word:literal)? $($op:ident : $ops:ident [ $($row:ident = $base:literal $(if $guard:expr)?),* ])? { $($fields:tt)* } )*
    } )* } )*) => {
        match $instr {
            $($($(
                Instr::$line { $($op,)? .. } => $($word)? $(match $op { $($ops::$row => $base),* })?,
            )*)*)*
        }
    };
}

// The word of an instruction's row, with zeros in the fields.
fn fixed_bits(instr: Instr) -> u64
    ensures { result ≡ fixed (parts (row instr)) }
{
    table!(fixed_bits_of_lines, instr)
}

// The number in a field for a value of this type.
macro_rules! bits_of {
    (i8, $length:expr, $value:expr) => { to_bits(i32::from($value), $length) };
    (i16, $length:expr, $value:expr) => { to_bits(i32::from($value), $length) };
    (i32, $length:expr, $value:expr) => { to_bits($value, $length) };
    ($kind:ident, $length:expr, $value:expr) => { u64::from($value) };
}

// The word with a value of this type in a field.
macro_rules! put {
    ($word:expr, $kind:ident, [$low:literal, $length:literal], $value:expr) => {
        Field::<$low, $length>::put($word, bits_of!($kind, $length, $value))
    };
    ($word:expr, $kind:ident, [$high:literal, $upper:literal, $low:literal, $lower:literal], $value:expr) => {{
        let bits = bits_of!($kind, $upper + $lower, $value);
        let word = Field::<$high, $upper>::put($word, Field::<$lower, $upper>::get(bits));
        Field::<$low, $lower>::put(word, Field::<0, $lower>::get(bits))
    }};
}

// The word with the fields of each line put into it, from bit 0 up.
macro_rules! put_fields {
    ($instr:ident, $word:ident; $( $part:ident { $( [$($top:tt)*] {
        $( $line:ident $(= $only:literal)? $($op:ident : $rows:tt $list:tt)? { $($field:ident : $kind:ident $place:tt;)* } )*
    } )* } )*) => {
        match $instr {
            $($($(
                Instr::$line { $($field,)* .. } => {
                    $( let $word = put!($word, $kind, $place, $field); )*
                    $word
                }
            )*)*)*
        }
    };
}

// The word with the fields of an instruction put into it.
fn with_fields(word: u64, instr: Instr) -> u64
    requires range { InRange instr }
    requires row { word ≡ fixed (parts (row instr)) }
    ensures { result ≡ encoded instr }
{
    table!(put_fields, instr, word)
}

/// The word of an instruction.
pub fn encode(instr: Instr) -> u32
    requires { InRange instr }
    ensures word { result ≡ encoded instr }
    ensures back { decoded result ≡ Some instr }
{
    with_fields(fixed_bits(instr), instr) as u32
}
