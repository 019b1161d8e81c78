ghost use Rattle.std.specs.Prelude.{◌≡◌, ◌^◌, ◌<◌, ◌↔◌, None, IsNone, IsSome, IfSome};
ghost use Rattle.pa_a64.specs.Decoding.{decoded, decoded_among, decoded_by, encoded, InRange};
ghost use Rattle.pa_a64.specs.Table.{Row, branch_rows, immediate_rows, memory_rows, register_rows};

use crate::instr::*;
use crate::signed::from_bits;
use crate::table::table;
use pa_num::Field;

// The bits of a field.
macro_rules! ones {
    ([$low:literal, $length:literal]) => { (u64::MAX >> (64 - $length)) << $low };
    ([$high:literal, $upper:literal, $low:literal, $lower:literal]) => { ones!([$high, $upper]) | ones!([$low, $lower]) };
}

// The value of this type in a field.
macro_rules! get {
    ($word:ident, $kind:ident, [$low:literal, $length:literal]) => {
        value_of!($kind, Field::<$low, $length>::get($word), $length)
    };
    ($word:ident, $kind:ident, [$high:literal, $upper:literal, $low:literal, $lower:literal]) => {{
        let bits = (Field::<$high, $upper>::get($word) << $lower) + Field::<$low, $lower>::get($word);
        value_of!($kind, bits, $upper + $lower)
    }};
}

// The value of this type for the number in a field.
macro_rules! value_of {
    (bool, $bits:expr, $length:expr) => { $bits == 1 };
    (i8, $bits:expr, $length:expr) => { from_bits($bits, $length) as i8 };
    (i16, $bits:expr, $length:expr) => { from_bits($bits, $length) as i16 };
    (i32, $bits:expr, $length:expr) => { from_bits($bits, $length) };
    ($kind:ident, $bits:expr, $length:expr) => { $bits as $kind };
}

// The instruction of the first line of which a word has a row's fixed bits, all that are in no field.
macro_rules! first_line {
    ($word:ident) => { None };
    ($word:ident $line:ident = $base:literal { $($field:ident : $kind:ident $place:tt;)* } $($rest:tt)*) => {
        if $word & (0xffff_ffff $(^ (ones!($place)))*) == $base {
            $( let $field = get!($word, $kind, $place); )*
            Some(Instr::$line { $($field),* })
        } else {
            first_line!($word $($rest)*)
        }
    };
    ($word:ident $line:ident $op:ident : $ops:ident [ $($row:ident = $base:literal $(if $guard:expr)?),* ]
        { $($field:ident : $kind:ident $place:tt;)* } $($rest:tt)*) => {{
        $( let $field = get!($word, $kind, $place); )*
        let $op = match $word & (0xffff_ffff $(^ (ones!($place)))*) {
            $( $base $(if $guard)? => $ops::$row, )*
            _ => return first_line!($word $($rest)*),
        };
        Some(Instr::$line { $op, $($field),* })
    }};
}

// The instruction of a word by the lines of its highest byte.
macro_rules! by_top {
    ($word:ident $( [$($top:literal)|+] { $($lines:tt)* } )*) => {
        match Field::<24, 8>::get($word) {
            $( $($top)|+ => first_line!($word $($lines)*), )*
            _ => None,
        }
    };
}

// The same by one part of the table.
macro_rules! part {
    (immediate, $word:ident; immediate { $($lines:tt)* } $($rest:tt)*) => { by_top!($word $($lines)*) };
    (register, $word:ident; immediate $i:tt register { $($lines:tt)* } $($rest:tt)*) => { by_top!($word $($lines)*) };
    (memory, $word:ident; immediate $i:tt register $r:tt memory { $($lines:tt)* } $($rest:tt)*) => { by_top!($word $($lines)*) };
    (branch, $word:ident; immediate $i:tt register $r:tt memory $m:tt branch { $($lines:tt)* }) => { by_top!($word $($lines)*) };
}

// Data processing with an immediate.
#[inline(always)]
fn immediate(word: u64) -> Option<Instr>
    requires { word < 2 ^ 32 }
    ensures { result ≡ decoded_among immediate_rows word }
{
    table!(part, immediate, word)
}

// Data processing with registers.
#[inline(always)]
fn register(word: u64) -> Option<Instr>
    requires { word < 2 ^ 32 }
    ensures { result ≡ decoded_among register_rows word }
{
    table!(part, register, word)
}

// Loads and stores.
#[inline(always)]
fn memory(word: u64) -> Option<Instr>
    requires { word < 2 ^ 32 }
    ensures { result ≡ decoded_among memory_rows word }
{
    table!(part, memory, word)
}

// Branches, exceptions and hints.
#[inline(always)]
fn branch(word: u64) -> Option<Instr>
    requires { word < 2 ^ 32 }
    ensures { result ≡ decoded_among branch_rows word }
{
    table!(part, branch, word)
}

// Bits 28 to 25 name the part, as in the manual's first table of the A64 encoding.
#[inline(always)]
fn by_part(word: u64) -> Option<Instr>
    requires { word < 2 ^ 32 }
    ensures { result ≡ decoded word }
{
    match Field::<25, 4>::get(word) {
        0b1000 | 0b1001 => immediate(word),
        0b1010 | 0b1011 => branch(word),
        0b0100 | 0b0110 | 0b1100 | 0b1110 => memory(word),
        0b0101 | 0b1101 => register(word),
        _ => None,
    }
}

/// The instruction of a word, or None exactly where the word is of no row.
#[inline(always)]
pub fn decode(word: u32) -> Option<Instr>
    ensures instruction { result ≡ decoded word }
    ensures none { IsNone result ↔ ((r : Row) → decoded_by r word ≡ None) }

    // The instruction is in range, and its word is this one.
    ensures back { IfSome result (λ i. InRange i × (encoded i ≡ word)) }

    // No word is of two rows.
    ensures one_row { (q r : Row) → IsSome (decoded_by q word) → IsSome (decoded_by r word) → q ≡ r }
{
    by_part(u64::from(word))
}
