ghost use Rattle.std.specs.Prelude.{◌≡◌, ◌≤◌, ◌+◌, ◌*◌, length, IfOk, option_and_then};
ghost use Rattle.std.specs.Char.{digit_value};
ghost use Rattle.std.specs.Str.Parse.{digits_value};
ghost use Rattle.pa_lex.specs.Literals as literals;
ghost use Rattle.pa_lex.specs.Reading as reading;

use crate::byte;
use crate::form::digits_len;
use pa_num::Bytes;
use std::alloc::{AllocError, Global};

/// The number that one more digit makes of a number, where it has 64 bits.
fn with_digit(value: u64, radix: u8, digit: u8) -> Option<u64>
    ensures { result ≡ reading.within_u64 (value * radix + digit_value digit) }
{
    value
        .checked_mul(u64::from(radix))?
        .checked_add(u64::from(byte::value_of_digit(digit)))
}

/// The value of digits, where it has 64 bits.
#[tactic(auto, using(crate::proofs::Numbers::stays_large, crate::proofs::Numbers::within_is))]
pub fn number(radix: u8, digits: &[u8]) -> Option<u64>
    requires { 1 ≤ radix }
    ensures { result ≡ reading.within_u64 (digits_value radix digits.now) }
{
    let mut value = 0;
    let mut rest = digits;
    'digits: while let [digit, tail @ ..] = rest {
        value = with_digit(value, radix, *digit)?;
        rest = tail;
    }
    Some(value)
}

fn simple_escape(letter: u8) -> Option<u8>
    ensures { result ≡ literals.simple_escape letter }
{
    match letter {
        b'\'' => Some(b'\''),
        b'"' => Some(b'"'),
        b'?' => Some(b'?'),
        b'\\' => Some(b'\\'),
        b'a' => Some(7),
        b'b' => Some(8),
        b'f' => Some(12),
        b'n' => Some(b'\n'),
        b'r' => Some(b'\r'),
        b't' => Some(b'\t'),
        b'v' => Some(11),
        _ => None,
    }
}

/// The value of digits, where it is a byte.
fn byte_number(radix: u8, digits: &[u8]) -> Option<u8>
    requires { 1 ≤ radix }
    ensures { result ≡ reading.within_byte (digits_value radix digits.now) }
{
    u8::try_from(number(radix, digits)?).ok()
}

/// The byte that an escape stands for, and how many bytes the escape has, from what stands behind its backslash.
fn escape(text: &[u8]) -> Option<(u8, usize)>
    ensures { result ≡ option_and_then reading.fitted (reading.escape_at text.now) }
{
    let (letter, tail) = text.split_first()?;
    if *letter == b'x' {
        let (digits, _) = tail.split_at(digits_len(16, tail));
        if digits.is_empty() {
            return None;
        }
        return Some((byte_number(16, digits)?, digits.len() + 2));
    }
    if byte::is_digit_of(8, *letter) {
        let (digits, _) = text.split_at(digits_len(8, text).min(3));
        return Some((byte_number(8, digits)?, digits.len() + 1));
    }
    Some((simple_escape(*letter)?, 2))
}

/// The byte that stands at the front of a literal's body, and how many bytes stand for it.
#[tactic(auto, unfolding(crate::specs::Reading::character_at))]
fn character(text: &[u8]) -> Option<(u8, usize)>
    ensures { result ≡ reading.character_at text.now }
{
    match text {
        [b'\\', tail @ ..] => escape(tail),
        [c, ..] => Some((*c, 1)),
        [] => None,
    }
}

/// The bytes that a literal's body stands for. None: it has an escape of no form or above 255.
pub fn bytes_of(alloc: Global, body: &[u8]) -> Result<Option<Bytes>, AllocError>
    ensures { IfOk result (reading.IsStoodFor body.now) }
{
    let mut bytes = Bytes::new(alloc);
    let mut rest = body;
    'pieces: while !rest.is_empty() {
        let Some((byte, count)) = character(rest) else {
            return Ok(None);
        };
        bytes.push(byte)?;
        let (_, tail) = rest.split_at(count);
        rest = tail;
    }
    Ok(Some(bytes))
}

/// The byte of a character constant. None: its body stands for another count of bytes than one.
pub fn character_of(body: &[u8]) -> Option<u8>
    ensures { reading.IsCharacterOf body.now result }
{
    let (byte, count) = character(body)?;
    (count == body.len()).then_some(byte)
}
