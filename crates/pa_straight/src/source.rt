ghost use Rattle.std.specs.Prelude.{◌≡◌, ◌≢◌, ◌<◌, ◌^◌, ◌++◌, ℕ, true, length, IfOk, MatchOption};
ghost use Rattle.std.specs.Char.{is_ascii_digit};
ghost use Rattle.std.specs.Fmt.{decimal};
ghost use Rattle.std.specs.List.{prefix_len};
ghost use Rattle.std.specs.Str.{all_ascii_digits};
ghost use Rattle.pa_straight.specs.Source.{framed, IsTextOf, IsNoText, BeginsOtherwise, StopsNumber, IsNoNumber};

use pa_num::{Memory, Sequence};
use std::alloc::Global;

/// How many lines `putchar(N);` a program of the first form may have.
pub const MOST_PRINTS: usize = 1000;

/// The greatest number that such a program may name.
pub const GREATEST: u32 = 0x7FFF_FFFF;

/// The digit that no longer number begins with.
const ZERO: u8 = b'0';

/// A program of the first form: it prints the low bytes of these numbers in order, and returns.
#[derive(Debug, Drop)]
pub struct Straight {
    pub prints: Sequence<u32>,
    pub returns: u32,
}

/// The program of a text, or none where the text isn't of the first form: the lines `#include <stdio.h>` and
/// `int main(void){`, at most [`MOST_PRINTS`] lines `putchar(N);`, the lines `return N;` and `}`. Each line ends with a line
/// feed, and each N is decimal, at most [`GREATEST`], without leading zeros.
pub fn read(alloc: Global, bytes: &[u8]) -> Result<Option<Straight>, Memory>
    ensures { IfOk result (λ answer. MatchOption answer (IsNoText bytes.now) (λ s. IsTextOf bytes.now s)) }
{
    let Some(mut rest) = bytes.strip_prefix(b"#include <stdio.h>\nint main(void){\n") else {
        return Ok(None);
    };
    let mut prints = Sequence::new(alloc);
    while let Some((number, after)) = framed(rest, b"putchar(", b");\n") {
        if prints.len() == MOST_PRINTS {
            return Ok(None);
        }
        prints.push(number)?;
        rest = after;
    }
    let Some((returns, behind)) = framed(rest, b"return ", b";\n}\n") else {
        return Ok(None);
    };
    if !behind.is_empty() {
        return Ok(None);
    }
    Ok(Some(Straight { prints, returns }))
}

/// A number between two texts at the front of a text, and what stands behind.
fn framed<'a>(bytes: &'a [u8], before: &[u8], behind: &[u8]) -> Option<(u32, &'a [u8])>
    requires stops { StopsNumber behind.now }
    requires some { 0 < length behind.now }
    ensures { MatchOption result (BeginsOtherwise before.now behind.now bytes.now) (λ got. (got.0 < 2 ^ 31) × (bytes.now ≡ framed before.now got.0 behind.now ++ got.1.now)) }
{
    let (number, rest) = number(bytes.strip_prefix(before)?)?;
    Some((number, rest.strip_prefix(behind)?))
}

/// The number at the front of a text, up to the first byte that is no digit.
fn number(bytes: &[u8]) -> Option<(u32, &[u8])>
    ensures { MatchOption result (IsNoNumber bytes.now) (λ got. (got.0 < 2 ^ 31) × (bytes.now ≡ decimal got.0 ++ got.1.now) × StopsNumber got.1.now) }
{
    let (digits, rest) = bytes.split_at(digit_count(bytes));
    Some((value(digits)?, rest))
}

/// How many digits stand at the front of a text.
fn digit_count(bytes: &[u8]) -> usize
    ensures { result ≡ prefix_len is_ascii_digit bytes.now }
{
    bytes
        .iter()
        .take_while(|byte| byte.is_ascii_digit())
        .count()
}

/// The number that these digits write without a leading zero.
fn value(digits: &[u8]) -> Option<u32>
    requires { all_ascii_digits digits.now ≡ true }
    ensures { MatchOption result ((n : ℕ) → n < 2 ^ 31 → decimal n ≢ digits.now) (λ n. (n < 2 ^ 31) × (decimal n ≡ digits.now)) }
{
    if digits.len() > 1 && digits[0] == ZERO {
        return None;
    }
    let Ok(text) = std::str::from_utf8(digits) else {
        return None;
    };
    match text.parse::<u32>() {
        Ok(value) if value <= GREATEST => Some(value),
        _ => None,
    }
}
