//! Registers and numbers.

ghost use Rattle.std.specs.Prelude.{◌≡◌, ◌<◌, ◌+◌, ◌*◌, IfSome, true};
ghost use Rattle.std.specs.List.{list_all};
ghost use Rattle.std.specs.Char.{is_ascii_digit, digit_value};
ghost use Rattle.std.specs.Str.Parse.{digits_value};
ghost use Rattle.pa_asmline.specs.Operands as operands;
ghost use Rattle.pa_asmline.specs.Reading as reading;
ghost use Rattle.pa_asmline.specs.Shapes.{option_shown};

use crate::kind::Range;
use crate::operand::Operand;
use crate::value::Value;

fn is_digit(byte: u8) -> bool
    ensures { result ≡ is_ascii_digit byte }
{
    byte.is_ascii_digit()
}

/// The register with this name, where 31 has another one than `x31`.
fn register(last: &[u8], text: &[u8]) -> Option<u8>
    ensures { result ≡ reading.register last.now text.now }
{
    match text {
        [b'x', one] if is_digit(*one) => Some(*one - b'0'),
        [b'x', ten @ b'1'..=b'3', one] if is_digit(*one) => {
            let number = 10 * (*ten - b'0') + (*one - b'0');
            if number < 31 { Some(number) } else { None }
        }
        _ if text == last => Some(31),
        _ => None,
    }
}

/// The register of a text as an operand.
pub fn register_operand<'a>(last: &[u8], text: &[u8]) -> Option<Operand<'a>>
    ensures { option_shown result ≡ reading.register_operand last.now text.now }
{
    let number = register(last, text)?;
    Some(Operand::Given(Value::Number {
        negative: false,
        count: u32::from(number),
    }))
}

fn are_digits(text: &[u8]) -> bool
    ensures { result ≡ list_all is_ascii_digit text.now }
{
    text.iter().all(|byte| is_digit(*byte))
}

fn is_numeral(negative: bool, digits: &[u8]) -> bool
    ensures { result ≡ operands.is_numeral negative digits.now }
{
    match digits {
        [b'0', more @ ..] => more.is_empty() && !negative,
        [first, more @ ..] => is_digit(*first) && are_digits(more),
        [] => false,
    }
}

/// The number that one more digit makes of a number, where it has 32 bits.
fn with_digit(number: u32, digit: u8) -> Option<u32>
    requires { is_ascii_digit digit ≡ true }
    ensures { result ≡ reading.within_u32 (number * 10 + digit_value digit) }
{
    number.checked_mul(10)?.checked_add(u32::from(digit - b'0'))
}

/// The value of decimal digits, where it has 32 bits.
#[tactic(auto, using(crate::proofs::Numbers::stays_large, crate::proofs::Numbers::within_is))]
fn size_of(digits: &[u8]) -> Option<u32>
    requires { list_all is_ascii_digit digits.now ≡ true }
    ensures { result ≡ reading.within_u32 (digits_value 10 digits.now) }
{
    let mut number = 0;
    let mut rest = digits;
    'digits: while let [digit, tail @ ..] = rest {
        number = with_digit(number, *digit)?;
        rest = tail;
    }
    Some(number)
}

/// What a number of this sign and these digits is as an operand.
fn value(range: Range, negative: bool, digits: &[u8]) -> Value
    requires { list_all is_ascii_digit digits.now ≡ true }
    ensures { result ≡ operands.value range negative (digits_value 10 digits.now) }
{
    match size_of(digits) {
        Some(size) => range.value(negative, size),
        None => Value::Out,
    }
}

fn number<'a>(range: Range, negative: bool, digits: &[u8]) -> Option<Operand<'a>>
    ensures { option_shown result ≡ reading.number_of range negative digits.now }
{
    if is_numeral(negative, digits) {
        Some(Operand::Given(value(range, negative, digits)))
    } else {
        None
    }
}

/// The number of a text as an operand.
pub fn number_operand<'a>(range: Range, text: &[u8]) -> Option<Operand<'a>>
    ensures { option_shown result ≡ reading.number_operand range text.now }
{
    match text {
        [b'-', digits @ ..] => number(range, true, digits),
        _ => number(range, false, text),
    }
}
