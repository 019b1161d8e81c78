ghost use Rattle.std.specs.Prelude.{◌≡◌, ◌||◌, ◌==◌, ◌<◌};
ghost use Rattle.std.specs.Char.{digit_value, is_digit};
ghost use Rattle.pa_lex.specs.Bytes as bytes;
ghost use Rattle.pa_lex.specs.Literals as literals;
ghost use Rattle.pa_lex.specs.Reading as reading;

/// What a byte can begin.
#[derive(Clone, Copy, Debug, PartialEq, Eq)]
pub enum Class {
    Letter,
    Digit,
    Apostrophe,
    DoubleQuote,
    Hash,
    Other,
}

pub fn is_letter(c: u8) -> bool
    ensures { result ≡ bytes.is_letter c }
{
    c.is_ascii_alphabetic() || c == b'_'
}

/// The value of a digit or a letter, from 0 for `0` to 35 for `Z` and `z`, and 36 for any other byte.
pub fn value_of_digit(c: u8) -> u8
    ensures { result ≡ digit_value c }
{
    match c {
        b'0'..=b'9' => c - b'0',
        b'A'..=b'Z' => c - b'A' + 10,
        b'a'..=b'z' => c - b'a' + 10,
        _ => 36,
    }
}

pub fn is_digit_of(radix: u8, c: u8) -> bool
    ensures { result ≡ is_digit c radix }
{
    value_of_digit(c) < radix
}

pub fn is_word(c: u8) -> bool
    ensures { result ≡ bytes.is_word c }
{
    is_letter(c) || is_digit_of(10, c)
}

pub fn is_blank(c: u8) -> bool
    ensures { result ≡ bytes.is_blank c }
{
    c == b' ' || c == b'\t' || c == b'\r'
}

pub fn is_white(c: u8) -> bool
    ensures { result ≡ bytes.is_white c }
{
    is_blank(c) || c == b'\n'
}

pub fn is_u(c: u8) -> bool
    ensures { result ≡ literals.is_u c }
{
    c == b'u' || c == b'U'
}

pub fn is_l(c: u8) -> bool
    ensures { result ≡ literals.is_l c }
{
    c == b'l' || c == b'L'
}

pub fn class_of(c: u8) -> Class
    ensures { result ≡ reading.class_of c }
{
    if is_letter(c) {
        Class::Letter
    } else if is_digit_of(10, c) {
        Class::Digit
    } else {
        match c {
            b'\'' => Class::Apostrophe,
            b'"' => Class::DoubleQuote,
            b'#' => Class::Hash,
            _ => Class::Other,
        }
    }
}
