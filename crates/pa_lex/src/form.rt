ghost use Rattle.std.specs.Prelude.{◌≡◌, ◌≤◌, ◌<◌, ◌^◌, length, false, IfSome, take, drop, option_map};
ghost use Rattle.std.specs.List.{prefix_len, find};
ghost use Rattle.std.specs.Char.{is_digit};
ghost use Rattle.pa_lex.specs.Bytes as bytes;
ghost use Rattle.pa_lex.specs.Literals as literals;
ghost use Rattle.pa_lex.specs.Forms as forms;
ghost use Rattle.pa_lex.specs.Reading as reading;
ghost use Rattle.pa_lex.specs.Shapes.{shown, shown_option};

use crate::byte::{self, Class};
use crate::table;
use crate::token::{Include, Punct};

/// The base of an integer constant, with what stands before its digits.
#[derive(Clone, Copy, Debug, PartialEq, Eq)]
pub enum Base {
    Decimal,
    Octal,
    LowerHexadecimal,
    UpperHexadecimal,
}

/// The quote round a literal: of a character constant, or of a string.
#[derive(Clone, Copy, Debug, PartialEq, Eq)]
pub enum Quote {
    Single,
    Double,
}

/// What a token looks like, before it is asked what it means.
#[derive(Clone, Copy, Debug)]
pub enum Form<'a> {
    Word(&'a [u8]),
    Number {
        base: Base,
        digits: &'a [u8],
        suffix: &'a [u8],
    },
    /// `body` stands between the quotes.
    Quoted {
        quote: Quote,
        body: &'a [u8],
    },
    Mark(Punct),
    Line(Include),
}

impl Base {
    pub fn radix(self) -> u8
        ensures { result ≡ literals.radix self }
    {
        match self {
            Base::Decimal => 10,
            Base::Octal => 8,
            Base::LowerHexadecimal | Base::UpperHexadecimal => 16,
        }
    }

    pub fn is_decimal(self) -> bool
        ensures { result ≡ literals.is_decimal self }
    {
        matches!(self, Base::Decimal)
    }

    pub fn prefix_len(self) -> usize
        ensures { result ≡ length (literals.prefix self) }
    {
        match self {
            Base::Decimal | Base::Octal => 0,
            Base::LowerHexadecimal | Base::UpperHexadecimal => 2,
        }
    }
}

impl Quote {
    pub fn byte(self) -> u8
        ensures { result ≡ forms.quote_byte self }
    {
        match self {
            Quote::Single => b'\'',
            Quote::Double => b'"',
        }
    }
}

fn word_len(text: &[u8]) -> usize
    ensures value { result ≡ prefix_len bytes.is_word text.now }
    ensures within { result ≤ length text.now }
{
    text.iter().take_while(|c| byte::is_word(**c)).count()
}

/// How many digits stand at the front.
pub fn digits_len(radix: u8, text: &[u8]) -> usize
    ensures value { result ≡ prefix_len (λ c. is_digit c radix) text.now }
    ensures within { result ≤ length text.now }
{
    text.iter()
        .take_while(|c| byte::is_digit_of(radix, **c))
        .count()
}

fn base_at(text: &[u8]) -> Base
    ensures { result ≡ reading.base_at text.now }
{
    match text {
        [b'0', b'x', digit, ..] if byte::is_digit_of(16, *digit) => Base::LowerHexadecimal,
        [b'0', b'X', digit, ..] if byte::is_digit_of(16, *digit) => Base::UpperHexadecimal,
        [b'0', ..] => Base::Octal,
        _ => Base::Decimal,
    }
}

fn unsigned_len(text: &[u8]) -> usize
    ensures value { result ≡ reading.unsigned_len text.now }
    ensures within { result ≤ length text.now }
{
    match text {
        [c, ..] if byte::is_u(*c) => 1,
        _ => 0,
    }
}

fn long_len(text: &[u8]) -> usize
    ensures value { result ≡ reading.long_len text.now }
    ensures within { result ≤ length text.now }
{
    match text {
        [c, d, ..] if byte::is_l(*c) && c == d => 2,
        [c, ..] if byte::is_l(*c) => 1,
        _ => 0,
    }
}

#[tactic(auto, unfolding(crate::specs::Reading::suffix_len))]
fn suffix_len(text: &[u8]) -> usize
    ensures value { result ≡ reading.suffix_len text.now }
    ensures within { result ≤ length text.now }
{
    let unsigned = unsigned_len(text);
    if unsigned > 0 {
        return unsigned + long_len(&text[unsigned..]);
    }
    let long = long_len(text);
    long + unsigned_len(&text[long..])
}

fn number_from(base: Base, text: &[u8]) -> Form<'_>
    ensures { shown result ≡ reading.number_from base text.now }
{
    let (digits, rest) = text.split_at(digits_len(base.radix(), text));
    let (suffix, _) = rest.split_at(suffix_len(rest));
    Form::Number {
        base,
        digits,
        suffix,
    }
}

/// The integer constant at the front of a text that begins with a digit.
fn number_at(text: &[u8]) -> Form<'_>
    ensures { shown result ≡ reading.number_at text.now }
{
    let base = base_at(text);
    let (_, rest) = text.split_at(base.prefix_len());
    number_from(base, rest)
}

/// How long the body of a literal is, up to its quote. None: it has no end on its line.
#[tactic(auto, using(crate::proofs::Steps::plus_plus_one), unfolding(crate::specs::Reading::body_len))]
fn body_len(quote: Quote, text: &[u8]) -> Option<usize>
    ensures value { result ≡ reading.body_len quote false text.now }
    ensures within { IfSome result (λ n. n ≤ length text.now) }
{
    let mut taken = false;
    let mut rest = text;
    let mut n = 0;
    'bytes: while let [c, tail @ ..] = rest {
        if *c == b'\n' {
            return None;
        }
        if taken {
            taken = false;
        } else if *c == quote.byte() {
            return Some(n);
        } else {
            taken = *c == b'\\';
        }
        rest = tail;
        n += 1;
    }
    None
}

/// The literal behind its first quote. None: it has no end on its line.
fn quoted_at(quote: Quote, text: &[u8]) -> Option<Form<'_>>
    ensures { shown_option result ≡ reading.quoted_at quote text.now }
{
    let (body, _) = text.split_at(body_len(quote, text)?);
    Some(Form::Quoted { quote, body })
}

#[tactic(auto, unfolding(crate::specs::Bytes::is_blank_line))]
fn is_blank_line(text: &[u8]) -> bool
    ensures { result ≡ bytes.is_blank_line text.now }
{
    let mut rest = text;
    'bytes: while let [c, tail @ ..] = rest {
        if *c == b'\n' {
            return true;
        }
        if !byte::is_blank(*c) {
            return false;
        }
        rest = tail;
    }
    true
}

fn is_line(text: &[u8], include: Include) -> bool
    ensures { result ≡ reading.is_line text.now include }
{
    let line = table::include_text(include);
    if !text.starts_with(line) {
        return false;
    }
    let (_, rest) = text.split_at(line.len());
    is_blank_line(rest)
}

/// The include line at the front, where a line begins.
fn include_at(text: &[u8]) -> Option<Include>
    ensures { result ≡ find (reading.is_line text.now) reading.includes }
{
    [Include::Stdio, Include::Stdint, Include::Ptrauth]
        .iter()
        .copied()
        .find(|include| is_line(text, *include))
}

fn punct_at(first: u8, text: &[u8]) -> Option<Punct>
    ensures { result ≡ reading.punct_at first text.now }
{
    table::puncts_at(first)
        .iter()
        .copied()
        .find(|punct| text.starts_with(table::punct_text(*punct)))
}

/// The longest form at the front of a text, comments aside, where a line begins with the text or doesn't.
pub fn form_at(first: bool, text: &[u8]) -> Option<Form<'_>>
    ensures { shown_option result ≡ reading.form_at first text.now }
{
    let (c, tail) = text.split_first()?;
    match byte::class_of(*c) {
        Class::Letter => {
            let (word, _) = text.split_at(word_len(text));
            Some(Form::Word(word))
        }
        Class::Digit => Some(number_at(text)),
        Class::Apostrophe => quoted_at(Quote::Single, tail),
        Class::DoubleQuote => quoted_at(Quote::Double, tail),
        Class::Hash if first => Some(Form::Line(include_at(text)?)),
        Class::Hash => None,
        Class::Other => Some(Form::Mark(punct_at(*c, text)?)),
    }
}

impl Form<'_> {
    /// How many bytes the form has.
    pub fn len(&self) -> usize
        requires { length (forms.form_text (shown self.now)) < 2 ^ 64 }
        ensures { result ≡ length (forms.form_text (shown self.now)) }
    {
        match self {
            Form::Word(text) => text.len(),
            Form::Number {
                base,
                digits,
                suffix,
            } => base.prefix_len() + digits.len() + suffix.len(),
            Form::Quoted { quote: _, body } => body.len() + 2,
            Form::Mark(punct) => table::punct_text(*punct).len(),
            Form::Line(include) => table::include_text(*include).len(),
        }
    }
}
