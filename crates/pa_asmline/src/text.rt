//! Parts of a line.

ghost use Rattle.std.specs.Prelude.{◌≡◌, ◌≤◌, length, option_map};
ghost use Rattle.std.specs.List.{list_all};
ghost use Rattle.pa_asmline.specs.Operands as operands;
ghost use Rattle.pa_asmline.specs.Reading as reading;

/// How long a name may be.
const LONGEST_NAME: usize = 255;

/// What stands behind a front.
pub fn behind<'a>(front: &[u8], text: &'a [u8]) -> Option<&'a [u8]>
    ensures { option_map (λ part. part.now) result ≡ reading.behind front.now text.now }
{
    text.strip_prefix(front)
}

/// What stands before a back.
pub fn before<'a>(back: &[u8], text: &'a [u8]) -> Option<&'a [u8]>
    ensures { option_map (λ part. part.now) result ≡ reading.before back.now text.now }
{
    text.strip_suffix(back)
}

/// How many bytes stand before the first of this kind.
pub fn len_before(stop: u8, text: &[u8]) -> usize
    ensures value { result ≡ reading.len_before stop text.now }
    ensures within { result ≤ length text.now }
{
    text.iter().take_while(|byte| **byte != stop).count()
}

fn may_begin(byte: u8) -> bool
    ensures { result ≡ operands.may_begin byte }
{
    byte.is_ascii_alphabetic() || byte == b'_' || byte == b'.'
}

fn may_follow(byte: u8) -> bool
    ensures { result ≡ operands.may_follow byte }
{
    may_begin(byte) || byte.is_ascii_digit()
}

fn may_all_follow(text: &[u8]) -> bool
    ensures { result ≡ list_all operands.may_follow text.now }
{
    text.iter().all(|byte| may_follow(*byte))
}

/// Whether a text is a name: letters, digits, `_` and `.`, of which the first is no digit, at most 255.
pub fn is_name(text: &[u8]) -> bool
    ensures { result ≡ operands.is_name text.now }
{
    match text {
        [first, more @ ..] => {
            may_begin(*first) && may_all_follow(more) && more.len() < LONGEST_NAME
        }
        [] => false,
    }
}
