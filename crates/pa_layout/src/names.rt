ghost use Rattle.std.specs.Prelude.{◌≡◌};
ghost use Rattle.pa_layout.specs.Names as spec;

use memchr::memchr;

/// The length of the name that a text begins with, up to a zero byte or the text's end.
pub fn name_length(text: &[u8]) -> usize
    ensures { result ≡ spec.name_length text.now }
{
    match memchr(0, text) {
        Some(end) => end,
        None => text.len(),
    }
}

/// No byte is zero.
pub fn is_name(text: &[u8]) -> bool
    ensures { result ≡ spec.is_name text.now }
{
    name_length(text) == text.len()
}
