ghost use Rattle.std.specs.Prelude.{◌≡◌, ◌+◌, ◌∷◌};
ghost use Rattle.pa_asm.specs.Written.{pieces};
ghost use Rattle.pa_asm.specs.Reading.{pieces_behind, len_behind, own_len};

use memchr::memchr;

/// The first line of a text, and what stands after its line feed if it has one.
pub fn cut_line(text: &[u8]) -> (&[u8], Option<&[u8]>)
    ensures pieces { pieces text.now ≡ result.0.now ∷ pieces_behind result.1 }
    ensures len { own_len text.now ≡ own_len result.0.now + len_behind result.1 }
{
    match memchr(b'\n', text) {
        Some(at) => {
            let (line, _) = text.split_at(at);
            let (_, rest) = text.split_at(at + 1);
            (line, Some(rest))
        }
        None => (text, None),
    }
}
