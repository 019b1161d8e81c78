//! How a text is cut into lines, and a line into parts.

ghost use Rattle.std.specs.Prelude.{◌≡◌, ◌+◌, ◌<◌, ◌==◌, [], ◌∷◌, length, MatchOption};
ghost use Rattle.std.specs.List.{slice_split};
ghost use Rattle.pa_script.specs.Pieces.{pieces_behind, lines_of};

use memchr::memchr;

/// What stands before the first byte of this kind, and what stands behind it if there is one.
pub fn cut(stop: u8, text: &[u8]) -> (&[u8], Option<&[u8]>)
    ensures { slice_split (λ byte. byte == stop) text.now ≡ result.0.now ∷ pieces_behind stop result.1 }
{
    match memchr(stop, text) {
        Some(at) => {
            let (front, _) = text.split_at(at);
            let (_, behind) = text.split_at(at + 1);
            (front, Some(behind))
        }
        None => (text, None),
    }
}

/// The first line of a text, and the lines behind it. The last line may lack its line feed.
pub fn first_line(text: &[u8]) -> Option<(&[u8], &[u8])>
    ensures lines { MatchOption result (lines_of text.now ≡ []) (λ cut. lines_of text.now ≡ cut.0.now ∷ lines_of cut.1.now) }
    ensures less { MatchOption result (text.now ≡ []) (λ cut. length cut.1.now < length text.now) }
{
    if text.is_empty() {
        return None;
    }
    match memchr(b'\n', text) {
        Some(at) => {
            let (line, _) = text.split_at(at);
            let (_, behind) = text.split_at(at + 1);
            Some((line, behind))
        }
        None => Some((text, &[])),
    }
}
