ghost use Rattle.std.specs.Prelude.{◌≡◌, ◌≤◌, ◌+◌, ◌++◌, true, false, ◌==◌, ◌&&◌, ◌||◌, not, length, drop, OnOk, IfOk, MatchOption};
ghost use Rattle.std.specs.List.{before_first};
ghost use Rattle.std.specs.Str.{bytes_eq};
ghost use Rattle.pa_layout.specs.Names.{is_zero, name_length, has_end};
ghost use Rattle.pa_names.specs.Key.{piece, start, started};
ghost use Rattle.pa_symbols.specs.Symbols.{Text};
ghost use Rattle.pa_symbols.specs.Names.{is_noted, name_due};

use indexmap::IndexSet;
use pa_layout::name_length;
use pa_names::{TextDigest, TextKey};
use pa_num::Memory;

/// Public names that were noted.
pub(crate) type PublicNames<'a> = IndexSet<&'a [u8], TextKey>;

/// The key that the public names of these tables are hashed under. The symbols tell which names are public, and the strings
/// what they are.
pub(crate) fn key_of(symbols: &[u8], strings: &[u8]) -> TextKey
    ensures { start result ≡ started (piece symbols.now ++ piece strings.now) }
{
    let mut digest = TextDigest::new();
    digest.add(symbols);
    digest.add(strings);
    digest.finish()
}

/// The name that begins at a place of the strings, where that is the place where it is due.
pub(crate) fn name_at(strings: &[u8], place: usize, due: usize) -> Option<&[u8]>
    ensures { MatchOption result (name_due strings.now place due ≡ false) (λ name.
        (name_due strings.now place due ≡ true)
        × (name.now ≡ before_first is_zero (drop place strings.now))
        × (place + (length name.now + 1) ≤ length strings.now)) }
{
    if place > strings.len() {
        return None;
    }
    let text = &strings[place..];
    let len = name_length(text);
    if !is_due(text, len, place, due) {
        return None;
    }
    Some(&text[..len])
}

/// A name of that length with its end begins at the front of the text, and the text is where it is due.
fn is_due(text: &[u8], len: usize, place: usize, due: usize) -> bool
    requires { len ≡ name_length text.now }
    ensures { result ≡ ((place == due) && (not (name_length text.now == 0) && has_end text.now)) }
{
    place == due && len != 0 && len < text.len()
}

/// Notes a public name, and answers whether it wasn't noted before.
fn note<'a>(names: &mut PublicNames<'a>, name: &'a [u8]) -> Result<bool, Memory>
    ensures fresh { IfOk result (λ fresh. fresh ≡ not (is_noted names.old.keys name.now)) }
    ensures noted { OnOk result ((text : Text) →
        is_noted names.new.keys text ≡ (bytes_eq name.now text || is_noted names.old.keys text)) }
{
    match names.insert(name) {
        Ok(fresh) => Ok(fresh),
        Err(_) => Err(Memory),
    }
}

/// Notes the name where it is public, and answers whether it is no public name that was noted before.
pub(crate) fn is_first<'a>(
    names: &mut PublicNames<'a>,
    name: &'a [u8],
    public: bool,
) -> Result<bool, Memory>
    ensures first { IfOk result (λ first. first ≡ not (public && is_noted names.old.keys name.now)) }
    ensures noted { OnOk result ((text : Text) →
        is_noted names.new.keys text ≡ ((public && bytes_eq name.now text) || is_noted names.old.keys text)) }
{
    if public { note(names, name) } else { Ok(true) }
}
