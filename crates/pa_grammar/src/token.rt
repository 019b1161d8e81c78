//! Tests of tokens.

ghost use Rattle.std.specs.Prelude.{◌≡◌};
ghost use Rattle.pa_grammar.specs.Tokens as spec;

use pa_lex::{Keyword, Kind, Punct};

/// The token is this punctuator.
pub fn is_mark(kind: &Kind, punct: Punct) -> bool
    ensures { result ≡ spec.is_mark punct kind.now }
{
    match kind {
        Kind::Punct(found) => *found == punct,
        _ => false,
    }
}

/// The token is this keyword.
pub fn is_word(kind: &Kind, keyword: Keyword) -> bool
    ensures { result ≡ spec.is_word keyword kind.now }
{
    match kind {
        Kind::Keyword(found) => *found == keyword,
        _ => false,
    }
}
