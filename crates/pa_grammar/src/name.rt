//! Names, and which of them are type names.

ghost use Rattle.std.specs.Prelude.{◌≡◌};
ghost use Rattle.std.specs.Option.{option_copied};
ghost use Rattle.pa_tree.specs.Cursors as cursors;
ghost use Rattle.pa_grammar.specs.Reading as reading;
ghost use Rattle.pa_grammar.specs.Reads.{Reads};

use crate::reader::Reader;
use crate::rule::{ParseError, SynRule};
use crate::type_names::TypeNames;
use pa_lex::{Keyword, Kind, Token};
use pa_tree::Tag;

/// A name that is no type name, with its place.
#[tactic(auto, unfolding(crate::specs::Reading::plain_name))]
pub fn plain_name(names: &TypeNames, r: &mut Reader<'_>) -> Result<Tag, ParseError>
    ensures { Reads (λ x. x) (reading.plain_name names.now r.old) result r.new }
{
    let Some(t) = r.peek() else {
        return Err(ParseError::Broken(SynRule::S1));
    };
    match &t.kind {
        Kind::Name(name) if !names.contains(*name) => {
            r.take(t);
            Ok(Tag {
                name: *name,
                from: t.from,
                to: t.to,
            })
        }
        _ => Err(ParseError::Broken(SynRule::S1)),
    }
}

/// A type begins with this keyword.
fn begins_type_word(keyword: Keyword) -> bool
    ensures { result ≡ reading.begins_type_word keyword }
{
    matches!(
        keyword,
        Keyword::Void
            | Keyword::Bool
            | Keyword::Char
            | Keyword::Short
            | Keyword::Int
            | Keyword::Long
            | Keyword::Signed
            | Keyword::Unsigned
            | Keyword::Struct
            | Keyword::Enum
            | Keyword::Const
            | Keyword::Ptrauth
    )
}

/// A type begins with the next token.
pub fn begins_type(names: &TypeNames, next: Option<&Token>) -> bool
    ensures { result ≡ reading.begins_type names.now (option_copied next.entry) }
{
    match next {
        Some(t) => match &t.kind {
            Kind::Name(name) => names.contains(*name),
            Kind::Keyword(keyword) => begins_type_word(*keyword),
            _ => false,
        },
        None => false,
    }
}
