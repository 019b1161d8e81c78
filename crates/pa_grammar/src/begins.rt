//! What a tree begins with, and the refusal where none has room.

ghost use Rattle.std.specs.Prelude.{◌≡◌};
ghost use Rattle.pa_grammar.specs.Parser as parser;
ghost use Rattle.pa_grammar.specs.Reading as reading;

use crate::reader::Reader;
use crate::rule::SynRule;
use crate::type_names::TypeNames;
use pa_lex::{Keyword, Kind, Punct};
use pa_tree::PrefixOperator;

/// An expression begins with this token.
fn begins_expr(names: &TypeNames, kind: &Kind) -> bool
    ensures { result ≡ reading.begins_expr_by names.now kind.now }
{
    match kind {
        Kind::Name(name) => !names.contains(*name),
        Kind::Integer { .. } | Kind::Character(_) | Kind::Text(_) => true,
        Kind::Punct(punct) => {
            *punct == Punct::LeftParenthesis || PrefixOperator::from_punct(*punct).is_some()
        }
        Kind::Keyword(keyword) => *keyword == Keyword::Sizeof,
        Kind::Include(_) => false,
    }
}

/// The rule that the next token breaks where no expression has room.
#[tactic(auto, unfolding(crate::specs::Reading::no_expr))]
pub fn no_expr(names: &TypeNames, r: &Reader<'_>) -> SynRule
    ensures { reading.no_expr names.now r.now ≡ parser.refuse result r.now }
{
    match r.peek() {
        Some(t) if begins_expr(names, &t.kind) => SynRule::S2,
        _ => SynRule::S1,
    }
}
