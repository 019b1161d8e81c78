//! Keywords among the tokens.

ghost use Rattle.std.specs.Prelude.{◌≡◌};
ghost use Rattle.pa_tree.specs.Cursors as cursors;
ghost use Rattle.pa_grammar.specs.Reads.{Reads};
ghost use Rattle.pa_file_grammar.specs.Reading as reading;

use pa_grammar::{ParseError, Reader, SynRule, is_word};
use pa_lex::Keyword;

/// The next token is this keyword.
pub fn sees_word(r: &Reader<'_>, keyword: Keyword) -> bool
    ensures { result ≡ reading.reads_word keyword (cursors.head r.now.ahead) }
{
    match r.peek() {
        Some(t) => is_word(&t.kind, keyword),
        None => false,
    }
}

/// Takes this keyword, or stands still.
pub fn expect_word(r: &mut Reader<'_>, keyword: Keyword) -> Result<(), ParseError>
    ensures { Reads (λ x. x) (reading.word keyword r.old) result r.new }
{
    match r.peek() {
        Some(t) if is_word(&t.kind, keyword) => {
            r.take(t);
            Ok(())
        }
        _ => Err(ParseError::Broken(SynRule::S1)),
    }
}
