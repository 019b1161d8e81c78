//! Words of integer types (C11 6.7.2).

ghost use Rattle.std.specs.Prelude.{◌≡◌, ◌∷◌, [], true};
ghost use Rattle.pa_tree.specs.Operators as grammar;
ghost use Rattle.pa_pspec.specs.Counted.{counted};
ghost use Rattle.pa_grammar.specs.Parser.{iterate};
ghost use Rattle.pa_grammar.specs.Reading as reading;
ghost use Rattle.pa_grammar.specs.Reads.{Reads};

use pa_grammar::{ParseError, Reader};
use pa_lex::Kind;
use pa_tree::IntegerWord;
use sqlite_items::Items;
use std::alloc::Global;

/// How often each word stands in a list; `signed` and `unsigned` are counted together.
#[derive(Clone, Copy)]
pub struct WordCounts {
    chars: u8,
    shorts: u8,
    ints: u8,
    longs: u8,
    signs: u8,
}

impl WordCounts {
    /// No words.
    fn none() -> WordCounts
        ensures { counted result ≡ grammar.no_words }
    {
        WordCounts {
            chars: 0,
            shorts: 0,
            ints: 0,
            longs: 0,
            signs: 0,
        }
    }

    /// One more word, behind those of an integer type.
    #[tactic(auto, using(crate::proofs::Words::few_words))]
    fn with(self, word: IntegerWord) -> WordCounts
        requires { grammar.is_integer_type (counted self) ≡ true }
        ensures { counted result ≡ grammar.with_word (counted self) word }
    {
        let mut more = self;
        match word {
            IntegerWord::Char => more.chars += 1,
            IntegerWord::Short => more.shorts += 1,
            IntegerWord::Int => more.ints += 1,
            IntegerWord::Long => more.longs += 1,
            IntegerWord::Signed | IntegerWord::Unsigned => more.signs += 1,
        }
        more
    }

    /// No word stands too often or beside one that it does not go with.
    fn is_integer_type(self) -> bool
        ensures { result ≡ grammar.is_integer_type (counted self) }
    {
        if self.signs > 1 {
            false
        } else if self.chars != 0 {
            self.chars == 1 && self.ints == 0 && self.shorts == 0 && self.longs == 0
        } else if self.ints > 1 {
            false
        } else if self.shorts == 0 {
            self.longs <= 2
        } else {
            self.shorts == 1 && self.longs == 0
        }
    }
}

/// The words of an integer type that follow, behind this one.
#[tactic(auto, using(crate::proofs::Words::word_turn, crate::proofs::Words::one_more, crate::proofs::Words::counts_more, crate::proofs::Words::goes_more))]
pub fn integer_words(
    alloc: Global,
    first: IntegerWord,
    r: &mut Reader<'_>,
) -> Result<Items<IntegerWord>, ParseError>
    ensures { Reads (λ x. x) (iterate reading.word_step (first ∷ []) r.old) result r.new }
{
    let mut words = Items::new(alloc);
    words.push(first)?;
    let mut counts = WordCounts::none().with(first);
    'words: loop {
        let Some(t) = r.peek() else {
            return Ok(words);
        };
        let Kind::Keyword(keyword) = &t.kind else {
            return Ok(words);
        };
        let Some(word) = IntegerWord::from_keyword(*keyword) else {
            return Ok(words);
        };
        counts = counts.with(word);
        if !counts.is_integer_type() {
            return Ok(words);
        }
        r.take(t);
        words.push(word)?;
    }
}
