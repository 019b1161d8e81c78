ghost use Rattle.std.specs.Prelude.{◌≡◌, ◌≤◌, IfOk};
ghost use Rattle.std.specs.List.{list_any};
ghost use Rattle.pa_lex.specs.Literals as literals;
ghost use Rattle.pa_lex.specs.Forms as forms;
ghost use Rattle.pa_lex.specs.Reading as reading;
ghost use Rattle.pa_lex.specs.Shapes as shapes;
ghost use Rattle.pa_lex.specs.Shapes.{shown, meant};

use crate::form::{Base, Form, Quote};
use crate::token::{Keyword, Kind, LexRule};
use crate::{byte, literal, table};
use std::alloc::{AllocError, Global};

/// What a form means as a token.
#[derive(Debug, Drop)]
pub enum Meaning<'a> {
    /// A name, as its bytes.
    Name(&'a [u8]),
    /// What is no name.
    Other(Kind),
}

/// A token whose name is not yet a number.
#[derive(Debug, Drop)]
pub struct Spelled<'a> {
    pub meaning: Meaning<'a>,
    pub from: u32,
    pub to: u32,
}

fn find_keyword(first: u8, word: &[u8]) -> Option<Keyword>
    ensures { result ≡ reading.find_keyword first word.now }
{
    table::keywords_at(first)
        .iter()
        .copied()
        .find(|keyword| table::keyword_text(*keyword) == word)
}

#[tactic(auto, unfolding(crate::specs::Reading::keyword_of))]
fn keyword_of(word: &[u8]) -> Option<Keyword>
    ensures { result ≡ reading.keyword_of word.now }
{
    match word {
        [first, ..] => find_keyword(*first, word),
        [] => None,
    }
}

/// What a word means. None: it is a name longer than 255 bytes.
#[tactic(auto, using(crate::proofs::Meanings::keyword_found, crate::proofs::Meanings::keyword_none))]
fn word_meaning(word: &[u8]) -> Option<Meaning<'_>>
    ensures { reading.IsMeaning (forms.Word word.now) (meant result) }
{
    if let Some(keyword) = keyword_of(word) {
        return Some(Meaning::Other(Kind::Keyword(keyword)));
    }
    if word.len() > 255 {
        return None;
    }
    Some(Meaning::Name(word))
}

fn is_unsigned(suffix: &[u8]) -> bool
    ensures { result ≡ list_any literals.is_u suffix.now }
{
    suffix.iter().any(|c| byte::is_u(*c))
}

fn is_long(suffix: &[u8]) -> bool
    ensures { result ≡ list_any literals.is_l suffix.now }
{
    suffix.iter().any(|c| byte::is_l(*c))
}

/// What an integer constant is. None: it is above 2^64 - 1.
#[tactic(auto, using(crate::proofs::Meanings::number_means, crate::proofs::Meanings::number_none))]
fn number_kind(base: Base, digits: &[u8], suffix: &[u8]) -> Option<Kind>
    ensures { reading.IsMeaning (forms.Number base digits.now suffix.now) (shapes.other result) }
{
    let value = literal::number(base.radix(), digits)?;
    Some(Kind::Integer {
        value,
        decimal: base.is_decimal(),
        unsigned: is_unsigned(suffix),
        long: is_long(suffix),
    })
}

#[tactic(auto, using(crate::proofs::Meanings::character_none))]
fn character_kind(body: &[u8]) -> Option<Kind>
    ensures { reading.IsMeaning (forms.Quoted Quote.Single body.now) (shapes.other result) }
{
    let byte = literal::character_of(body)?;
    Some(Kind::Character(byte.cast_signed()))
}

fn text_kind(alloc: Global, body: &[u8]) -> Result<Option<Kind>, AllocError>
    ensures { shapes.MeansText body.now result }
{
    match literal::bytes_of(alloc, body)? {
        Some(bytes) => Ok(Some(Kind::Text(bytes))),
        None => Ok(None),
    }
}

fn other<'a>(kind: Option<Kind>) -> Option<Meaning<'a>>
    ensures { meant result ≡ shapes.other kind }
{
    match kind {
        Some(kind) => Some(Meaning::Other(kind)),
        None => None,
    }
}

impl<'a> Form<'a> {
    /// What the form means as a token. None: it means nothing, and breaks `rule`.
    pub fn meaning(&self, alloc: Global) -> Result<Option<Meaning<'a>>, AllocError>
        ensures { IfOk result (λ meaning. reading.IsMeaning (shown self.now) (meant meaning)) }
    {
        match self {
            Form::Word(text) => Ok(word_meaning(text)),
            Form::Number {
                base,
                digits,
                suffix,
            } => Ok(other(number_kind(*base, digits, suffix))),
            Form::Quoted {
                quote: Quote::Single,
                body,
            } => Ok(other(character_kind(body))),
            Form::Quoted {
                quote: Quote::Double,
                body,
            } => Ok(other(text_kind(alloc, body)?)),
            Form::Mark(punct) => Ok(Some(Meaning::Other(Kind::Punct(*punct)))),
            Form::Line(include) => Ok(Some(Meaning::Other(Kind::Include(*include)))),
        }
    }

    /// The rule that the form breaks where it means nothing.
    pub fn rule(&self) -> LexRule
        ensures { result ≡ forms.rule_of (shown self.now) }
    {
        match self {
            Form::Word(_) => LexRule::X5,
            Form::Number { .. } => LexRule::X3,
            _ => LexRule::X1,
        }
    }
}
