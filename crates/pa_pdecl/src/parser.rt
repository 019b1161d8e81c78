//! Whole files.

ghost use Rattle.std.specs.Prelude.{◌≡◌};
ghost use Rattle.pa_tree.specs.Cursors as cursors;
ghost use Rattle.pa_pdecl.specs.Parsed.{IsParsed};

use crate::file::file_items;
use pa_grammar::{ParseError, Reader, SynRule};
use pa_lex::Token;
use pa_num::Fault;
use pa_tree::File;
use std::alloc::Global;

/// The most levels on a path of a file's tree.
const MOST_LEVELS: u32 = 200;

/// Where the next token begins, or the last one ends where none is left.
fn place(r: &Reader<'_>) -> u32
    ensures { result ≡ cursors.place r.now }
{
    match r.peek() {
        Some(t) => t.from,
        None => r.ended(),
    }
}

/// The file that the tokens spell (C11 6.9), which is the only one: they are its tree's leaves, and no path of the tree has more than
/// 200 levels.
///
/// # Errors
///
/// `Refused` by a rule at the place where reading stops, which is a token's first byte, or the last token's end where none is left: no
/// file begins with the tokens up to and with the one there, of any depth at S1, and within 200 levels at S2. `Memory` where memory is
/// short.
#[tactic(auto, using(pa_file_grammar::proofs::Answers::read_file, pa_file_grammar::proofs::Answers::refused_file))]
pub fn parse(alloc: Global, tokens: &[Token]) -> Result<File, Fault<SynRule>>
    ensures { IsParsed tokens.now result }
{
    let mut r = Reader::new(tokens);
    match file_items(alloc, &mut r, MOST_LEVELS) {
        Ok(items) => Ok(File { items }),
        Err(ParseError::Memory) => Err(Fault::Memory),
        Err(ParseError::Broken(rule)) => Err(Fault::Refused {
            rule,
            place: u64::from(place(&r)),
        }),
    }
}
