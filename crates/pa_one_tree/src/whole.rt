//! One tree at a place among tokens.

ghost use Rattle.std.specs.Prelude.{◌≡◌, ◌≤◌, length};
ghost use Rattle.pa_num.specs.declared.fault.Fault.TheVariants as fault;
ghost use Rattle.pa_grammar.specs.Answers as answers;
ghost use Rattle.pa_one_tree.specs.Whole as whole;

use pa_grammar::{Level, Naming, ParseError, Reader, SynRule, TypeNames};
use pa_lex::Token;
use pa_num::Fault;
use pa_readers::{read_declarator, read_expr, read_specs};
use pa_tree::{Declarator, Expr, Specs};
use std::alloc::Global;

/// The most levels on a path of a tree in a file.
pub const MOST_LEVELS: u32 = 200;

/// Where the token in front of the one of this number ends, or 0 in front of all.
fn ended_at(tokens: &[Token], at: usize) -> u32
    ensures { result ≡ answers.ended_at tokens.now at }
{
    match at.checked_sub(1) {
        Some(before) => match tokens.get(before) {
            Some(t) => t.to,
            None => 0,
        },
        None => 0,
    }
}

/// Where the token of this number begins, or the last one ends.
fn place_at(tokens: &[Token], end: usize) -> u32
    ensures { result ≡ answers.place_at tokens.now end }
{
    match tokens.get(end) {
        Some(t) => t.from,
        None => ended_at(tokens, end),
    }
}

/// A reader in front of the token of this number.
fn reader_at(tokens: &[Token], at: usize) -> Reader<'_>
    requires { at ≤ length tokens.now }
    ensures { result ≡ answers.cursor_at tokens.now at }
{
    Reader::behind(&tokens[at..], ended_at(tokens, at))
}

/// The refusal at the token of this number.
fn refusal(tokens: &[Token], rule: SynRule, end: usize) -> Fault<SynRule>
    ensures { result ≡ fault.Refused rule (answers.place_at tokens.now end) }
{
    Fault::Refused {
        rule,
        place: u64::from(place_at(tokens, end)),
    }
}

/// Whether a declarator has a name.
fn naming(named: bool) -> Naming
    ensures { result ≡ answers.naming_of named }
{
    if named {
        Naming::Named
    } else {
        Naming::Unnamed
    }
}

/// Reads by `$read` for a form `$form` at the token numbered `$at`, for a place that counts `$depth` levels already. A tree ends where
/// the next token goes on with no tree that fits, so where one that is too deep goes on behind a whole one, that one is the answer.
macro_rules! longest {
    ($read:ident, $form:expr, $alloc:ident, $tokens:ident, $at:ident, $names:ident, $depth:ident) => {{
        let room = MOST_LEVELS - $depth;
        let mut r = reader_at($tokens, $at);
        match $read($alloc, $names, &mut r, room, $form) {
            Ok(read) => Ok((read.tree, $tokens.len() - r.left())),
            Err(ParseError::Memory) => Err(Fault::Memory),
            Err(ParseError::Broken(rule)) => {
                let end = $tokens.len() - r.left();
                let mut front = reader_at(&$tokens[..end], $at);
                match $read($alloc, $names, &mut front, room, $form) {
                    Ok(read) => {
                        if front.left() == 0 {
                            Ok((read.tree, end))
                        } else {
                            Err(refusal($tokens, rule, end))
                        }
                    }
                    Err(ParseError::Memory) => Err(Fault::Memory),
                    Err(ParseError::Broken(_)) => Err(refusal($tokens, rule, end)),
                }
            }
        }
    }};
}

/// Reads the expression (C11 6.5, or 6.6 for a constant one) that begins at the token numbered `at`, for a place that counts `depth`
/// levels already: the tree of the longest list of tokens that begins one that fits, and the number of the token behind it. S1 or S2 at
/// the token behind that list where it is no whole tree's, as the reading says.
pub fn expr(
    alloc: Global,
    tokens: &[Token],
    at: usize,
    names: &TypeNames,
    level: Level,
    depth: u32,
) -> Result<(Expr, usize), Fault<SynRule>>
    requires within { at ≤ length tokens.now }
    requires shallow { depth ≤ answers.most_levels }
    ensures answer { whole.ExprAnswers names.now depth level tokens.now at result }
    ensures stop { whole.ExprStops names.now depth level tokens.now at result }
{
    longest!(read_expr, level.number(), alloc, tokens, at, names, depth)
}

/// Reads specifiers (C11 6.7.2, 6.7.3) as `expr` does an expression. The body of a struct or an enumeration is taken only where `bodies`
/// is true.
pub fn type_specs(
    alloc: Global,
    tokens: &[Token],
    at: usize,
    names: &TypeNames,
    bodies: bool,
    depth: u32,
) -> Result<(Specs, usize), Fault<SynRule>>
    requires within { at ≤ length tokens.now }
    requires shallow { depth ≤ answers.most_levels }
    ensures answer { whole.SpecsAnswer names.now depth bodies tokens.now at result }
    ensures stop { whole.SpecsStop names.now depth bodies tokens.now at result }
{
    longest!(read_specs, bodies, alloc, tokens, at, names, depth)
}

/// Reads a declarator (C11 6.7.6) that declares a name, or one without a name (6.7.7) where `named` is false, as `expr` does an
/// expression.
pub fn declarator(
    alloc: Global,
    tokens: &[Token],
    at: usize,
    names: &TypeNames,
    named: bool,
    depth: u32,
) -> Result<(Declarator, usize), Fault<SynRule>>
    requires within { at ≤ length tokens.now }
    requires shallow { depth ≤ answers.most_levels }
    ensures answer { whole.DeclaratorAnswers names.now depth named tokens.now at result }
    ensures stop { whole.DeclaratorStops names.now depth named tokens.now at result }
{
    longest!(
        read_declarator,
        naming(named),
        alloc,
        tokens,
        at,
        names,
        depth
    )
}
