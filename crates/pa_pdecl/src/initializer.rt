//! Initializers (C11 6.7.9).

ghost use Rattle.std.specs.Prelude.{◌≤◌};
ghost use Rattle.pa_pdecl.specs.Nests.{NestsInitializer};
ghost use Rattle.pa_pdecl.specs.Rules as rule;
ghost use Rattle.pa_grammar.specs.Rule.{Follows};

use pa_grammar::{ParseError, Reader, SynRule, TypeNames, needs};
use pa_lex::Punct;
use pa_parts::At;
use pa_readers::read_expr;
use pa_tree::Initializer;
use sqlite_items::Items;
use std::alloc::Global;

/// Initializers in braces, and what reads one of them.
#[derive(Clone, Copy)]
struct Braces<'a, F> {
    alloc: Global,
    /// Where an initializer inside stands.
    at: At<'a>,
    item: F,
}

impl<'a, F: Fn(Global, &TypeNames, &mut Reader<'_>, u32) -> Result<Initializer, ParseError>> Braces<
    'a,
    F,
> {
    /// An initializer inside.
    fn initializer(&self, r: &mut Reader<'_>) -> Result<Initializer, ParseError>
        requires { NestsInitializer self.now.at.depth (F.pre self.now.item) (F.post self.now.item) }
        ensures { Follows (rule.initializer_inside self.now.at) r.old result r.new }
    {
        (self.item)(self.alloc, self.at.names, r, self.at.depth)
    }

    /// The initializers behind the first one, and the last comma.
    #[tactic(auto, using(pa_file_grammar::proofs::Turns::initializer_turn, pa_file_grammar::proofs::Turns::initializer_more, pa_file_grammar::proofs::Turns::mark_shortens, pa_file_grammar::proofs::Turns::initializer_keeps))]
    fn more_initializers(
        &self,
        r: &mut Reader<'_>,
        first: Initializer,
    ) -> Result<Items<Initializer>, ParseError>
        requires { NestsInitializer self.now.at.depth (F.pre self.now.item) (F.post self.now.item) }
        ensures { Follows (rule.more_initializers self.now.at first) r.old result r.new }
    {
        let mut items = Items::new(self.alloc);
        items.push(first)?;
        'items: loop {
            if !r.sees(Punct::Comma) {
                return Ok(items);
            }
            r.expect(Punct::Comma)?;
            if r.sees(Punct::RightBrace) {
                return Ok(items);
            }
            let item = self.initializer(r)?;
            items.push(item)?;
        }
    }

    /// All of it, at its `{`.
    #[tactic(auto, using(pa_tree::proofs::Views::initializer_views))]
    fn braced(&self, r: &mut Reader<'_>, from: u32) -> Result<Initializer, ParseError>
        requires { NestsInitializer self.now.at.depth (F.pre self.now.item) (F.post self.now.item) }
        ensures { Follows (rule.braced self.now.at from) r.old result r.new }
    {
        needs(1, self.at.depth)?;
        r.expect(Punct::LeftBrace)?;
        let first = self.initializer(r)?;
        let items = self.more_initializers(r, first)?;
        r.expect(Punct::RightBrace)?;
        Ok(Initializer::Braced {
            items,
            from,
            to: r.ended(),
        })
    }
}

/// An expression as an initializer.
#[tactic(auto, using(pa_tree::proofs::Views::initializer_views))]
fn value(
    alloc: Global,
    names: &TypeNames,
    r: &mut Reader<'_>,
    depth: u32,
) -> Result<Initializer, ParseError>
    requires { depth ≤ 200 }
    ensures { Follows (rule.value names.now depth) r.old result r.new }
{
    let from = r.begin();
    let value = read_expr(alloc, names, r, depth, 1)?.tree;
    Ok(Initializer::Value {
        value,
        from,
        to: r.ended(),
    })
}

/// An initializer.
#[tactic(auto, unfolding(pa_file_grammar::specs::Reading::initializer))]
pub fn initializer(
    alloc: Global,
    names: &TypeNames,
    r: &mut Reader<'_>,
    depth: u32,
) -> Result<Initializer, ParseError>
    requires { depth ≤ 200 }
    ensures { Follows (rule.initializer names.now depth) r.old result r.new }
{
    if !r.sees(Punct::LeftBrace) {
        return value(alloc, names, r, depth);
    }
    if depth == 0 {
        return Err(ParseError::Broken(SynRule::S2));
    }
    let from = r.begin();
    Braces {
        alloc,
        at: At {
            names,
            depth: depth - 1,
        },
        item: initializer,
    }
    .braced(r, from)
}
