//! Declarations in a block (C11 6.7).

ghost use Rattle.std.specs.Prelude.{◌≤◌, None};
ghost use Rattle.pa_pdecl.specs.Rules as rule;
ghost use Rattle.pa_grammar.specs.Rule.{Follows};

use crate::initializer::initializer;
use pa_grammar::{Naming, ParseError, Reader, TypeNames, needs};
use pa_lex::Punct;
use pa_readers::{read_declarator, read_specs};
use pa_tree::{BlockDeclaration, Declarator, InitDeclarator, Initializer};
use sqlite_items::Items;
use std::alloc::Global;

/// The initializer behind a declarator, where one is.
#[tactic(auto, unfolding(pa_file_grammar::specs::Reading::assigned))]
fn assigned(
    alloc: Global,
    names: &TypeNames,
    r: &mut Reader<'_>,
    depth: u32,
) -> Result<Option<Initializer>, ParseError>
    requires { depth ≤ 200 }
    ensures { Follows (rule.assigned names.now depth) r.old result r.new }
{
    if !r.sees(Punct::Assign) {
        return Ok(None);
    }
    r.expect(Punct::Assign)?;
    Ok(Some(initializer(alloc, names, r, depth)?))
}

/// The rest of a declarator that begins at `from`. The names are those behind it.
pub fn finished(
    alloc: Global,
    names: &TypeNames,
    r: &mut Reader<'_>,
    depth: u32,
    from: u32,
    declarator: Declarator,
) -> Result<InitDeclarator, ParseError>
    requires { depth ≤ 200 }
    ensures { Follows (rule.rest None depth names.now from declarator) r.old result r.new }
{
    let initializer = assigned(alloc, names, r, depth)?;
    Ok(InitDeclarator {
        declarator,
        initializer,
        from,
        to: r.ended(),
    })
}

/// A declarator with its initializer.
#[tactic(auto, unfolding(pa_file_grammar::specs::Reading::init_declarator))]
fn init_declarator(
    alloc: Global,
    names: &TypeNames,
    r: &mut Reader<'_>,
    depth: u32,
) -> Result<InitDeclarator, ParseError>
    requires { depth ≤ 200 }
    ensures { Follows (rule.init_declarator None depth names.now) r.old result r.new }
{
    let from = r.begin();
    let declarator = read_declarator(alloc, names, r, depth, Naming::Named)?.tree;
    finished(alloc, names, r, depth, from, declarator)
}

/// The declarators behind the first one.
#[tactic(auto, using(pa_file_grammar::proofs::Turns::declared_turn, pa_file_grammar::proofs::Turns::behind_none, pa_file_grammar::proofs::Turns::mark_shortens, pa_file_grammar::proofs::Turns::init_declarator_keeps))]
fn more_declarators(
    alloc: Global,
    names: &TypeNames,
    r: &mut Reader<'_>,
    depth: u32,
    first: InitDeclarator,
) -> Result<Items<InitDeclarator>, ParseError>
    requires { depth ≤ 200 }
    ensures { Follows (rule.more_declared None depth names.now first) r.old result r.new }
{
    let mut items = Items::new(alloc);
    items.push(first)?;
    'items: loop {
        if !r.sees(Punct::Comma) {
            return Ok(items);
        }
        r.expect(Punct::Comma)?;
        let item = init_declarator(alloc, names, r, depth)?;
        items.push(item)?;
    }
}

/// A declaration in a block.
#[tactic(auto, unfolding(pa_file_grammar::specs::Reading::block_declaration))]
pub fn block_declaration(
    alloc: Global,
    names: &TypeNames,
    r: &mut Reader<'_>,
    depth: u32,
) -> Result<BlockDeclaration, ParseError>
    requires { depth ≤ 200 }
    ensures { Follows (rule.block_declaration names.now depth) r.old result r.new }
{
    let from = r.begin();
    needs(1, depth)?;
    let specs = read_specs(alloc, names, r, depth, false)?.tree;
    let first = init_declarator(alloc, names, r, depth)?;
    let declarators = more_declarators(alloc, names, r, depth, first)?;
    r.expect(Punct::Semicolon)?;
    Ok(BlockDeclaration {
        specs,
        declarators,
        from,
        to: r.ended(),
    })
}
