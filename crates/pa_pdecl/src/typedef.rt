//! Declarators at the level of a file, where a typedef makes names type names (C11 6.7.8).

ghost use Rattle.std.specs.Prelude.{◌≡◌, ◌≤◌, OnOk};
ghost use Rattle.pa_tree.specs.Files as grammar;
ghost use Rattle.pa_tree.specs.Views.{declarator_tree};
ghost use Rattle.pa_pdecl.specs.Rules as rule;
ghost use Rattle.pa_grammar.specs.Rule.{Follows};

use crate::declaration::finished;
use pa_grammar::{Naming, ParseError, Reader, TypeNames};
use pa_lex::{NameNumber, Punct};
use pa_num::Memory;
use pa_readers::read_declarator;
use pa_tree::{Declarator, InitDeclarator, Storage};
use sqlite_items::Items;
use std::alloc::Global;

/// The name that is declared, if one is.
#[tactic(auto, using(pa_tree::proofs::Views::expr_views))]
fn declared_name(declarator: &Declarator) -> Option<NameNumber>
    ensures { result ≡ grammar.declared_name (declarator_tree declarator.now) }
{
    let mut at = declarator;
    'parts: loop {
        at = match at {
            Declarator::Named { name, .. } => return Some(*name),
            Declarator::Absent { .. } => return None,
            Declarator::Pointer { of, .. } => of.get(),
            Declarator::Grouped { inner, .. } => inner.get(),
            Declarator::Array { of, .. } => of.get(),
            Declarator::Function { of, .. } => of.get(),
        };
    }
}

/// Makes the name of a typedef's declarator a type name.
fn note(
    names: &mut TypeNames,
    storage: Option<Storage>,
    declarator: &Declarator,
) -> Result<(), Memory>
    ensures { OnOk result (names.new ≡ rule.names_behind storage declarator.now names.old) }
{
    match storage {
        Some(Storage::Typedef) => match declared_name(declarator) {
            Some(name) => names.push(name),
            None => Ok(()),
        },
        _ => Ok(()),
    }
}

/// The rest of a declarator that begins at `from`: its name stands for its initializer too.
fn noted(
    alloc: Global,
    names: &mut TypeNames,
    r: &mut Reader<'_>,
    depth: u32,
    storage: Option<Storage>,
    from: u32,
    declarator: Declarator,
) -> Result<InitDeclarator, ParseError>
    requires { depth ≤ 200 }
    ensures value { Follows (rule.rest storage depth names.old from declarator) r.old result r.new }
    ensures names { rule.NamesBehind storage names.old result names.new }
{
    note(names, storage, &declarator)?;
    finished(alloc, names, r, depth, from, declarator)
}

/// A declarator with its initializer.
#[tactic(auto, unfolding(pa_file_grammar::specs::Reading::init_declarator))]
fn another(
    alloc: Global,
    names: &mut TypeNames,
    r: &mut Reader<'_>,
    depth: u32,
    storage: Option<Storage>,
) -> Result<InitDeclarator, ParseError>
    requires { depth ≤ 200 }
    ensures value { Follows (rule.init_declarator storage depth names.old) r.old result r.new }
    ensures names { rule.NamesBehind storage names.old result names.new }
{
    let from = r.begin();
    let declarator = read_declarator(alloc, names, r, depth, Naming::Named)?.tree;
    noted(alloc, names, r, depth, storage, from, declarator)
}

/// The rest of a declarator that begins at `from`, and further ones.
#[tactic(auto, using(pa_file_grammar::proofs::Turns::declared_turn, pa_file_grammar::proofs::Turns::behind_snoc, pa_file_grammar::proofs::Turns::mark_shortens, pa_file_grammar::proofs::Turns::init_declarator_keeps))]
pub fn declarators(
    alloc: Global,
    names: &mut TypeNames,
    r: &mut Reader<'_>,
    depth: u32,
    storage: Option<Storage>,
    from: u32,
    declarator: Declarator,
) -> Result<Items<InitDeclarator>, ParseError>
    requires { depth ≤ 200 }
    ensures value { Follows (rule.list storage depth names.old from declarator) r.old result r.new }
    ensures names { rule.NamesBehindAll storage names.old result names.new }
{
    let first = noted(alloc, names, r, depth, storage, from, declarator)?;
    let mut items = Items::new(alloc);
    items.push(first)?;
    'items: loop {
        if !r.sees(Punct::Comma) {
            return Ok(items);
        }
        r.expect(Punct::Comma)?;
        let item = another(alloc, names, r, depth, storage)?;
        items.push(item)?;
    }
}
