//! Files: include lines, declarations and function definitions (C11 6.9).

ghost use Rattle.std.specs.Prelude.{◌≡◌, ◌≤◌, ◌++◌, OnOk, Ok};
ghost use Rattle.pa_lex.specs.Numbering.{stdint_numbers};
ghost use Rattle.pa_file_grammar.specs.Reading as reading;
ghost use Rattle.pa_pdecl.specs.Rules as rule;
ghost use Rattle.pa_grammar.specs.Rule.{Follows};

use crate::statement::stmt;
use crate::typedef::declarators;
use pa_grammar::{Naming, ParseError, Reader, SynRule, TypeNames};
use pa_lex::{Include, Keyword, Kind, Punct};
use pa_num::Memory;
use pa_readers::{read_declarator, read_specs};
use pa_tree::{
    Declaration, Declarator, FileItem, FunctionDefinition, InitDeclarator, Specs, Storage,
};
use sqlite_items::Items;
use std::alloc::Global;

/// What stands in front of the declarators of a declaration.
#[derive(Drop)]
struct Front {
    storage: Option<Storage>,
    specs: Specs,
    from: u32,
}

/// Takes the word in front of a declaration, where one is.
fn stored(r: &mut Reader<'_>) -> Option<Storage>
    ensures { reading.stored 0 r.old ≡ Ok (result, r.new) }
{
    let t = r.peek()?;
    let storage = match &t.kind {
        Kind::Keyword(Keyword::Typedef) => Storage::Typedef,
        Kind::Keyword(Keyword::Static) => Storage::Static,
        Kind::Keyword(Keyword::Extern) => Storage::Extern,
        _ => return None,
    };
    r.take(t);
    Some(storage)
}

/// The `;` behind the declarators of a declaration.
fn close(
    r: &mut Reader<'_>,
    depth: u32,
    front: Front,
    declarators: Items<InitDeclarator>,
) -> Result<FileItem, ParseError>
    ensures { Follows (rule.declaration_end depth front declarators) r.old result r.new }
{
    r.expect(Punct::Semicolon)?;
    let to = r.ended();
    let declaration = Declaration {
        storage: front.storage,
        specs: front.specs,
        declarators,
        from: front.from,
        to,
    };
    Ok(FileItem::Declared {
        declaration,
        from: front.from,
        to,
    })
}

/// A function's definition, at the `{` of its body.
fn define(
    alloc: Global,
    names: &TypeNames,
    r: &mut Reader<'_>,
    depth: u32,
    front: Front,
    declarator: Declarator,
) -> Result<FileItem, ParseError>
    requires { depth ≤ 200 }
    ensures { Follows (rule.function_body names.now depth front declarator) r.old result r.new }
{
    let body = stmt(alloc, names, r, depth)?;
    let to = r.ended();
    let definition = FunctionDefinition {
        storage: front.storage,
        specs: front.specs,
        declarator,
        body,
        from: front.from,
        to,
    };
    Ok(FileItem::Defined {
        definition,
        from: front.from,
        to,
    })
}

/// Behind the first declarator, which begins at `from`: a function's body, or the rest of a declaration.
#[tactic(auto, using(pa_file_grammar::proofs::Turns::declared_first))]
fn declared(
    alloc: Global,
    names: &mut TypeNames,
    r: &mut Reader<'_>,
    depth: u32,
    front: Front,
    from: u32,
    declarator: Declarator,
) -> Result<FileItem, ParseError>
    requires { depth ≤ 200 }
    ensures value { Follows (rule.tail names.old depth front from declarator) r.old result r.new }
    ensures names { rule.NamesBehindItem names.old result names.new }
{
    let is_typedef = matches!(front.storage, Some(Storage::Typedef));
    if !is_typedef && r.sees(Punct::LeftBrace) {
        return define(alloc, names, r, depth, front, declarator);
    }
    let declarators = declarators(alloc, names, r, depth, front.storage, from, declarator)?;
    close(r, depth, front, declarators)
}

/// A declaration or a function's definition.
fn external(
    alloc: Global,
    names: &mut TypeNames,
    r: &mut Reader<'_>,
    depth: u32,
) -> Result<FileItem, ParseError>
    requires { depth ≤ 200 }
    ensures value { Follows (rule.external names.old depth) r.old result r.new }
    ensures names { rule.NamesBehindItem names.old result names.new }
{
    let from = r.begin();
    let storage = stored(r);
    let specs = read_specs(alloc, names, r, depth, true)?;
    let front = Front {
        storage,
        specs: specs.tree,
        from,
    };
    if r.sees(Punct::Semicolon) {
        return close(r, depth, front, Items::new(alloc));
    }
    let begin = r.begin();
    let declarator = read_declarator(alloc, names, r, depth, Naming::Named)?;
    declared(alloc, names, r, depth, front, begin, declarator.tree)
}

/// Makes the types of `<stdint.h>` type names (C11 7.20.1.1). Their numbers are 0 to 7.
fn add_stdint(names: &mut TypeNames) -> Result<(), Memory>
    ensures { OnOk result (names.new ≡ stdint_numbers ++ names.old) }
{
    names.push(7)?;
    names.push(6)?;
    names.push(5)?;
    names.push(4)?;
    names.push(3)?;
    names.push(2)?;
    names.push(1)?;
    names.push(0)
}

/// An item of a file.
#[tactic(auto, unfolding(pa_file_grammar::specs::Reading::file_item))]
fn file_item(
    alloc: Global,
    names: &mut TypeNames,
    r: &mut Reader<'_>,
    depth: u32,
) -> Result<FileItem, ParseError>
    requires { depth ≤ 200 }
    ensures value { Follows (rule.file_item names.old depth) r.old result r.new }
    ensures names { rule.NamesBehindItem names.old result names.new }
{
    let Some(t) = r.peek() else {
        return Err(ParseError::Broken(SynRule::S1));
    };
    let Kind::Include(include) = &t.kind else {
        return external(alloc, names, r, depth);
    };
    if *include == Include::Stdint {
        add_stdint(names)?;
    }
    r.take(t);
    Ok(FileItem::Included {
        include: *include,
        from: t.from,
        to: t.to,
    })
}

/// All items of a file, which the reader stands before.
#[tactic(auto, using(pa_file_grammar::proofs::Turns::file_turn, pa_file_grammar::proofs::Turns::names_snoc, pa_file_grammar::proofs::Turns::file_item_shortens), unfolding(pa_file_grammar::specs::Reading::file))]
pub fn file_items(
    alloc: Global,
    r: &mut Reader<'_>,
    depth: u32,
) -> Result<Items<FileItem>, ParseError>
    requires { depth ≤ 200 }
    ensures { Follows (rule.file_items depth) r.old result r.new }
{
    let mut names = TypeNames::new(alloc);
    let mut items = Items::new(alloc);
    'items: loop {
        if r.peek().is_none() {
            return Ok(items);
        }
        let item = file_item(alloc, &mut names, r, depth)?;
        items.push(item)?;
    }
}
