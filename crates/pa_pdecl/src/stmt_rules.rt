//! What the rules of statements stand on, and the parts of a statement.

ghost use Rattle.std.specs.Prelude.{◌≤◌};
ghost use Rattle.pa_pdecl.specs.Nests.{NestsStmt};
ghost use Rattle.pa_pdecl.specs.Rules as rule;
ghost use Rattle.pa_grammar.specs.Rule.{Follows};

use crate::declaration::block_declaration;
use pa_grammar::{ParseError, Reader, TypeNames, begins_type};
use pa_lex::Punct;
use pa_parts::At;
use pa_readers::read_expr;
use pa_tree::{BlockItem, Expr, ForStart, Stmt};
use sqlite_items::{Boxed, Items};
use std::alloc::Global;

/// The rules of statements (C11 6.8), over what reads a statement in one, which stands in a depth.
#[derive(Clone, Copy)]
pub struct StmtRules<'a, S> {
    pub alloc: Global,
    pub at: At<'a>,
    /// Reads a statement.
    pub stmt: S,
}

impl<'a, S: Fn(Global, &TypeNames, &mut Reader<'_>, u32) -> Result<Stmt, ParseError>> StmtRules<
    'a,
    S,
> {
    /// A statement inside.
    pub fn stmt(&self, r: &mut Reader<'_>) -> Result<Stmt, ParseError>
        requires { NestsStmt self.now.at.depth (S.pre self.now.stmt) (S.post self.now.stmt) }
        ensures { Follows (rule.stmt self.now.at) r.old result r.new }
    {
        (self.stmt)(self.alloc, self.at.names, r, self.at.depth)
    }

    /// An expression inside.
    pub fn expr(&self, r: &mut Reader<'_>) -> Result<Expr, ParseError>
        requires { self.now.at.depth ≤ 200 }
        ensures { Follows (rule.expr self.now.at) r.old result r.new }
    {
        Ok(read_expr(self.alloc, self.at.names, r, self.at.depth, 0)?.tree)
    }

    /// An expression inside, or none where this punctuator comes next.
    pub fn optional_expr(&self, r: &mut Reader<'_>, stop: Punct) -> Result<Option<Expr>, ParseError>
        requires { self.now.at.depth ≤ 200 }
        ensures { Follows (rule.optional_expr self.now.at stop) r.old result r.new }
    {
        if r.sees(stop) {
            return Ok(None);
        }
        Ok(Some(self.expr(r)?))
    }

    /// An expression in parentheses.
    pub fn parenthesized(&self, r: &mut Reader<'_>) -> Result<Expr, ParseError>
        requires { self.now.at.depth ≤ 200 }
        ensures { Follows (rule.parenthesized self.now.at) r.old result r.new }
    {
        r.expect(Punct::LeftParenthesis)?;
        let test = self.expr(r)?;
        r.expect(Punct::RightParenthesis)?;
        Ok(test)
    }

    /// What a block holds: a declaration or a statement.
    #[tactic(auto, using(pa_tree::proofs::Views::stmt_views), unfolding(pa_file_grammar::specs::Reading::item))]
    fn block_item(&self, r: &mut Reader<'_>) -> Result<BlockItem, ParseError>
        requires nests { NestsStmt self.now.at.depth (S.pre self.now.stmt) (S.post self.now.stmt) }
        requires shallow { self.now.at.depth ≤ 200 }
        ensures { Follows (rule.block_item self.now.at) r.old result r.new }
    {
        let from = r.begin();
        if begins_type(self.at.names, r.peek()) {
            let declaration = block_declaration(self.alloc, self.at.names, r, self.at.depth)?;
            return Ok(BlockItem::DeclarationItem {
                declaration,
                from,
                to: r.ended(),
            });
        }
        let statement = self.stmt(r)?;
        let statement = Boxed::new(self.alloc, statement)?;
        Ok(BlockItem::StatementItem {
            statement,
            from,
            to: r.ended(),
        })
    }

    /// All that a block holds.
    #[tactic(auto, using(pa_file_grammar::proofs::Turns::items_turn, pa_file_grammar::proofs::Turns::item_shortens))]
    pub fn block_items(&self, r: &mut Reader<'_>) -> Result<Items<BlockItem>, ParseError>
        requires nests { NestsStmt self.now.at.depth (S.pre self.now.stmt) (S.post self.now.stmt) }
        requires shallow { self.now.at.depth ≤ 200 }
        ensures { Follows (rule.block_items self.now.at) r.old result r.new }
    {
        let mut items = Items::new(self.alloc);
        'items: loop {
            if r.sees(Punct::RightBrace) {
                return Ok(items);
            }
            let item = self.block_item(r)?;
            items.push(item)?;
        }
    }

    /// The first part of a `for`, with its `;`.
    pub fn for_start(&self, r: &mut Reader<'_>) -> Result<ForStart, ParseError>
        requires { self.now.at.depth ≤ 200 }
        ensures { Follows (rule.for_start self.now.at) r.old result r.new }
    {
        let from = r.begin();
        if begins_type(self.at.names, r.peek()) {
            let declaration = block_declaration(self.alloc, self.at.names, r, self.at.depth)?;
            return Ok(ForStart::Declares {
                declaration,
                from,
                to: r.ended(),
            });
        }
        let value = self.optional_expr(r, Punct::Semicolon)?;
        r.expect(Punct::Semicolon)?;
        Ok(ForStart::Evaluates {
            value,
            from,
            to: r.ended(),
        })
    }
}
