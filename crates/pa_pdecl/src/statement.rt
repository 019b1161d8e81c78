//! Statements (C11 6.8).

ghost use Rattle.std.specs.Prelude.{◌≡◌, ◌≤◌};
ghost use Rattle.pa_pdecl.specs.Nests.{NestsStmt};
ghost use Rattle.pa_file_grammar.specs.Reading as reading;
ghost use Rattle.pa_pdecl.specs.Rules as rule;
ghost use Rattle.pa_grammar.specs.Rule.{Follows};

use crate::stmt_rules::StmtRules;
use pa_grammar::{ParseError, Reader, SynRule, TypeNames};
use pa_lex::{Keyword, Kind, Punct, Token};
use pa_parts::At;
use pa_readers::read_expr;
use pa_tree::Stmt;
use std::alloc::Global;

impl<'a, S: Fn(Global, &TypeNames, &mut Reader<'_>, u32) -> Result<Stmt, ParseError>> StmtRules<
    'a,
    S,
> {
    /// `break`.
    #[tactic(auto, using(pa_tree::proofs::Views::stmt_views))]
    fn break_stmt(&self, r: &mut Reader<'_>, t: &Token) -> Result<Stmt, ParseError>
        requires shallow { self.now.at.depth ≤ 200 }
        ensures { Follows (rule.break_stmt self.now.at t.now) r.old result r.new }
    {
        r.take(t);
        r.expect(Punct::Semicolon)?;
        Ok(Stmt::Break {
            from: t.from,
            to: r.ended(),
        })
    }

    /// `continue`.
    #[tactic(auto, using(pa_tree::proofs::Views::stmt_views))]
    fn continue_stmt(&self, r: &mut Reader<'_>, t: &Token) -> Result<Stmt, ParseError>
        requires shallow { self.now.at.depth ≤ 200 }
        ensures { Follows (rule.continue_stmt self.now.at t.now) r.old result r.new }
    {
        r.take(t);
        r.expect(Punct::Semicolon)?;
        Ok(Stmt::Continue {
            from: t.from,
            to: r.ended(),
        })
    }

    /// `return`.
    #[tactic(auto, using(pa_tree::proofs::Views::stmt_views))]
    fn return_stmt(&self, r: &mut Reader<'_>, t: &Token) -> Result<Stmt, ParseError>
        requires shallow { self.now.at.depth ≤ 200 }
        ensures { Follows (rule.return_stmt self.now.at t.now) r.old result r.new }
    {
        r.take(t);
        let value = self.optional_expr(r, Punct::Semicolon)?;
        r.expect(Punct::Semicolon)?;
        Ok(Stmt::Return {
            value,
            from: t.from,
            to: r.ended(),
        })
    }

    /// An expression, or none, with its `;`.
    #[tactic(auto, using(pa_tree::proofs::Views::stmt_views))]
    fn expr_stmt(&self, r: &mut Reader<'_>, from: u32) -> Result<Stmt, ParseError>
        requires shallow { self.now.at.depth ≤ 200 }
        ensures { Follows (rule.expr_stmt self.now.at from) r.old result r.new }
    {
        let value = self.optional_expr(r, Punct::Semicolon)?;
        r.expect(Punct::Semicolon)?;
        Ok(Stmt::Expression {
            value,
            from,
            to: r.ended(),
        })
    }

    /// A compound statement.
    #[tactic(auto, using(pa_tree::proofs::Views::stmt_views))]
    fn compound_stmt(&self, r: &mut Reader<'_>, t: &Token) -> Result<Stmt, ParseError>
        requires nests { NestsStmt self.now.at.depth (S.pre self.now.stmt) (S.post self.now.stmt) }
        requires shallow { self.now.at.depth ≤ 200 }
        ensures { Follows (rule.compound_stmt self.now.at t.now) r.old result r.new }
    {
        r.take(t);
        let items = self.block_items(r)?;
        r.expect(Punct::RightBrace)?;
        Ok(Stmt::Compound {
            items,
            from: t.from,
            to: r.ended(),
        })
    }

    /// At a keyword.
    fn keyword_stmt(
        &self,
        r: &mut Reader<'_>,
        t: &Token,
        keyword: Keyword,
    ) -> Result<Stmt, ParseError>
        requires nests { NestsStmt self.now.at.depth (S.pre self.now.stmt) (S.post self.now.stmt) }
        requires shallow { self.now.at.depth ≤ 200 }
        ensures { Follows (rule.keyword_stmt self.now.at t.now keyword) r.old result r.new }
    {
        match keyword {
            Keyword::If => self.if_stmt(r, t),
            Keyword::While => self.while_stmt(r, t),
            Keyword::Do => self.do_stmt(r, t),
            Keyword::For => self.for_stmt(r, t),
            Keyword::Switch => self.switch_stmt(r, t),
            Keyword::Case => self.case_stmt(r, t),
            Keyword::Default => self.default_stmt(r, t),
            Keyword::Break => self.break_stmt(r, t),
            Keyword::Continue => self.continue_stmt(r, t),
            Keyword::Return => self.return_stmt(r, t),
            _ => self.expr_stmt(r, t.from),
        }
    }

    /// At a punctuator.
    fn punct_stmt(&self, r: &mut Reader<'_>, t: &Token, punct: Punct) -> Result<Stmt, ParseError>
        requires nests { NestsStmt self.now.at.depth (S.pre self.now.stmt) (S.post self.now.stmt) }
        requires shallow { self.now.at.depth ≤ 200 }
        ensures { Follows (rule.punct_stmt self.now.at t.now punct) r.old result r.new }
    {
        match punct {
            Punct::LeftBrace => self.compound_stmt(r, t),
            _ => self.expr_stmt(r, t.from),
        }
    }

    /// A statement whose parts are inside.
    #[tactic(auto, unfolding(pa_file_grammar::specs::Reading::stmt_level))]
    fn stmt_level(&self, r: &mut Reader<'_>) -> Result<Stmt, ParseError>
        requires nests { NestsStmt self.now.at.depth (S.pre self.now.stmt) (S.post self.now.stmt) }
        requires shallow { self.now.at.depth ≤ 200 }
        ensures { Follows (rule.stmt_level self.now.at) r.old result r.new }
    {
        let Some(t) = r.peek() else {
            return Err(ParseError::Broken(SynRule::S1));
        };
        match &t.kind {
            Kind::Keyword(keyword) => self.keyword_stmt(r, t, *keyword),
            Kind::Punct(punct) => self.punct_stmt(r, t, *punct),
            _ => self.expr_stmt(r, t.from),
        }
    }
}

/// A statement other than an expression begins with this token.
fn begins_stmt(names: &TypeNames, kind: &Kind) -> bool
    ensures { result ≡ reading.begins_stmt names.now kind.now }
{
    match kind {
        Kind::Keyword(keyword) => matches!(
            keyword,
            Keyword::If
                | Keyword::While
                | Keyword::Do
                | Keyword::For
                | Keyword::Switch
                | Keyword::Case
                | Keyword::Default
                | Keyword::Break
                | Keyword::Continue
                | Keyword::Return
        ),
        Kind::Punct(punct) => matches!(punct, Punct::LeftBrace | Punct::Semicolon),
        _ => false,
    }
}

/// Refuses the next token where no statement has room.
pub fn no_stmt(alloc: Global, names: &TypeNames, r: &mut Reader<'_>) -> Result<Stmt, ParseError>
    ensures { Follows (rule.no_stmt names.now) r.old result r.new }
{
    let Some(t) = r.peek() else {
        return Err(ParseError::Broken(SynRule::S1));
    };
    if begins_stmt(names, &t.kind) {
        return Err(ParseError::Broken(SynRule::S2));
    }
    read_expr(alloc, names, r, 0, 0)?;
    Err(ParseError::Broken(SynRule::S1))
}

/// A statement.
#[tactic(auto, unfolding(pa_file_grammar::specs::Reading::stmt))]
pub fn stmt(
    alloc: Global,
    names: &TypeNames,
    r: &mut Reader<'_>,
    depth: u32,
) -> Result<Stmt, ParseError>
    requires { depth ≤ 200 }
    ensures { Follows (rule.statement names.now depth) r.old result r.new }
{
    if depth == 0 {
        return no_stmt(alloc, names, r);
    }
    StmtRules {
        alloc,
        at: At {
            names,
            depth: depth - 1,
        },
        stmt: stmt,
    }
    .stmt_level(r)
}
