//! Loops (C11 6.8.5).

ghost use Rattle.std.specs.Prelude.{◌≤◌};
ghost use Rattle.pa_pdecl.specs.Nests.{NestsStmt};
ghost use Rattle.pa_pdecl.specs.Rules as rule;
ghost use Rattle.pa_grammar.specs.Rule.{Follows};

use crate::stmt_rules::StmtRules;
use crate::word::expect_word;
use pa_grammar::{ParseError, Reader, TypeNames, needs};
use pa_lex::{Keyword, Punct, Token};
use pa_tree::{Expr, ForStart, Stmt};
use sqlite_items::Boxed;
use std::alloc::Global;

impl<'a, S: Fn(Global, &TypeNames, &mut Reader<'_>, u32) -> Result<Stmt, ParseError>> StmtRules<
    'a,
    S,
> {
    /// `while`.
    #[tactic(auto, using(pa_tree::proofs::Views::stmt_views))]
    pub fn while_stmt(&self, r: &mut Reader<'_>, t: &Token) -> Result<Stmt, ParseError>
        requires nests { NestsStmt self.now.at.depth (S.pre self.now.stmt) (S.post self.now.stmt) }
        requires shallow { self.now.at.depth ≤ 200 }
        ensures { Follows (rule.while_stmt self.now.at t.now) r.old result r.new }
    {
        needs(1, self.at.depth)?;
        r.take(t);
        let test = self.parenthesized(r)?;
        let body = self.stmt(r)?;
        let body = Boxed::new(self.alloc, body)?;
        Ok(Stmt::While {
            test,
            body,
            from: t.from,
            to: r.ended(),
        })
    }

    /// `do`, with its `while`.
    #[tactic(auto, using(pa_tree::proofs::Views::stmt_views))]
    pub fn do_stmt(&self, r: &mut Reader<'_>, t: &Token) -> Result<Stmt, ParseError>
        requires nests { NestsStmt self.now.at.depth (S.pre self.now.stmt) (S.post self.now.stmt) }
        requires shallow { self.now.at.depth ≤ 200 }
        ensures { Follows (rule.do_stmt self.now.at t.now) r.old result r.new }
    {
        needs(1, self.at.depth)?;
        r.take(t);
        let body = self.stmt(r)?;
        let body = Boxed::new(self.alloc, body)?;
        expect_word(r, Keyword::While)?;
        let test = self.parenthesized(r)?;
        r.expect(Punct::Semicolon)?;
        Ok(Stmt::DoWhile {
            body,
            test,
            from: t.from,
            to: r.ended(),
        })
    }

    /// The body of a `for`.
    #[tactic(auto, using(pa_tree::proofs::Views::stmt_views))]
    fn for_body(
        &self,
        r: &mut Reader<'_>,
        from: u32,
        start: ForStart,
        test: Option<Expr>,
        step: Option<Expr>,
    ) -> Result<Stmt, ParseError>
        requires nests { NestsStmt self.now.at.depth (S.pre self.now.stmt) (S.post self.now.stmt) }
        ensures { Follows (rule.for_body self.now.at from start test step) r.old result r.new }
    {
        let body = self.stmt(r)?;
        let body = Boxed::new(self.alloc, body)?;
        Ok(Stmt::For {
            start,
            test,
            step,
            body,
            from,
            to: r.ended(),
        })
    }

    /// Behind the second `;` of a `for`.
    fn for_step(
        &self,
        r: &mut Reader<'_>,
        from: u32,
        start: ForStart,
        test: Option<Expr>,
    ) -> Result<Stmt, ParseError>
        requires nests { NestsStmt self.now.at.depth (S.pre self.now.stmt) (S.post self.now.stmt) }
        requires shallow { self.now.at.depth ≤ 200 }
        ensures { Follows (rule.for_step self.now.at from start test) r.old result r.new }
    {
        let step = self.optional_expr(r, Punct::RightParenthesis)?;
        r.expect(Punct::RightParenthesis)?;
        self.for_body(r, from, start, test, step)
    }

    /// Behind the first `;` of a `for`.
    fn for_test(&self, r: &mut Reader<'_>, from: u32, start: ForStart) -> Result<Stmt, ParseError>
        requires nests { NestsStmt self.now.at.depth (S.pre self.now.stmt) (S.post self.now.stmt) }
        requires shallow { self.now.at.depth ≤ 200 }
        ensures { Follows (rule.for_test self.now.at from start) r.old result r.new }
    {
        let test = self.optional_expr(r, Punct::Semicolon)?;
        r.expect(Punct::Semicolon)?;
        self.for_step(r, from, start, test)
    }

    /// `for`.
    pub fn for_stmt(&self, r: &mut Reader<'_>, t: &Token) -> Result<Stmt, ParseError>
        requires nests { NestsStmt self.now.at.depth (S.pre self.now.stmt) (S.post self.now.stmt) }
        requires shallow { self.now.at.depth ≤ 200 }
        ensures { Follows (rule.for_stmt self.now.at t.now) r.old result r.new }
    {
        needs(1, self.at.depth)?;
        r.take(t);
        r.expect(Punct::LeftParenthesis)?;
        let start = self.for_start(r)?;
        self.for_test(r, t.from, start)
    }
}
