//! Selection statements and labels (C11 6.8.4 and 6.8.1).

ghost use Rattle.std.specs.Prelude.{◌≤◌};
ghost use Rattle.pa_pdecl.specs.Nests.{NestsStmt};
ghost use Rattle.pa_pdecl.specs.Rules as rule;
ghost use Rattle.pa_grammar.specs.Rule.{Follows};

use crate::stmt_rules::StmtRules;
use crate::word::{expect_word, sees_word};
use pa_grammar::{ParseError, Reader, TypeNames, needs};
use pa_lex::{Keyword, Punct, Token};
use pa_readers::read_expr;
use pa_tree::{Expr, Stmt};
use sqlite_items::Boxed;
use std::alloc::Global;

impl<'a, S: Fn(Global, &TypeNames, &mut Reader<'_>, u32) -> Result<Stmt, ParseError>> StmtRules<
    'a,
    S,
> {
    /// Behind the statement of an `if`: an `else` belongs to it.
    #[tactic(auto, using(pa_tree::proofs::Views::stmt_views))]
    fn else_part(
        &self,
        r: &mut Reader<'_>,
        from: u32,
        test: Expr,
        when_true: Stmt,
    ) -> Result<Stmt, ParseError>
        requires nests { NestsStmt self.now.at.depth (S.pre self.now.stmt) (S.post self.now.stmt) }
        ensures { Follows (rule.else_part self.now.at from test when_true) r.old result r.new }
    {
        let when_true = Boxed::new(self.alloc, when_true)?;
        if !sees_word(r, Keyword::Else) {
            return Ok(Stmt::If {
                test,
                when_true,
                from,
                to: r.ended(),
            });
        }
        expect_word(r, Keyword::Else)?;
        let when_false = self.stmt(r)?;
        let when_false = Boxed::new(self.alloc, when_false)?;
        Ok(Stmt::IfElse {
            test,
            when_true,
            when_false,
            from,
            to: r.ended(),
        })
    }

    /// `if`, with its `else` where one follows.
    #[tactic(auto, using(pa_tree::proofs::Views::stmt_views))]
    pub fn if_stmt(&self, r: &mut Reader<'_>, t: &Token) -> Result<Stmt, ParseError>
        requires nests { NestsStmt self.now.at.depth (S.pre self.now.stmt) (S.post self.now.stmt) }
        requires shallow { self.now.at.depth ≤ 200 }
        ensures { Follows (rule.if_stmt self.now.at t.now) r.old result r.new }
    {
        needs(1, self.at.depth)?;
        r.take(t);
        let test = self.parenthesized(r)?;
        let when_true = self.stmt(r)?;
        self.else_part(r, t.from, test, when_true)
    }

    /// `switch`.
    #[tactic(auto, using(pa_tree::proofs::Views::stmt_views))]
    pub fn switch_stmt(&self, r: &mut Reader<'_>, t: &Token) -> Result<Stmt, ParseError>
        requires nests { NestsStmt self.now.at.depth (S.pre self.now.stmt) (S.post self.now.stmt) }
        requires shallow { self.now.at.depth ≤ 200 }
        ensures { Follows (rule.switch_stmt self.now.at t.now) r.old result r.new }
    {
        needs(1, self.at.depth)?;
        r.take(t);
        let value = self.parenthesized(r)?;
        let body = self.stmt(r)?;
        let body = Boxed::new(self.alloc, body)?;
        Ok(Stmt::Switch {
            value,
            body,
            from: t.from,
            to: r.ended(),
        })
    }

    /// `case`.
    #[tactic(auto, using(pa_tree::proofs::Views::stmt_views))]
    pub fn case_stmt(&self, r: &mut Reader<'_>, t: &Token) -> Result<Stmt, ParseError>
        requires nests { NestsStmt self.now.at.depth (S.pre self.now.stmt) (S.post self.now.stmt) }
        requires shallow { self.now.at.depth ≤ 200 }
        ensures { Follows (rule.case_stmt self.now.at t.now) r.old result r.new }
    {
        needs(1, self.at.depth)?;
        r.take(t);
        let value = read_expr(self.alloc, self.at.names, r, self.at.depth, 2)?.tree;
        r.expect(Punct::Colon)?;
        let body = self.stmt(r)?;
        let body = Boxed::new(self.alloc, body)?;
        Ok(Stmt::Case {
            value,
            body,
            from: t.from,
            to: r.ended(),
        })
    }

    /// `default`.
    #[tactic(auto, using(pa_tree::proofs::Views::stmt_views))]
    pub fn default_stmt(&self, r: &mut Reader<'_>, t: &Token) -> Result<Stmt, ParseError>
        requires nests { NestsStmt self.now.at.depth (S.pre self.now.stmt) (S.post self.now.stmt) }
        requires shallow { self.now.at.depth ≤ 200 }
        ensures { Follows (rule.default_stmt self.now.at t.now) r.old result r.new }
    {
        needs(1, self.at.depth)?;
        r.take(t);
        r.expect(Punct::Colon)?;
        let body = self.stmt(r)?;
        let body = Boxed::new(self.alloc, body)?;
        Ok(Stmt::Default {
            body,
            from: t.from,
            to: r.ended(),
        })
    }
}
