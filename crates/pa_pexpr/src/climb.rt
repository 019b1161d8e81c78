//! Operators behind an operand, by precedence.

ghost use Rattle.std.specs.Prelude.{◌≡◌, ◌≤◌, suc, Ok};
ghost use Rattle.pa_tree.specs.Heights.{expr_height};
ghost use Rattle.pa_tree.specs.Views.{expr_tree};
ghost use Rattle.pa_parts.specs.Measures.{Measures};
ghost use Rattle.pa_parts.specs.Trees as tree;
ghost use Rattle.pa_pexpr.specs.Rules as rule;
ghost use Rattle.pa_pexpr.specs.Shown.{next_shown};
ghost use Rattle.pa_grammar.specs.Reading as reading;
ghost use Rattle.pa_grammar.specs.Rule.{Follows};

use crate::expr_rules::ExprRules;
use crate::infix::{Infix, tree_level};
use pa_grammar::{ParseError, Reader, SynRule, needs, plain_name};
use pa_lex::{Kind, Punct, Token};
use pa_parts::{Measured, Parts};
use pa_tree::{BinaryOperator, COND_LEVEL, Expr, Step, UNARY_LEVEL};
use sqlite_items::Boxed;

/// The operator that goes on behind `left` at this level, with its token, if one does.
#[tactic(auto, unfolding(pa_grammar::specs::Reading::next))]
fn next<'t>(r: &Reader<'t>, left: &Expr, level: u8) -> Option<(Infix, &'t Token)>
    ensures { reading.next level (expr_tree left.now) r.now ≡ Ok (next_shown result, r.now) }
{
    let t = r.peek()?;
    let Kind::Punct(punct) = &t.kind else {
        return None;
    };
    let op = Infix::from_punct(*punct)?;
    if level <= op.level() && op.left_level() <= tree_level(left) {
        Some((op, t))
    } else {
        None
    }
}

impl<'a, P: Parts> ExprRules<'a, P> {
    /// Behind an operator between two operands (C11 6.5.5 to 6.5.17).
    #[tactic(auto, using(pa_tree::proofs::Views::expr_views))]
    fn binary(
        &self,
        r: &mut Reader<'_>,
        from: u32,
        left: Measured<Expr>,
        op: BinaryOperator,
    ) -> Result<Measured<Expr>, ParseError>
        requires exprs { P.reads_exprs self.now.parts self.now.at.depth }
        requires shallow { self.now.at.depth ≤ 200 }
        requires left_height { left.height ≡ expr_height (expr_tree left.tree) }
        requires left_fits { left.height ≤ self.now.at.depth }
        ensures value { Follows (rule.binary self.now.at from left op) r.old result r.new }
        ensures measured { Measures tree.expr (suc self.now.at.depth) result }
    {
        let right = self.expr(r, op.right_level())?;
        let height = left.height.max(right.height);
        let tree = Expr::Binary {
            op,
            left: Boxed::new(self.alloc, left.tree)?,
            right: Boxed::new(self.alloc, right.tree)?,
            from,
            to: r.ended(),
        };
        Ok(Measured::node(tree, height))
    }

    /// Behind a `?` (C11 6.5.15).
    #[tactic(auto, using(pa_tree::proofs::Views::expr_views))]
    fn conditional(
        &self,
        r: &mut Reader<'_>,
        from: u32,
        test: Measured<Expr>,
    ) -> Result<Measured<Expr>, ParseError>
        requires exprs { P.reads_exprs self.now.parts self.now.at.depth }
        requires shallow { self.now.at.depth ≤ 200 }
        requires test_height { test.height ≡ expr_height (expr_tree test.tree) }
        requires test_fits { test.height ≤ self.now.at.depth }
        ensures value { Follows (rule.conditional self.now.at from test) r.old result r.new }
        ensures measured { Measures tree.expr (suc self.now.at.depth) result }
    {
        let Measured {
            tree: test,
            height: test_height,
        } = test;
        let test = Boxed::new(self.alloc, test)?;
        let Measured {
            tree: when_true,
            height: true_height,
        } = self.expr(r, 0)?;
        let when_true = Boxed::new(self.alloc, when_true)?;
        r.expect(Punct::Colon)?;
        let Measured {
            tree: when_false,
            height: false_height,
        } = self.expr(r, COND_LEVEL)?;
        let when_false = Boxed::new(self.alloc, when_false)?;
        let height = test_height.max(true_height.max(false_height));
        let tree = Expr::Conditional {
            test,
            when_true,
            when_false,
            from,
            to: r.ended(),
        };
        Ok(Measured::node(tree, height))
    }

    /// Behind a `[` (C11 6.5.2.1).
    #[tactic(auto, using(pa_tree::proofs::Views::expr_views))]
    fn index(
        &self,
        r: &mut Reader<'_>,
        from: u32,
        of: Measured<Expr>,
    ) -> Result<Measured<Expr>, ParseError>
        requires exprs { P.reads_exprs self.now.parts self.now.at.depth }
        requires shallow { self.now.at.depth ≤ 200 }
        requires of_height { of.height ≡ expr_height (expr_tree of.tree) }
        requires of_fits { of.height ≤ self.now.at.depth }
        ensures value { Follows (rule.index self.now.at from of) r.old result r.new }
        ensures measured { Measures tree.expr (suc self.now.at.depth) result }
    {
        let at = self.expr(r, 0)?;
        r.expect(Punct::RightBracket)?;
        let height = of.height.max(at.height);
        let tree = Expr::Index {
            of: Boxed::new(self.alloc, of.tree)?,
            at: Boxed::new(self.alloc, at.tree)?,
            from,
            to: r.ended(),
        };
        Ok(Measured::node(tree, height))
    }

    /// Behind a `.` (C11 6.5.2.3).
    #[tactic(auto, using(pa_tree::proofs::Views::expr_views))]
    fn dot(
        &self,
        r: &mut Reader<'_>,
        from: u32,
        of: Measured<Expr>,
    ) -> Result<Measured<Expr>, ParseError>
        requires shallow { self.now.at.depth ≤ 200 }
        requires of_height { of.height ≡ expr_height (expr_tree of.tree) }
        requires of_fits { of.height ≤ self.now.at.depth }
        ensures value { Follows (rule.dot self.now.at from of) r.old result r.new }
        ensures measured { Measures tree.expr (suc self.now.at.depth) result }
    {
        let member = plain_name(self.at.names, r)?.name;
        let height = of.height;
        let tree = Expr::Dot {
            of: Boxed::new(self.alloc, of.tree)?,
            member,
            from,
            to: r.ended(),
        };
        Ok(Measured::node(tree, height))
    }

    /// Behind a `->` (C11 6.5.2.3).
    #[tactic(auto, using(pa_tree::proofs::Views::expr_views))]
    fn arrow(
        &self,
        r: &mut Reader<'_>,
        from: u32,
        of: Measured<Expr>,
    ) -> Result<Measured<Expr>, ParseError>
        requires shallow { self.now.at.depth ≤ 200 }
        requires of_height { of.height ≡ expr_height (expr_tree of.tree) }
        requires of_fits { of.height ≤ self.now.at.depth }
        ensures value { Follows (rule.arrow self.now.at from of) r.old result r.new }
        ensures measured { Measures tree.expr (suc self.now.at.depth) result }
    {
        let member = plain_name(self.at.names, r)?.name;
        let height = of.height;
        let tree = Expr::Arrow {
            of: Boxed::new(self.alloc, of.tree)?,
            member,
            from,
            to: r.ended(),
        };
        Ok(Measured::node(tree, height))
    }

    /// Behind a `++` or `--` (C11 6.5.2.4).
    #[tactic(auto, using(pa_tree::proofs::Views::expr_views))]
    fn stepped(
        &self,
        r: &mut Reader<'_>,
        from: u32,
        of: Measured<Expr>,
        op: Step,
    ) -> Result<Measured<Expr>, ParseError>
        requires shallow { self.now.at.depth ≤ 200 }
        requires of_height { of.height ≡ expr_height (expr_tree of.tree) }
        requires of_fits { of.height ≤ self.now.at.depth }
        ensures value { Follows (rule.stepped self.now.at from of op) r.old result r.new }
        ensures measured { Measures tree.expr (suc self.now.at.depth) result }
    {
        let height = of.height;
        let tree = Expr::Postfix {
            op,
            of: Boxed::new(self.alloc, of.tree)?,
            from,
            to: r.ended(),
        };
        Ok(Measured::node(tree, height))
    }

    /// Behind a `(` (C11 6.5.2.2).
    #[tactic(auto, using(pa_tree::proofs::Views::expr_views))]
    fn call(
        &self,
        r: &mut Reader<'_>,
        from: u32,
        of: Measured<Expr>,
    ) -> Result<Measured<Expr>, ParseError>
        requires exprs { P.reads_exprs self.now.parts self.now.at.depth }
        requires shallow { self.now.at.depth ≤ 200 }
        requires of_height { of.height ≡ expr_height (expr_tree of.tree) }
        requires of_fits { of.height ≤ self.now.at.depth }
        ensures value { Follows (rule.call self.now.at from of) r.old result r.new }
        ensures measured { Measures tree.expr (suc self.now.at.depth) result }
    {
        let arguments = self.arguments(r)?;
        r.expect(Punct::RightParenthesis)?;
        let height = of.height.max(arguments.height);
        let tree = Expr::Call {
            of: Boxed::new(self.alloc, of.tree)?,
            arguments: arguments.tree,
            from,
            to: r.ended(),
        };
        Ok(Measured::node(tree, height))
    }

    /// At an operator behind an operand.
    fn operator(
        &self,
        r: &mut Reader<'_>,
        from: u32,
        left: Measured<Expr>,
        op: Infix,
        t: &Token,
    ) -> Result<Measured<Expr>, ParseError>
        requires exprs { P.reads_exprs self.now.parts self.now.at.depth }
        requires shallow { self.now.at.depth ≤ 200 }
        requires left_height { left.height ≡ expr_height (expr_tree left.tree) }
        ensures value { Follows (rule.operator self.now.at from left op t.now) r.old result r.new }
        ensures measured { Measures tree.expr (suc self.now.at.depth) result }
    {
        needs(left.height, self.at.depth)?;
        r.take(t);
        match op {
            Infix::Between(op) => self.binary(r, from, left, op),
            Infix::Choice => self.conditional(r, from, left),
            Infix::Indexed => self.index(r, from, left),
            Infix::Called => self.call(r, from, left),
            Infix::Dotted => self.dot(r, from, left),
            Infix::Arrowed => self.arrow(r, from, left),
            Infix::Stepped(step) => self.stepped(r, from, left, step),
        }
    }

    /// Goes on behind an operand with operators of this level.
    #[tactic(auto, using(crate::proofs::Turns::climb_more, crate::proofs::Turns::climb_last))]
    fn climb(
        &self,
        r: &mut Reader<'_>,
        from: u32,
        level: u8,
        first: Measured<Expr>,
    ) -> Result<Measured<Expr>, ParseError>
        requires exprs { P.reads_exprs self.now.parts self.now.at.depth }
        requires shallow { self.now.at.depth ≤ 200 }
        requires first_height { first.height ≡ expr_height (expr_tree first.tree) }
        requires first_fits { first.height ≤ suc self.now.at.depth }
        ensures value { Follows (rule.climb self.now.at from level first) r.old result r.new }
        ensures measured { Measures tree.expr (suc self.now.at.depth) result }
    {
        let mut left = first;
        for _turn in 0..self.at.depth + 1 {
            let Some((op, t)) = next(r, &left.tree, level) else {
                return Ok(left);
            };
            left = self.operator(r, from, left, op, t)?;
        }
        match next(r, &left.tree, level) {
            None => Ok(left),
            Some(_) => Err(ParseError::Broken(SynRule::S2)),
        }
    }

    /// An expression of this level.
    #[tactic(auto, unfolding(pa_grammar::specs::Reading::expr_level))]
    pub fn expr_level(&self, r: &mut Reader<'_>, level: u8) -> Result<Measured<Expr>, ParseError>
        requires exprs { P.reads_exprs self.now.parts self.now.at.depth }
        requires types { P.reads_types self.now.parts self.now.at.depth }
        requires shallow { self.now.at.depth ≤ 200 }
        ensures value { Follows (rule.expr_level self.now.at level) r.old result r.new }
        ensures measured { Measures tree.expr (suc self.now.at.depth) result }
    {
        let from = r.begin();
        let first = self.operand(r, level)?;
        self.climb(r, from, level, first)
    }

    /// Behind the `(` of a unary expression at `from`, where no type name follows.
    #[tactic(auto, unfolding(pa_grammar::specs::Reading::opened_level))]
    pub fn opened_level(&self, r: &mut Reader<'_>, from: u32) -> Result<Measured<Expr>, ParseError>
        requires exprs { P.reads_exprs self.now.parts self.now.at.depth }
        requires shallow { self.now.at.depth ≤ 200 }
        ensures value { Follows (rule.opened_level self.now.at from) r.old result r.new }
        ensures measured { Measures tree.expr (suc self.now.at.depth) result }
    {
        let first = self.paren(r, from)?;
        self.climb(r, from, UNARY_LEVEL, first)
    }
}
