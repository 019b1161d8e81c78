//! The arguments of a call (C11 6.5.2.2).

ghost use Rattle.std.specs.Prelude.{◌≡◌, ◌≤◌, ◌<◌, length, OnOk};
ghost use Rattle.pa_tree.specs.Heights.{expr_height};
ghost use Rattle.pa_tree.specs.Views.{expr_tree};
ghost use Rattle.pa_parts.specs.Measures.{Measures};
ghost use Rattle.pa_parts.specs.Trees as tree;
ghost use Rattle.pa_pexpr.specs.Rules as rule;
ghost use Rattle.pa_grammar.specs.Rule.{Follows};

use crate::expr_rules::ExprRules;
use pa_grammar::{ParseError, Reader};
use pa_lex::Punct;
use pa_parts::{Measured, Parts};
use pa_tree::Expr;
use sqlite_items::Items;

impl<'a, P: Parts> ExprRules<'a, P> {
    /// A comma and an argument behind it.
    fn next_argument(&self, r: &mut Reader<'_>) -> Result<Measured<Expr>, ParseError>
        requires exprs { P.reads_exprs self.now.parts self.now.at.depth }
        ensures value { Follows (rule.next_argument self.now.at) r.old result r.new }
        ensures measured { Measures tree.expr self.now.at.depth result }
        ensures fewer { OnOk result (length r.new.ahead < length r.old.ahead) }
    {
        r.expect(Punct::Comma)?;
        self.expr(r, 1)
    }

    /// The arguments behind the first one, and the greatest height of all.
    #[tactic(auto, using(crate::proofs::Turns::argument_turn, crate::proofs::Turns::exprs_snoc, crate::proofs::Turns::shown_snoc))]
    fn more_arguments(
        &self,
        r: &mut Reader<'_>,
        first: Measured<Expr>,
    ) -> Result<Measured<Items<Expr>>, ParseError>
        requires exprs { P.reads_exprs self.now.parts self.now.at.depth }
        requires first_height { first.height ≡ expr_height (expr_tree first.tree) }
        requires first_fits { first.height ≤ self.now.at.depth }
        ensures value { Follows (rule.more_arguments self.now.at first) r.old result r.new }
        ensures measured { Measures tree.exprs self.now.at.depth result }
    {
        let mut height = first.height;
        let mut all = Items::new(self.alloc);
        all.push(first.tree)?;
        'arguments: loop {
            if !r.sees(Punct::Comma) {
                return Ok(Measured { tree: all, height });
            }
            let argument = self.next_argument(r)?;
            all.push(argument.tree)?;
            height = height.max(argument.height);
        }
    }

    /// The arguments of a call, if any, and their greatest height.
    pub fn arguments(&self, r: &mut Reader<'_>) -> Result<Measured<Items<Expr>>, ParseError>
        requires exprs { P.reads_exprs self.now.parts self.now.at.depth }
        ensures value { Follows (rule.arguments self.now.at) r.old result r.new }
        ensures measured { Measures tree.exprs self.now.at.depth result }
    {
        if r.sees(Punct::RightParenthesis) {
            return Ok(Measured {
                tree: Items::new(self.alloc),
                height: 0,
            });
        }
        let first = self.expr(r, 1)?;
        self.more_arguments(r, first)
    }
}
