//! Qualifiers (C11 6.7.3, and `__ptrauth` of Clang's Pointer Authentication page).

ghost use Rattle.std.specs.Prelude.{◌≡◌, ◌≤◌};
ghost use Rattle.std.specs.Option.{option_copied};
ghost use Rattle.pa_tree.specs.Heights.{expr_height};
ghost use Rattle.pa_tree.specs.Views.{expr_tree};
ghost use Rattle.pa_parts.specs.Measures.{Measures};
ghost use Rattle.pa_pspec.specs.Lists.{BeginsWith, ReadsBehind};
ghost use Rattle.pa_pspec.specs.Rules as rule;
ghost use Rattle.pa_parts.specs.Trees as tree;
ghost use Rattle.pa_grammar.specs.Reading as reading;
ghost use Rattle.pa_grammar.specs.Rule.{Follows};

use crate::type_rules::TypeRules;
use pa_grammar::{ParseError, Reader, SynRule, is_word, needs};
use pa_lex::{Keyword, Punct, Token};
use pa_parts::{Measured, Parts};
use pa_tree::{COND_LEVEL, Expr, Qualifier};
use sqlite_items::Items;

/// A qualifier begins with the next token.
fn begins_qualifier(next: Option<&Token>) -> bool
    ensures { result ≡ reading.begins_qualifier (option_copied next.entry) }
{
    match next {
        Some(t) => is_word(&t.kind, Keyword::Const) || is_word(&t.kind, Keyword::Ptrauth),
        None => false,
    }
}

impl<'a, P: Parts> TypeRules<'a, P> {
    /// The arguments of `__ptrauth` behind the first one, two at most, and the greatest height of all.
    #[tactic(auto, using(crate::proofs::Qualifiers::argument_lists))]
    fn ptrauth_arguments(
        &self,
        r: &mut Reader<'_>,
        first: Measured<Expr>,
    ) -> Result<Measured<Items<Expr>>, ParseError>
        requires exprs { P.reads_exprs self.now.parts self.now.at.depth }
        requires first_height { first.height ≡ expr_height (expr_tree first.tree) }
        requires first_fits { first.height ≤ self.now.at.depth }
        ensures value { ReadsBehind (rule.more_arguments self.now.at r.old) result r.new }
        ensures first { BeginsWith first.tree result }
        ensures measured { Measures tree.exprs self.now.at.depth result }
    {
        let mut height = first.height;
        let mut all = Items::new(self.alloc);
        all.push(first.tree)?;
        for _turn in 0..2u32 {
            if !r.sees(Punct::Comma) {
                return Ok(Measured { tree: all, height });
            }
            r.expect(Punct::Comma)?;
            let argument = self.expr(r, COND_LEVEL)?;
            all.push(argument.tree)?;
            height = height.max(argument.height);
        }
        Ok(Measured { tree: all, height })
    }

    /// Behind `__ptrauth`.
    #[tactic(auto, using(pa_tree::proofs::Views::expr_views))]
    fn ptrauth(&self, r: &mut Reader<'_>, from: u32) -> Result<Measured<Qualifier>, ParseError>
        requires exprs { P.reads_exprs self.now.parts self.now.at.depth }
        ensures value { Follows (rule.ptrauth self.now.at from) r.old result r.new }
        ensures measured { Measures tree.qualifier self.now.at.depth result }
    {
        r.expect(Punct::LeftParenthesis)?;
        let first = self.expr(r, COND_LEVEL)?;
        let arguments = self.ptrauth_arguments(r, first)?;
        r.expect(Punct::RightParenthesis)?;
        let height = arguments.height;
        let tree = Qualifier::Ptrauth {
            arguments: arguments.tree,
            from,
            to: r.ended(),
        };
        Ok(Measured { tree, height })
    }

    /// A qualifier.
    #[tactic(auto, using(pa_tree::proofs::Views::expr_views))]
    fn qualifier(&self, r: &mut Reader<'_>) -> Result<Measured<Qualifier>, ParseError>
        requires exprs { P.reads_exprs self.now.parts self.now.at.depth }
        ensures value { Follows (rule.qualifier self.now.at) r.old result r.new }
        ensures measured { Measures tree.qualifier self.now.at.depth result }
    {
        let Some(t) = r.peek() else {
            return Err(ParseError::Broken(SynRule::S1));
        };
        if is_word(&t.kind, Keyword::Const) {
            r.take(t);
            let (from, to) = (t.from, t.to);
            return Ok(Measured {
                tree: Qualifier::Const { from, to },
                height: 0,
            });
        }
        needs(1, self.at.depth)?;
        r.take(t);
        self.ptrauth(r, t.from)
    }

    /// The qualifiers that follow, and their greatest height.
    pub fn qualifiers(&self, r: &mut Reader<'_>) -> Result<Measured<Items<Qualifier>>, ParseError>
        requires exprs { P.reads_exprs self.now.parts self.now.at.depth }
        ensures value { Follows (rule.qualifiers self.now.at) r.old result r.new }
        ensures measured { Measures tree.qualifiers self.now.at.depth result }
    {
        let mut height = 0;
        let mut all = Items::new(self.alloc);
        'qualifiers: while begins_qualifier(r.peek()) {
            let qualifier = self.qualifier(r)?;
            all.push(qualifier.tree)?;
            height = height.max(qualifier.height);
        }
        Ok(Measured { tree: all, height })
    }
}
