//! What the rules of expressions stand on.

ghost use Rattle.pa_parts.specs.Measures.{Measures};
ghost use Rattle.pa_parts.specs.Trees as tree;
ghost use Rattle.pa_pexpr.specs.Rules as rule;
ghost use Rattle.pa_grammar.specs.Rule.{Follows};

use pa_grammar::{Naming, ParseError, Reader};
use pa_parts::{At, Measured, Parts};
use pa_tree::{Expr, TypeName};
use std::alloc::Global;

/// The rules of expressions, over the readers of their parts, which stand in a depth.
#[derive(Clone, Copy)]
pub struct ExprRules<'a, P> {
    pub alloc: Global,
    pub at: At<'a>,
    pub parts: P,
}

impl<'a, P: Parts> ExprRules<'a, P> {
    /// An expression of this level.
    pub fn expr(&self, r: &mut Reader<'_>, level: u8) -> Result<Measured<Expr>, ParseError>
        requires exprs { P.reads_exprs self.now.parts self.now.at.depth }
        ensures value { Follows (rule.expr self.now.at level) r.old result r.new }
        ensures measured { Measures tree.expr self.now.at.depth result }
    {
        self.parts
            .expr(self.alloc, self.at.names, r, self.at.depth, level)
    }

    /// A unary expression whose `(`, at `from`, is read.
    pub fn opened(&self, r: &mut Reader<'_>, from: u32) -> Result<Measured<Expr>, ParseError>
        requires exprs { P.reads_exprs self.now.parts self.now.at.depth }
        ensures value { Follows (rule.opened self.now.at from) r.old result r.new }
        ensures measured { Measures tree.expr self.now.at.depth result }
    {
        self.parts
            .opened(self.alloc, self.at.names, r, self.at.depth, from)
    }

    /// A type name (C11 6.7.7).
    #[tactic(auto, using(pa_tree::proofs::Views::expr_views), unfolding(pa_grammar::specs::Reading::type_name))]
    pub fn type_name(&self, r: &mut Reader<'_>) -> Result<Measured<TypeName>, ParseError>
        requires types { P.reads_types self.now.parts self.now.at.depth }
        ensures value { Follows (rule.type_name self.now.at) r.old result r.new }
        ensures measured { Measures tree.type_name self.now.at.depth result }
    {
        let from = r.begin();
        let specs = self
            .parts
            .specs(self.alloc, self.at.names, r, self.at.depth, false)?;
        let declarator = self.parts.declarator(
            self.alloc,
            self.at.names,
            r,
            self.at.depth,
            Naming::Unnamed,
        )?;
        let height = specs.height.max(declarator.height);
        let tree = TypeName {
            specs: specs.tree,
            declarator: declarator.tree,
            from,
            to: r.ended(),
        };
        Ok(Measured { tree, height })
    }
}
