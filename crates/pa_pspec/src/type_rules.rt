//! What the rules of specifiers and declarators stand on.

ghost use Rattle.pa_parts.specs.Measures.{Measures};
ghost use Rattle.pa_pspec.specs.Rules as rule;
ghost use Rattle.pa_parts.specs.Trees as tree;
ghost use Rattle.pa_grammar.specs.Rule.{Follows};

use pa_grammar::{Naming, ParseError, Reader};
use pa_parts::{At, Measured, Parts};
use pa_tree::{Declarator, Expr, Specs};
use std::alloc::Global;

/// The rules of specifiers and declarators, over the readers of their parts, which stand in a depth.
#[derive(Clone, Copy)]
pub struct TypeRules<'a, P> {
    pub alloc: Global,
    pub at: At<'a>,
    pub parts: P,
}

impl<'a, P: Parts> TypeRules<'a, P> {
    /// An expression of this level.
    pub fn expr(&self, r: &mut Reader<'_>, level: u8) -> Result<Measured<Expr>, ParseError>
        requires exprs { P.reads_exprs self.now.parts self.now.at.depth }
        ensures value { Follows (rule.expr self.now.at level) r.old result r.new }
        ensures measured { Measures tree.expr self.now.at.depth result }
    {
        self.parts
            .expr(self.alloc, self.at.names, r, self.at.depth, level)
    }

    /// Specifiers.
    pub fn specs(&self, r: &mut Reader<'_>, bodies: bool) -> Result<Measured<Specs>, ParseError>
        requires types { P.reads_types self.now.parts self.now.at.depth }
        ensures value { Follows (rule.specs self.now.at bodies) r.old result r.new }
        ensures measured { Measures tree.specs self.now.at.depth result }
    {
        self.parts
            .specs(self.alloc, self.at.names, r, self.at.depth, bodies)
    }

    /// A declarator.
    pub fn declarator(
        &self,
        r: &mut Reader<'_>,
        name: Naming,
    ) -> Result<Measured<Declarator>, ParseError>
        requires types { P.reads_types self.now.parts self.now.at.depth }
        ensures value { Follows (rule.declarator self.now.at name) r.old result r.new }
        ensures measured { Measures tree.declarator self.now.at.depth result }
    {
        self.parts
            .declarator(self.alloc, self.at.names, r, self.at.depth, name)
    }
}
