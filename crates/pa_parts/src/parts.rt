//! What reads the parts of a tree.

ghost use Rattle.std.specs.Prelude.{ℕ};
ghost use Rattle.pa_parts.specs.Measures.{Measures};
ghost use Rattle.pa_parts.specs.Nonterminals as nonterminal;
ghost use Rattle.pa_parts.specs.Trees as tree;
ghost use Rattle.pa_grammar.specs.Rule.{Follows};

use crate::measured::Measured;
use pa_grammar::{Naming, ParseError, Reader, TypeNames};
use pa_tree::{Declarator, Expr, Specs};
use std::alloc::Global;

/// Readers of the nonterminals of C11 6.5 and 6.7 that lead to each other. Each reads a tree that is no deeper than `depth`, or says
/// which rule the next token breaks.
pub trait Parts {
    /// In this depth expressions may be read.
    ghost reads_exprs: { Self → ℕ → Type 0 };

    /// In this depth specifiers and declarators may be read.
    ghost reads_types: { Self → ℕ → Type 0 };

    /// Reads an expression of a level (C11 6.5).
    fn expr(
        &self,
        alloc: Global,
        names: &TypeNames,
        r: &mut Reader<'_>,
        depth: u32,
        level: u8,
    ) -> Result<Measured<Expr>, ParseError>
        requires exprs { reads_exprs self.now depth }
        ensures value { Follows (nonterminal.expr names.now depth level) r.old result r.new }
        ensures measured { Measures tree.expr depth result };

    /// Reads on behind the `(` of a unary expression, which stands at `from` and is followed by no type name.
    fn opened(
        &self,
        alloc: Global,
        names: &TypeNames,
        r: &mut Reader<'_>,
        depth: u32,
        from: u32,
    ) -> Result<Measured<Expr>, ParseError>
        requires exprs { reads_exprs self.now depth }
        ensures value { Follows (nonterminal.opened names.now depth from) r.old result r.new }
        ensures measured { Measures tree.expr depth result };

    /// Reads specifiers (C11 6.7.2), with the body of a struct or an enumeration or without.
    fn specs(
        &self,
        alloc: Global,
        names: &TypeNames,
        r: &mut Reader<'_>,
        depth: u32,
        bodies: bool,
    ) -> Result<Measured<Specs>, ParseError>
        requires types { reads_types self.now depth }
        ensures value { Follows (nonterminal.specs names.now depth bodies) r.old result r.new }
        ensures measured { Measures tree.specs depth result };

    /// Reads a declarator (C11 6.7.6).
    fn declarator(
        &self,
        alloc: Global,
        names: &TypeNames,
        r: &mut Reader<'_>,
        depth: u32,
        name: Naming,
    ) -> Result<Measured<Declarator>, ParseError>
        requires types { reads_types self.now depth }
        ensures value { Follows (nonterminal.declarator names.now depth name) r.old result r.new }
        ensures measured { Measures tree.declarator depth result };
}
