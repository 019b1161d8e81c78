//! Function values as readers: the one place where the rules of the grammar lead to each other through values.

ghost use Rattle.pa_parts.specs.Nests.{NestsExpr, NestsOpened, NestsSpecs, NestsDeclarator};

use crate::measured::Measured;
use crate::parts::Parts;
use pa_grammar::{Naming, ParseError, Reader, TypeNames};
use pa_tree::{Declarator, Expr, Specs};
use std::alloc::Global;

/// A reader of each nonterminal, as a function value.
#[derive(Clone, Copy)]
pub struct Readers<F, G, H, I> {
    pub expr: F,
    pub opened: G,
    pub specs: H,
    pub declarator: I,
}

impl<
    F: Fn(Global, &TypeNames, &mut Reader<'_>, u32, u8) -> Result<Measured<Expr>, ParseError>,
    G: Fn(Global, &TypeNames, &mut Reader<'_>, u32, u32) -> Result<Measured<Expr>, ParseError>,
    H: Fn(Global, &TypeNames, &mut Reader<'_>, u32, bool) -> Result<Measured<Specs>, ParseError>,
    I: Fn(
        Global,
        &TypeNames,
        &mut Reader<'_>,
        u32,
        Naming,
    ) -> Result<Measured<Declarator>, ParseError>,
> Parts for Readers<F, G, H, I> {
    ghost reads_exprs = { λ s d. NestsExpr d (F.pre s.expr) (F.post s.expr) × NestsOpened d (G.pre s.opened) (G.post s.opened) };

    ghost reads_types = { λ s d. NestsSpecs d (H.pre s.specs) (H.post s.specs)
        × NestsDeclarator d (I.pre s.declarator) (I.post s.declarator) };

    fn expr(
        &self,
        alloc: Global,
        names: &TypeNames,
        r: &mut Reader<'_>,
        depth: u32,
        level: u8,
    ) -> Result<Measured<Expr>, ParseError> {
        (self.expr)(alloc, names, r, depth, level)
    }

    fn opened(
        &self,
        alloc: Global,
        names: &TypeNames,
        r: &mut Reader<'_>,
        depth: u32,
        from: u32,
    ) -> Result<Measured<Expr>, ParseError> {
        (self.opened)(alloc, names, r, depth, from)
    }

    fn specs(
        &self,
        alloc: Global,
        names: &TypeNames,
        r: &mut Reader<'_>,
        depth: u32,
        bodies: bool,
    ) -> Result<Measured<Specs>, ParseError> {
        (self.specs)(alloc, names, r, depth, bodies)
    }

    fn declarator(
        &self,
        alloc: Global,
        names: &TypeNames,
        r: &mut Reader<'_>,
        depth: u32,
        name: Naming,
    ) -> Result<Measured<Declarator>, ParseError> {
        (self.declarator)(alloc, names, r, depth, name)
    }
}
