//! What a type is, its qualifiers aside (C11 6.7.2), and specifiers whole.

ghost use Rattle.std.specs.Prelude.{◌≤◌};
ghost use Rattle.pa_parts.specs.Measures.{Measures};
ghost use Rattle.pa_pspec.specs.Lists.{Inside};
ghost use Rattle.pa_pspec.specs.Rules as rule;
ghost use Rattle.pa_parts.specs.Trees as tree;
ghost use Rattle.pa_grammar.specs.Rule.{Follows};

use crate::type_rules::TypeRules;
use crate::word::integer_words;
use pa_grammar::{ParseError, Reader, SynRule, needs, plain_name};
use pa_lex::{Keyword, Kind, Punct, Token};
use pa_parts::{At, Measured, Parts};
use pa_tree::{Base, IntegerWord, Specs, Tag};

/// What a tag names.
#[derive(Clone, Copy)]
pub enum Tagged {
    Struct,
    Enum,
}

impl<'a, P: Parts + Copy> TypeRules<'a, P> {
    /// A body of this kind, whose parts stand one level deeper.
    #[tactic(auto, using(crate::proofs::Bodies::struct_deeper, crate::proofs::Bodies::enum_deeper))]
    fn body(
        &self,
        r: &mut Reader<'_>,
        kind: Tagged,
        from: u32,
        tag: Option<Tag>,
    ) -> Result<Measured<Base>, ParseError>
        requires exprs_inside { Inside (P.reads_exprs self.now.parts) self.now.at.depth }
        requires types_inside { Inside (P.reads_types self.now.parts) self.now.at.depth }
        requires shallow { self.now.at.depth ≤ 200 }
        ensures value { Follows (rule.body self.now.at kind from tag) r.old result r.new }
        ensures measured { Measures tree.base self.now.at.depth result }
    {
        needs(2, self.at.depth)?;
        let inside = TypeRules {
            alloc: self.alloc,
            at: At {
                names: self.at.names,
                depth: self.at.depth - 1,
            },
            parts: self.parts,
        };
        match kind {
            Tagged::Struct => inside.struct_body(r, from, tag),
            Tagged::Enum => inside.enum_body(r, from, tag),
        }
    }

    /// Behind `struct` or `enum`: a tag, a body where one may stand, or both.
    #[tactic(auto, using(pa_tree::proofs::Views::expr_views))]
    fn tagged(
        &self,
        r: &mut Reader<'_>,
        kind: Tagged,
        from: u32,
        bodies: bool,
    ) -> Result<Measured<Base>, ParseError>
        requires exprs_inside { Inside (P.reads_exprs self.now.parts) self.now.at.depth }
        requires types_inside { Inside (P.reads_types self.now.parts) self.now.at.depth }
        requires shallow { self.now.at.depth ≤ 200 }
        ensures value { Follows (rule.tagged self.now.at kind from bodies) r.old result r.new }
        ensures measured { Measures tree.base self.now.at.depth result }
    {
        if bodies && r.sees(Punct::LeftBrace) {
            return self.body(r, kind, from, None);
        }
        let tag = plain_name(self.at.names, r)?;
        if bodies && r.sees(Punct::LeftBrace) {
            return self.body(r, kind, from, Some(tag));
        }
        let to = r.ended();
        let tree = match kind {
            Tagged::Struct => Base::StructTag { tag, from, to },
            Tagged::Enum => Base::EnumTag { tag, from, to },
        };
        Ok(Measured { tree, height: 0 })
    }

    /// At a word of an integer type, or at another keyword.
    #[tactic(auto, using(pa_tree::proofs::Views::expr_views))]
    fn words(
        &self,
        r: &mut Reader<'_>,
        t: &Token,
        word: Option<IntegerWord>,
    ) -> Result<Measured<Base>, ParseError>
        ensures value { Follows (rule.words self.now.at t.now word) r.old result r.new }
        ensures measured { Measures tree.base self.now.at.depth result }
    {
        let Some(word) = word else {
            return Err(ParseError::Broken(SynRule::S1));
        };
        r.take(t);
        let words = integer_words(self.alloc, word, r)?;
        let tree = Base::Words {
            words,
            from: t.from,
            to: r.ended(),
        };
        Ok(Measured { tree, height: 0 })
    }

    /// At a keyword.
    #[tactic(auto, using(pa_tree::proofs::Views::expr_views))]
    fn keyword_base(
        &self,
        r: &mut Reader<'_>,
        t: &Token,
        word: Keyword,
        bodies: bool,
    ) -> Result<Measured<Base>, ParseError>
        requires exprs_inside { Inside (P.reads_exprs self.now.parts) self.now.at.depth }
        requires types_inside { Inside (P.reads_types self.now.parts) self.now.at.depth }
        requires shallow { self.now.at.depth ≤ 200 }
        ensures value { Follows (rule.keyword self.now.at bodies t.now word) r.old result r.new }
        ensures measured { Measures tree.base self.now.at.depth result }
    {
        let (from, to) = (t.from, t.to);
        match word {
            Keyword::Void => {
                r.take(t);
                let tree = Base::Void { from, to };
                Ok(Measured { tree, height: 0 })
            }
            Keyword::Bool => {
                r.take(t);
                let tree = Base::Boolean { from, to };
                Ok(Measured { tree, height: 0 })
            }
            Keyword::Struct => {
                r.take(t);
                self.tagged(r, Tagged::Struct, from, bodies)
            }
            Keyword::Enum => {
                r.take(t);
                self.tagged(r, Tagged::Enum, from, bodies)
            }
            other => self.words(r, t, IntegerWord::from_keyword(other)),
        }
    }

    /// What a type is.
    #[tactic(auto, using(pa_tree::proofs::Views::expr_views), unfolding(pa_grammar::specs::Reading::base))]
    fn base(&self, r: &mut Reader<'_>, bodies: bool) -> Result<Measured<Base>, ParseError>
        requires exprs_inside { Inside (P.reads_exprs self.now.parts) self.now.at.depth }
        requires types_inside { Inside (P.reads_types self.now.parts) self.now.at.depth }
        requires shallow { self.now.at.depth ≤ 200 }
        ensures value { Follows (rule.base self.now.at bodies) r.old result r.new }
        ensures measured { Measures tree.base self.now.at.depth result }
    {
        let Some(t) = r.peek() else {
            return Err(ParseError::Broken(SynRule::S1));
        };
        match &t.kind {
            Kind::Name(name) if self.at.names.contains(*name) => {
                r.take(t);
                let tree = Base::TypedefName {
                    name: *name,
                    from: t.from,
                    to: t.to,
                };
                Ok(Measured { tree, height: 0 })
            }
            Kind::Keyword(keyword) => self.keyword_base(r, t, *keyword, bodies),
            _ => Err(ParseError::Broken(SynRule::S1)),
        }
    }

    /// Specifiers, in the depth itself: their expressions stand in it, and the parts of their bodies in the one below.
    #[tactic(auto, using(pa_tree::proofs::Views::expr_views, crate::proofs::SameSpecs::specs_whole), unfolding(pa_grammar::specs::Reading::specs_level))]
    pub fn specs_level(
        &self,
        r: &mut Reader<'_>,
        bodies: bool,
    ) -> Result<Measured<Specs>, ParseError>
        requires exprs { P.reads_exprs self.now.parts self.now.at.depth }
        requires exprs_inside { Inside (P.reads_exprs self.now.parts) self.now.at.depth }
        requires types_inside { Inside (P.reads_types self.now.parts) self.now.at.depth }
        requires shallow { self.now.at.depth ≤ 200 }
        ensures value { Follows (rule.specs self.now.at bodies) r.old result r.new }
        ensures measured { Measures tree.specs self.now.at.depth result }
    {
        let from = r.begin();
        let before = self.qualifiers(r)?;
        let base = self.base(r, bodies)?;
        let after = self.qualifiers(r)?;
        let height = before.height.max(base.height.max(after.height));
        let tree = Specs {
            before: before.tree,
            base: base.tree,
            after: after.tree,
            from,
            to: r.ended(),
        };
        Ok(Measured { tree, height })
    }
}
