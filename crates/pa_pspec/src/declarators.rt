//! Declarators (C11 6.7.6), and abstract ones (6.7.7).

ghost use Rattle.std.specs.Prelude.{◌≡◌, ◌≤◌, ◌<◌, suc, IfOk};
ghost use Rattle.pa_tree.specs.Cursors as cursors;
ghost use Rattle.pa_tree.specs.Heights.{declarator_height};
ghost use Rattle.pa_tree.specs.Views.{declarator_tree};
ghost use Rattle.pa_parts.specs.Measures.{Measures};
ghost use Rattle.pa_pspec.specs.Rules as rule;
ghost use Rattle.pa_pspec.specs.Suffixes.{suffix_ahead, suffix_shown};
ghost use Rattle.pa_parts.specs.Trees as tree;
ghost use Rattle.pa_grammar.specs.Reading as reading;
ghost use Rattle.pa_grammar.specs.Rule.{Follows};

use crate::type_rules::TypeRules;
use pa_grammar::{Naming, ParseError, Reader, SynRule, TypeNames, begins_type, is_mark, needs};
use pa_lex::{Kind, NameNumber, Punct, Token};
use pa_parts::{Measured, Parts};
use pa_tree::{COND_LEVEL, Declarator, Expr};
use sqlite_items::Boxed;

/// A part behind a declarator.
#[derive(Clone, Copy)]
pub enum Suffix {
    Array,
    Function,
}

/// The part that goes on behind a declarator, with its token, if one does.
fn next_suffix<'t>(r: &Reader<'t>) -> Option<(Suffix, &'t Token)>
    ensures { suffix_shown result ≡ suffix_ahead (cursors.head r.now.ahead) }
{
    let t = r.peek()?;
    match &t.kind {
        Kind::Punct(Punct::LeftBracket) => Some((Suffix::Array, t)),
        Kind::Punct(Punct::LeftParenthesis) => Some((Suffix::Function, t)),
        _ => None,
    }
}

/// A declarator without a name, at this place, or the rule that wants one.
#[tactic(auto, using(pa_tree::proofs::Views::expr_views))]
fn absent(end: u32, name: Naming) -> Result<Measured<Declarator>, ParseError>
    ensures value { (c : _) → Follows (rule.absent name end) c result c }
    ensures measured { Measures tree.declarator 0 result }
{
    if !name.takes_none() {
        return Err(ParseError::Broken(SynRule::S1));
    }
    Ok(Measured {
        tree: Declarator::Absent { from: end, to: end },
        height: 0,
    })
}

/// A declarator that has a name, a `*` or another part begins with this token.
fn begins_declarator(names: &TypeNames, name: Naming, kind: &Kind) -> bool
    ensures { result ≡ reading.begins_declarator names.now name kind.now }
{
    match kind {
        Kind::Name(n) => name.takes_name() && !names.contains(*n),
        Kind::Punct(Punct::Star | Punct::LeftParenthesis) => true,
        Kind::Punct(Punct::LeftBracket) => name.takes_none(),
        _ => false,
    }
}

/// A declarator where none that begins with a token has room.
#[tactic(auto, unfolding(pa_grammar::specs::Reading::bare_declarator))]
pub fn bare_declarator(
    names: &TypeNames,
    r: &Reader<'_>,
    name: Naming,
) -> Result<Measured<Declarator>, ParseError>
    ensures value { Follows (rule.bare_declarator names.now name) r.now result r.now }
    ensures measured { Measures tree.declarator 0 result }
{
    match r.peek() {
        Some(t) if begins_declarator(names, name, &t.kind) => {
            Err(ParseError::Broken(SynRule::S2))
        }
        _ => absent(r.ended(), name),
    }
}

impl<'a, P: Parts> TypeRules<'a, P> {
    /// The length of an array, if one is written, and its height.
    fn array_length(&self, r: &mut Reader<'_>) -> Result<Measured<Option<Boxed<Expr>>>, ParseError>
        requires exprs { P.reads_exprs self.now.parts self.now.at.depth }
        ensures value { Follows (rule.array_length self.now.at) r.old result r.new }
        ensures measured { Measures tree.maybe_expr self.now.at.depth result }
    {
        if r.sees(Punct::RightBracket) {
            return Ok(Measured {
                tree: None,
                height: 0,
            });
        }
        let length = self.expr(r, COND_LEVEL)?;
        Ok(Measured {
            tree: Some(Boxed::new(self.alloc, length.tree)?),
            height: length.height,
        })
    }

    /// Behind the `[` of an array part.
    #[tactic(auto, using(pa_tree::proofs::Views::expr_views))]
    fn array(
        &self,
        r: &mut Reader<'_>,
        from: u32,
        of: Measured<Declarator>,
    ) -> Result<Measured<Declarator>, ParseError>
        requires exprs { P.reads_exprs self.now.parts self.now.at.depth }
        requires shallow { self.now.at.depth ≤ 200 }
        requires of_height { of.height ≡ declarator_height (declarator_tree of.tree) }
        requires of_fits { of.height ≤ self.now.at.depth }
        ensures value { Follows (rule.array self.now.at from of) r.old result r.new }
        ensures measured { Measures tree.declarator (suc self.now.at.depth) result }
        ensures taller { IfOk result (λ m. of.height < m.height) }
    {
        let length = self.array_length(r)?;
        r.expect(Punct::RightBracket)?;
        let height = of.height.max(length.height);
        let array = Declarator::Array {
            of: Boxed::new(self.alloc, of.tree)?,
            length: length.tree,
            from,
            to: r.ended(),
        };
        Ok(Measured::node(array, height))
    }

    /// Behind the `(` of a function part.
    #[tactic(auto, using(pa_tree::proofs::Views::expr_views))]
    fn function(
        &self,
        r: &mut Reader<'_>,
        from: u32,
        of: Measured<Declarator>,
    ) -> Result<Measured<Declarator>, ParseError>
        requires types { P.reads_types self.now.parts self.now.at.depth }
        requires shallow { self.now.at.depth ≤ 200 }
        requires of_height { of.height ≡ declarator_height (declarator_tree of.tree) }
        requires of_fits { of.height ≤ self.now.at.depth }
        ensures value { Follows (rule.function self.now.at from of) r.old result r.new }
        ensures measured { Measures tree.declarator (suc self.now.at.depth) result }
        ensures taller { IfOk result (λ m. of.height < m.height) }
    {
        let parameters = self.parameters(r)?;
        r.expect(Punct::RightParenthesis)?;
        let height = of.height.max(parameters.height);
        let function = Declarator::Function {
            of: Boxed::new(self.alloc, of.tree)?,
            parameters: parameters.tree,
            from,
            to: r.ended(),
        };
        Ok(Measured::node(function, height))
    }

    /// At the token of a part behind a declarator.
    fn suffix(
        &self,
        r: &mut Reader<'_>,
        from: u32,
        of: Measured<Declarator>,
        suffix: Suffix,
        t: &Token,
    ) -> Result<Measured<Declarator>, ParseError>
        requires exprs { P.reads_exprs self.now.parts self.now.at.depth }
        requires types { P.reads_types self.now.parts self.now.at.depth }
        requires shallow { self.now.at.depth ≤ 200 }
        requires of_height { of.height ≡ declarator_height (declarator_tree of.tree) }
        ensures value { Follows (rule.suffix self.now.at suffix from of t.now) r.old result r.new }
        ensures measured { Measures tree.declarator (suc self.now.at.depth) result }
        ensures taller { IfOk result (λ m. of.height < m.height) }
    {
        needs(of.height, self.at.depth)?;
        r.take(t);
        match suffix {
            Suffix::Array => self.array(r, from, of),
            Suffix::Function => self.function(r, from, of),
        }
    }

    /// The array and function parts that go on behind a declarator.
    fn suffixes(
        &self,
        r: &mut Reader<'_>,
        from: u32,
        first: Measured<Declarator>,
    ) -> Result<Measured<Declarator>, ParseError>
        requires exprs { P.reads_exprs self.now.parts self.now.at.depth }
        requires types { P.reads_types self.now.parts self.now.at.depth }
        requires shallow { self.now.at.depth ≤ 200 }
        requires first_height { first.height ≡ declarator_height (declarator_tree first.tree) }
        requires first_fits { first.height ≤ suc self.now.at.depth }
        ensures value { Follows (rule.suffixes self.now.at from first) r.old result r.new }
        ensures measured { Measures tree.declarator (suc self.now.at.depth) result }
    {
        let mut whole = first;
        for _turn in 0..self.at.depth + 1 {
            let Some(next) = next_suffix(r) else {
                return Ok(whole);
            };
            whole = self.suffix(r, from, whole, next.0, next.1)?;
        }
        match next_suffix(r) {
            None => Ok(whole),
            Some(_) => Err(ParseError::Broken(SynRule::S2)),
        }
    }

    /// Behind a `*`.
    #[tactic(auto, using(pa_tree::proofs::Views::expr_views))]
    fn pointer(
        &self,
        r: &mut Reader<'_>,
        name: Naming,
        from: u32,
    ) -> Result<Measured<Declarator>, ParseError>
        requires exprs { P.reads_exprs self.now.parts self.now.at.depth }
        requires types { P.reads_types self.now.parts self.now.at.depth }
        requires shallow { self.now.at.depth ≤ 200 }
        ensures value { Follows (rule.pointer self.now.at name from) r.old result r.new }
        ensures measured { Measures tree.declarator (suc self.now.at.depth) result }
    {
        let qualifiers = self.qualifiers(r)?;
        let of = self.declarator(r, name)?;
        let height = qualifiers.height.max(of.height);
        let pointer = Declarator::Pointer {
            qualifiers: qualifiers.tree,
            of: Boxed::new(self.alloc, of.tree)?,
            from,
            to: r.ended(),
        };
        Ok(Measured::node(pointer, height))
    }

    /// Behind the `(` of a declarator in parentheses.
    #[tactic(auto, using(pa_tree::proofs::Views::expr_views))]
    fn grouped(
        &self,
        r: &mut Reader<'_>,
        name: Naming,
        from: u32,
    ) -> Result<Measured<Declarator>, ParseError>
        requires types { P.reads_types self.now.parts self.now.at.depth }
        requires shallow { self.now.at.depth ≤ 200 }
        ensures value { Follows (rule.grouped self.now.at name from) r.old result r.new }
        ensures measured { Measures tree.declarator (suc self.now.at.depth) result }
    {
        let inner = self.declarator(r, name)?;
        r.expect(Punct::RightParenthesis)?;
        let height = inner.height;
        let grouped = Declarator::Grouped {
            inner: Boxed::new(self.alloc, inner.tree)?,
            from,
            to: r.ended(),
        };
        Ok(Measured::node(grouped, height))
    }

    /// Behind a `(` that may begin parameters of no name.
    #[tactic(auto, using(pa_tree::proofs::Views::expr_views))]
    fn bracketed(
        &self,
        r: &mut Reader<'_>,
        name: Naming,
        from: u32,
        end: u32,
    ) -> Result<Measured<Declarator>, ParseError>
        requires types { P.reads_types self.now.parts self.now.at.depth }
        requires shallow { self.now.at.depth ≤ 200 }
        ensures value { Follows (rule.bracketed self.now.at name from end) r.old result r.new }
        ensures measured { Measures tree.declarator (suc self.now.at.depth) result }
    {
        let parameters = begins_type(self.at.names, r.peek()) || r.sees(Punct::RightParenthesis);
        if name.takes_none() && parameters {
            let absent = Measured {
                tree: Declarator::Absent { from: end, to: end },
                height: 0,
            };
            return self.function(r, from, absent);
        }
        self.grouped(r, name, from)
    }

    /// At a token that is no `*` and no name.
    #[tactic(auto, using(pa_tree::proofs::Views::expr_views))]
    fn marked_declarator(
        &self,
        r: &mut Reader<'_>,
        name: Naming,
        t: &Token,
        end: u32,
    ) -> Result<Measured<Declarator>, ParseError>
        requires exprs { P.reads_exprs self.now.parts self.now.at.depth }
        requires types { P.reads_types self.now.parts self.now.at.depth }
        requires shallow { self.now.at.depth ≤ 200 }
        ensures value { Follows (rule.marked self.now.at name t.now end) r.old result r.new }
        ensures measured { Measures tree.declarator (suc self.now.at.depth) result }
    {
        if is_mark(&t.kind, Punct::LeftParenthesis) {
            needs(name.least(), self.at.depth)?;
            r.take(t);
            let first = self.bracketed(r, name, t.from, end)?;
            return self.suffixes(r, t.from, first);
        }
        if !name.takes_none() {
            return Err(ParseError::Broken(SynRule::S1));
        }
        let absent = Measured {
            tree: Declarator::Absent { from: end, to: end },
            height: 0,
        };
        self.suffixes(r, t.from, absent)
    }

    /// At a name.
    #[tactic(auto, using(pa_tree::proofs::Views::expr_views))]
    fn named_declarator(
        &self,
        r: &mut Reader<'_>,
        name: Naming,
        t: &Token,
        end: u32,
        n: NameNumber,
    ) -> Result<Measured<Declarator>, ParseError>
        requires exprs { P.reads_exprs self.now.parts self.now.at.depth }
        requires types { P.reads_types self.now.parts self.now.at.depth }
        requires shallow { self.now.at.depth ≤ 200 }
        ensures value { Follows (rule.named self.now.at name t.now end n) r.old result r.new }
        ensures measured { Measures tree.declarator (suc self.now.at.depth) result }
    {
        if name.takes_name() && !self.at.names.contains(n) {
            let named = Declarator::Named {
                name: n,
                from: t.from,
                to: t.to,
            };
            r.take(t);
            return self.suffixes(r, t.from, Measured::node(named, 0));
        }
        absent(end, name)
    }

    /// A declarator.
    #[tactic(auto, using(pa_tree::proofs::Views::expr_views), unfolding(pa_grammar::specs::Reading::declarator_level))]
    pub fn declarator_level(
        &self,
        r: &mut Reader<'_>,
        name: Naming,
    ) -> Result<Measured<Declarator>, ParseError>
        requires exprs { P.reads_exprs self.now.parts self.now.at.depth }
        requires types { P.reads_types self.now.parts self.now.at.depth }
        requires shallow { self.now.at.depth ≤ 200 }
        ensures value { Follows (rule.declarator_level self.now.at name) r.old result r.new }
        ensures measured { Measures tree.declarator (suc self.now.at.depth) result }
    {
        let end = r.ended();
        let Some(t) = r.peek() else {
            return absent(end, name);
        };
        match &t.kind {
            Kind::Punct(Punct::Star) => {
                needs(name.least(), self.at.depth)?;
                r.take(t);
                self.pointer(r, name, t.from)
            }
            Kind::Name(n) => self.named_declarator(r, name, t, end, *n),
            _ => self.marked_declarator(r, name, t, end),
        }
    }
}
