//! The bodies of structs (C11 6.7.2.1) and enumerations (6.7.2.2). Their parts stand in the depth of the rules, one level deeper than
//! they do.

ghost use Rattle.std.specs.Prelude.{◌≡◌, ◌≤◌, suc};
ghost use Rattle.pa_tree.specs.Cursors as cursors;
ghost use Rattle.pa_tree.specs.Heights.{declarator_height, enumerator_height, member_height};
ghost use Rattle.pa_tree.specs.Views.{declarator_tree, enumerator_tree, member_tree};
ghost use Rattle.pa_parts.specs.Measures.{Measures};
ghost use Rattle.pa_pspec.specs.Lists.{MeasuresNext, ReadsStep};
ghost use Rattle.pa_pspec.specs.Rules as rule;
ghost use Rattle.pa_parts.specs.Trees as tree;
ghost use Rattle.pa_grammar.specs.Reading as reading;
ghost use Rattle.pa_grammar.specs.Rule.{Follows};

use crate::type_rules::TypeRules;
use pa_grammar::{Naming, ParseError, Reader, plain_name};
use pa_lex::Punct;
use pa_parts::{Measured, Parts};
use pa_tree::{Base, COND_LEVEL, Declarator, Enumerator, Expr, Member, Tag};
use sqlite_items::{Boxed, Items};

/// Another member follows: the body does not end.
fn member_follows(r: &Reader<'_>) -> bool
    ensures { result ≡ reading.not_brace (cursors.head r.now.ahead) }
{
    !r.sees(Punct::RightBrace)
}

impl<'a, P: Parts> TypeRules<'a, P> {
    /// One more declarator of a member, behind a comma.
    fn next_declarator(&self, r: &mut Reader<'_>) -> Result<Measured<Declarator>, ParseError>
        requires types { P.reads_types self.now.parts self.now.at.depth }
        ensures value { Follows (rule.next_declarator self.now.at) r.old result r.new }
        ensures measured { Measures tree.declarator self.now.at.depth result }
    {
        r.expect(Punct::Comma)?;
        self.declarator(r, Naming::Named)
    }

    /// The declarators of a member behind the first one, and the greatest height of all.
    fn more_declarators(
        &self,
        r: &mut Reader<'_>,
        first: Measured<Declarator>,
    ) -> Result<Measured<Items<Declarator>>, ParseError>
        requires types { P.reads_types self.now.parts self.now.at.depth }
        requires first_height { first.height ≡ declarator_height (declarator_tree first.tree) }
        requires first_fits { first.height ≤ self.now.at.depth }
        ensures value { Follows (rule.more_declarators self.now.at first) r.old result r.new }
        ensures measured { Measures tree.declarators self.now.at.depth result }
    {
        let mut height = first.height;
        let mut all = Items::new(self.alloc);
        all.push(first.tree)?;
        'declarators: while r.sees(Punct::Comma) {
            let declarator = self.next_declarator(r)?;
            all.push(declarator.tree)?;
            height = height.max(declarator.height);
        }
        Ok(Measured { tree: all, height })
    }

    /// Members that share their specifiers.
    #[tactic(auto, using(pa_tree::proofs::Views::expr_views), unfolding(pa_grammar::specs::Reading::member))]
    fn member(&self, r: &mut Reader<'_>) -> Result<Measured<Member>, ParseError>
        requires types { P.reads_types self.now.parts self.now.at.depth }
        ensures value { Follows (rule.member self.now.at) r.old result r.new }
        ensures measured { Measures tree.member self.now.at.depth result }
    {
        let from = r.begin();
        let specs = self.specs(r, true)?;
        let first = self.declarator(r, Naming::Named)?;
        let declarators = self.more_declarators(r, first)?;
        r.expect(Punct::Semicolon)?;
        let height = specs.height.max(declarators.height);
        let tree = Member {
            specs: specs.tree,
            declarators: declarators.tree,
            from,
            to: r.ended(),
        };
        Ok(Measured { tree, height })
    }

    /// The members of a body behind the first one, and the greatest height of all.
    fn more_members(
        &self,
        r: &mut Reader<'_>,
        first: Measured<Member>,
    ) -> Result<Measured<Items<Member>>, ParseError>
        requires types { P.reads_types self.now.parts self.now.at.depth }
        requires first_height { first.height ≡ member_height (member_tree first.tree) }
        requires first_fits { first.height ≤ self.now.at.depth }
        ensures value { Follows (rule.more_members self.now.at first) r.old result r.new }
        ensures measured { Measures tree.members self.now.at.depth result }
    {
        let mut height = first.height;
        let mut all = Items::new(self.alloc);
        all.push(first.tree)?;
        'members: while member_follows(r) {
            let member = self.member(r)?;
            all.push(member.tree)?;
            height = height.max(member.height);
        }
        Ok(Measured { tree: all, height })
    }

    /// The body of a struct.
    #[tactic(auto, using(pa_tree::proofs::Views::expr_views))]
    pub fn struct_body(
        &self,
        r: &mut Reader<'_>,
        from: u32,
        tag: Option<Tag>,
    ) -> Result<Measured<Base>, ParseError>
        requires types { P.reads_types self.now.parts self.now.at.depth }
        requires shallow { self.now.at.depth ≤ 200 }
        ensures value { Follows (rule.struct_body self.now.at from tag) r.old result r.new }
        ensures measured { Measures tree.base (suc self.now.at.depth) result }
    {
        r.expect(Punct::LeftBrace)?;
        let first = self.member(r)?;
        let members = self.more_members(r, first)?;
        r.expect(Punct::RightBrace)?;
        let height = members.height;
        let body = Base::StructBody {
            tag,
            members: members.tree,
            from,
            to: r.ended(),
        };
        Ok(Measured::node(body, height))
    }

    /// The value of an enumeration constant, if one is written, and its height.
    fn value(&self, r: &mut Reader<'_>) -> Result<Measured<Option<Boxed<Expr>>>, ParseError>
        requires exprs { P.reads_exprs self.now.parts self.now.at.depth }
        ensures value { Follows (rule.value self.now.at) r.old result r.new }
        ensures measured { Measures tree.maybe_expr self.now.at.depth result }
    {
        if !r.sees(Punct::Assign) {
            return Ok(Measured {
                tree: None,
                height: 0,
            });
        }
        r.expect(Punct::Assign)?;
        let value = self.expr(r, COND_LEVEL)?;
        Ok(Measured {
            tree: Some(Boxed::new(self.alloc, value.tree)?),
            height: value.height,
        })
    }

    /// An enumeration constant.
    #[tactic(auto, using(pa_tree::proofs::Views::expr_views), unfolding(pa_grammar::specs::Reading::enumerator))]
    fn enumerator(&self, r: &mut Reader<'_>) -> Result<Measured<Enumerator>, ParseError>
        requires exprs { P.reads_exprs self.now.parts self.now.at.depth }
        requires room { 1 ≤ self.now.at.depth }
        ensures value { Follows (rule.enumerator self.now.at) r.old result r.new }
        ensures measured { Measures tree.enumerator self.now.at.depth result }
    {
        let from = r.begin();
        let name = plain_name(self.at.names, r)?.name;
        let value = self.value(r)?;
        let height = value.height.max(1);
        let tree = Enumerator {
            name,
            value: value.tree,
            from,
            to: r.ended(),
        };
        Ok(Measured { tree, height })
    }

    /// One more enumeration constant behind a comma, if one follows. A comma alone is taken.
    fn next_enumerator(
        &self,
        r: &mut Reader<'_>,
    ) -> Result<Option<Measured<Enumerator>>, ParseError>
        requires exprs { P.reads_exprs self.now.parts self.now.at.depth }
        requires room { 1 ≤ self.now.at.depth }
        ensures value { ReadsStep (rule.enumerator_step self.now.at) r.old result r.new }
        ensures measured { MeasuresNext tree.enumerator self.now.at.depth result }
    {
        if !r.sees(Punct::Comma) {
            return Ok(None);
        }
        r.expect(Punct::Comma)?;
        if r.sees(Punct::RightBrace) {
            return Ok(None);
        }
        let constant = self.enumerator(r)?;
        Ok(Some(constant))
    }

    /// The constants of a body behind the first one, and the greatest height of all.
    fn more_enumerators(
        &self,
        r: &mut Reader<'_>,
        first: Measured<Enumerator>,
    ) -> Result<Measured<Items<Enumerator>>, ParseError>
        requires exprs { P.reads_exprs self.now.parts self.now.at.depth }
        requires room { 1 ≤ self.now.at.depth }
        requires first_height { first.height ≡ enumerator_height (enumerator_tree first.tree) }
        requires first_fits { first.height ≤ self.now.at.depth }
        ensures value { Follows (rule.more_enumerators self.now.at first) r.old result r.new }
        ensures measured { Measures tree.enumerators self.now.at.depth result }
    {
        let mut height = first.height;
        let mut all = Items::new(self.alloc);
        all.push(first.tree)?;
        'enumerators: loop {
            let found = self.next_enumerator(r)?;
            let Some(constant) = found else {
                return Ok(Measured { tree: all, height });
            };
            all.push(constant.tree)?;
            height = height.max(constant.height);
        }
    }

    /// The body of an enumeration.
    #[tactic(auto, using(pa_tree::proofs::Views::expr_views))]
    pub fn enum_body(
        &self,
        r: &mut Reader<'_>,
        from: u32,
        tag: Option<Tag>,
    ) -> Result<Measured<Base>, ParseError>
        requires exprs { P.reads_exprs self.now.parts self.now.at.depth }
        requires room { 1 ≤ self.now.at.depth }
        requires shallow { self.now.at.depth ≤ 200 }
        ensures value { Follows (rule.enum_body self.now.at from tag) r.old result r.new }
        ensures measured { Measures tree.base (suc self.now.at.depth) result }
    {
        r.expect(Punct::LeftBrace)?;
        let first = self.enumerator(r)?;
        let enumerators = self.more_enumerators(r, first)?;
        r.expect(Punct::RightBrace)?;
        let height = enumerators.height;
        let body = Base::EnumBody {
            tag,
            enumerators: enumerators.tree,
            from,
            to: r.ended(),
        };
        Ok(Measured::node(body, height))
    }
}
