//! The parts of a function's declarator (C11 6.7.6.3).

ghost use Rattle.std.specs.Prelude.{◌≡◌, ◌≤◌, map, length, ◌==◌};
ghost use Rattle.pa_tree.specs.Heights.{parameter_height};
ghost use Rattle.pa_tree.specs.Spells as grammar;
ghost use Rattle.pa_tree.specs.Views.{base_tree, declarator_tree, parameter_tree, parameters_of};
ghost use Rattle.pa_parts.specs.Measures.{Measures};
ghost use Rattle.pa_pspec.specs.Rules as rule;
ghost use Rattle.pa_parts.specs.Trees as tree;
ghost use Rattle.pa_pspec.specs.Voids.{is_void_tree, is_absent_tree, is_lone_void};
ghost use Rattle.pa_grammar.specs.Rule.{Follows};

use crate::type_rules::TypeRules;
use pa_grammar::{Naming, ParseError, Reader};
use pa_lex::Punct;
use pa_parts::{Measured, Parts};
use pa_tree::{Base, Declarator, Parameter, Parameters, Qualifier};
use sqlite_items::Items;

/// There are no qualifiers.
fn are_none(qualifiers: &Items<Qualifier>) -> bool
    ensures { result ≡ (length qualifiers.now == 0) }
{
    qualifiers.len() == 0
}

/// The type is `void`.
#[tactic(auto, using(pa_tree::proofs::Views::expr_views))]
fn is_void(base: &Base) -> bool
    ensures { result ≡ is_void_tree (base_tree base.now) }
{
    match base {
        Base::Void { .. } => true,
        Base::Boolean { .. }
        | Base::Words { .. }
        | Base::TypedefName { .. }
        | Base::StructTag { .. }
        | Base::StructBody { .. }
        | Base::EnumTag { .. }
        | Base::EnumBody { .. } => false,
    }
}

/// The declarator has no token.
#[tactic(auto, using(pa_tree::proofs::Views::expr_views))]
fn is_absent(declarator: &Declarator) -> bool
    ensures { result ≡ is_absent_tree (declarator_tree declarator.now) }
{
    match declarator {
        Declarator::Absent { .. } => true,
        Declarator::Named { .. }
        | Declarator::Pointer { .. }
        | Declarator::Grouped { .. }
        | Declarator::Array { .. }
        | Declarator::Function { .. } => false,
    }
}

/// The parameter is `void` alone: no qualifier beside it, and no declarator.
#[tactic(auto, using(crate::proofs::Voids::lone_void))]
fn is_lone_void(parameter: &Parameter) -> bool
    ensures { result ≡ is_lone_void (parameter_tree parameter.now) }
{
    are_none(&parameter.specs.before)
        && is_void(&parameter.specs.base)
        && are_none(&parameter.specs.after)
        && is_absent(&parameter.declarator)
}

/// The parameters are a lone `void`.
fn is_only_void(parameters: &[Parameter]) -> bool
    ensures { result ≡ grammar.is_only_void (parameters_of (map parameter_tree parameters.now)) }
{
    match parameters {
        [parameter] => is_lone_void(parameter),
        _ => false,
    }
}

impl<'a, P: Parts> TypeRules<'a, P> {
    /// A parameter.
    #[tactic(auto, using(pa_tree::proofs::Views::expr_views), unfolding(pa_grammar::specs::Reading::parameter))]
    fn parameter(&self, r: &mut Reader<'_>) -> Result<Measured<Parameter>, ParseError>
        requires types { P.reads_types self.now.parts self.now.at.depth }
        ensures value { Follows (rule.parameter self.now.at) r.old result r.new }
        ensures measured { Measures tree.parameter self.now.at.depth result }
    {
        let from = r.begin();
        let specs = self.specs(r, false)?;
        let declarator = self.declarator(r, Naming::Either)?;
        let height = specs.height.max(declarator.height);
        let tree = Parameter {
            specs: specs.tree,
            declarator: declarator.tree,
            from,
            to: r.ended(),
        };
        Ok(Measured { tree, height })
    }

    /// One more parameter, behind a comma.
    fn next_parameter(&self, r: &mut Reader<'_>) -> Result<Measured<Parameter>, ParseError>
        requires types { P.reads_types self.now.parts self.now.at.depth }
        ensures value { Follows (rule.next_parameter self.now.at) r.old result r.new }
        ensures measured { Measures tree.parameter self.now.at.depth result }
    {
        r.expect(Punct::Comma)?;
        self.parameter(r)
    }

    /// The parameters behind the first one, and the greatest height of all.
    fn more_parameters(
        &self,
        r: &mut Reader<'_>,
        first: Measured<Parameter>,
    ) -> Result<Measured<Items<Parameter>>, ParseError>
        requires types { P.reads_types self.now.parts self.now.at.depth }
        requires first_height { first.height ≡ parameter_height (parameter_tree first.tree) }
        requires first_fits { first.height ≤ self.now.at.depth }
        ensures value { Follows (rule.more_parameters self.now.at first) r.old result r.new }
        ensures measured { Measures tree.parameter_list self.now.at.depth result }
    {
        let mut height = first.height;
        let mut all = Items::new(self.alloc);
        all.push(first.tree)?;
        'parameters: while r.sees(Punct::Comma) {
            let parameter = self.next_parameter(r)?;
            all.push(parameter.tree)?;
            height = height.max(parameter.height);
        }
        Ok(Measured { tree: all, height })
    }

    /// What stands between the parentheses, and its height.
    #[tactic(auto, using(pa_tree::proofs::Views::expr_views))]
    pub fn parameters(&self, r: &mut Reader<'_>) -> Result<Measured<Parameters>, ParseError>
        requires types { P.reads_types self.now.parts self.now.at.depth }
        ensures value { Follows (rule.parameters self.now.at) r.old result r.new }
        ensures measured { Measures tree.parameters self.now.at.depth result }
    {
        let from = r.begin();
        if r.sees(Punct::RightParenthesis) {
            let end = r.ended();
            return Ok(Measured {
                tree: Parameters::Empty { from: end, to: end },
                height: 0,
            });
        }
        let first = self.parameter(r)?;
        let parameters = self.more_parameters(r, first)?;
        let to = r.ended();
        if is_only_void(parameters.tree.as_slice()) {
            return Ok(Measured {
                tree: Parameters::OnlyVoid { from, to },
                height: 0,
            });
        }
        let height = parameters.height;
        let tree = Parameters::Listed {
            parameters: parameters.tree,
            from,
            to,
        };
        Ok(Measured { tree, height })
    }
}
