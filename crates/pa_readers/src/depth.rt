//! The readers of trees to a depth.

ghost use Rattle.std.specs.Prelude.{◌≡◌, ◌≤◌};
ghost use Rattle.pa_parts.specs.Measures.{Measures};
ghost use Rattle.pa_parts.specs.Nonterminals as nonterminal;
ghost use Rattle.pa_parts.specs.Trees as tree;
ghost use Rattle.pa_grammar.specs.Rule.{Follows};

use pa_grammar::{Naming, ParseError, Reader, TypeNames, no_expr};
use pa_parts::{At, Measured, Readers};
use pa_pexpr::ExprRules;
use pa_pspec::{TypeRules, bare_declarator};
use pa_tree::{Declarator, Expr, Specs};
use std::alloc::Global;

/// These rules over the readers of this file, for parts that stand in a depth.
macro_rules! rules {
    ($rules:ident, $alloc:expr, $names:expr, $depth:expr) => {
        $rules {
            alloc: $alloc,
            at: At {
                names: $names,
                depth: $depth,
            },
            parts: Readers {
                expr: read_expr,
                opened: read_opened,
                specs: read_specs,
                declarator: read_declarator,
            },
        }
    };
}

/// Reads an expression of this level (a nonterminal of C11 6.5 by its number) that is no deeper than `depth`, and gives its height.
#[cycle(depth)]
#[tactic(auto, unfolding(pa_grammar::specs::Reading::parsers))]
pub fn read_expr(
    alloc: Global,
    names: &TypeNames,
    r: &mut Reader<'_>,
    depth: u32,
    level: u8,
) -> Result<Measured<Expr>, ParseError>
    requires { depth ≤ 200 }
    ensures value { Follows (nonterminal.expr names.now depth level) r.old result r.new }
    ensures measured { Measures tree.expr depth result }
{
    if depth == 0 {
        return Err(ParseError::Broken(no_expr(names, r)));
    }
    rules!(ExprRules, alloc, names, depth - 1).expr_level(r, level)
}

/// Reads on behind the `(` of a unary expression, which stands at `from` and is followed by no type name.
#[cycle(depth)]
#[tactic(auto, unfolding(pa_grammar::specs::Reading::parsers))]
fn read_opened(
    alloc: Global,
    names: &TypeNames,
    r: &mut Reader<'_>,
    depth: u32,
    from: u32,
) -> Result<Measured<Expr>, ParseError>
    requires { depth ≤ 200 }
    ensures value { Follows (nonterminal.opened names.now depth from) r.old result r.new }
    ensures measured { Measures tree.expr depth result }
{
    if depth == 0 {
        return Err(ParseError::Broken(no_expr(names, r)));
    }
    rules!(ExprRules, alloc, names, depth - 1).opened_level(r, from)
}

/// Reads specifiers that are no deeper than `depth`, where `bodies` says whether the body of a struct or an enumeration may stand, and
/// gives their height.
#[cycle(depth)]
#[tactic(auto, unfolding(pa_grammar::specs::Reading::parsers))]
pub fn read_specs(
    alloc: Global,
    names: &TypeNames,
    r: &mut Reader<'_>,
    depth: u32,
    bodies: bool,
) -> Result<Measured<Specs>, ParseError>
    requires { depth ≤ 200 }
    ensures value { Follows (nonterminal.specs names.now depth bodies) r.old result r.new }
    ensures measured { Measures tree.specs depth result }
{
    rules!(TypeRules, alloc, names, depth).specs_level(r, bodies)
}

/// Reads a declarator that is no deeper than `depth`, and gives its height.
#[cycle(depth)]
#[tactic(auto, unfolding(pa_grammar::specs::Reading::parsers))]
pub fn read_declarator(
    alloc: Global,
    names: &TypeNames,
    r: &mut Reader<'_>,
    depth: u32,
    name: Naming,
) -> Result<Measured<Declarator>, ParseError>
    requires { depth ≤ 200 }
    ensures value { Follows (nonterminal.declarator names.now depth name) r.old result r.new }
    ensures measured { Measures tree.declarator depth result }
{
    if depth == 0 {
        return bare_declarator(names, r, name);
    }
    rules!(TypeRules, alloc, names, depth - 1).declarator_level(r, name)
}
