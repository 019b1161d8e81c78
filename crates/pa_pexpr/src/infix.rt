//! Operators that go on behind an operand.

ghost use Rattle.std.specs.Prelude.{◌≡◌};
ghost use Rattle.std.specs.Option.{option_map, option_copied};
ghost use Rattle.pa_tree.specs.Views.{expr_tree};
ghost use Rattle.pa_grammar.specs.Infixes as spec;
ghost use Rattle.pa_pexpr.specs.Shown.{infix_shown};

use pa_lex::{Kind, Punct};
use pa_tree::{BinaryOperator, Expr, Step};

/// What may stand behind an operand.
#[derive(Clone, Copy, Debug, PartialEq, Eq)]
pub enum Infix {
    Between(BinaryOperator),
    Choice,
    Indexed,
    Called,
    Dotted,
    Arrowed,
    Stepped(Step),
}

impl Infix {
    /// What a punctuator is behind an operand.
    pub fn from_punct(punct: Punct) -> Option<Infix>
        ensures { option_map infix_shown result ≡ spec.infix_of punct }
    {
        Some(match punct {
            Punct::Question => Infix::Choice,
            Punct::LeftBracket => Infix::Indexed,
            Punct::LeftParenthesis => Infix::Called,
            Punct::Dot => Infix::Dotted,
            Punct::Arrow => Infix::Arrowed,
            Punct::Increment => Infix::Stepped(Step::Increment),
            Punct::Decrement => Infix::Stepped(Step::Decrement),
            _ => return Some(Infix::Between(BinaryOperator::from_punct(punct)?)),
        })
    }

    /// The number of the nonterminal that has it.
    pub fn level(self) -> u8
        ensures { result ≡ spec.infix_level (infix_shown self) }
    {
        match self {
            Infix::Between(op) => op.level(),
            Infix::Choice => 2,
            _ => 15,
        }
    }

    /// The number of the nonterminal of its left operand.
    pub fn left_level(self) -> u8
        ensures { result ≡ spec.infix_left (infix_shown self) }
    {
        match self {
            Infix::Between(op) => match op.level() {
                1 => 14,
                level => level,
            },
            Infix::Choice => 3,
            _ => 15,
        }
    }
}

/// The tightest nonterminal that the tree is a case of.
#[tactic(auto, using(pa_tree::proofs::Views::expr_views))]
pub fn tree_level(tree: &Expr) -> u8
    ensures { result ≡ spec.tree_level (expr_tree tree.now) }
{
    match tree {
        Expr::Prefix { .. } | Expr::SizeofExpr { .. } | Expr::SizeofType { .. } => 14,
        Expr::Cast { .. } => 13,
        Expr::Binary { op, .. } => op.level(),
        Expr::Conditional { .. } => 2,
        Expr::Identifier { .. }
        | Expr::Integer { .. }
        | Expr::Character { .. }
        | Expr::Text { .. }
        | Expr::Paren { .. }
        | Expr::Index { .. }
        | Expr::Call { .. }
        | Expr::Dot { .. }
        | Expr::Arrow { .. }
        | Expr::Postfix { .. } => 15,
    }
}
