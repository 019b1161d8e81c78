//! Expressions of a file as they stand in the program.

ghost use Rattle.std.specs.Prelude.{◌≡◌, map, IfOk};
ghost use Rattle.pa_link.specs.Numbering as spec;

use crate::numbering::Numbering;
use pa_num::Memory;
use pa_typed::TExpr;
use sqlite_items::{Boxed, Items};
use std::alloc::Global;

#[cycle(numbered_expr)]
fn boxed(alloc: Global, e: &Boxed<TExpr>, n: &Numbering) -> Result<Boxed<TExpr>, Memory>
    ensures { IfOk result (λ made. made ≡ spec.numbered_expr n.now e.now) }
{
    let made = numbered_expr(alloc, e.get(), n)?;
    Ok(Boxed::new(alloc, made)?)
}

/// Two parts of an expression.
#[derive(Drop)]
struct TwoParts {
    first: Boxed<TExpr>,
    second: Boxed<TExpr>,
}

#[cycle(numbered_expr)]
fn two(
    alloc: Global,
    first: &Boxed<TExpr>,
    second: &Boxed<TExpr>,
    n: &Numbering,
) -> Result<TwoParts, Memory>
    ensures first { IfOk result (λ parts. parts.first ≡ spec.numbered_expr n.now first.now) }
    ensures second { IfOk result (λ parts. parts.second ≡ spec.numbered_expr n.now second.now) }
{
    Ok(TwoParts {
        first: boxed(alloc, first, n)?,
        second: boxed(alloc, second, n)?,
    })
}

#[cycle(numbered_expr)]
fn numbered_exprs(alloc: Global, items: &[TExpr], n: &Numbering) -> Result<Items<TExpr>, Memory>
    ensures { IfOk result (λ made. made ≡ map (spec.numbered_expr n.now) items.now) }
{
    let mut made = Items::new(alloc);
    let mut rest = items;
    'items: while let [item, tail @ ..] = rest {
        made.push(numbered_expr(alloc, item, n)?)?;
        rest = tail;
    }
    Ok(made)
}

/// The expression, with the numbers that names, types and string literals have in the program.
#[cycle(numbered_expr)]
#[tactic(auto, using(crate::proofs::Numbered::numbered_exprs, pa_typed::proofs::Views::typed_expr_views))]
pub(crate) fn numbered_expr(alloc: Global, e: &TExpr, n: &Numbering) -> Result<TExpr, Memory>
    ensures { IfOk result (λ made. made ≡ spec.numbered_expr n.now e.now) }
{
    match e {
        TExpr::LocalPlace { local, of } => Ok(TExpr::LocalPlace {
            local: *local,
            of: n.expr_type(*of),
        }),
        TExpr::GlobalPlace { name, place, of } => Ok(TExpr::GlobalPlace {
            name: n.name(*name),
            place: *place,
            of: n.expr_type(*of),
        }),
        TExpr::StringPlace { text, of } => Ok(TExpr::StringPlace {
            text: n.text(*text)?,
            of: n.expr_type(*of),
        }),
        TExpr::Same { of } => Ok(TExpr::Same {
            of: n.expr_type(*of),
        }),
        TExpr::Member {
            owner,
            index,
            offset,
            of,
        } => Ok(TExpr::Member {
            owner: boxed(alloc, owner, n)?,
            index: *index,
            offset: *offset,
            of: n.expr_type(*of),
        }),
        TExpr::Index {
            left,
            right,
            pointer_left,
            of,
        } => {
            let TwoParts {
                first: left_made,
                second: right_made,
            } = two(alloc, left, right, n)?;
            Ok(TExpr::Index {
                left: left_made,
                right: right_made,
                pointer_left: *pointer_left,
                of: n.expr_type(*of),
            })
        }
        TExpr::Deref { pointer, of } => Ok(TExpr::Deref {
            pointer: boxed(alloc, pointer, n)?,
            of: n.expr_type(*of),
        }),
        TExpr::Number { value, of } => Ok(TExpr::Number {
            value: *value,
            of: n.expr_type(*of),
        }),
        TExpr::Load { from, of } => Ok(TExpr::Load {
            from: boxed(alloc, from, n)?,
            of: n.expr_type(*of),
        }),
        TExpr::LoadSigned { from, schema, of } => Ok(TExpr::LoadSigned {
            from: boxed(alloc, from, n)?,
            schema: *schema,
            of: n.expr_type(*of),
        }),
        TExpr::Store { to, value, old, of } => {
            let TwoParts {
                first: to_made,
                second: value_made,
            } = two(alloc, to, value, n)?;
            Ok(TExpr::Store {
                to: to_made,
                value: value_made,
                old: *old,
                of: n.expr_type(*of),
            })
        }
        TExpr::StoreSigned {
            to,
            value,
            old,
            schema,
            of,
        } => {
            let TwoParts {
                first: to_made,
                second: value_made,
            } = two(alloc, to, value, n)?;
            Ok(TExpr::StoreSigned {
                to: to_made,
                value: value_made,
                old: *old,
                schema: *schema,
                of: n.expr_type(*of),
            })
        }
        TExpr::AddressOf { at, of } => Ok(TExpr::AddressOf {
            at: boxed(alloc, at, n)?,
            of: n.expr_type(*of),
        }),
        TExpr::FunctionValue { name, place, of } => Ok(TExpr::FunctionValue {
            name: n.name(*name),
            place: *place,
            of: n.expr_type(*of),
        }),
        TExpr::Convert { value, of } => Ok(TExpr::Convert {
            value: boxed(alloc, value, n)?,
            of: n.expr_type(*of),
        }),
        TExpr::Unary { op, value, of } => Ok(TExpr::Unary {
            op: *op,
            value: boxed(alloc, value, n)?,
            of: n.expr_type(*of),
        }),
        TExpr::Binary {
            op,
            left,
            right,
            of,
        } => {
            let TwoParts {
                first: left_made,
                second: right_made,
            } = two(alloc, left, right, n)?;
            Ok(TExpr::Binary {
                op: *op,
                left: left_made,
                right: right_made,
                of: n.expr_type(*of),
            })
        }
        TExpr::PointerAdd {
            left,
            right,
            pointer_left,
            subtracts,
            of,
        } => {
            let TwoParts {
                first: left_made,
                second: right_made,
            } = two(alloc, left, right, n)?;
            Ok(TExpr::PointerAdd {
                left: left_made,
                right: right_made,
                pointer_left: *pointer_left,
                subtracts: *subtracts,
                of: n.expr_type(*of),
            })
        }
        TExpr::PointerSub { left, right, of } => {
            let TwoParts {
                first: left_made,
                second: right_made,
            } = two(alloc, left, right, n)?;
            Ok(TExpr::PointerSub {
                left: left_made,
                right: right_made,
                of: n.expr_type(*of),
            })
        }
        TExpr::Compare {
            op,
            left,
            right,
            of,
        } => {
            let TwoParts {
                first: left_made,
                second: right_made,
            } = two(alloc, left, right, n)?;
            Ok(TExpr::Compare {
                op: *op,
                left: left_made,
                right: right_made,
                of: n.expr_type(*of),
            })
        }
        TExpr::And { left, right, of } => {
            let TwoParts {
                first: left_made,
                second: right_made,
            } = two(alloc, left, right, n)?;
            Ok(TExpr::And {
                left: left_made,
                right: right_made,
                of: n.expr_type(*of),
            })
        }
        TExpr::Or { left, right, of } => {
            let TwoParts {
                first: left_made,
                second: right_made,
            } = two(alloc, left, right, n)?;
            Ok(TExpr::Or {
                left: left_made,
                right: right_made,
                of: n.expr_type(*of),
            })
        }
        TExpr::Choose {
            test,
            when_true,
            when_false,
            of,
        } => Ok(TExpr::Choose {
            test: boxed(alloc, test, n)?,
            when_true: boxed(alloc, when_true, n)?,
            when_false: boxed(alloc, when_false, n)?,
            of: n.expr_type(*of),
        }),
        TExpr::Comma { first, second, of } => {
            let TwoParts {
                first: first_made,
                second: second_made,
            } = two(alloc, first, second, n)?;
            Ok(TExpr::Comma {
                first: first_made,
                second: second_made,
                of: n.expr_type(*of),
            })
        }
        TExpr::CallDirect {
            name,
            place,
            arguments,
            of,
        } => Ok(TExpr::CallDirect {
            name: n.name(*name),
            place: *place,
            arguments: numbered_exprs(alloc, arguments.as_slice(), n)?,
            of: n.expr_type(*of),
        }),
        TExpr::CallPointer {
            arguments,
            function,
            of,
        } => Ok(TExpr::CallPointer {
            arguments: numbered_exprs(alloc, arguments.as_slice(), n)?,
            function: boxed(alloc, function, n)?,
            of: n.expr_type(*of),
        }),
    }
}
