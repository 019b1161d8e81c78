//! Comparisons (C11 6.5.8, 6.5.9).

ghost use Rattle.std.specs.Prelude.{◌≡◌, ◌<◌, length, IfOk};
ghost use Rattle.pa_convert.specs.Grows.{Grows};
ghost use Rattle.pa_rexpr.specs.Operators as spec;
ghost use Rattle.pa_value.specs.Forms.{IsOfTwo, GivesTwo};

use pa_convert::{common, common_pointer, integer};
use pa_ctype::Types;
use pa_num::{Fault, Memory};
use pa_scope::TypeRule;
use pa_typed::{Comparison, TExpr};
use pa_value::{
    TypedForm, are_integers, are_pointers, expr_type, is_either_function_pointer,
    is_pointer_beside, operand, refused, value,
};
use std::alloc::Global;

/// A comparison of two values that are brought to the type `wanted`: an `int`.
#[tactic(auto, unfolding(pa_typed::specs::Views::t_expr_tree))]
fn compared_in(
    alloc: Global,
    types: &mut Types,
    op: Comparison,
    wanted: u32,
    left: TypedForm,
    right: TypedForm,
) -> Result<TypedForm, Memory>
    requires wanted { wanted < length types.old.nodes }
    requires left { left.of < length types.old.nodes }
    requires right { right.of < length types.old.nodes }
    ensures known { IfOk result (λ t. t.of < length types.new.nodes) }
    ensures is { IsOfTwo types.new result left right (λ m a b. spec.compared_in op (m wanted) a b) }
    ensures grows { Grows types.old types.new }
{
    let left = operand(alloc, types, wanted, left)?;
    let right = operand(alloc, types, wanted, right)?;
    let int = integer(types, 32, true)?;
    let tree = TExpr::Compare {
        op,
        left,
        right,
        of: expr_type(types, int),
    };
    Ok(value(tree, int))
}

/// A comparison of two integers, in their common type (C11 6.5.9p4).
fn compared_integers(
    alloc: Global,
    types: &mut Types,
    op: Comparison,
    left: TypedForm,
    right: TypedForm,
) -> Result<TypedForm, Memory>
    requires left { left.of < length types.old.nodes }
    requires right { right.of < length types.old.nodes }
    ensures known { IfOk result (λ t. t.of < length types.new.nodes) }
    ensures is { IsOfTwo types.new result left right (λ m a b. spec.compared_integers op a b) }
    ensures grows { Grows types.old types.new }
{
    let wanted = common(types, left.of, right.of)?;
    compared_in(alloc, types, op, wanted, left, right)
}

/// A comparison of two pointers, in their common type. C7: they don't go together.
fn compared_pointers(
    alloc: Global,
    types: &mut Types,
    op: Comparison,
    place: u64,
    left: TypedForm,
    right: TypedForm,
) -> Result<TypedForm, Fault<TypeRule>>
    requires left { left.of < length types.old.nodes }
    requires right { right.of < length types.old.nodes }
    ensures known { IfOk result (λ t. t.of < length types.new.nodes) }
    ensures is { GivesTwo types.new result left right
        (λ table a b. spec.compared_pointers op place a b) }
    ensures grows { Grows types.old types.new }
{
    let common = common_pointer(types, left.of, right.of)?;
    match common {
        Some(wanted) => Ok(compared_in(alloc, types, op, wanted, left, right)?),
        None => Err(refused(TypeRule::C7, place)),
    }
}

/// `left op right`: of integers in their common type, of two pointers that go together, or of a pointer and null
/// (C11 6.5.9p2, p5). C5: the operands are none of these. C7: the pointers don't go together.
pub fn compared(
    alloc: Global,
    types: &mut Types,
    op: Comparison,
    place: u64,
    left: TypedForm,
    right: TypedForm,
) -> Result<TypedForm, Fault<TypeRule>>
    requires left { left.of < length types.old.nodes }
    requires right { right.of < length types.old.nodes }
    ensures known { IfOk result (λ t. t.of < length types.new.nodes) }
    ensures is { GivesTwo types.new result left right (λ table a b. spec.compared op place a b) }
    ensures grows { Grows types.old types.new }
{
    if are_integers(types, left.of, right.of) {
        Ok(compared_integers(alloc, types, op, left, right)?)
    } else if are_pointers(types, left.of, right.of) {
        compared_pointers(alloc, types, op, place, left, right)
    } else if is_pointer_beside(types, left.of, right.null) {
        let wanted = left.of;
        Ok(compared_in(alloc, types, op, wanted, left, right)?)
    } else if is_pointer_beside(types, right.of, left.null) {
        let wanted = right.of;
        Ok(compared_in(alloc, types, op, wanted, left, right)?)
    } else {
        Err(refused(TypeRule::C5, place))
    }
}

/// `left op right` by order (C11 6.5.8p2). C5: as `compared` says, or one is a pointer to a function, which has no
/// order. C7: the pointers don't go together.
pub fn order(
    alloc: Global,
    types: &mut Types,
    op: Comparison,
    place: u64,
    left: TypedForm,
    right: TypedForm,
) -> Result<TypedForm, Fault<TypeRule>>
    requires left { left.of < length types.old.nodes }
    requires right { right.of < length types.old.nodes }
    ensures known { IfOk result (λ t. t.of < length types.new.nodes) }
    ensures is { GivesTwo types.new result left right (λ table a b. spec.order op place a b) }
    ensures grows { Grows types.old types.new }
{
    if is_either_function_pointer(types, left.of, right.of) {
        Err(refused(TypeRule::C5, place))
    } else {
        compared(alloc, types, op, place, left, right)
    }
}
