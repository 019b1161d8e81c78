//! Operators between integers (C11 6.5.5 to 6.5.7, 6.5.10 to 6.5.12).

ghost use Rattle.std.specs.Prelude.{◌≡◌, ◌<◌, length, IfOk};
ghost use Rattle.pa_convert.specs.Grows.{Grows};
ghost use Rattle.pa_rexpr.specs.Operators as spec;
ghost use Rattle.pa_value.specs.Forms.{IsOfTwo, GivesTwo};

use pa_convert::{common, promoted};
use pa_ctype::Types;
use pa_num::{Fault, Memory};
use pa_scope::TypeRule;
use pa_typed::{BinaryOperation, TExpr};
use pa_value::{TypedForm, are_integers, expr_type, operand, refused, value};
use std::alloc::Global;

/// The types that the operands of an operator are brought to; the left one is that of the result.
#[derive(Clone, Copy)]
struct Operands {
    left: u32,
    right: u32,
}

/// An operator between two values that are brought to these types.
#[tactic(auto, unfolding(pa_typed::specs::Views::t_expr_tree))]
fn operated(
    alloc: Global,
    types: &mut Types,
    op: BinaryOperation,
    wanted: Operands,
    left: TypedForm,
    right: TypedForm,
) -> Result<TypedForm, Memory>
    requires wanted_left { wanted.left < length types.old.nodes }
    requires wanted_right { wanted.right < length types.old.nodes }
    requires left { left.of < length types.old.nodes }
    requires right { right.of < length types.old.nodes }
    ensures known { IfOk result (λ t. t.of < length types.new.nodes) }
    ensures is { IsOfTwo types.new result left right
        (λ m a b. spec.operated op (m wanted.left) (m wanted.right) a b) }
    ensures grows { Grows types.old types.new }
{
    let left = operand(alloc, types, wanted.left, left)?;
    let right = operand(alloc, types, wanted.right, right)?;
    let tree = TExpr::Binary {
        op,
        left,
        right,
        of: expr_type(types, wanted.left),
    };
    Ok(value(tree, wanted.left))
}

/// An operator between two integers, in their common type (C11 6.3.1.8).
fn arithmetic(
    alloc: Global,
    types: &mut Types,
    op: BinaryOperation,
    left: TypedForm,
    right: TypedForm,
) -> Result<TypedForm, Memory>
    requires left { left.of < length types.old.nodes }
    requires right { right.of < length types.old.nodes }
    ensures known { IfOk result (λ t. t.of < length types.new.nodes) }
    ensures is { IsOfTwo types.new result left right (λ m a b. spec.arithmetic op a b) }
    ensures grows { Grows types.old types.new }
{
    let common = common(types, left.of, right.of)?;
    let wanted = Operands {
        left: common,
        right: common,
    };
    operated(alloc, types, op, wanted, left, right)
}

/// `left op right` of integers (C11 6.5.5, 6.5.10 to 6.5.12). C5: an operand is not arithmetic.
pub fn on_integers(
    alloc: Global,
    types: &mut Types,
    op: BinaryOperation,
    place: u64,
    left: TypedForm,
    right: TypedForm,
) -> Result<TypedForm, Fault<TypeRule>>
    requires left { left.of < length types.old.nodes }
    requires right { right.of < length types.old.nodes }
    ensures known { IfOk result (λ t. t.of < length types.new.nodes) }
    ensures is { GivesTwo types.new result left right (λ table a b. spec.on_integers op place a b) }
    ensures grows { Grows types.old types.new }
{
    if are_integers(types, left.of, right.of) {
        Ok(arithmetic(alloc, types, op, left, right)?)
    } else {
        Err(refused(TypeRule::C5, place))
    }
}

/// A shift of integers, of which each is promoted for itself (C11 6.5.7p3).
fn shifted(
    alloc: Global,
    types: &mut Types,
    op: BinaryOperation,
    left: TypedForm,
    right: TypedForm,
) -> Result<TypedForm, Memory>
    requires left { left.of < length types.old.nodes }
    requires right { right.of < length types.old.nodes }
    ensures known { IfOk result (λ t. t.of < length types.new.nodes) }
    ensures is { IsOfTwo types.new result left right (λ m a b. spec.shifted op a b) }
    ensures grows { Grows types.old types.new }
{
    let number = promoted(types, left.of)?;
    let amount = promoted(types, right.of)?;
    let wanted = Operands {
        left: number,
        right: amount,
    };
    operated(alloc, types, op, wanted, left, right)
}

/// `left op right`, a shift of integers (C11 6.5.7). C5: an operand is not arithmetic.
pub fn shift(
    alloc: Global,
    types: &mut Types,
    op: BinaryOperation,
    place: u64,
    left: TypedForm,
    right: TypedForm,
) -> Result<TypedForm, Fault<TypeRule>>
    requires left { left.of < length types.old.nodes }
    requires right { right.of < length types.old.nodes }
    ensures known { IfOk result (λ t. t.of < length types.new.nodes) }
    ensures is { GivesTwo types.new result left right (λ table a b. spec.shift op place a b) }
    ensures grows { Grows types.old types.new }
{
    if are_integers(types, left.of, right.of) {
        Ok(shifted(alloc, types, op, left, right)?)
    } else {
        Err(refused(TypeRule::C5, place))
    }
}
