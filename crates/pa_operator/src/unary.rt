//! Operators on one value (C11 6.5.3.3).

ghost use Rattle.std.specs.Prelude.{◌≡◌, ◌<◌, length, IfOk};
ghost use Rattle.pa_convert.specs.Grows.{Grows};
ghost use Rattle.pa_rexpr.specs.Operators as spec;
ghost use Rattle.pa_value.specs.Forms.{IsOfOne, GivesOne};

use pa_convert::{integer, is_integer, is_scalar, promoted};
use pa_ctype::Types;
use pa_num::{Fault, Memory};
use pa_scope::TypeRule;
use pa_typed::{TExpr, UnaryOperation};
use pa_value::{TypedForm, converted, expr_type, operand, refused, value};
use sqlite_items::Boxed;
use std::alloc::Global;

/// `+form`: the promoted operand (C11 6.5.3.3p2). C5: it is not arithmetic.
pub fn plus(
    alloc: Global,
    types: &mut Types,
    place: u64,
    form: TypedForm,
) -> Result<TypedForm, Fault<TypeRule>>
    requires { form.of < length types.old.nodes }
    ensures known { IfOk result (λ t. t.of < length types.new.nodes) }
    ensures is { GivesOne types.new result form (λ table e. spec.plus place e) }
    ensures grows { Grows types.old types.new }
{
    if !is_integer(types, form.of) {
        return Err(refused(TypeRule::C5, place));
    }
    let number = promoted(types, form.of)?;
    let tree = converted(alloc, types, number, form)?;
    Ok(value(tree, number))
}

/// `-form` or `~form` in the type `wanted`.
#[tactic(auto, unfolding(pa_typed::specs::Views::t_expr_tree))]
fn signed_value(
    alloc: Global,
    types: &mut Types,
    op: UnaryOperation,
    wanted: u32,
    form: TypedForm,
) -> Result<TypedForm, Memory>
    requires wanted { wanted < length types.old.nodes }
    requires form { form.of < length types.old.nodes }
    ensures known { IfOk result (λ t. t.of < length types.new.nodes) }
    ensures is { IsOfOne types.new result form (λ m e. spec.signed_value op (m wanted) e) }
    ensures grows { Grows types.old types.new }
{
    let inner = operand(alloc, types, wanted, form)?;
    let tree = TExpr::Unary {
        op,
        value: inner,
        of: expr_type(types, wanted),
    };
    Ok(value(tree, wanted))
}

/// `-form` or `~form`, of the promoted operand (C11 6.5.3.3p3, p4). C5: it is not arithmetic.
pub fn with_sign(
    alloc: Global,
    types: &mut Types,
    op: UnaryOperation,
    place: u64,
    form: TypedForm,
) -> Result<TypedForm, Fault<TypeRule>>
    requires { form.of < length types.old.nodes }
    ensures known { IfOk result (λ t. t.of < length types.new.nodes) }
    ensures is { GivesOne types.new result form (λ table e. spec.with_sign op place e) }
    ensures grows { Grows types.old types.new }
{
    if !is_integer(types, form.of) {
        return Err(refused(TypeRule::C5, place));
    }
    let number = promoted(types, form.of)?;
    Ok(signed_value(alloc, types, op, number, form)?)
}

/// `!form`, an `int` (C11 6.5.3.3p5). C6: the operand is not scalar.
#[tactic(auto, unfolding(pa_typed::specs::Views::t_expr_tree))]
pub fn negated(
    alloc: Global,
    types: &mut Types,
    place: u64,
    form: TypedForm,
) -> Result<TypedForm, Fault<TypeRule>>
    requires { form.of < length types.old.nodes }
    ensures known { IfOk result (λ t. t.of < length types.new.nodes) }
    ensures is { GivesOne types.new result form (λ table e. spec.negated place e) }
    ensures grows { Grows types.old types.new }
{
    if !is_scalar(types, form.of) {
        return Err(refused(TypeRule::C6, place));
    }
    let int = integer(types, 32, true)?;
    let inner = Boxed::new(alloc, form.tree)?;
    let tree = TExpr::Unary {
        op: UnaryOperation::Not,
        value: inner,
        of: expr_type(types, int),
    };
    Ok(value(tree, int))
}
