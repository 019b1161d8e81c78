//! Casts (C11 6.5.4).

ghost use Rattle.std.specs.Prelude.{◌≡◌, ◌<◌, length, IfOk};
ghost use Rattle.pa_ctype.specs.Tables.{ForTypes, ForStructs};
ghost use Rattle.pa_convert.specs.Grows.{Grows};
ghost use Rattle.pa_place.specs.Answers.{GivesTypeOne};
ghost use Rattle.pa_rexpr.specs.Calls as spec;
ghost use Rattle.pa_rexpr.specs.Operators as operators;
ghost use Rattle.pa_value.specs.Forms.{IsOfOne};

use pa_convert::{is_complete, is_function_pointer, is_struct, is_void, value_type};
use pa_ctype::Types;
use pa_num::{Fault, Memory};
use pa_scope::TypeRule;
use pa_value::{
    TypedForm, are_integers, are_pointers, are_scalars, converted, is_either_function_pointer,
    refused, value,
};
use std::alloc::Global;

/// Whether it is a struct without a body, which can't be an operand.
fn is_bodiless(types: &Types, number: u32) -> bool
    requires { number < length types.now.nodes }
    ensures { ForStructs types.now (λ table m. result ≡ operators.is_bodiless table (m number)) }
{
    is_struct(types, number) && !is_complete(types, number)
}

/// The rule that a cast to void breaks: C11 of a struct without a body, C15 of a pointer to a function.
fn discard_rule(types: &Types, of: u32) -> Option<TypeRule>
    requires { of < length types.now.nodes }
    ensures { ForStructs types.now (λ table m. result ≡ spec.discard_rule table (m of)) }
{
    if is_bodiless(types, of) {
        Some(TypeRule::C11)
    } else if is_function_pointer(types, of) {
        Some(TypeRule::C15)
    } else {
        None
    }
}

/// The rule that a cast between scalars breaks: C15 with a pointer to a function, C16 between a pointer and an
/// integer.
fn scalar_rule(types: &Types, wanted: u32, of: u32) -> Option<TypeRule>
    requires wanted { wanted < length types.now.nodes }
    requires of { of < length types.now.nodes }
    ensures { ForTypes types.now (λ m. result ≡ spec.scalar_rule (m wanted) (m of)) }
{
    if is_either_function_pointer(types, wanted, of) {
        Some(TypeRule::C15)
    } else if are_integers(types, wanted, of) || are_pointers(types, wanted, of) {
        None
    } else {
        Some(TypeRule::C16)
    }
}

/// The rule that a cast breaks: of void C11, between others than scalars C10.
fn cast_rule(types: &Types, wanted: u32, of: u32) -> Option<TypeRule>
    requires wanted { wanted < length types.now.nodes }
    requires of { of < length types.now.nodes }
    ensures { ForStructs types.now (λ table m. result ≡ spec.cast_rule table (m wanted) (m of)) }
{
    if is_void(types, wanted) {
        discard_rule(types, of)
    } else if is_void(types, of) {
        Some(TypeRule::C11)
    } else if are_scalars(types, wanted, of) {
        scalar_rule(types, wanted, of)
    } else {
        Some(TypeRule::C10)
    }
}

/// A value in another type.
fn cast_value(
    alloc: Global,
    types: &mut Types,
    wanted: u32,
    form: TypedForm,
) -> Result<TypedForm, Memory>
    requires wanted { wanted < length types.old.nodes }
    requires form { form.of < length types.old.nodes }
    ensures known { IfOk result (λ t. t.of < length types.new.nodes) }
    ensures is { IsOfOne types.new result form (λ m e. spec.cast_value (m wanted) e) }
    ensures grows { Grows types.old types.new }
{
    let tree = converted(alloc, types, wanted, form)?;
    let plain = value_type(types, wanted)?;
    Ok(value(tree, plain))
}

/// `(wanted) form`: to void, or between integers or between pointers to objects (C11 6.5.4). C10: one is no scalar.
/// C11: the operand is void, or a struct without a body. C15: one is a pointer to a function. C16: one is a pointer
/// and the other an integer.
pub fn cast(
    alloc: Global,
    types: &mut Types,
    place: u64,
    wanted: u32,
    form: TypedForm,
) -> Result<TypedForm, Fault<TypeRule>>
    requires wanted { wanted < length types.old.nodes }
    requires form { form.of < length types.old.nodes }
    ensures known { IfOk result (λ t. t.of < length types.new.nodes) }
    ensures is { GivesTypeOne types.new result wanted form (λ table. spec.cast table place) }
    ensures grows { Grows types.old types.new }
{
    match cast_rule(types, wanted, form.of) {
        Some(rule) => Err(refused(rule, place)),
        None => Ok(cast_value(alloc, types, wanted, form)?),
    }
}
