//! Values that are given to a place (C11 6.5.16.1).

ghost use Rattle.std.specs.Prelude.{◌≡◌, ◌<◌, length};
ghost use Rattle.pa_ctype.specs.Layouts.{table_of};
ghost use Rattle.pa_ctype.specs.Tables.{ForTypes, ForStructs};
ghost use Rattle.pa_convert.specs.Grows.{Grows};
ghost use Rattle.pa_rexpr.specs.Values as spec;
ghost use Rattle.pa_value.specs.Forms.{typed_of, GivesTree};

use crate::form::{TypedForm, refused};
use crate::kinds::{are_integers, are_pointers};
use crate::values::converted;
use pa_convert::{is_boolean, is_complete, is_pointer, is_struct, is_void, takes};
use pa_ctype::Types;
use pa_num::Fault;
use pa_scope::TypeRule;
use pa_typed::TExpr;
use std::alloc::Global;

/// Whether both are one struct type.
pub fn is_same_struct(types: &Types, left: u32, right: u32) -> bool
    requires left { left < length types.now.nodes }
    requires right { right < length types.now.nodes }
    ensures { ForTypes types.now (λ m. result ≡ spec.same_struct (m left) (m right)) }
{
    is_struct(types, left) && is_struct(types, right) && types.is_same_but_const(left, right)
}

/// Whether it is null for a pointer, or a pointer for `_Bool`.
fn is_pointer_conversion(types: &Types, wanted: u32, of: u32, null: bool) -> bool
    requires wanted { wanted < length types.now.nodes }
    requires of { of < length types.now.nodes }
    ensures { ForTypes types.now (λ m. result ≡ spec.is_pointer_conversion (m wanted) (m of) null) }
{
    is_pointer(types, wanted) && null || is_boolean(types, wanted) && is_pointer(types, of)
}

/// The rule that a pointer breaks where it is given to a pointer. C7: they don't go together.
fn pointer_rule(types: &Types, wanted: u32, of: u32) -> Option<TypeRule>
    requires wanted { wanted < length types.now.nodes }
    requires of { of < length types.now.nodes }
    ensures { ForTypes types.now (λ m. result ≡ spec.pointer_rule (m wanted) (m of)) }
{
    if takes(types, wanted, of) {
        None
    } else {
        Some(TypeRule::C7)
    }
}

/// The rule that a struct breaks where it is given: C11 where it has no body, else C23.
fn struct_rule(types: &Types, wanted: u32) -> TypeRule
    requires { wanted < length types.now.nodes }
    ensures { ForStructs types.now (λ table m. result ≡ spec.struct_rule table (m wanted)) }
{
    if is_complete(types, wanted) {
        TypeRule::C23
    } else {
        TypeRule::C11
    }
}

/// The rule that a value of a type, which may be null, breaks where it is given to a place of the type
/// `wanted`: C7, C10, C11 or C23.
fn given_rule(types: &Types, wanted: u32, of: u32, null: bool) -> Option<TypeRule>
    requires wanted { wanted < length types.now.nodes }
    requires of { of < length types.now.nodes }
    ensures { ForStructs types.now (λ table m. result ≡ spec.given_rule table (m wanted) (m of) null) }
{
    if is_void(types, of) {
        Some(TypeRule::C11)
    } else if are_integers(types, wanted, of) {
        None
    } else if are_pointers(types, wanted, of) {
        pointer_rule(types, wanted, of)
    } else if is_pointer_conversion(types, wanted, of, null) {
        None
    } else if is_same_struct(types, wanted, of) {
        Some(struct_rule(types, wanted))
    } else {
        Some(TypeRule::C10)
    }
}

/// A value as a place of the type `wanted` takes it: in an assignment, an initializer, as an argument or a
/// result (C11 6.5.16.1). C7: two pointers don't go together. C10: the value can't be converted. C11: it is
/// void, or a struct without a body. C23: it is a struct.
pub fn given(
    alloc: Global,
    types: &mut Types,
    place: u64,
    wanted: u32,
    form: TypedForm,
) -> Result<TExpr, Fault<TypeRule>>
    requires wanted { wanted < length types.old.nodes }
    requires form { form.of < length types.old.nodes }
    ensures is { GivesTree types.new result place form (λ table m e. spec.given table (m wanted) e) }
    ensures grows { Grows types.old types.new }
{
    match given_rule(types, wanted, form.of, form.null) {
        Some(rule) => Err(refused(rule, place)),
        None => Ok(converted(alloc, types, wanted, form)?),
    }
}
