//! Members of structs (C11 6.5.2.3).

ghost use Rattle.std.specs.Prelude.{◌≡◌, ◌<◌, length, IfOk, IfSome};
ghost use Rattle.pa_ctype.specs.Tables.{ForTypes};
ghost use Rattle.pa_convert.specs.Grows.{Grows};
ghost use Rattle.pa_place.specs.Answers.{AreLaid, IsNumber, IsFieldType, GivesMember};
ghost use Rattle.pa_place.specs.Answers as answers;
ghost use Rattle.pa_rexpr.specs.Places as spec;
ghost use Rattle.pa_value.specs.Forms.{IsOfOne};

use crate::places::dereferenced;
use pa_convert::{Form, form_of, target};
use pa_ctype::{Member, Types};
use pa_num::{Fault, Memory};
use pa_scope::TypeRule;
use pa_typed::TExpr;
use pa_value::{TypedForm, expr_type, lvalue, refused};
use sqlite_items::Boxed;
use std::alloc::Global;

/// The id of a struct. None: it is none.
fn struct_in(form: Form) -> Option<u32>
    ensures { result ≡ answers.struct_in form }
{
    match form {
        Form::Struct { id } => Some(id),
        Form::Void
        | Form::Boolean
        | Form::Integer { .. }
        | Form::Pointer { .. }
        | Form::Array { .. }
        | Form::Function => None,
    }
}

/// The id of a struct type. None: it is no struct.
#[tactic(auto, using(crate::proofs::Structs::struct_of))]
fn struct_id(types: &Types, number: u32) -> Option<u32>
    requires { number < length types.now.nodes }
    ensures { ForTypes types.now (λ m. result ≡ spec.struct_id (m number)) }
{
    struct_in(form_of(types, number))
}

/// The type of the member at this place among those of a struct.
#[tactic(auto, using(crate::proofs::Structs::field_found, crate::proofs::Structs::field_missing, crate::proofs::Structs::type_below))]
fn field_type(types: &Types, id: u32, index: u32) -> Option<u32>
    ensures known { IfSome result (λ of. of < length types.now.nodes) }
    ensures is { IsFieldType types.now id index result }
{
    let held = types.members(id)?.get(index as usize)?;
    Some(held.of)
}

/// The type of a member of this type, in a struct of the type `owner`: constant where that is (C11 6.5.2.3p3).
fn member_type(types: &mut Types, owner: u32, of: u32) -> Result<u32, Memory>
    requires owner { owner < length types.old.nodes }
    requires of { of < length types.old.nodes }
    ensures known { IfOk result (λ n. n < length types.new.nodes) }
    ensures is { IsNumber types.new result (λ m. spec.member_type (m owner) (m of)) }
    ensures grows { Grows types.old types.new }
{
    if types.is_constant(owner) {
        types.constant(of)
    } else {
        Ok(of)
    }
}

/// The member of this type of a struct at a place.
#[tactic(auto, unfolding(pa_typed::specs::Views::t_expr_tree))]
fn member_in(
    alloc: Global,
    types: &mut Types,
    form: TypedForm,
    member: Member,
    of: u32,
) -> Result<TypedForm, Memory>
    requires form { form.of < length types.old.nodes }
    requires of { of < length types.old.nodes }
    ensures known { IfOk result (λ t. t.of < length types.new.nodes) }
    ensures is { IsOfOne types.new result form (λ m e. spec.member_of_type e member (m of)) }
    ensures grows { Grows types.old types.new }
{
    let TypedForm {
        tree,
        of: owner,
        category,
        null,
    } = form;
    let of = member_type(types, owner, of)?;
    let tree = TExpr::Member {
        owner: Boxed::new(alloc, tree)?,
        index: member.index,
        offset: member.offset,
        of: expr_type(types, of),
    };
    Ok(TypedForm {
        tree,
        of,
        category,
        null,
    })
}

/// `form.name`, an lvalue where the struct is one (C11 6.5.2.3p3). C12: it is no struct, or has no such member.
pub fn member(
    alloc: Global,
    types: &mut Types,
    place: u64,
    name: u32,
    form: TypedForm,
) -> Result<TypedForm, Fault<TypeRule>>
    requires form { form.of < length types.old.nodes }
    requires name { name < types.old.names }
    requires laid { AreLaid types.old }
    ensures known { IfOk result (λ t. t.of < length types.new.nodes) }
    ensures is { GivesMember types.new result form name (λ table. spec.member table place) }
    ensures grows { Grows types.old types.new }
{
    let Some(id) = struct_id(types, form.of) else {
        return Err(refused(TypeRule::C12, place));
    };
    let Some(member) = types.member(id, name) else {
        return Err(refused(TypeRule::C12, place));
    };
    let Some(of) = field_type(types, id, member.index) else {
        return Err(refused(TypeRule::C12, place));
    };
    Ok(member_in(alloc, types, form, member, of)?)
}

/// `form->name` (C11 6.5.2.3p4). C12: it is no pointer to a struct, or the struct has no such member.
pub fn arrow(
    alloc: Global,
    types: &mut Types,
    place: u64,
    name: u32,
    form: TypedForm,
) -> Result<TypedForm, Fault<TypeRule>>
    requires form { form.of < length types.old.nodes }
    requires name { name < types.old.names }
    requires laid { AreLaid types.old }
    ensures known { IfOk result (λ t. t.of < length types.new.nodes) }
    ensures is { GivesMember types.new result form name (λ table. spec.arrow table place) }
    ensures grows { Grows types.old types.new }
{
    let Some(to) = target(types, form.of) else {
        return Err(refused(TypeRule::C12, place));
    };
    let tree = dereferenced(alloc, types, form.tree, to)?;
    member(alloc, types, place, name, lvalue(tree, to))
}
