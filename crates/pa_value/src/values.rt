//! The values of expressions, and their conversions (C11 6.3).

ghost use Rattle.std.specs.Prelude.{◌≡◌, ◌<◌, length, IfOk};
ghost use Rattle.pa_convert.specs.Grows.{Grows};
ghost use Rattle.pa_value.specs.Forms as forms;
ghost use Rattle.pa_value.specs.Forms.{typed_of, ForForms, IsTree, IsForm, IsOfOne};
ghost use Rattle.pa_rexpr.specs.Values as spec;
ghost use Rattle.pa_typed.specs.Views.{t_expr_tree};

use crate::form::{TypedForm, expr_type, temporary, value};
use pa_convert::{Form, form_of, pointer_to, value_type};
use pa_ctype::Types;
use pa_num::Memory;
use pa_pac::Schema;
use pa_rexpr::Category;
use pa_typed::TExpr;
use sqlite_items::Boxed;
use std::alloc::{AllocError, Global};

/// What stands at a place, of a type with this schema, as a value of the type `of` (C11 6.3.2.1p2).
#[tactic(auto, unfolding(pa_typed::specs::Views::t_expr_tree))]
fn loaded(
    alloc: Global,
    types: &Types,
    tree: TExpr,
    of: u32,
    schema: Option<Schema>,
) -> Result<TExpr, AllocError>
    requires { of < length types.now.nodes }
    ensures { IsTree types.now result (λ names m. spec.loaded_by schema (t_expr_tree names m tree) (m of)) }
{
    let from = Boxed::new(alloc, tree)?;
    let of = expr_type(types, of);
    match schema {
        None => Ok(TExpr::Load { from, of }),
        Some(schema) => Ok(TExpr::LoadSigned { from, schema, of }),
    }
}

/// What stands at a place of a type with this schema, as a value (C11 6.3.2.1p2).
fn scalar_value(
    alloc: Global,
    types: &mut Types,
    tree: TExpr,
    of: u32,
    schema: Option<Schema>,
) -> Result<TypedForm, Memory>
    requires { of < length types.old.nodes }
    ensures known { IfOk result (λ t. t.of < length types.new.nodes) }
    ensures is { IsForm types.new result (λ names m. forms.scalar_value schema (t_expr_tree names m tree) (m of)) }
    ensures grows { Grows types.old types.new }
{
    let plain = value_type(types, of)?;
    Ok(value(loaded(alloc, types, tree, plain, schema)?, plain))
}

/// A pointer to the first element of an array at a place (C11 6.3.2.1p3).
#[tactic(auto, unfolding(pa_typed::specs::Views::t_expr_tree))]
fn first_element(
    alloc: Global,
    types: &mut Types,
    tree: TExpr,
    of: u32,
) -> Result<TypedForm, Memory>
    requires { of < length types.old.nodes }
    ensures known { IfOk result (λ t. t.of < length types.new.nodes) }
    ensures is { IsForm types.new result (λ names m. forms.first_element (t_expr_tree names m tree) (m of)) }
    ensures grows { Grows types.old types.new }
{
    let pointer = pointer_to(types, of)?;
    let at = Boxed::new(alloc, tree)?;
    let of = expr_type(types, pointer);
    Ok(value(TExpr::AddressOf { at, of }, pointer))
}

/// The value at a place: an array is a pointer to its first element, a struct stays a place (C11 6.3.2.1p2, p3).
#[tactic(auto, using(crate::proofs::Placed::placed_is))]
fn placed_value(alloc: Global, types: &mut Types, tree: TExpr, of: u32) -> Result<TypedForm, Memory>
    requires { of < length types.old.nodes }
    ensures known { IfOk result (λ t. t.of < length types.new.nodes) }
    ensures is { IsForm types.new result (λ names m. spec.placed_value (t_expr_tree names m tree) (m of)) }
    ensures grows { Grows types.old types.new }
{
    match form_of(types, of) {
        Form::Array { of: element, .. } => first_element(alloc, types, tree, element),
        Form::Struct { .. } => Ok(temporary(tree, types.without_const(of))),
        Form::Pointer { schema, .. } => scalar_value(alloc, types, tree, of, schema),
        Form::Void | Form::Boolean | Form::Integer { .. } | Form::Function => {
            scalar_value(alloc, types, tree, of, None)
        }
    }
}

/// The value of an expression (C11 6.3.2.1p2 to p4).
pub fn read(alloc: Global, types: &mut Types, form: TypedForm) -> Result<TypedForm, Memory>
    requires { form.of < length types.old.nodes }
    ensures known { IfOk result (λ t. t.of < length types.new.nodes) }
    ensures is { IsOfOne types.new result form (λ m e. spec.read e) }
    ensures grows { Grows types.old types.new }
{
    match form.category {
        Category::Lvalue | Category::Temporary => {
            let TypedForm { tree, of, .. } = form;
            placed_value(alloc, types, tree, of)
        }
        Category::Value => Ok(form),
        Category::Designator => {
            let pointer = pointer_to(types, form.of)?;
            Ok(value(form.tree, pointer))
        }
    }
}

/// A value in another type: a conversion where the types differ in more than qualifiers.
#[tactic(auto, unfolding(pa_typed::specs::Views::t_expr_tree))]
pub fn converted(
    alloc: Global,
    types: &mut Types,
    wanted: u32,
    form: TypedForm,
) -> Result<TExpr, Memory>
    requires wanted { wanted < length types.old.nodes }
    requires form { form.of < length types.old.nodes }
    ensures is { IsTree types.new result (λ names m. spec.converted (m wanted) (typed_of names m form)) }
    ensures grows { Grows types.old types.new }
{
    if types.is_same_bare(wanted, form.of) {
        return Ok(form.tree);
    }
    let plain = value_type(types, wanted)?;
    let value = Boxed::new(alloc, form.tree)?;
    let of = expr_type(types, plain);
    Ok(TExpr::Convert { value, of })
}

/// A value in another type, as a part of a tree.
pub fn operand(
    alloc: Global,
    types: &mut Types,
    wanted: u32,
    form: TypedForm,
) -> Result<Boxed<TExpr>, Memory>
    requires wanted { wanted < length types.old.nodes }
    requires form { form.of < length types.old.nodes }
    ensures is { IsTree types.new result (λ names m. spec.converted (m wanted) (typed_of names m form)) }
    ensures grows { Grows types.old types.new }
{
    let tree = converted(alloc, types, wanted, form)?;
    Ok(Boxed::new(alloc, tree)?)
}
