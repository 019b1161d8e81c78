//! What pointers point to, and addresses (C11 6.5.2.1, 6.5.3.2), and sizes (6.5.3.4).

ghost use Rattle.std.specs.Prelude.{◌≡◌, ◌<◌, length, IfOk};
ghost use Rattle.pa_convert.specs.Grows.{Grows};
ghost use Rattle.pa_ctype.specs.Tables.{ForStructs};
ghost use Rattle.pa_place.specs.Answers.{pointer_left, pointer_right};
ghost use Rattle.pa_place.specs.Answers.{GivesType, IsOfTree, IsIndexed, GivesElement};
ghost use Rattle.pa_rexpr.specs.Places as spec;
ghost use Rattle.pa_typed.specs.Typed as to;
ghost use Rattle.pa_typed.specs.Views.{t_expr_tree};
ghost use Rattle.pa_value.specs.Forms.{IsTree, IsForm, GivesOne, GivesTwo};

use pa_convert::{integer, is_function, is_integer, is_movable, is_void, pointer_to, target};
use pa_ctype::Types;
use pa_num::{Fault, Memory};
use pa_rexpr::Category;
use pa_scope::TypeRule;
use pa_typed::TExpr;
use pa_value::{TypedForm, designator, expr_type, lvalue, read, refused, value};
use sqlite_items::Boxed;
use std::alloc::{AllocError, Global};

/// What a pointer points to, of this type.
#[tactic(auto, unfolding(pa_typed::specs::Views::t_expr_tree))]
pub(crate) fn dereferenced(
    alloc: Global,
    types: &Types,
    pointer: TExpr,
    of: u32,
) -> Result<TExpr, AllocError>
    requires { of < length types.now.nodes }
    ensures { IsTree types.now result (λ names m. to.Deref (t_expr_tree names m pointer) (m of)) }
{
    let pointer = Boxed::new(alloc, pointer)?;
    let of = expr_type(types, of);
    Ok(TExpr::Deref { pointer, of })
}

/// `*form`: what the pointer points to. A function adds no form, and `void` is no lvalue (C11 6.5.3.2p4).
/// C5: it is no pointer.
pub fn indirection(
    alloc: Global,
    types: &Types,
    place: u64,
    form: TypedForm,
) -> Result<TypedForm, Fault<TypeRule>>
    requires { form.of < length types.now.nodes }
    ensures known { IfOk result (λ t. t.of < length types.now.nodes) }
    ensures is { GivesOne types.now result form (λ table e. spec.indirection place e) }
{
    let Some(to) = target(types, form.of) else {
        return Err(refused(TypeRule::C5, place));
    };
    if is_function(types, to) {
        return Ok(designator(form.tree, to));
    }
    let tree = dereferenced(alloc, types, form.tree, to)?;
    if is_void(types, to) {
        Ok(value(tree, to))
    } else {
        Ok(lvalue(tree, to))
    }
}

/// The element of this type that a pointer and an integer give.
#[tactic(auto, unfolding(pa_typed::specs::Views::t_expr_tree))]
fn element(
    alloc: Global,
    types: &Types,
    left: TypedForm,
    right: TypedForm,
    pointer_left: bool,
    of: u32,
) -> Result<TypedForm, Memory>
    requires { of < length types.now.nodes }
    ensures known { IfOk result (λ t. t.of ≡ of) }
    ensures is { IsIndexed types.now result left right pointer_left of }
{
    let left = Boxed::new(alloc, left.tree)?;
    let right = Boxed::new(alloc, right.tree)?;
    let tree = TExpr::Index {
        left,
        right,
        pointer_left,
        of: expr_type(types, of),
    };
    Ok(lvalue(tree, of))
}

/// An element, where the pointer has the type `of`. C5: it is no pointer.
fn element_of(
    alloc: Global,
    types: &Types,
    place: u64,
    left: TypedForm,
    right: TypedForm,
    pointer_left: bool,
    of: u32,
) -> Result<TypedForm, Fault<TypeRule>>
    requires { of < length types.now.nodes }
    ensures known { IfOk result (λ t. t.of < length types.now.nodes) }
    ensures is { GivesElement types.now result place left right pointer_left of }
{
    match target(types, of) {
        Some(to) => Ok(element(alloc, types, left, right, pointer_left, to)?),
        None => Err(refused(TypeRule::C5, place)),
    }
}

/// Whether the left one is a pointer to a complete object type and the right one an integer.
fn is_pointer_left(types: &Types, left: u32, right: u32) -> bool
    requires left { left < length types.now.nodes }
    requires right { right < length types.now.nodes }
    ensures { ForStructs types.now (λ table m. result ≡ pointer_left table (m left) (m right)) }
{
    is_movable(types, left) && is_integer(types, right)
}

/// Whether the left one is an integer and the right one a pointer to a complete object type.
fn is_pointer_right(types: &Types, left: u32, right: u32) -> bool
    requires left { left < length types.now.nodes }
    requires right { right < length types.now.nodes }
    ensures { ForStructs types.now (λ table m. result ≡ pointer_right table (m left) (m right)) }
{
    is_integer(types, left) && is_movable(types, right)
}

/// `left[right]`, where one side is a pointer to a complete object type and the other an integer (C11 6.5.2.1p1).
/// C5: they are not.
pub fn subscript(
    alloc: Global,
    types: &Types,
    place: u64,
    left: TypedForm,
    right: TypedForm,
) -> Result<TypedForm, Fault<TypeRule>>
    requires left { left.of < length types.now.nodes }
    requires right { right.of < length types.now.nodes }
    ensures known { IfOk result (λ t. t.of < length types.now.nodes) }
    ensures is { GivesTwo types.now result left right (λ table. spec.subscript table place) }
{
    if is_pointer_left(types, left.of, right.of) {
        let of = left.of;
        element_of(alloc, types, place, left, right, true, of)
    } else if is_pointer_right(types, left.of, right.of) {
        let of = right.of;
        element_of(alloc, types, place, left, right, false, of)
    } else {
        Err(refused(TypeRule::C5, place))
    }
}

/// A pointer to a place of this type.
#[tactic(auto, unfolding(pa_typed::specs::Views::t_expr_tree))]
fn address_of(alloc: Global, types: &mut Types, tree: TExpr, of: u32) -> Result<TypedForm, Memory>
    requires { of < length types.old.nodes }
    ensures known { IfOk result (λ t. t.of < length types.new.nodes) }
    ensures is { IsOfTree types.new result tree of spec.address_of }
    ensures grows { Grows types.old types.new }
{
    let pointer = pointer_to(types, of)?;
    let at = Boxed::new(alloc, tree)?;
    let of = expr_type(types, pointer);
    Ok(value(TExpr::AddressOf { at, of }, pointer))
}

/// `&form`, of an lvalue as it stands or of a function (C11 6.5.3.2p3). C3: it is neither.
pub fn address(
    alloc: Global,
    types: &mut Types,
    place: u64,
    form: TypedForm,
) -> Result<TypedForm, Fault<TypeRule>>
    requires { form.of < length types.old.nodes }
    ensures known { IfOk result (λ t. t.of < length types.new.nodes) }
    ensures is { GivesOne types.new result form (λ table e. spec.address place e) }
    ensures grows { Grows types.old types.new }
{
    match form.category {
        Category::Lvalue => {
            let TypedForm { tree, of, .. } = form;
            Ok(address_of(alloc, types, tree, of)?)
        }
        Category::Designator => Ok(read(alloc, types, form)?),
        Category::Temporary | Category::Value => Err(refused(TypeRule::C3, place)),
    }
}

/// A number of bytes, an `unsigned long`.
#[tactic(auto, unfolding(pa_typed::specs::Views::t_expr_tree))]
fn byte_count(types: &mut Types, bytes: u64) -> Result<TypedForm, Memory>
    ensures known { IfOk result (λ t. t.of < length types.new.nodes) }
    ensures is { IsForm types.new result (λ names m. spec.byte_count bytes) }
    ensures grows { Grows types.old types.new }
{
    let number = integer(types, 64, false)?;
    let of = expr_type(types, number);
    Ok(value(TExpr::Number { value: bytes, of }, number))
}

/// `sizeof` of a type: how many bytes an object of it has, an `unsigned long` (C11 6.5.3.4). C11: it is no complete
/// object type.
pub fn size_of(types: &mut Types, place: u64, of: u32) -> Result<TypedForm, Fault<TypeRule>>
    requires { of < length types.old.nodes }
    ensures known { IfOk result (λ t. t.of < length types.new.nodes) }
    ensures is { GivesType types.new result of (λ table. spec.size_of table place) }
    ensures grows { Grows types.old types.new }
{
    match types.layout_of(of) {
        Some(layout) => Ok(byte_count(types, layout.size)?),
        None => Err(refused(TypeRule::C11, place)),
    }
}
