ghost use Rattle.std.specs.Prelude.{◌≡◌, ◌<◌, length, false};
ghost use Rattle.pa_num.specs.declared.fault.Fault.TheVariants as fault;
ghost use Rattle.pa_rexpr.specs.declared.category.Category.TheVariants as category;

use pa_ctype::Types;
use pa_num::Fault;
use pa_rexpr::Category;
use pa_scope::TypeRule;
use pa_typed::{ExprType, TExpr};

/// An expression with its type, by number.
#[derive(Drop)]
pub struct TypedForm {
    /// Of an lvalue or a temporary its place, of a function its pointer.
    pub tree: TExpr,
    /// The number of its type.
    pub of: u32,
    /// What it stands for.
    pub category: Category,
    /// It is the literal 0, or `NULL`, and converts to every pointer (C11 6.3.2.3p3).
    pub null: bool,
}

/// A type as trees hold it.
pub fn expr_type(types: &Types, number: u32) -> ExprType
    requires { number < length types.now.nodes }
    ensures { result.number ≡ number }
{
    ExprType {
        number,
        shape: types.shape(number),
    }
}

/// An expression of a category that is not null.
fn form(tree: TExpr, of: u32, category: Category) -> TypedForm
    ensures { result ≡ record { tree = tree; of = of; category = category; null = false } }
{
    TypedForm {
        tree,
        of,
        category,
        null: false,
    }
}

/// A value of a type.
pub fn value(tree: TExpr, of: u32) -> TypedForm
    ensures { result ≡ record { tree = tree; of = of; category = category.Value; null = false } }
{
    form(tree, of, Category::Value)
}

/// An lvalue of a type, by its place.
pub fn lvalue(tree: TExpr, of: u32) -> TypedForm
    ensures { result ≡ record { tree = tree; of = of; category = category.Lvalue; null = false } }
{
    form(tree, of, Category::Lvalue)
}

/// A function of a type, by its pointer.
pub fn designator(tree: TExpr, of: u32) -> TypedForm
    ensures { result ≡ record { tree = tree; of = of; category = category.Designator; null = false } }
{
    form(tree, of, Category::Designator)
}

/// A place of a type that is no lvalue.
pub fn temporary(tree: TExpr, of: u32) -> TypedForm
    ensures { result ≡ record { tree = tree; of = of; category = category.Temporary; null = false } }
{
    form(tree, of, Category::Temporary)
}

/// A rule that an expression breaks, at its place.
pub fn refused(rule: TypeRule, place: u64) -> Fault<TypeRule>
    ensures { result ≡ fault.Refused rule place }
{
    Fault::Refused { rule, place }
}
