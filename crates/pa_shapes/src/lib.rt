//! What stands in typed trees is what the table of types says.
#![tactic(auto)]

ghost use Rattle.std.specs.Prelude.{◌≡◌, ◌<◌, ◌^◌, ℕ, List, length};
ghost use Rattle.pa_ctype.specs.Types.{TypeTree};
ghost use Rattle.pa_typed.specs.Counts as counts;
ghost use Rattle.pa_typed.specs.Units.{weight_of, function_tree};
ghost use Rattle.pa_shapes.specs.TypesIn.{IsTypeOf};

use pa_ctype::Types;
use pa_typed::{ExprType, Function, weight};

/// The type of a number of the table, with its shape.
pub fn expr_type(types: &Types, number: u32) -> ExprType
    requires { number < length types.now.nodes }
    ensures number { result.number ≡ number }
    ensures is { IsTypeOf types.now result }
{
    ExprType {
        number,
        shape: types.shape(number),
    }
}

/// What an open call of the function weighs on the stack, in bytes, whatever its names and types stand for.
pub fn call_weight(function: &Function) -> u64
    requires { counts.weight function.now < 2 ^ 64 }
    ensures { (names : ℕ → List ℕ) (m : ℕ → TypeTree) → result ≡ weight_of (function_tree names m function.now) }
{
    weight(function)
}
