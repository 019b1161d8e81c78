//! String literals (C11 6.4.5).

ghost use Rattle.std.specs.Prelude.{◌≡◌, ◌<◌, ◌^◌, List, ℕ, length, IfOk};
ghost use Rattle.pa_convert.specs.Grows.{Grows};
ghost use Rattle.pa_place.specs.Answers.{IsNumber};
ghost use Rattle.pa_rexpr.specs.Names as spec;
ghost use Rattle.pa_value.specs.Forms.{IsForm};

use pa_convert::integer;
use pa_ctype::{Node, Types};
use pa_num::Memory;
use pa_typed::TExpr;
use pa_value::{TypedForm, expr_type, lvalue};

/// The array type of so many `char`. Memory: no object has that many.
fn char_array(types: &mut Types, count: u64) -> Result<u32, Memory>
    ensures known { IfOk result (λ n. n < length types.new.nodes) }
    ensures is { IsNumber types.new result (λ m. spec.char_array count) }
    ensures grows { Grows types.old types.new }
{
    let of = integer(types, 8, true)?;
    if types.array_layout(of, count).is_none() {
        return Err(Memory);
    }
    types.put(Node::Array {
        of,
        count: Some(count),
    })
}

/// A string literal: an array of its bytes and a zero (C11 6.4.5p6). `number`: how many string literals that lie in
/// memory stand in front of it.
#[tactic(auto, unfolding(pa_typed::specs::Views::t_expr_tree))]
pub fn string(types: &mut Types, number: u32, bytes: &[u8]) -> Result<TypedForm, Memory>
    ensures known { IfOk result (λ t. t.of < length types.new.nodes) }
    ensures is { IsForm types.new result (λ names m. spec.string number bytes.now) }
    ensures grows { Grows types.old types.new }
{
    let Some(count) = (bytes.len() as u64).checked_add(1) else {
        return Err(Memory);
    };
    let of = char_array(types, count)?;
    let tree = TExpr::StringPlace {
        text: number,
        of: expr_type(types, of),
    };
    Ok(lvalue(tree, of))
}
