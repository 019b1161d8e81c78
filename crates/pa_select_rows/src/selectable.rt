//! Which programs have machine code yet, by a test at run time.

ghost use Rattle.std.specs.Prelude.{◌↔◌, IsTrue, IfOk, All};
ghost use Rattle.pa_lir.specs.Ready.{HasFrame};
ghost use Rattle.pa_select.specs.Selectable as spec;

use pa_lir::{Lir, LirFn, Op, has_frame, well_formed};
use pa_num::Memory;
use std::alloc::Global;

/// The operation is on numbers and places in locals, on labels, or a direct call.
fn is_direct(op: &Op) -> bool
    ensures { IsTrue result ↔ spec.IsDirect op.now }
{
    !matches!(
        op,
        Op::Global { .. }
            | Op::Code { .. }
            | Op::LoadSigned { .. }
            | Op::StoreSigned { .. }
            | Op::CallPlain { .. }
            | Op::CallSigned { .. }
    )
}

fn are_direct(ops: &[Op]) -> bool
    ensures { IsTrue result ↔ All spec.IsDirect ops.now }
{
    ops.iter().all(is_direct)
}

fn have_frames(functions: &[LirFn]) -> bool
    ensures { IsTrue result ↔ All HasFrame functions.now }
{
    functions.iter().all(|function| has_frame(function))
}

fn all_direct(functions: &[LirFn]) -> bool
    ensures { IsTrue result ↔ All (λ f. All spec.IsDirect f.ops) functions.now }
{
    functions
        .iter()
        .all(|function| are_direct(function.ops.as_slice()))
}

/// Whether `select` makes objects of the program.
pub fn is_selectable(alloc: Global, lir: &Lir) -> Result<bool, Memory>
    ensures { IfOk result (λ answer. IsTrue answer → spec.Selectable lir.now) }
{
    let functions = lir.functions.as_slice();
    if have_frames(functions) && all_direct(functions) {
        return Ok(well_formed(alloc, lir)?);
    }
    Ok(false)
}
