//! Which programs are well formed.

ghost use Rattle.std.specs.Prelude.{◌↔◌, ℕ, IsTrue, IfOk};
ghost use Rattle.pa_lir.specs.Flow.{IsWrittenFirst};
ghost use Rattle.pa_lir.specs.WellFormed as spec;

use crate::code::{Code, is_width};
use crate::counts::above_all;
use crate::function::{Lir, LirFn, LirLocal};
use crate::walk::is_written_first;
use pa_num::Memory;
use std::alloc::{AllocError, Global};

/// The most parameters of a function, and the most bytes of one.
const MOST_PARAMETERS: usize = 8;

const MOST_PARAMETER_BYTES: u64 = 8;

/// Each temporary is written before it is read on every path.
fn are_written_first(alloc: Global, code: &Code) -> Result<bool, AllocError>
    ensures { IfOk result (λ answer. IsTrue answer ↔ ((t : ℕ) → IsWrittenFirst code.now.ops.now t)) }
{
    for temp in 0..above_all(code.ops) {
        if !is_written_first(alloc, code, temp as u32)? {
            return Ok(false);
        }
    }
    Ok(true)
}

/// The alignment of each local is 1, 2, 4 or 8.
fn are_aligned(locals: &[LirLocal]) -> bool
    ensures { IsTrue result ↔ spec.AreAligned locals.now }
{
    locals.iter().all(|local| is_width(local.align))
}

/// Each local has no more bytes than a parameter may have.
fn are_small(locals: &[LirLocal]) -> bool
    ensures { IsTrue result ↔ spec.AreSmall locals.now }
{
    locals
        .iter()
        .all(|local| local.size <= MOST_PARAMETER_BYTES)
}

/// The parameters are the first locals, at most eight of at most 8 bytes each.
fn has_parameters(function: &LirFn) -> bool
    ensures { IsTrue result ↔ spec.HasParameters function.now }
{
    let locals = function.locals.as_slice();
    let count = function.parameters as usize;
    count <= MOST_PARAMETERS && count <= locals.len() && are_small(&locals[..count])
}

fn is_well_formed(alloc: Global, function: &LirFn) -> Result<bool, Memory>
    ensures { IfOk result (λ answer. IsTrue answer ↔ spec.IsWellFormed function.now) }
{
    let code = Code::of(alloc, function.ops.as_slice())?;
    let locals = function.locals.as_slice();
    if code.is_sound(locals.len())
        && code.ends()
        && are_aligned(locals)
        && has_parameters(function)
    {
        return Ok(are_written_first(alloc, &code)?);
    }
    Ok(false)
}

/// Whether code can be made of the program. In each function every temporary is written before it is read on every path, every
/// label is there once and every label that is gone to is there, each local that is named is one of the function's, each local's
/// alignment is 1, 2, 4 or 8, the parameters are the first locals, at most eight of at most 8 bytes each, no call has more than
/// eight arguments, a load or store has 1, 2, 4 or 8 bytes, an extension 1 to 64 bits, and the last operation is a return or a
/// jump. For each temporary it takes time in proportion to the operations of its function.
pub fn well_formed(alloc: Global, lir: &Lir) -> Result<bool, Memory>
    ensures { IfOk result (λ answer. IsTrue answer ↔ spec.WellFormed lir.now) }
{
    for function in lir.functions.as_slice() {
        if !is_well_formed(alloc, function)? {
            return Ok(false);
        }
    }
    Ok(true)
}
