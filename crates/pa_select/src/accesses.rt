//! Reaching what lies in a stack frame, by its distance in bytes from the stack pointer.

ghost use Rattle.std.specs.Prelude.{◌≡◌, ◌<◌, ◌^◌, ◌++◌, OnOk};
ghost use Rattle.pa_select.specs.Accesses as spec;

use crate::registers::{SP, X12};
use pa_a64::{Instr, LoadStoreOp, SumImmediateOp};
use pa_num::Sequence;
use std::alloc::AllocError;

/// Instructions in order.
pub(crate) type Instrs = Sequence<Instr>;

/// How many bytes a shifted immediate counts each.
const PAGE: u32 = 4096;

/// An access of 8 bytes reaches a multiple of 8 below this place by itself.
const REACH: u32 = 32768;

/// Adds a load or store of a register at a place that is a multiple of 8.
pub(crate) fn push_access(
    code: &mut Instrs,
    op: LoadStoreOp,
    register: u8,
    place: u32,
) -> Result<(), AllocError>
    requires { place < 2 ^ 24 }
    ensures { OnOk result (code.new ≡ code.old ++ spec.access op register place) }
{
    if place < REACH {
        return code.push(Instr::LoadStore {
            op,
            rt: register,
            rn: SP,
            imm: (place / 8) as u16,
        });
    }
    code.push(Instr::SumImmediate {
        op: SumImmediateOp::Add,
        rd: X12,
        rn: SP,
        imm: (place / PAGE) as u16,
        shifted: true,
    })?;
    code.push(Instr::LoadStore {
        op,
        rt: register,
        rn: X12,
        imm: (place % PAGE / 8) as u16,
    })
}

/// Adds a load of a register at a place.
pub(crate) fn push_load(code: &mut Instrs, register: u8, place: u32) -> Result<(), AllocError>
    requires { place < 2 ^ 24 }
    ensures { OnOk result (code.new ≡ code.old ++ spec.load register place) }
{
    push_access(code, LoadStoreOp::Ldr, register, place)
}

/// Adds a store of a register at a place.
pub(crate) fn push_store(code: &mut Instrs, register: u8, place: u32) -> Result<(), AllocError>
    requires { place < 2 ^ 24 }
    ensures { OnOk result (code.new ≡ code.old ++ spec.store register place) }
{
    push_access(code, LoadStoreOp::Str, register, place)
}

/// Adds what makes a register another one with a number added or taken away.
pub(crate) fn push_moved_by(
    code: &mut Instrs,
    op: SumImmediateOp,
    to: u8,
    from: u8,
    amount: u32,
) -> Result<(), AllocError>
    requires { amount < 2 ^ 24 }
    ensures { OnOk result (code.new ≡ code.old ++ spec.moved_by op to from amount) }
{
    if amount < PAGE {
        return code.push(Instr::SumImmediate {
            op,
            rd: to,
            rn: from,
            imm: amount as u16,
            shifted: false,
        });
    }
    code.push(Instr::SumImmediate {
        op,
        rd: to,
        rn: from,
        imm: (amount / PAGE) as u16,
        shifted: true,
    })?;
    code.push(Instr::SumImmediate {
        op,
        rd: to,
        rn: to,
        imm: (amount % PAGE) as u16,
        shifted: false,
    })
}
