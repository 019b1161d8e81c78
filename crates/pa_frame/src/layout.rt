ghost use Rattle.std.specs.Prelude.{◌≡◌, ◌<◌, ◌+◌, ◌*◌, ◌^◌, ◌++◌, length, slice_index, OnOk, IfOk};
ghost use Rattle.std.specs.List.{sum_by};
ghost use Rattle.pa_lir.specs.Parts.{rounded};
ghost use Rattle.pa_lir.specs.Ready.{HasFrame};
ghost use Rattle.pa_frame.specs.Frames as spec;

use crate::slots::{Frame, Slots, TEMP};
use pa_lir::{LirFn, LirLocal, held};
use pa_num::{Memory, Words};
use std::alloc::{AllocError, Global};

/// The first bytes of a frame, which hold x29 and x30 and have room for x19 to x28, the registers that a called function
/// keeps (Procedure Call Standard for the Arm 64-bit Architecture, 6.1.1).
const SAVED: u32 = 96;

/// Of which number the size of a frame is a multiple (Procedure Call Standard for the Arm 64-bit Architecture, 6.4.5).
const FRAME_ALIGN: u32 = 16;

/// Adds the places of locals that lie one behind the other from a place on. It gives the place behind the last one. After want
/// of memory some are added.
#[tactic(auto, unfolding(crate::specs::Frames::places_from))]
fn push_places(places: &mut Words, from: u32, locals: &[LirLocal]) -> Result<u32, AllocError>
    requires { from + sum_by rounded locals.now < 2 ^ 32 }
    ensures places { OnOk result (places.new ≡ places.old ++ spec.places_from from locals.now) }
    ensures end { IfOk result (λ end. end ≡ from + sum_by rounded locals.now) }
{
    let mut at = from;
    let mut rest = locals;
    'locals: while let [local, tail @ ..] = rest {
        places.push(at)?;
        at += local.size.next_multiple_of(8) as u32;
        rest = tail;
    }
    Ok(at)
}

/// The frame of a function: behind the first 96 bytes its parameters, then its temporaries by their numbers, then its other
/// locals. It takes time in proportion to the function's locals and operations.
pub fn frame(alloc: Global, function: &LirFn) -> Result<Frame, Memory>
    requires { HasFrame function.now }
    ensures places { IfOk result (λ frame. spec.IsLaidOut function.now frame) }
    ensures apart { IfOk result (λ frame. spec.IsFrame function.now frame) }
{
    let all = function.locals.as_slice();
    let first = (function.parameters as usize).min(all.len());
    let mut locals = Words::new(alloc);
    let temps = push_places(&mut locals, SAVED, &all[..first])?;
    let others = temps + TEMP * held(function) as u32;
    let end = push_places(&mut locals, others, &all[first..])?;
    Ok(Frame {
        size: end.next_multiple_of(FRAME_ALIGN),
        slots: Slots { locals, temps },
    })
}
