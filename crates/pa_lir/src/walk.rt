//! Which temporaries are written on every path before they are read.

ghost use Rattle.std.specs.Prelude.{◌≡◌, ◌<◌, ◌^◌, ◌↔◌, ◌∷◌, [], length, replicate, false, IsTrue, OnOk, IfOk};
ghost use Rattle.std.specs.Option.{option_to_list};
ghost use Rattle.pa_lir.specs.Flow.{place_of_label, next_places, IsWrittenFirst};
ghost use Rattle.pa_lir.specs.Walks as spec;

use crate::code::Code;
use crate::op::{Label, Op, Temp};
use std::alloc::{AllocError, Global};

/// Which places are reached from the entry without a write of one temporary, and which of these are still to be looked at.
#[derive(Drop)]
pub(crate) struct Walk {
    reached: Vec<bool>,
    waiting: Vec<usize>,
}

impl Walk {
    /// None of so many places is reached.
    fn new(alloc: Global, places: usize) -> Result<Walk, AllocError>
        ensures reached { IfOk result (λ walk. walk.reached.items ≡ replicate places false) }
        ensures waiting { IfOk result (λ walk. walk.waiting.items ≡ []) }
    {
        Ok(Walk {
            reached: vec![in alloc; false; places]?,
            waiting: Vec::new(alloc),
        })
    }

    /// Reaches a place.
    fn reach(&mut self, at: usize) -> Result<(), AllocError>
        ensures { OnOk result (spec.Reaches self.old self.new (at ∷ [])) }
    {
        if at < self.reached.len() && !self.reached[at] {
            self.waiting.push(at)?;
            self.reached[at] = true;
        }
        Ok(())
    }

    /// Reaches the place of a label, where it has one.
    fn reach_label(&mut self, code: &Code, label: Label) -> Result<(), AllocError>
        ensures { OnOk result (spec.Reaches self.old self.new (option_to_list (place_of_label code.now.ops.now label))) }
    {
        match code.place(label) {
            Some(at) => self.reach(at),
            None => Ok(()),
        }
    }

    /// Reaches the places that come next behind an operation.
    fn reach_next(&mut self, code: &Code, at: usize, op: &Op) -> Result<(), AllocError>
        requires within { at < length code.now.ops.now }
        requires short { length code.now.ops.now < 2 ^ 63 }
        ensures { OnOk result (spec.Reaches self.old self.new (next_places code.now.ops.now at op.now)) }
    {
        match op {
            Op::Return { .. } => Ok(()),
            Op::Jump { label } => self.reach_label(code, *label),
            Op::Branch { label, .. } => {
                self.reach(at + 1)?;
                self.reach_label(code, *label)
            }
            Op::Const { .. }
            | Op::Bin { .. }
            | Op::Un { .. }
            | Op::Extend { .. }
            | Op::Local { .. }
            | Op::Global { .. }
            | Op::Code { .. }
            | Op::Load { .. }
            | Op::Store { .. }
            | Op::LoadSigned { .. }
            | Op::StoreSigned { .. }
            | Op::Call { .. }
            | Op::CallPlain { .. }
            | Op::CallSigned { .. }
            | Op::Label { .. } => self.reach(at + 1),
        }
    }

    /// Goes on from a place that doesn't read the temporary, unless it writes it.
    fn pass(&mut self, code: &Code, at: usize, temp: Temp) -> Result<(), AllocError>
        requires within { at < length code.now.ops.now }
        requires short { length code.now.ops.now < 2 ^ 63 }
        ensures { OnOk result (spec.Passes code.now.ops.now temp at self.old self.new) }
    {
        let op = &code.ops[at];
        if op.written() == Some(temp) {
            return Ok(());
        }
        self.reach_next(code, at, op)
    }
}

/// On every path the temporary is written before it is read. It takes time in proportion to the operations that are reached
/// before a write.
pub(crate) fn is_written_first(alloc: Global, code: &Code, temp: Temp) -> Result<bool, AllocError>
    ensures { IfOk result (λ answer. IsTrue answer ↔ IsWrittenFirst code.now.ops.now temp) }
{
    let mut walk = Walk::new(alloc, code.ops.len())?;
    walk.reach(0)?;
    'places: while let Some(at) = walk.waiting.pop() {
        if code.ops[at].reads().has(temp) {
            return Ok(false);
        }
        walk.pass(code, at, temp)?;
    }
    Ok(true)
}
