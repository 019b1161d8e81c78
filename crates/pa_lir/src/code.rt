//! The operations of a function with the places of their labels.

ghost use Rattle.std.specs.Prelude.{◌≡◌, ◌↔◌, ℕ, IsTrue, OnOk, IfOk};
ghost use Rattle.pa_lir.specs.Flow.{place_of_label};
ghost use Rattle.pa_lir.specs.Placing as spec;
ghost use Rattle.pa_lir.specs.WellFormed as well;

use crate::op::{Label, Op};
use pa_num::Memory;
use std::alloc::Global;
use std::collections::BTreeMap;

/// The most arguments of a call.
const MOST_ARGUMENTS: usize = 8;

/// The operations of a function, with the places of their labels.
#[derive(Drop)]
pub(crate) struct Code<'a> {
    pub(crate) ops: &'a [Op],
    places: BTreeMap<Label, usize>,
    ghost placed: { (l : ℕ) → spec.kept places l ≡ place_of_label ops.now l },
}

/// Keeps the place of a label, unless it has one.
fn note(places: &mut BTreeMap<Label, usize>, label: Label, at: usize) -> Result<(), Memory>
    ensures { OnOk result ((l : ℕ) → spec.kept places.new l ≡ spec.or_else (spec.kept places.old l) (spec.noted_label label at l)) }
{
    if places.contains_key(&label) {
        return Ok(());
    }
    match places.insert(label, at) {
        Ok(_) => Ok(()),
        Err(_) => Err(Memory),
    }
}

/// Keeps the place of an operation that is a label.
fn note_op(places: &mut BTreeMap<Label, usize>, op: &Op, at: usize) -> Result<(), Memory>
    ensures { OnOk result ((l : ℕ) → spec.kept places.new l ≡ spec.or_else (spec.kept places.old l) (spec.noted op.now at l)) }
{
    match op {
        Op::Label { label } => note(places, *label, at),
        Op::Const { .. }
        | Op::Bin { .. }
        | Op::Un { .. }
        | Op::Extend { .. }
        | Op::Local { .. }
        | Op::Global { .. }
        | Op::Code { .. }
        | Op::Load { .. }
        | Op::Store { .. }
        | Op::LoadSigned { .. }
        | Op::StoreSigned { .. }
        | Op::Call { .. }
        | Op::CallPlain { .. }
        | Op::CallSigned { .. }
        | Op::Jump { .. }
        | Op::Branch { .. }
        | Op::Return { .. } => Ok(()),
    }
}

/// The place of each label: that of the first operation which is it.
fn places_of(alloc: Global, ops: &[Op]) -> Result<BTreeMap<Label, usize>, Memory>
    ensures { IfOk result (λ places. (l : ℕ) → spec.kept places l ≡ place_of_label ops.now l) }
{
    let mut places = BTreeMap::new(alloc);
    let mut at = 0;
    let mut rest = ops;
    'ops: while let [op, tail @ ..] = rest {
        note_op(&mut places, op, at)?;
        at += 1;
        rest = tail;
    }
    Ok(places)
}

/// 1, 2, 4 or 8.
pub(crate) fn is_width(bytes: u64) -> bool
    ensures { IsTrue result ↔ well.IsWidth bytes }
{
    matches!(bytes, 1 | 2 | 4 | 8)
}

/// The operation goes nowhere behind it.
fn is_last(op: &Op) -> bool
    ensures { IsTrue result ↔ well.IsLast op.now }
{
    matches!(op, Op::Jump { .. } | Op::Return { .. })
}

impl<'a> Code<'a> {
    /// The operations with the places of their labels. It takes time in proportion to n log n for n operations.
    pub(crate) fn of(alloc: Global, ops: &'a [Op]) -> Result<Code<'a>, Memory>
        ensures { IfOk result (λ code. code.ops.now ≡ ops.now) }
    {
        let places = places_of(alloc, ops)?;
        Ok(Code { ops, places })
    }

    /// The place of the first operation that is the label. None: there is none.
    pub(crate) fn place(&self, label: Label) -> Option<usize>
        ensures { result ≡ place_of_label self.now.ops.now label }
    {
        self.places.get(&label).copied()
    }

    /// What has to hold of an operation at its place, in a function of so many locals.
    fn is_sound_at(&self, locals: usize, at: usize, op: &Op) -> bool
        ensures { IsTrue result ↔ well.IsSoundAt self.now.ops.now locals at op.now }
    {
        match op {
            Op::Label { label } => self.place(*label) == Some(at),
            Op::Jump { label } | Op::Branch { label, .. } => self.place(*label).is_some(),
            Op::Extend { bits, .. } => 1 <= *bits && *bits <= 64,
            Op::Local { local, .. } => (*local as usize) < locals,
            Op::Load { bytes, .. } | Op::Store { bytes, .. } => is_width(u64::from(*bytes)),
            Op::Call { arguments, .. }
            | Op::CallPlain { arguments, .. }
            | Op::CallSigned { arguments, .. } => arguments.len() <= MOST_ARGUMENTS,
            Op::Const { .. }
            | Op::Bin { .. }
            | Op::Un { .. }
            | Op::Global { .. }
            | Op::Code { .. }
            | Op::LoadSigned { .. }
            | Op::StoreSigned { .. }
            | Op::Return { .. } => true,
        }
    }

    /// It holds of each operation.
    pub(crate) fn is_sound(&self, locals: usize) -> bool
        ensures { IsTrue result ↔ well.IsSound self.now.ops.now locals }
    {
        for at in 0..self.ops.len() {
            if !self.is_sound_at(locals, at, &self.ops[at]) {
                return false;
            }
        }
        true
    }

    /// The last operation goes nowhere behind it.
    pub(crate) fn ends(&self) -> bool
        ensures { IsTrue result ↔ well.Ends self.now.ops.now }
    {
        match self.ops.get(self.ops.len().saturating_sub(1)) {
            Some(op) => is_last(op),
            None => false,
        }
    }
}
