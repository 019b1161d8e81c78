ghost use Rattle.std.specs.Prelude.{◌≡◌, suc, ◌++◌, ◌∷◌, [], IfOk, OnOk};
ghost use Rattle.pa_lir.specs.declared.op.Op.TheVariants as op;

use pa_lir::{Label, Op, Ops, Temp};
use pa_num::Memory;
use std::alloc::{AllocError, Global};

/// The labels of a choice by a number: that of the code where it isn't 0, and that behind both.
#[derive(Clone, Copy)]
pub(crate) struct Arms {
    pub(crate) other: Label,
    pub(crate) end: Label,
}

/// The next label or temporary. Memory: the numbers have run out.
pub(crate) fn next(number: u32) -> Result<u32, Memory>
    ensures { IfOk result (λ next. next ≡ suc number) }
{
    match number.checked_add(1) {
        Some(next) => Ok(next),
        None => Err(Memory),
    }
}

/// The operations of a function so far, and how many labels it has: they are numbered from 0.
#[derive(Drop)]
pub(crate) struct Code {
    pub(crate) ops: Ops,
    pub(crate) labels: Label,
}

impl Code {
    pub(crate) fn new(alloc: Global) -> Code
        ensures ops { result.ops ≡ [] }
        ensures labels { result.labels ≡ 0 }
    {
        Code {
            ops: Ops::new(alloc),
            labels: 0,
        }
    }

    pub(crate) fn push(&mut self, op: Op) -> Result<(), AllocError>
        ensures ops { OnOk result (self.new.ops ≡ self.old.ops ++ op ∷ []) }
        ensures labels { self.new.labels ≡ self.old.labels }
    {
        self.ops.push(op)
    }

    pub(crate) fn push_label(&mut self, label: Label) -> Result<(), AllocError>
        ensures ops { OnOk result (self.new.ops ≡ self.old.ops ++ op.Label label ∷ []) }
        ensures labels { self.new.labels ≡ self.old.labels }
    {
        self.push(Op::Label { label })
    }

    pub(crate) fn push_jump(&mut self, label: Label) -> Result<(), AllocError>
        ensures ops { OnOk result (self.new.ops ≡ self.old.ops ++ op.Jump label ∷ []) }
        ensures labels { self.new.labels ≡ self.old.labels }
    {
        self.push(Op::Jump { label })
    }

    /// A label more.
    pub(crate) fn take_label(&mut self) -> Result<Label, Memory>
        ensures label { IfOk result (λ label. label ≡ self.old.labels) }
        ensures labels { OnOk result (self.new.labels ≡ suc self.old.labels) }
        ensures ops { self.new.ops ≡ self.old.ops }
    {
        let label = self.labels;
        self.labels = next(label)?;
        Ok(label)
    }

    /// Branches by the number in a temporary. On goes the code for 0.
    pub(crate) fn push_branch(&mut self, on: Temp) -> Result<Arms, Memory>
        ensures ops { OnOk result (self.new.ops ≡ self.old.ops ++ op.Branch on self.old.labels ∷ []) }
        ensures other { IfOk result (λ arms. arms.other ≡ self.old.labels) }
        ensures end { IfOk result (λ arms. arms.end ≡ suc self.old.labels) }
        ensures labels { OnOk result (self.new.labels ≡ suc (suc self.old.labels)) }
    {
        let other = self.take_label()?;
        let end = self.take_label()?;
        self.push(Op::Branch { on, label: other })?;
        Ok(Arms { other, end })
    }

    /// Ends the code for 0. On goes the other.
    pub(crate) fn push_other(&mut self, arms: Arms) -> Result<(), AllocError>
        ensures ops { OnOk result (self.new.ops ≡ self.old.ops ++ op.Jump arms.end ∷ op.Label arms.other ∷ []) }
        ensures labels { self.new.labels ≡ self.old.labels }
    {
        self.push_jump(arms.end)?;
        self.push_label(arms.other)
    }
}
