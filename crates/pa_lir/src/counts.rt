//! What operations read, write and cost, and what is counted on functions.

ghost use Rattle.std.specs.Prelude.{◌≡◌, ◌≤◌, ◌<◌, ◌^◌, ◌↔◌, sum_by, IsTrue};
ghost use Rattle.std.specs.Option.{option_to_list};
ghost use Rattle.pa_lir.specs.Flow.{is_among};
ghost use Rattle.pa_lir.specs.Parts as spec;
ghost use Rattle.pa_lir.specs.Reads as spec_reads;
ghost use Rattle.pa_lir.specs.Ready.{HasFrame, most_bytes};

use crate::function::{LirFn, LirLocal};
use crate::op::{Op, Temp};

/// The temporaries that an operation reads: at most two by themselves, and those of a list.
#[derive(Clone, Copy)]
pub(crate) struct Reads<'a> {
    first: Option<Temp>,
    second: Option<Temp>,
    others: &'a [Temp],
}

impl<'a> Reads<'a> {
    fn of(first: Option<Temp>, second: Option<Temp>) -> Reads<'a>
        ensures { spec_reads.all result ≡ spec_reads.both first second }
    {
        Reads {
            first,
            second,
            others: &[],
        }
    }
}

impl Reads<'_> {
    /// One of them is this one.
    pub(crate) fn has(&self, temp: Temp) -> bool
        ensures { result ≡ is_among (spec_reads.all self.now) temp }
    {
        self.first == Some(temp) || self.second == Some(temp) || self.others.contains(&temp)
    }
}

impl Op {
    /// The most instructions that run for the operation. Those of a call have the beginning of the called function among them,
    /// or its stub and the runtime's function. At most 64.
    pub fn cost(&self) -> u64
        ensures value { result ≡ spec.cost self.now }
        ensures most { result ≤ 64 }
    {
        match self {
            Op::Label { .. } => 0,
            Op::Jump { .. } => 1,
            Op::Local { .. } | Op::Global { .. } | Op::Branch { .. } => 4,
            Op::Un { .. } | Op::Extend { .. } | Op::Load { .. } | Op::Store { .. } => 5,
            Op::Const { .. } | Op::Return { .. } => 6,
            Op::Bin { .. } => 8,
            Op::Code { .. } | Op::LoadSigned { .. } | Op::StoreSigned { .. } => 10,
            Op::Call { .. } => 31,
            Op::CallPlain { .. } => 34,
            Op::CallSigned { .. } => 37,
        }
    }

    /// The temporary that the operation writes. None: it writes none.
    pub fn written(&self) -> Option<Temp>
        ensures { result ≡ spec.written_by self.now }
    {
        match self {
            Op::Const { to, .. }
            | Op::Bin { to, .. }
            | Op::Un { to, .. }
            | Op::Extend { to, .. }
            | Op::Local { to, .. }
            | Op::Global { to, .. }
            | Op::Code { to, .. }
            | Op::Load { to, .. }
            | Op::LoadSigned { to, .. } => Some(*to),
            Op::Call { to, .. } | Op::CallPlain { to, .. } | Op::CallSigned { to, .. } => *to,
            Op::Store { .. }
            | Op::StoreSigned { .. }
            | Op::Label { .. }
            | Op::Jump { .. }
            | Op::Branch { .. }
            | Op::Return { .. } => None,
        }
    }

    /// The temporaries that the operation reads.
    pub(crate) fn reads(&self) -> Reads<'_>
        ensures { spec_reads.all result ≡ spec.read_by self.now }
    {
        match self {
            Op::Const { .. }
            | Op::Local { .. }
            | Op::Global { .. }
            | Op::Code { .. }
            | Op::Label { .. }
            | Op::Jump { .. } => Reads::of(None, None),
            Op::Bin { left, right, .. } => Reads::of(Some(*left), Some(*right)),
            Op::Un { from, .. } | Op::Extend { from, .. } => Reads::of(Some(*from), None),
            Op::Load { at, .. } | Op::LoadSigned { at, .. } => Reads::of(Some(*at), None),
            Op::Store { at, from, .. } | Op::StoreSigned { at, from, .. } => {
                Reads::of(Some(*at), Some(*from))
            }
            Op::Branch { on, .. } => Reads::of(Some(*on), None),
            Op::Return { from } => Reads::of(*from, None),
            Op::Call { arguments, .. } => Reads {
                first: None,
                second: None,
                others: arguments.as_slice(),
            },
            Op::CallPlain {
                called,
                arguments,
                ..
            } => Reads {
                first: Some(*called),
                second: None,
                others: arguments.as_slice(),
            },
            Op::CallSigned { at, arguments, .. } => Reads {
                first: Some(*at),
                second: None,
                others: arguments.as_slice(),
            },
        }
    }
}

/// One more than the number, or 0 where there is none.
#[tactic(auto, unfolding(crate::specs::Parts::above))]
fn above_one(temp: Option<Temp>) -> u64
    ensures value { result ≡ spec.above (option_to_list temp) }
    ensures bound { result ≤ 2 ^ 32 }
{
    match temp {
        Some(temp) => u64::from(temp) + 1,
        None => 0,
    }
}

/// One more than the largest number, or 0 where there is none.
#[tactic(auto, unfolding(crate::specs::Parts::above))]
fn above(temps: &[Temp]) -> u64
    ensures value { result ≡ spec.above temps.now }
    ensures bound { result ≤ 2 ^ 32 }
{
    let mut largest = 0;
    let mut rest = temps;
    'temps: while let [temp, tail @ ..] = rest {
        largest = (u64::from(*temp) + 1).max(largest);
        rest = tail;
    }
    largest
}

/// One more than the largest number of a temporary that the operation reads or writes, or 0 where there is none.
#[tactic(auto, using(crate::proofs::Above::above_reads))]
fn above_op(op: &Op) -> u64
    ensures value { result ≡ spec.above_op op.now }
    ensures bound { result ≤ 2 ^ 32 }
{
    let reads = op.reads();
    above_one(op.written())
        .max(above_one(reads.first))
        .max(above_one(reads.second))
        .max(above(reads.others))
}

/// One more than the largest number of a temporary of the operations, or 0 where there is none.
#[tactic(auto, unfolding(crate::specs::Parts::above_all))]
pub(crate) fn above_all(ops: &[Op]) -> u64
    ensures value { result ≡ spec.above_all ops.now }
    ensures bound { result ≤ 2 ^ 32 }
{
    let mut largest = 0;
    let mut rest = ops;
    'ops: while let [op, tail @ ..] = rest {
        largest = above_op(op).max(largest);
        rest = tail;
    }
    largest
}

/// How many temporaries the function holds: one more than the largest number.
pub fn held(function: &LirFn) -> u64
    ensures { result ≡ spec.held function.now }
{
    above_all(function.ops.as_slice())
}

/// The sizes of the function's locals in bytes, each rounded up to 8.
pub fn bytes(function: &LirFn) -> u64
    requires { spec.bytes function.now < 2 ^ 64 }
    ensures { result ≡ spec.bytes function.now }
{
    let mut total = 0;
    let mut rest = function.locals.as_slice();
    'locals: while let [local, tail @ ..] = rest {
        total += local.size.next_multiple_of(8);
        rest = tail;
    }
    total
}

/// The most bytes of locals, and the most temporaries, of a function that has a stack frame.
const MOST_BYTES: u64 = 1_048_576;

const MOST_HELD: u64 = 1_048_576;

/// The sizes of locals, each rounded up to 8, are together at most what a stack frame may have.
fn are_few_bytes(locals: &[LirLocal]) -> bool
    ensures { IsTrue result ↔ (sum_by spec.rounded locals.now ≤ most_bytes) }
{
    let mut left = MOST_BYTES;
    let mut rest = locals;
    'locals: while let [local, tail @ ..] = rest {
        if local.size > left {
            return false;
        }
        left -= local.size.next_multiple_of(8);
        rest = tail;
    }
    true
}

/// Whether the function has a stack frame: its locals have at most 1,048,576 bytes, each rounded up to 8, and it holds at most
/// 1,048,576 temporaries. It takes time in proportion to its locals and operations.
pub fn has_frame(function: &LirFn) -> bool
    ensures { IsTrue result ↔ HasFrame function.now }
{
    are_few_bytes(function.locals.as_slice()) && held(function) <= MOST_HELD
}

/// The costs of all operations of the function, as they are written.
pub fn costs(function: &LirFn) -> u64
    requires { spec.costs function.now < 2 ^ 64 }
    ensures { result ≡ spec.costs function.now }
{
    let mut total = 0;
    let mut rest = function.ops.as_slice();
    'ops: while let [op, tail @ ..] = rest {
        total += op.cost();
        rest = tail;
    }
    total
}
