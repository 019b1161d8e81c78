//! Functions that are well formed and that aren't.

use crate::{Lir, LirFn, LirFns, LirLocal, Locals, Op, Ops, well_formed};
use pa_num::{Memory, Name};
use pa_object::Globals;
use std::alloc::Global;
use std::test::Fail;

/// An operation of the tables.
#[derive(Clone, Copy, Debug)]
enum Step {
    Const(u32),
    Extend(u32, u32, u8),
    Local(u32),
    Load(u32, u32, u8),
    Label(u32),
    Jump(u32),
    Branch(u32, u32),
    Return(u32),
}

fn op(step: Step) -> Op {
    match step {
        Step::Const(to) => Op::Const { to, value: 0 },
        Step::Extend(to, from, bits) => Op::Extend {
            to,
            from,
            bits,
            signed: false,
        },
        Step::Local(local) => Op::Local { to: 0, local },
        Step::Load(to, at, bytes) => Op::Load {
            to,
            at,
            bytes,
            signed: false,
        },
        Step::Label(label) => Op::Label { label },
        Step::Jump(label) => Op::Jump { label },
        Step::Branch(on, label) => Op::Branch { on, label },
        Step::Return(from) => Op::Return { from: Some(from) },
    }
}

/// A program of one function with one local of 4 bytes, which is its parameter.
fn program(alloc: Global, steps: &[Step]) -> Result<Lir, Memory> {
    let mut ops = Ops::new(alloc);
    for step in steps {
        ops.push(op(*step))?;
    }
    let mut locals = Locals::new(alloc);
    locals.push(LirLocal { size: 4, align: 4 })?;
    let mut functions = LirFns::new(alloc);
    functions.push(LirFn {
        name: Name::new(alloc),
        public: true,
        parameters: 1,
        locals,
        ops,
    })?;
    Ok(Lir {
        functions,
        globals: Globals::new(alloc),
    })
}

const CASES: [(&[Step], bool); 14] = [
    (&[Step::Const(0), Step::Return(0)], true),
    (&[], false),
    // nothing behind the end
    (&[Step::Const(0)], false),
    // read on the way that doesn't write
    (
        &[
            Step::Const(0),
            Step::Branch(0, 7),
            Step::Const(1),
            Step::Label(7),
            Step::Return(1),
        ],
        false,
    ),
    // written on both ways
    (
        &[
            Step::Const(0),
            Step::Branch(0, 7),
            Step::Const(1),
            Step::Jump(8),
            Step::Label(7),
            Step::Const(1),
            Step::Label(8),
            Step::Return(1),
        ],
        true,
    ),
    // read behind a loop that writes at its end
    (
        &[
            Step::Label(7),
            Step::Const(0),
            Step::Branch(0, 8),
            Step::Const(1),
            Step::Jump(7),
            Step::Label(8),
            Step::Return(1),
        ],
        false,
    ),
    // what no path reaches may read anything
    (&[Step::Const(0), Step::Return(0), Step::Return(9)], true),
    // an operation reads before it writes
    (&[Step::Extend(0, 0, 8), Step::Return(0)], false),
    // a label twice, and one that isn't there
    (&[Step::Label(7), Step::Label(7), Step::Jump(7)], false),
    (&[Step::Jump(7)], false),
    // a number out of its range
    (
        &[Step::Const(0), Step::Extend(0, 0, 0), Step::Return(0)],
        false,
    ),
    (
        &[Step::Local(0), Step::Load(0, 0, 3), Step::Return(0)],
        false,
    ),
    (&[Step::Local(1), Step::Return(0)], false),
    (
        &[Step::Local(0), Step::Load(0, 0, 4), Step::Return(0)],
        true,
    ),
];

#[test]
fn tells_well_formed_functions_apart(rt: HostRuntime) -> Result<(), Fail> {
    for (steps, formed) in &CASES {
        let lir = program(rt.alloc(), *steps)?;
        assert_eq!(rt; well_formed(rt.alloc(), &lir)?, *formed);
    }
    Ok(())
}
