//! Programs in flat code.

use pa_lir::{BinOp, Lir, LirFn, LirFns, LirLocal, Locals, Op, Ops, Temps, UnOp};
use pa_num::{Memory, Name};
use pa_object::Globals;
use std::alloc::Global;

/// An operation of the tables: targets first.
#[derive(Clone, Copy, Debug)]
pub enum Step {
    Const(u32, u64),
    Bin(u32, BinOp, u32, u32),
    Un(u32, UnOp, u32),
    Extend(u32, u32, u8, bool),
    Local(u32, u32),
    Load(u32, u32, u8, bool),
    Store(u32, u32, u8),
    Call(u32, &'static [u8], &'static [u32]),
    Label(u32),
    Jump(u32),
    Branch(u32, u32),
    Return(u32),
}

fn op(alloc: Global, step: Step) -> Result<Op, Memory> {
    let op = match step {
        Step::Const(to, value) => Op::Const { to, value },
        Step::Bin(to, op, left, right) => Op::Bin {
            to,
            op,
            left,
            right,
        },
        Step::Un(to, op, from) => Op::Un { to, op, from },
        Step::Extend(to, from, bits, signed) => Op::Extend {
            to,
            from,
            bits,
            signed,
        },
        Step::Local(to, local) => Op::Local { to, local },
        Step::Load(to, at, bytes, signed) => Op::Load {
            to,
            at,
            bytes,
            signed,
        },
        Step::Store(at, from, bytes) => Op::Store { at, from, bytes },
        Step::Call(to, name, arguments) => Op::Call {
            to: Some(to),
            name: Name::from_slice(alloc, name)?,
            arguments: Temps::from_slice(alloc, arguments)?,
        },
        Step::Label(label) => Op::Label { label },
        Step::Jump(label) => Op::Jump { label },
        Step::Branch(on, label) => Op::Branch { on, label },
        Step::Return(from) => Op::Return { from: Some(from) },
    };
    Ok(op)
}

/// A function of the tables. Each local has its size as its alignment, or 8 where it is larger.
#[derive(Clone, Copy, Debug)]
pub struct Function {
    pub name: &'static [u8],
    pub parameters: u32,
    pub locals: &'static [u64],
    pub steps: &'static [Step],
}

fn lir_function(alloc: Global, function: &Function) -> Result<LirFn, Memory> {
    let mut locals = Locals::new(alloc);
    for size in function.locals {
        locals.push(LirLocal {
            size: *size,
            align: 8,
        })?;
    }
    let mut ops = Ops::new(alloc);
    for step in function.steps {
        ops.push(op(alloc, *step)?)?;
    }
    Ok(LirFn {
        name: Name::from_slice(alloc, function.name)?,
        public: true,
        parameters: function.parameters,
        locals,
        ops,
    })
}

pub fn program(alloc: Global, functions: &[Function]) -> Result<Lir, Memory> {
    let mut made = LirFns::new(alloc);
    for one in functions {
        made.push(lir_function(alloc, one)?)?;
    }
    Ok(Lir {
        functions: made,
        globals: Globals::new(alloc),
    })
}

/// `main`, which computes of two numbers.
pub fn of_two(alloc: Global, op: BinOp, left: u64, right: u64) -> Result<Lir, Memory> {
    let mut ops = Ops::new(alloc);
    ops.push(Op::Const { to: 0, value: left })?;
    ops.push(Op::Const {
        to: 1,
        value: right,
    })?;
    ops.push(Op::Bin {
        to: 2,
        op,
        left: 0,
        right: 1,
    })?;
    ops.push(Op::Return { from: Some(2) })?;
    main_of(alloc, ops)
}

/// `main`, which computes of one number.
pub fn of_one(alloc: Global, op: UnOp, from: u64) -> Result<Lir, Memory> {
    let mut ops = Ops::new(alloc);
    ops.push(Op::Const { to: 0, value: from })?;
    ops.push(Op::Un { to: 0, op, from: 0 })?;
    ops.push(Op::Return { from: Some(0) })?;
    main_of(alloc, ops)
}

/// `main`, which extends the low bits of a number.
pub fn extending(alloc: Global, bits: u8, signed: bool, from: u64) -> Result<Lir, Memory> {
    let mut ops = Ops::new(alloc);
    ops.push(Op::Const { to: 0, value: from })?;
    ops.push(Op::Extend {
        to: 0,
        from: 0,
        bits,
        signed,
    })?;
    ops.push(Op::Return { from: Some(0) })?;
    main_of(alloc, ops)
}

fn main_of(alloc: Global, ops: Ops) -> Result<Lir, Memory> {
    let mut functions = LirFns::new(alloc);
    functions.push(LirFn {
        name: Name::from_slice(alloc, b"main")?,
        public: true,
        parameters: 0,
        locals: Locals::new(alloc),
        ops,
    })?;
    Ok(Lir {
        functions,
        globals: Globals::new(alloc),
    })
}
