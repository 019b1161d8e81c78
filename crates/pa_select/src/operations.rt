//! The instructions of each operation of a function.

ghost use Rattle.std.specs.Prelude.{◌≡◌, ◌≤◌, ◌<◌, ◌^◌, ◌+◌, ◌-◌, ◌++◌, ◌∷◌, [], suc, take, length, pos, OnOk, IfOk, IfSome};
ghost use Rattle.pa_a64.specs.declared.instr.Instr.TheVariants.{Branch};
ghost use Rattle.pa_a64.specs.declared.instr.BranchOp.TheVariants as branch;
ghost use Rattle.pa_object.specs.Filled.{distance};
ghost use Rattle.pa_lir.specs.declared.op.Op.TheVariants as op;
ghost use Rattle.pa_lir.specs.Parts.{above, held};
ghost use Rattle.pa_select.specs.Selected as spec;
ghost use Rattle.pa_select.specs.Accesses.{address};
ghost use Rattle.pa_select.specs.Computing as computing;
ghost use Rattle.pa_select.specs.Constants.{constant};
ghost use Rattle.pa_select.specs.Objects.{refs_of, refs_of_call};
ghost use Rattle.pa_select.specs.Selectable as selectable;
ghost use Rattle.pa_lir.specs.Ready.{symbol};

use crate::accesses::{Instrs, push_load, push_moved_by, push_store};
use crate::computing::{extended, load_sized, push_binary, store_sized, unary};
use crate::constants::push_constant;
use crate::framed::Framed;
use crate::registers::{SP, X0, X9, X10, X29, X30};
use pa_a64::{BranchOp, CompareBranchOp, Instr, LoadStorePairOp, StackOp, SumImmediateOp};
use pa_lir::{BinOp, Op, Temp};
use pa_num::Name;
use pa_object::{Ref, RefKind, Refs};
use std::alloc::{AllocError, Global};

/// Instructions of a function, with what they refer to.
#[derive(Drop)]
pub(crate) struct Code {
    pub(crate) instrs: Instrs,
    pub(crate) refs: Refs,
}

impl Code {
    pub(crate) fn new(alloc: Global) -> Code
        ensures instrs { result.instrs ≡ [] }
        ensures refs { result.refs ≡ [] }
    {
        Code {
            instrs: Instrs::new(alloc),
            refs: Refs::new(alloc),
        }
    }
}

/// A B at a place that goes to another one, both counted in words. Without one it goes nowhere yet.
fn jump(at: usize, target: Option<usize>) -> Instr
    requires { IfSome target (λ to. (at < 2 ^ 24) × (to < 2 ^ 24)) }
    ensures { result ≡ Branch branch.B (spec.words_to at target) }
{
    let words = match target {
        Some(to) => to as i32 - at as i32,
        None => 0,
    };
    Instr::Branch {
        op: BranchOp::B,
        words,
    }
}

/// The symbol of a name of C.
pub(crate) fn symbol_of(alloc: Global, name: &[u8]) -> Result<Name, AllocError>
    ensures { IfOk result (λ made. made ≡ symbol name.now) }
{
    let mut symbol = Name::new(alloc);
    symbol.push(b'_')?;
    symbol.extend_from_slice(name)?;
    Ok(symbol)
}

impl Framed<'_> {
    fn push_load_temp(
        &self,
        instrs: &mut Instrs,
        register: u8,
        temp: Temp,
    ) -> Result<(), AllocError>
        requires { temp < held self.now.function.now }
        ensures { OnOk result (instrs.new ≡ instrs.old ++ spec.load_temp self.now.function.now register temp) }
    {
        push_load(instrs, register, self.temp(temp))
    }

    fn push_store_temp(
        &self,
        instrs: &mut Instrs,
        register: u8,
        temp: Temp,
    ) -> Result<(), AllocError>
        requires { temp < held self.now.function.now }
        ensures { OnOk result (instrs.new ≡ instrs.old ++ spec.store_temp self.now.function.now register temp) }
    {
        push_store(instrs, register, self.temp(temp))
    }

    /// Stores the parameters, each from the register of its number. One without bytes has no place of its own.
    #[tactic(auto, unfolding(crate::specs::Selected::store_parameters))]
    fn push_parameters(&self, instrs: &mut Instrs) -> Result<(), AllocError>
        requires few { self.now.function.now.parameters ≤ 8 }
        requires first { self.now.function.now.parameters ≤ length self.now.function.now.locals }
        ensures { OnOk result (instrs.new ≡ instrs.old ++ spec.store_parameters self.now.function.now 0 (take self.now.function.now.parameters self.now.function.now.locals)) }
    {
        let mut number = 0;
        let mut rest = &self.function.locals.as_slice()[..self.function.parameters as usize];
        'parameters: while let [local, tail @ ..] = rest {
            if local.size != 0 {
                push_store(instrs, number, self.local(u32::from(number)))?;
            }
            number += 1;
            rest = tail;
        }
        Ok(())
    }

    /// Signs the return address, makes the frame, and saves in it what the caller wants back, and the parameters.
    pub(crate) fn push_prologue(&self, instrs: &mut Instrs) -> Result<(), AllocError>
        requires few { self.now.function.now.parameters ≤ 8 }
        requires first { self.now.function.now.parameters ≤ length self.now.function.now.locals }
        ensures { OnOk result (instrs.new ≡ instrs.old ++ spec.prologue self.now.function.now) }
    {
        instrs.push(Instr::Stack {
            op: StackOp::Pacibsp,
        })?;
        push_moved_by(instrs, SumImmediateOp::Sub, SP, SP, self.size())?;
        instrs.push(Instr::LoadStorePair {
            op: LoadStorePairOp::Stp,
            rt: X29,
            rt2: X30,
            rn: SP,
            imm: 0,
        })?;
        self.push_parameters(instrs)
    }

    /// Takes back what the prologue saved, authenticates the return address, and returns.
    fn push_epilogue(&self, instrs: &mut Instrs) -> Result<(), AllocError>
        ensures { OnOk result (instrs.new ≡ instrs.old ++ spec.epilogue self.now.function.now) }
    {
        instrs.push(Instr::LoadStorePair {
            op: LoadStorePairOp::Ldp,
            rt: X29,
            rt2: X30,
            rn: SP,
            imm: 0,
        })?;
        push_moved_by(instrs, SumImmediateOp::Add, SP, SP, self.size())?;
        instrs.push(Instr::Stack { op: StackOp::Retab })
    }

    fn push_const(&self, instrs: &mut Instrs, to: Temp, value: u64) -> Result<(), AllocError>
        requires { to < held self.now.function.now }
        ensures { OnOk result (instrs.new ≡ instrs.old ++ spec.code_of self.now.function.now (pos 0) (op.Const to value)) }
    {
        push_constant(instrs, X9, value)?;
        self.push_store_temp(instrs, X9, to)
    }

    /// Loads the left operand into x9 and the right one into x10.
    fn push_operands(&self, instrs: &mut Instrs, left: Temp, right: Temp) -> Result<(), AllocError>
        requires left { left < held self.now.function.now }
        requires right { right < held self.now.function.now }
        ensures { OnOk result (instrs.new ≡ instrs.old ++ (spec.load_temp self.now.function.now X9 left ++ spec.load_temp self.now.function.now X10 right)) }
    {
        self.push_load_temp(instrs, X9, left)?;
        self.push_load_temp(instrs, X10, right)
    }

    fn push_bin(
        &self,
        instrs: &mut Instrs,
        to: Temp,
        op: BinOp,
        left: Temp,
        right: Temp,
    ) -> Result<(), AllocError>
        requires to { to < held self.now.function.now }
        requires left { left < held self.now.function.now }
        requires right { right < held self.now.function.now }
        ensures { OnOk result (instrs.new ≡ instrs.old ++ spec.bin self.now.function.now to op left right) }
    {
        self.push_operands(instrs, left, right)?;
        push_binary(instrs, op)?;
        self.push_store_temp(instrs, X9, to)
    }

    /// Computes of x9 in it, and stores it.
    fn push_computed(
        &self,
        instrs: &mut Instrs,
        instr: Instr,
        from: Temp,
        to: Temp,
    ) -> Result<(), AllocError>
        requires from { from < held self.now.function.now }
        requires to { to < held self.now.function.now }
        ensures { OnOk result (instrs.new ≡ instrs.old ++ spec.computed self.now.function.now instr from to) }
    {
        self.push_load_temp(instrs, X9, from)?;
        instrs.push(instr)?;
        self.push_store_temp(instrs, X9, to)
    }

    fn push_local(&self, instrs: &mut Instrs, to: Temp, local: u32) -> Result<(), AllocError>
        requires to { to < held self.now.function.now }
        requires local { local < length self.now.function.now.locals }
        ensures { OnOk result (instrs.new ≡ instrs.old ++ spec.code_of self.now.function.now (pos 0) (op.Local to local)) }
    {
        push_moved_by(instrs, SumImmediateOp::Add, X9, SP, self.local(local))?;
        self.push_store_temp(instrs, X9, to)
    }

    /// Loads temporaries into the argument registers from the first on.
    #[tactic(auto, unfolding(crate::specs::Selected::load_arguments, pa_lir::specs::Parts::above))]
    fn push_arguments(&self, instrs: &mut Instrs, arguments: &[Temp]) -> Result<(), AllocError>
        requires few { length arguments.now ≤ 8 }
        requires temps { above arguments.now ≤ held self.now.function.now }
        ensures { OnOk result (instrs.new ≡ instrs.old ++ spec.load_arguments self.now.function.now X0 arguments.now) }
    {
        let mut register = X0;
        let mut rest = arguments;
        'arguments: while let [temp, tail @ ..] = rest {
            self.push_load_temp(instrs, register, *temp)?;
            register += 1;
            rest = tail;
        }
        Ok(())
    }

    /// A call, whose BL is filled by a reference.
    fn push_call(
        &self,
        alloc: Global,
        code: &mut Code,
        to: Option<Temp>,
        name: &[u8],
        arguments: &[Temp],
    ) -> Result<(), AllocError>
        requires few { length arguments.now ≤ 8 }
        requires arguments { above arguments.now ≤ held self.now.function.now }
        requires to { IfSome to (λ to. to < held self.now.function.now) }
        requires short { length code.old.instrs < 2 ^ 24 }
        ensures instrs { OnOk result (code.new.instrs ≡ code.old.instrs ++ spec.called self.now.function.now to arguments.now) }
        ensures refs { OnOk result (code.new.refs ≡ code.old.refs ++ refs_of_call self.now.function.now (length code.old.instrs) name.now arguments.now) }
    {
        self.push_arguments(&mut code.instrs, arguments)?;
        code.refs.push(Ref {
            at: code.instrs.len() as u32,
            kind: RefKind::Call,
            name: symbol_of(alloc, name)?,
        })?;
        code.instrs.push(Instr::Branch {
            op: BranchOp::Bl,
            words: 0,
        })?;
        match to {
            Some(to) => self.push_store_temp(&mut code.instrs, X0, to),
            None => Ok(()),
        }
    }

    /// Goes to a place where a temporary isn't 0. A CBZ over the B comes first, which goes farther.
    fn push_branch(
        &self,
        instrs: &mut Instrs,
        on: Temp,
        target: Option<usize>,
    ) -> Result<(), AllocError>
        requires on { on < held self.now.function.now }
        requires target { IfSome target (λ to. (length instrs.old + 3 < 2 ^ 24) × (to < 2 ^ 24)) }
        ensures { OnOk result (instrs.new ≡ instrs.old ++ spec.branch self.now.function.now on (spec.words_to (length instrs.old + length (spec.load_temp self.now.function.now X9 on) + 1) target)) }
    {
        self.push_load_temp(instrs, X9, on)?;
        instrs.push(Instr::CompareBranch {
            op: CompareBranchOp::Cbz,
            rt: X9,
            words: 2,
        })?;
        instrs.push(jump(instrs.len(), target))
    }

    fn push_return(&self, instrs: &mut Instrs, from: Option<Temp>) -> Result<(), AllocError>
        requires { IfSome from (λ from. from < held self.now.function.now) }
        ensures { OnOk result (instrs.new ≡ instrs.old ++ spec.code_of self.now.function.now (pos 0) (op.Return from)) }
    {
        if let Some(from) = from {
            self.push_load_temp(instrs, X0, from)?;
        }
        self.push_epilogue(instrs)
    }

    /// Adds the instructions of an operation, and what they refer to. `target`: the place of its label in words, where it goes to
    /// one that is known.
    #[tactic(auto, unfolding(pa_lir::specs::Parts::above))]
    pub(crate) fn push_op(
        &self,
        alloc: Global,
        code: &mut Code,
        target: Option<usize>,
        op: &Op,
    ) -> Result<(), AllocError>
        requires selectable { selectable.IsSelectableOp self.now.function.now op.now }
        requires short { length code.old.instrs + 64 < 2 ^ 24 }
        requires target { IfSome target (λ to. to < 2 ^ 24) }
        ensures instrs { OnOk result (code.new.instrs ≡ code.old.instrs ++ spec.code_to self.now.function.now (length code.old.instrs) target op.now) }
        ensures refs { OnOk result (code.new.refs ≡ code.old.refs ++ refs_of self.now.function.now (length code.old.instrs) op.now) }
    {
        let instrs = &mut code.instrs;
        match op {
            Op::Const { to, value } => self.push_const(instrs, *to, *value),
            Op::Bin {
                to,
                op,
                left,
                right,
            } => self.push_bin(instrs, *to, *op, *left, *right),
            Op::Un { to, op, from } => self.push_computed(instrs, unary(*op), *from, *to),
            Op::Extend {
                to,
                from,
                bits,
                signed,
            } => { self.push_computed(instrs, extended(*bits, *signed), *from, *to) }
            Op::Local { to, local } => self.push_local(instrs, *to, *local),
            Op::Load {
                to,
                at,
                bytes,
                signed,
            } => { self.push_computed(instrs, load_sized(*bytes, *signed), *at, *to) }
            Op::Store { at, from, bytes } => {
                self.push_operands(instrs, *at, *from)?;
                instrs.push(store_sized(*bytes))
            }
            Op::Call {
                to,
                name,
                arguments,
            } => { self.push_call(alloc, code, *to, name.as_slice(), arguments.as_slice()) }
            Op::Label { .. } => Ok(()),
            Op::Jump { .. } => instrs.push(jump(instrs.len(), target)),
            Op::Branch { on, .. } => self.push_branch(instrs, *on, target),
            Op::Return { from } => self.push_return(instrs, *from),
            Op::Global { .. }
            | Op::Code { .. }
            | Op::LoadSigned { .. }
            | Op::StoreSigned { .. }
            | Op::CallPlain { .. }
            | Op::CallSigned { .. } => unreachable!(),
        }
    }
}
