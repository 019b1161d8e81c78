//! From an instruction to what it does.

ghost use Rattle.std.specs.Prelude.{◌≡◌, ◌+◌, ◌^◌, ◌<◌, ◌≤◌, length, IfOk, IfErr, Some};
ghost use Rattle.pa_a64.specs.Decoding.{InRange};
ghost use Rattle.pa_object.specs.Run.{step};
ghost use Rattle.pa_processor.specs.Processor.{DoesOrTraps, Traps, instruction_at};

use crate::processor::Processor;
use pa_a64::{Instr, decode};
use pa_object::Trap;
use pa_pac::Pac;

impl Processor {
    /// The instruction at the place of the next one, or why there is none.
    pub fn instruction(&self) -> Result<Instr, Trap>
        ensures instr { IfOk result (λ instr. instruction_at self.now.machine.memory self.now.machine.pc ≡ Some instr) }
        ensures trap { IfErr result (λ trap. Traps trap self.now.machine) }
    {
        match decode(self.fetch()?) {
            Some(instr) => Ok(instr),
            None => Err(Trap::BadWord),
        }
    }

    /// One instruction, which is the one at the place.
    pub fn step_by<P: Pac>(&mut self, p: &P, instr: Instr)
        requires instr { instruction_at self.old.machine.memory self.old.machine.pc ≡ Some instr }
        requires count { self.old.machine.count + 1 < 2 ^ 32 }
        requires log { length self.old.machine.log + 2 ≤ self.old.log_limit }
        requires output { length self.old.machine.output + 1 ≤ self.old.output_limit }
        ensures { self.new ≡ record self.old { machine = step (P.code p.now) self.old.machine } }
    {
        if let Err(trap) = self.execute(p, instr) {
            self.ends(trap);
        }
    }

    /// One instruction: fetched, found in the table, and carried out.
    pub fn step<P: Pac>(&mut self, p: &P)
        requires count { self.old.machine.count + 1 < 2 ^ 32 }
        requires log { length self.old.machine.log + 2 ≤ self.old.log_limit }
        requires output { length self.old.machine.output + 1 ≤ self.old.output_limit }
        ensures { self.new ≡ record self.old { machine = step (P.code p.now) self.old.machine } }
    {
        match self.instruction() {
            Ok(instr) => self.step_by(p, instr),
            Err(trap) => self.ends(trap),
        }
    }

    fn execute<P: Pac>(&mut self, p: &P, instr: Instr) -> Result<(), Trap>
        requires range { InRange instr }
        requires count { self.old.machine.count + 1 < 2 ^ 32 }
        requires log { length self.old.machine.log + 2 ≤ self.old.log_limit }
        requires output { length self.old.machine.output + 1 ≤ self.old.output_limit }
        ensures { DoesOrTraps (P.code p.now) instr self.old result self.new }
    {
        match instr {
            Instr::MoveWide { op, rd, imm, hw } => self.move_wide(op, rd, imm, hw),
            Instr::SumImmediate {
                op,
                rd,
                rn,
                imm,
                shifted,
            } => self.sum_immediate(op, rd, rn, imm, shifted),
            Instr::SubsImmediate {
                rd,
                rn,
                imm,
                shifted,
            } => self.subs_immediate(rd, rn, imm, shifted),
            Instr::Sum { op, rd, rn, rm } => self.sum(op, rd, rn, rm),
            Instr::Logical { op, rd, rn, rm } => self.logical(op, rd, rn, rm),
            Instr::MultiplyAdd { op, rd, rn, rm, ra } => self.multiply_add(op, rd, rn, rm, ra),
            Instr::Divide { op, rd, rn, rm } => self.divide(op, rd, rn, rm),
            Instr::Shift { op, rd, rn, rm } => self.shift(op, rd, rn, rm),
            Instr::Bitfield {
                op,
                rd,
                rn,
                immr,
                imms,
            } => self.bitfield(op, rd, rn, immr, imms),
            Instr::Csinc {
                rd,
                rn,
                rm,
                condition,
            } => self.csinc(rd, rn, rm, condition),
            Instr::Adrp { rd, pages } => self.adrp(rd, pages),
            Instr::Nop => self.nop(),
            Instr::LoadStore { op, rt, rn, imm } => return self.load_store(op, rt, rn, imm),
            Instr::LoadStoreWord { op, rt, rn, imm } => return self.load_store_word(
                op, rt, rn, imm,
            ),
            Instr::LoadStoreHalf { op, rt, rn, imm } => return self.load_store_half(
                op, rt, rn, imm,
            ),
            Instr::LoadStoreByte { op, rt, rn, imm } => return self.load_store_byte(
                op, rt, rn, imm,
            ),
            Instr::LoadStoreUnscaled { op, rt, rn, imm } => return self.load_store_unscaled(
                op, rt, rn, imm,
            ),
            Instr::LoadStorePair {
                op,
                rt,
                rt2,
                rn,
                imm,
            } => return self.load_store_pair(op, rt, rt2, rn, imm),
            Instr::Branch { op, words } => self.branch(op, words),
            Instr::BranchConditional { condition, words } => self.branch_conditional(
                condition, words,
            ),
            Instr::CompareBranch { op, rt, words } => self.compare_branch(op, rt, words),
            Instr::BranchRegister { op, rn } => self.branch_register(op, rn),
            Instr::BranchAuthenticated { op, rn, rm } => return self.branch_authenticated(
                p, op, rn, rm,
            ),
            Instr::Blraaz { rn } => return self.blraaz(p, rn),
            Instr::Stack { op } => return self.stack(p, op),
            Instr::Sign { op, rd, rn } => self.sign(p, op, rd, rn),
            Instr::Authenticate { op, rd, rn } => return self.authenticate(p, op, rd, rn),
            Instr::Plain { op, rd } => return self.plain(p, op, rd),
            Instr::Pacga { rd, rn, rm } => self.pacga(p, rd, rn, rm),
            Instr::Exception { op, imm } => return self.exception(op, imm),
        }
        Ok(())
    }
}
