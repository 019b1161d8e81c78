//! Instructions that compute a register of others.

ghost use Rattle.std.specs.Prelude.{◌≡◌, ◌+◌, ◌^◌, ◌<◌};
ghost use Rattle.pa_pac.specs.Signing.{Code};
ghost use Rattle.pa_a64.specs.declared.instr.Instr.TheVariants as instr;
ghost use Rattle.pa_object.specs.Machine as spec;
ghost use Rattle.pa_object.specs.Effects.{summed};
ghost use Rattle.pa_processor.specs.Processor.{Does};

use crate::processor::Processor;
use pa_a64::{
    BitfieldOp, DivideOp, LogicalOp, MoveWideOp, MultiplyAddOp, ShiftOp, SumImmediateOp, SumOp,
};
use pa_alu::{
    bitfield, flags_of_difference, immediate, immediate_sum, logical, meets, moved, multiplied,
    quotient, scaled, shifted_by,
};

impl Processor {
    /// A register gets a value, and the instruction is done.
    pub(crate) fn gives(&mut self, rd: u8, value: u64)
        requires { self.old.machine.count + 1 < 2 ^ 32 }
        ensures { self.new ≡ record self.old { machine = spec.next (spec.with_register rd value self.old.machine) } }
    {
        self.set_register(rd, value);
        self.next();
    }

    #[tactic(auto, unfolding(pa_object::specs::Traps::trap_of, pa_object::specs::Effects::effect))]
    pub(crate) fn move_wide(&mut self, op: MoveWideOp, rd: u8, imm: u16, hw: u8)
        requires count { self.old.machine.count + 1 < 2 ^ 32 }
        requires part { hw < 4 }
        ensures { (code : Code) → Does code (instr.MoveWide op rd imm hw) self.old self.new }
    {
        self.gives(rd, moved(op, self.register(rd), imm, hw));
    }

    #[tactic(auto, unfolding(pa_object::specs::Traps::trap_of, pa_object::specs::Effects::effect))]
    pub(crate) fn sum_immediate(
        &mut self,
        op: SumImmediateOp,
        rd: u8,
        rn: u8,
        imm: u16,
        shifted: bool,
    )
        requires { self.old.machine.count + 1 < 2 ^ 32 }
        ensures { (code : Code) → Does code (instr.SumImmediate op rd rn imm shifted) self.old self.new }
    {
        let sum = immediate_sum(op, self.register_or_sp(rn), immediate(imm, shifted));
        self.set_register_or_sp(rd, sum);
        self.next();
    }

    #[tactic(auto, unfolding(pa_object::specs::Traps::trap_of, pa_object::specs::Effects::effect))]
    pub(crate) fn subs_immediate(&mut self, rd: u8, rn: u8, imm: u16, shifted: bool)
        requires { self.old.machine.count + 1 < 2 ^ 32 }
        ensures { (code : Code) → Does code (instr.SubsImmediate rd rn imm shifted) self.old self.new }
    {
        self.summed(
            SumOp::Subs,
            rd,
            self.register_or_sp(rn),
            immediate(imm, shifted),
        );
    }

    #[tactic(auto, unfolding(pa_object::specs::Traps::trap_of, pa_object::specs::Effects::effect))]
    pub(crate) fn sum(&mut self, op: SumOp, rd: u8, rn: u8, rm: u8)
        requires { self.old.machine.count + 1 < 2 ^ 32 }
        ensures { (code : Code) → Does code (instr.Sum op rd rn rm) self.old self.new }
    {
        self.summed(op, rd, self.register(rn), self.register(rm));
    }

    #[tactic(auto, unfolding(pa_num::specs::Arithmetic::add64, pa_num::specs::Arithmetic::sub64, pa_num::specs::Arithmetic::wrap))]
    fn summed(&mut self, op: SumOp, rd: u8, x: u64, y: u64)
        requires { self.old.machine.count + 1 < 2 ^ 32 }
        ensures { self.new ≡ record self.old { machine = spec.next (summed op rd x y self.old.machine) } }
    {
        match op {
            SumOp::Add => self.gives(rd, x.wrapping_add(y)),
            SumOp::Sub => self.gives(rd, x.wrapping_sub(y)),
            SumOp::Subs => {
                self.set_flags(flags_of_difference(x, y));
                self.gives(rd, x.wrapping_sub(y));
            }
        }
    }

    #[tactic(auto, unfolding(pa_object::specs::Traps::trap_of, pa_object::specs::Effects::effect))]
    pub(crate) fn logical(&mut self, op: LogicalOp, rd: u8, rn: u8, rm: u8)
        requires { self.old.machine.count + 1 < 2 ^ 32 }
        ensures { (code : Code) → Does code (instr.Logical op rd rn rm) self.old self.new }
    {
        self.gives(rd, logical(op, self.register(rn), self.register(rm)));
    }

    #[tactic(auto, unfolding(pa_object::specs::Traps::trap_of, pa_object::specs::Effects::effect))]
    pub(crate) fn multiply_add(&mut self, op: MultiplyAddOp, rd: u8, rn: u8, rm: u8, ra: u8)
        requires { self.old.machine.count + 1 < 2 ^ 32 }
        ensures { (code : Code) → Does code (instr.MultiplyAdd op rd rn rm ra) self.old self.new }
    {
        let product = multiplied(op, self.register(rn), self.register(rm), self.register(ra));
        self.gives(rd, product);
    }

    #[tactic(auto, unfolding(pa_object::specs::Traps::trap_of, pa_object::specs::Effects::effect))]
    pub(crate) fn divide(&mut self, op: DivideOp, rd: u8, rn: u8, rm: u8)
        requires { self.old.machine.count + 1 < 2 ^ 32 }
        ensures { (code : Code) → Does code (instr.Divide op rd rn rm) self.old self.new }
    {
        self.gives(rd, quotient(op, self.register(rn), self.register(rm)));
    }

    #[tactic(auto, unfolding(pa_object::specs::Traps::trap_of, pa_object::specs::Effects::effect))]
    pub(crate) fn shift(&mut self, op: ShiftOp, rd: u8, rn: u8, rm: u8)
        requires { self.old.machine.count + 1 < 2 ^ 32 }
        ensures { (code : Code) → Does code (instr.Shift op rd rn rm) self.old self.new }
    {
        self.gives(rd, shifted_by(op, self.register(rn), self.register(rm)));
    }

    #[tactic(auto, unfolding(pa_object::specs::Traps::trap_of, pa_object::specs::Effects::effect))]
    pub(crate) fn bitfield(&mut self, op: BitfieldOp, rd: u8, rn: u8, immr: u8, imms: u8)
        requires count { self.old.machine.count + 1 < 2 ^ 32 }
        requires low { immr < 64 }
        requires high { imms < 64 }
        ensures { (code : Code) → Does code (instr.Bitfield op rd rn immr imms) self.old self.new }
    {
        self.gives(rd, bitfield(op, self.register(rn), immr, imms));
    }

    #[tactic(auto, unfolding(pa_object::specs::Traps::trap_of, pa_object::specs::Effects::effect, pa_num::specs::Arithmetic::add64, pa_num::specs::Arithmetic::wrap))]
    pub(crate) fn csinc(&mut self, rd: u8, rn: u8, rm: u8, condition: u8)
        requires { self.old.machine.count + 1 < 2 ^ 32 }
        ensures { (code : Code) → Does code (instr.Csinc rd rn rm condition) self.old self.new }
    {
        if meets(self.flags(), condition) {
            self.gives(rd, self.register(rn));
        } else {
            self.gives(rd, self.register(rm).wrapping_add(1));
        }
    }

    #[tactic(auto, unfolding(pa_object::specs::Traps::trap_of, pa_object::specs::Effects::effect, pa_num::specs::Arithmetic::add64, pa_num::specs::Arithmetic::wrap))]
    pub(crate) fn adrp(&mut self, rd: u8, pages: i32)
        requires { self.old.machine.count + 1 < 2 ^ 32 }
        ensures { (code : Code) → Does code (instr.Adrp rd pages) self.old self.new }
    {
        let page = self.pc() - self.pc() % 4096;
        self.gives(rd, page.wrapping_add(scaled(4096, pages)));
    }

    #[tactic(auto, unfolding(pa_object::specs::Traps::trap_of, pa_object::specs::Effects::effect))]
    pub(crate) fn nop(&mut self)
        requires { self.old.machine.count + 1 < 2 ^ 32 }
        ensures { (code : Code) → Does code instr.Nop self.old self.new }
    {
        self.next();
    }
}
