//! Branches without authentication, and system calls.

ghost use Rattle.std.specs.Prelude.{◌≡◌, ◌+◌, ◌^◌, ◌<◌, length, ℤ};
ghost use Rattle.pa_num.specs.Arithmetic.{scaled64};
ghost use Rattle.pa_pac.specs.Signing.{Code};
ghost use Rattle.pa_a64.specs.declared.instr.Instr.TheVariants as instr;
ghost use Rattle.pa_a64.specs.declared.instr.ExceptionOp.TheVariants.{Svc};
ghost use Rattle.pa_object.specs.Machine as spec;
ghost use Rattle.pa_object.specs.Effects.{way_to, is_taken, prints, reads};
ghost use Rattle.pa_processor.specs.Processor.{Does, DoesOrTraps};

use crate::processor::Processor;
use pa_a64::{BranchOp, BranchRegisterOp, CompareBranchOp, ExceptionOp};
use pa_alu::{meets, scaled};
use pa_object::Trap;
use pa_pac::Way;

fn is_taken(op: CompareBranchOp, value: u64) -> bool
    ensures { result ≡ is_taken op value }
{
    match op {
        CompareBranchOp::Cbz => value == 0,
        CompareBranchOp::Cbnz => value != 0,
    }
}

impl Processor {
    // The place that many words from the instruction.
    #[tactic(auto, unfolding(pa_num::specs::Arithmetic::add64, pa_num::specs::Arithmetic::wrap))]
    fn way_to(&self, words: i32) -> u64
        ensures { result ≡ way_to (scaled64 4 words) self.now.machine }
    {
        self.pc().wrapping_add(scaled(4, words))
    }

    #[tactic(auto, unfolding(pa_object::specs::Traps::trap_of, pa_object::specs::Effects::effect))]
    pub(crate) fn branch(&mut self, op: BranchOp, words: i32)
        requires { self.old.machine.count + 1 < 2 ^ 32 }
        ensures { (code : Code) → Does code (instr.Branch op words) self.old self.new }
    {
        let target = self.way_to(words);
        match op {
            BranchOp::B => {}
            BranchOp::Bl => self.links(),
        }
        self.goes_to(target);
    }

    #[tactic(auto, unfolding(pa_object::specs::Traps::trap_of, pa_object::specs::Effects::effect))]
    pub(crate) fn branch_conditional(&mut self, condition: u8, words: i32)
        requires { self.old.machine.count + 1 < 2 ^ 32 }
        ensures { (code : Code) → Does code (instr.BranchConditional condition words) self.old self.new }
    {
        if meets(self.flags(), condition) {
            self.goes_to(self.way_to(words));
        } else {
            self.next();
        }
    }

    #[tactic(auto, unfolding(pa_object::specs::Traps::trap_of, pa_object::specs::Effects::effect))]
    pub(crate) fn compare_branch(&mut self, op: CompareBranchOp, rt: u8, words: i32)
        requires { self.old.machine.count + 1 < 2 ^ 32 }
        ensures { (code : Code) → Does code (instr.CompareBranch op rt words) self.old self.new }
    {
        if is_taken(op, self.register(rt)) {
            self.goes_to(self.way_to(words));
        } else {
            self.next();
        }
    }

    #[tactic(auto, unfolding(pa_object::specs::Traps::trap_of, pa_object::specs::Effects::effect))]
    pub(crate) fn branch_register(&mut self, op: BranchRegisterOp, rn: u8)
        requires count { self.old.machine.count + 1 < 2 ^ 32 }
        requires log { length self.old.machine.log < self.old.log_limit }
        ensures { (code : Code) → Does code (instr.BranchRegister op rn) self.old self.new }
    {
        let target = self.register(rn);
        match op {
            BranchRegisterOp::Br => self.lands(Way::Jump, target),
            BranchRegisterOp::Blr => {
                self.links();
                self.lands(Way::Call, target);
            }
            BranchRegisterOp::Ret => self.lands(Way::Return, target),
        }
    }

    #[tactic(auto, unfolding(pa_object::specs::Traps::trap_of, pa_object::specs::Effects::effect))]
    pub(crate) fn exception(&mut self, op: ExceptionOp, imm: u16) -> Result<(), Trap>
        requires count { self.old.machine.count + 1 < 2 ^ 32 }
        requires output { length self.old.machine.output < self.old.output_limit }
        ensures { (code : Code) → DoesOrTraps code (instr.Exception op imm) self.old result self.new }
    {
        match op {
            ExceptionOp::Svc => self.system_call(imm),
            ExceptionOp::Brk => Err(Trap::Break),
        }
    }

    #[tactic(auto, unfolding(pa_object::specs::Traps::trap_of, pa_object::specs::Effects::effect))]
    fn system_call(&mut self, number: u16) -> Result<(), Trap>
        requires count { self.old.machine.count + 1 < 2 ^ 32 }
        requires output { length self.old.machine.output < self.old.output_limit }
        ensures { (code : Code) → DoesOrTraps code (instr.Exception Svc number) self.old result self.new }
    {
        match number {
            1 => self.prints(),
            2 => self.reads(),
            3 => self.exits(),
            _ => return Err(Trap::BadWord),
        }
        Ok(())
    }

    // The low byte of x0 is printed, and stays there.
    fn prints(&mut self)
        requires count { self.old.machine.count + 1 < 2 ^ 32 }
        requires output { length self.old.machine.output < self.old.output_limit }
        ensures { self.new ≡ record self.old { machine = spec.next (prints self.old.machine) } }
    {
        let byte = (self.register(0) & 0xFF) as u8;
        self.set_register(0, u64::from(byte));
        self.push_output(byte);
        self.next();
    }

    fn reads(&mut self)
        requires { self.old.machine.count + 1 < 2 ^ 32 }
        ensures { self.new ≡ record self.old { machine = spec.next (reads self.old.machine) } }
    {
        let value = self.read_input();
        self.set_register(0, value);
        self.next();
    }
}
