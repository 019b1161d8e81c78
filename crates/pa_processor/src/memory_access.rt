//! Loads and stores.

ghost use Rattle.std.specs.Prelude.{◌≡◌, ◌+◌, ◌*◌, ◌^◌, ◌<◌, true};
ghost use Rattle.pa_num.specs.Bits.{sign_extended};
ghost use Rattle.pa_pac.specs.Signing.{Code};
ghost use Rattle.pa_a64.specs.declared.instr.Instr.TheVariants as instr;
ghost use Rattle.pa_mem.specs.Access.{byte_count};
ghost use Rattle.pa_mem.specs.Memory.{Read, Write, allowed, load};
ghost use Rattle.pa_object.specs.Machine as spec;
ghost use Rattle.pa_object.specs.Traps.{address, abort_unless, pair_allowed};
ghost use Rattle.pa_object.specs.Effects.{with_memory, loaded_or_stored_pair};
ghost use Rattle.pa_a64.specs.declared.instr.LoadStorePairOp.TheVariants.{Ldp, Stp};
ghost use Rattle.pa_processor.specs.Processor.{Carried, DoesOrTraps};

use crate::processor::Processor;
use pa_a64::{
    LoadStoreByteOp, LoadStoreHalfOp, LoadStoreOp, LoadStorePairOp, LoadStoreUnscaledOp,
    LoadStoreWordOp,
};
use pa_alu::scaled;
use pa_mem::Size;
use pa_num::sext;
use pa_object::Trap;

impl Processor {
    #[tactic(auto, unfolding(pa_num::specs::Arithmetic::add64, pa_num::specs::Arithmetic::wrap))]
    fn address(&self, rn: u8, offset: u64) -> u64
        ensures { result ≡ address rn offset self.now.machine }
    {
        self.register_or_sp(rn).wrapping_add(offset)
    }

    fn loads(&mut self, rt: u8, at: u64, size: Size) -> Result<(), Trap>
        requires { self.old.machine.count + 1 < 2 ^ 32 }
        ensures { let m = self.old.machine in
            Carried (abort_unless (allowed Read m.memory at (byte_count size))) (spec.next (spec.with_register rt (load (byte_count size) m.memory at) m)) self.old result self.new }
    {
        let value = self.read(at, size)?;
        self.set_register(rt, value);
        self.next();
        Ok(())
    }

    // The number that was read is extended by its sign.
    fn loads_signed(&mut self, rt: u8, at: u64, size: Size) -> Result<(), Trap>
        requires { self.old.machine.count + 1 < 2 ^ 32 }
        ensures { let m = self.old.machine in
            Carried (abort_unless (allowed Read m.memory at (byte_count size))) (spec.next (spec.with_register rt (sign_extended (load (byte_count size) m.memory at) (8 * byte_count size)) m)) self.old result self.new }
    {
        let value = self.read(at, size)?;
        self.set_register(rt, sext(value, 8 * size.count() as u32));
        self.next();
        Ok(())
    }

    fn stores(&mut self, rt: u8, at: u64, size: Size) -> Result<(), Trap>
        requires { self.old.machine.count + 1 < 2 ^ 32 }
        ensures { let m = self.old.machine in
            Carried (abort_unless (allowed Write m.memory at (byte_count size))) (spec.next (with_memory (byte_count size) at (spec.register rt m) m)) self.old result self.new }
    {
        self.write(at, size, self.register(rt))?;
        self.next();
        Ok(())
    }

    #[tactic(auto, unfolding(pa_object::specs::Effects::effect, pa_object::specs::Traps::trap_of))]
    pub(crate) fn load_store(
        &mut self,
        op: LoadStoreOp,
        rt: u8,
        rn: u8,
        imm: u16,
    ) -> Result<(), Trap>
        requires { self.old.machine.count + 1 < 2 ^ 32 }
        ensures { (code : Code) → DoesOrTraps code (instr.LoadStore op rt rn imm) self.old result self.new }
    {
        let at = self.address(rn, 8 * u64::from(imm));
        match op {
            LoadStoreOp::Ldr => self.loads(rt, at, Size::B8),
            LoadStoreOp::Str => self.stores(rt, at, Size::B8),
        }
    }

    #[tactic(auto, unfolding(pa_object::specs::Effects::effect, pa_object::specs::Traps::trap_of))]
    pub(crate) fn load_store_word(
        &mut self,
        op: LoadStoreWordOp,
        rt: u8,
        rn: u8,
        imm: u16,
    ) -> Result<(), Trap>
        requires { self.old.machine.count + 1 < 2 ^ 32 }
        ensures { (code : Code) → DoesOrTraps code (instr.LoadStoreWord op rt rn imm) self.old result self.new }
    {
        let at = self.address(rn, 4 * u64::from(imm));
        match op {
            LoadStoreWordOp::Ldrw => self.loads(rt, at, Size::B4),
            LoadStoreWordOp::Strw => self.stores(rt, at, Size::B4),
            LoadStoreWordOp::Ldrsw => self.loads_signed(rt, at, Size::B4),
        }
    }

    #[tactic(auto, unfolding(pa_object::specs::Effects::effect, pa_object::specs::Traps::trap_of))]
    pub(crate) fn load_store_half(
        &mut self,
        op: LoadStoreHalfOp,
        rt: u8,
        rn: u8,
        imm: u16,
    ) -> Result<(), Trap>
        requires { self.old.machine.count + 1 < 2 ^ 32 }
        ensures { (code : Code) → DoesOrTraps code (instr.LoadStoreHalf op rt rn imm) self.old result self.new }
    {
        let at = self.address(rn, 2 * u64::from(imm));
        match op {
            LoadStoreHalfOp::Ldrh => self.loads(rt, at, Size::B2),
            LoadStoreHalfOp::Strh => self.stores(rt, at, Size::B2),
            LoadStoreHalfOp::Ldrsh => self.loads_signed(rt, at, Size::B2),
        }
    }

    #[tactic(auto, unfolding(pa_object::specs::Effects::effect, pa_object::specs::Traps::trap_of))]
    pub(crate) fn load_store_byte(
        &mut self,
        op: LoadStoreByteOp,
        rt: u8,
        rn: u8,
        imm: u16,
    ) -> Result<(), Trap>
        requires { self.old.machine.count + 1 < 2 ^ 32 }
        ensures { (code : Code) → DoesOrTraps code (instr.LoadStoreByte op rt rn imm) self.old result self.new }
    {
        let at = self.address(rn, u64::from(imm));
        match op {
            LoadStoreByteOp::Ldrb => self.loads(rt, at, Size::B1),
            LoadStoreByteOp::Strb => self.stores(rt, at, Size::B1),
            LoadStoreByteOp::Ldrsb => self.loads_signed(rt, at, Size::B1),
        }
    }

    #[tactic(auto, unfolding(pa_object::specs::Effects::effect, pa_object::specs::Traps::trap_of))]
    pub(crate) fn load_store_unscaled(
        &mut self,
        op: LoadStoreUnscaledOp,
        rt: u8,
        rn: u8,
        imm: i16,
    ) -> Result<(), Trap>
        requires { self.old.machine.count + 1 < 2 ^ 32 }
        ensures { (code : Code) → DoesOrTraps code (instr.LoadStoreUnscaled op rt rn imm) self.old result self.new }
    {
        let at = self.address(rn, scaled(1, i32::from(imm)));
        match op {
            LoadStoreUnscaledOp::Ldur => self.loads(rt, at, Size::B8),
            LoadStoreUnscaledOp::Stur => self.stores(rt, at, Size::B8),
        }
    }

    #[tactic(auto, unfolding(pa_object::specs::Effects::effect, pa_object::specs::Traps::trap_of))]
    pub(crate) fn load_store_pair(
        &mut self,
        op: LoadStorePairOp,
        rt: u8,
        rt2: u8,
        rn: u8,
        imm: i8,
    ) -> Result<(), Trap>
        requires { self.old.machine.count + 1 < 2 ^ 32 }
        ensures { (code : Code) → DoesOrTraps code (instr.LoadStorePair op rt rt2 rn imm) self.old result self.new }
    {
        let at = self.address(rn, scaled(8, i32::from(imm)));
        match op {
            LoadStorePairOp::Ldp => self.loads_pair(rt, rt2, at),
            LoadStorePairOp::Stp => self.stores_pair(rt, rt2, at),
        }
    }

    #[tactic(auto, unfolding(pa_num::specs::Arithmetic::add64, pa_num::specs::Arithmetic::wrap))]
    fn loads_pair(&mut self, rt: u8, rt2: u8, at: u64) -> Result<(), Trap>
        requires { self.old.machine.count + 1 < 2 ^ 32 }
        ensures { let m = self.old.machine in
            Carried (abort_unless (pair_allowed Read at m)) (spec.next (loaded_or_stored_pair Ldp rt rt2 at m)) self.old result self.new }
    {
        let first = self.read(at, Size::B8)?;
        let second = self.read(at.wrapping_add(8), Size::B8)?;
        self.set_register(rt, first);
        self.set_register(rt2, second);
        self.next();
        Ok(())
    }

    // Both places are tested before the first is written, since a trap changes nothing.
    #[tactic(auto, using(crate::proofs::Stores::storing), unfolding(pa_num::specs::Arithmetic::add64, pa_num::specs::Arithmetic::wrap))]
    fn stores_pair(&mut self, rt: u8, rt2: u8, at: u64) -> Result<(), Trap>
        requires { self.old.machine.count + 1 < 2 ^ 32 }
        ensures { let m = self.old.machine in
            Carried (abort_unless (pair_allowed Write at m)) (spec.next (loaded_or_stored_pair Stp rt rt2 at m)) self.old result self.new }
    {
        let second = at.wrapping_add(8);
        if !self.may_write(second, Size::B8) {
            return Err(Trap::DataAbort);
        }
        self.write(at, Size::B8, self.register(rt))?;
        self.write(second, Size::B8, self.register(rt2))?;
        self.next();
        Ok(())
    }
}
