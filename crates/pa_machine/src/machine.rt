//! The machine, step by step.

ghost use Rattle.std.specs.Prelude.{◌≡◌, ◌+◌, ◌-◌, ◌*◌, ◌^◌, ◌<◌, ◌≤◌, length, IfOk, IfErr, OnOk, OnErr, Some, None, [], ℕ, true};
ghost use Rattle.pa_object.specs.Machine.{begun};
ghost use Rattle.pa_object.specs.Run.{step, advance_by, run, end_of, applied, applied_all};
ghost use Rattle.pa_object.specs.Script.{deed_fits, all_fit, copy_is_short, all_lines, ordered_from, is_script};
ghost use Rattle.pa_machine.specs.Items.{IsRest, next_number};
ghost use Rattle.pa_machine.specs.Running.{went};
ghost use Rattle.pa_processor.specs.Processor.{Traps, instruction_at};

use crate::kept::Kept;
use crate::went::Went;
use pa_a64::Instr;
use pa_log::Log;
use pa_mem::Space;
use pa_num::{Bytes, Memory};
use pa_object::{End, Flags, Item, Trap};
use pa_pac::Pac;
use pa_processor::{Loaded, Processor};
use std::alloc::Global;
use std::marker::Model;

/// Room is made for no more steps than that at a time.
const MOST_STEPS: u32 = 4096;

/// Room is made for as many steps as have run, and at first for so many.
const FIRST_STEPS: u32 = 64;

// The items of this number or above it.
fn items_from(items: &[Item], number: u32) -> &[Item]
    requires { ordered_from 0 items.now ≡ true }
    ensures ordered { ordered_from number result.now ≡ true }
    ensures rest { IsRest number items.now result.now }
{
    let mut rest = items;
    while let Some((item, behind)) = rest.split_first() {
        if item.step >= number {
            break;
        }
        rest = behind;
    }
    rest
}

// The number of the next item, or the bound where that comes first.
fn next_number(items: &[Item], bound: u32) -> u32
    ensures { result ≡ next_number items.now bound }
{
    match items.first() {
        Some(item) => bound.min(item.step),
        None => bound,
    }
}

/// A machine under a function for the authentication codes. It takes memory only where it is made and in `reserve`, which
/// makes room for what steps print and log.
#[derive(Drop)]
pub struct Machine<'a, P: Pac> {
    processor: Processor,
    kept: Kept,
    spare: u32,
    p: &'a P,
}

impl<'a, P: Pac> Model for Machine<'a, P> {
    ghost use Rattle.std.specs.Prelude.{◌+◌, ◌*◌, ◌≤◌, length};
    ghost use Rattle.pa_machine.specs.Running.{Running};
    ghost use Rattle.pa_machine.specs.Kept.{IsKept};

    ghost Value = { Running P };

    ghost view = { λ m. record { machine = m.processor.machine; spare = m.spare; pac = m.p.now } };

    ghost invariant = { λ m. (length m.processor.machine.log + 2 * m.spare ≤ m.processor.log_limit)
        × (length m.processor.machine.output + m.spare ≤ m.processor.output_limit)
        × IsKept m.kept m.processor.machine.memory };
}

impl<'a, P: Pac> Machine<'a, P> {
    /// A machine that begins where the images are loaded, with this input and `p` for the authentication codes.
    pub fn new(
        alloc: Global,
        loaded: Loaded,
        input: &[u8],
        p: &'a P,
    ) -> Result<Machine<'a, P>, Memory>
        ensures machine { IfOk result (λ made. made.machine ≡ begun loaded.space loaded.log.entries loaded.pc loaded.sp input.now) }
        ensures spare { IfOk result (λ made. made.spare ≡ 0) }
        ensures pac { IfOk result (λ made. made.pac ≡ p.now) }
    {
        let input = Bytes::from_slice(alloc, input)?;
        let kept = Kept::new(alloc, &loaded.space)?;
        let processor = Processor::new(alloc, loaded, input);
        Ok(Machine {
            processor,
            kept,
            spare: 0,
            p,
        })
    }

    /// The same machine with these numbers in the registers x0 to x30.
    pub fn with_registers(mut self, registers: [u64; 31]) -> Machine<'a, P>
        ensures machine { result.machine ≡ record self.entry.machine { registers = registers } }
        ensures spare { result.spare ≡ self.entry.spare }
        ensures pac { result.pac ≡ self.entry.pac }
    {
        self.processor.set_registers(registers);
        self
    }

    /// Makes room for what so many steps print and log: two entries and a byte each.
    pub fn reserve(&mut self, steps: u32) -> Result<(), Memory>
        ensures ok { OnOk result (steps ≤ self.new.spare) }
        ensures spare { self.old.spare ≤ self.new.spare }
        ensures rest { self.new ≡ record self.old { spare = self.new.spare } }
        ensures err { OnErr result (self.new ≡ self.old) }
    {
        if steps > self.spare {
            self.processor.reserve(steps)?;
            self.spare = steps;
        }
        Ok(())
    }

    /// One instruction. It takes no memory.
    pub fn step(&mut self) -> Went
        requires spare { 0 < self.old.spare }
        requires goes { self.old.machine.ended ≡ None }
        requires count { self.old.machine.count < 2 ^ 32 - 1 }
        ensures new { self.new ≡ record self.old { machine = step (P.code self.old.pac) self.old.machine; spare = self.old.spare - 1 } }
        ensures went { result ≡ went self.new.machine.ended }
    {
        match self.instruction() {
            Ok(instr) => self.step_by(instr),
            Err(trap) => self.ends(trap),
        }
        match self.processor.ended() {
            None => Went::Goes,
            Some(end) => Went::Ended(end),
        }
    }

    // One instruction, which is the one at the place.
    #[tactic(auto, using(crate::proofs::Room::step_logs, crate::proofs::Room::step_prints, crate::proofs::Keeping::kept_step))]
    fn step_by(&mut self, instr: Instr)
        requires instr { instruction_at self.old.machine.memory self.old.machine.pc ≡ Some instr }
        requires spare { 0 < self.old.spare }
        requires count { self.old.machine.count < 2 ^ 32 - 1 }
        ensures { self.new ≡ record self.old { machine = step (P.code self.old.pac) self.old.machine; spare = self.old.spare - 1 } }
    {
        self.spare -= 1;
        self.processor.step_by(self.p, instr);
    }

    // There is no instruction at the place.
    fn ends(&mut self, trap: Trap)
        requires trap { Traps trap self.old.machine }
        requires spare { 0 < self.old.spare }
        ensures { self.new ≡ record self.old { machine = step (P.code self.old.pac) self.old.machine; spare = self.old.spare - 1 } }
    {
        self.spare -= 1;
        self.processor.ends(trap);
    }

    // The instruction at the place of the next one.
    fn instruction(&mut self) -> Result<Instr, Trap>
        ensures instr { IfOk result (λ instr. instruction_at self.new.machine.memory self.new.machine.pc ≡ Some instr) }
        ensures trap { IfErr result (λ trap. Traps trap self.new.machine) }
        ensures same { self.new ≡ self.old }
    {
        match self.kept.get(self.processor.pc()) {
            Some(instr) => Ok(instr),
            None => self.newly_decoded(),
        }
    }

    // The instruction at the place of the next one, which is kept where there is room for it.
    #[cold]
    #[inline(never)]
    fn newly_decoded(&mut self) -> Result<Instr, Trap>
        ensures instr { IfOk result (λ instr. instruction_at self.new.machine.memory self.new.machine.pc ≡ Some instr) }
        ensures trap { IfErr result (λ trap. Traps trap self.new.machine) }
        ensures same { self.new ≡ self.old }
    {
        let instr = self.processor.instruction()?;
        self.kept.keep(self.processor.pc(), instr);
        Ok(instr)
    }

    /// The registers x0 to x30.
    pub fn registers(&self) -> &[u64; 31]
        ensures { result.now ≡ self.now.machine.registers }
    {
        self.processor.registers()
    }

    /// The stack pointer.
    pub fn sp(&self) -> u64
        ensures { result ≡ self.now.machine.sp }
    {
        self.processor.sp()
    }

    /// The condition flags.
    pub fn flags(&self) -> Flags
        ensures { result ≡ self.now.machine.flags }
    {
        self.processor.flags()
    }

    /// The place of the next instruction.
    pub fn pc(&self) -> u64
        ensures { result ≡ self.now.machine.pc }
    {
        self.processor.pc()
    }

    /// How many instructions ran.
    pub fn count(&self) -> u32
        ensures { result ≡ self.now.machine.count }
    {
        self.processor.count()
    }

    /// How the run has ended, if it has.
    pub fn ended(&self) -> Option<End>
        ensures { result ≡ self.now.machine.ended }
    {
        self.processor.ended()
    }

    /// The memory of the guest.
    pub fn space(&self) -> &Space
        ensures { result.now ≡ self.now.machine.memory }
    {
        self.processor.space()
    }

    // How many steps there is room for.
    fn spare(&self) -> u32
        ensures { result ≡ self.now.spare }
    {
        self.spare
    }

    // Room for a step, made for several of those that are left: as many as have run, from 64 to 4,096.
    fn make_room(&mut self, left: u32) -> Result<(), Memory>
        requires { 0 < left }
        ensures ok { OnOk result (0 < self.new.spare) }
        ensures rest { self.new ≡ record self.old { spare = self.new.spare } }
    {
        if self.spare == 0 {
            let several = self.count().clamp(FIRST_STEPS, MOST_STEPS);
            self.reserve(left.min(several))?;
        }
        Ok(())
    }

    /// Runs until `bound` instructions ran in all, unless the program or a trap ends the run before. Before each instruction
    /// the items of its number are applied. Those below the count that the machine begins with are never applied, and
    /// neither are those of the bound or above it. Room is made for at most 4,096 steps at a time; after want of memory the machine
    /// stands where a run for fewer instructions does.
    pub fn run(&mut self, script: &[Item], bound: u32) -> Result<End, Memory>
        requires script { is_script script.now ≡ true }
        requires fits { all_fit script.now self.old.machine.memory ≡ true }
        ensures machine { OnOk result (self.new.machine ≡ run (P.code self.old.pac) script.now bound self.old.machine) }
        ensures end { IfOk result (λ end. end ≡ end_of self.new.machine) }
        ensures err { OnErr result ((n : ℕ) × (n < bound) × (self.new.machine ≡ run (P.code self.old.pac) script.now n self.old.machine)) }
        ensures pac { self.new.pac ≡ self.old.pac }
    {
        if let Some(end) = self.ended() {
            return Ok(end);
        }
        let mut count = self.count();
        let mut items = items_from(script, count);
        while count < bound {
            self.make_room(bound - count)?;
            items = self.apply_all(items, count);
            let steps = self.spare().min(next_number(items, bound) - count);
            if let Went::Ended(end) = self.advance_by(steps) {
                return Ok(end);
            }
            count += steps;
        }
        Ok(End::Bound)
    }

    // So many instructions, unless the run ends before. No item of a script comes between them.
    fn advance_by(&mut self, steps: u32) -> Went
        requires spare { steps ≤ self.old.spare }
        requires goes { self.old.machine.ended ≡ None }
        requires count { self.old.machine.count + steps < 2 ^ 32 }
        ensures machine { self.new.machine ≡ advance_by (P.code self.old.pac) [] steps self.old.machine }
        ensures pac { self.new.pac ≡ self.old.pac }
        ensures went { result ≡ went self.new.machine.ended }
    {
        for _ in 0..steps {
            if let Went::Ended(end) = self.step() {
                return Went::Ended(end);
            }
        }
        Went::Goes
    }

    /// What the second writer does to memory, whatever the item's number. A copy reads all its bytes first, and has at most
    /// 4,096; a write may have any number. It takes no memory.
    pub fn apply(&mut self, item: &Item)
        requires fits { deed_fits item.now.deed self.old.machine.memory ≡ true }
        requires short { copy_is_short item.now.deed ≡ true }
        ensures { self.new ≡ record self.old { machine = applied item.now self.old.machine } }
    {
        self.processor.apply(item);
    }

    // The items of this number are done, and those behind them are left.
    fn apply_all<'s>(&mut self, items: &'s [Item], number: u32) -> &'s [Item]
        requires fits { all_fit items.now self.old.machine.memory ≡ true }
        requires lines { all_lines items.now ≡ true }
        requires ordered { ordered_from number items.now ≡ true }
        ensures machine { self.new ≡ record self.old { machine = applied_all items.now number self.old.machine } }
        ensures ordered { ordered_from (number + 1) result.now ≡ true }
        ensures rest { IsRest (number + 1) items.now result.now }
    {
        let mut rest = items;
        while let Some((item, behind)) = rest.split_first() {
            if item.step != number {
                break;
            }
            self.apply(item);
            rest = behind;
        }
        rest
    }

    /// The bytes that the program has printed.
    pub fn output(&self) -> &[u8]
        ensures { result.now ≡ self.now.machine.output }
    {
        self.processor.output()
    }

    /// The log of what was signed, authenticated and branched to.
    pub fn log(&self) -> &Log
        ensures { result.now.entries ≡ self.now.machine.log }
    {
        self.processor.log()
    }

    /// What the program has printed, and the log.
    pub fn into_parts(self) -> (Bytes, Log)
        ensures output { result.0 ≡ self.entry.machine.output }
        ensures log { result.1.entries ≡ self.entry.machine.log }
    {
        let Machine {
            processor,
            kept: _,
            spare: _,
            p: _,
        } = self;
        processor.into_parts()
    }
}
