//! The state of the machine, and the reads and writes that the instructions are made of.

ghost use Rattle.std.specs.Prelude.{◌≡◌, ◌+◌, ◌*◌, ◌^◌, ◌<◌, ◌≤◌, [], ◌∷◌, ◌++◌, length, true, false, MatchResult, OnOk, Some, None};
ghost use Rattle.pa_mem.specs.Access.{byte_count};
ghost use Rattle.pa_mem.specs.Memory.{Read, Write, allowed, load, store, fetch};
ghost use Rattle.pa_object.specs.declared.end.Trap.TheVariants.{AuthFail, DataAbort, FetchAbort};
ghost use Rattle.pa_object.specs.Machine as spec;
ghost use Rattle.pa_object.specs.Machine.{begun};
ghost use Rattle.pa_object.specs.declared.end.End.TheVariants as end;
ghost use Rattle.pa_object.specs.Effects.{links, exits, first_or_end, behind_first};
ghost use Rattle.pa_object.specs.Run.{applied, ends};
ghost use Rattle.pa_object.specs.Script.{deed_fits, copy_is_short};

use crate::input::Input;
use crate::loaded::Loaded;
use pa_log::Log;
use pa_mem::{Rights, Size, Space};
use pa_num::{Bytes, Memory};
use pa_object::{Deed, End, Flags, Item, Trap};
use pa_pac::{Key, Way, When};
use std::alloc::Global;
use std::marker::Model;

/// The registers, memory, input, output and log of the machine.
#[derive(Drop)]
pub struct Processor {
    registers: [u64; 31],
    sp: u64,
    flags: Flags,
    space: Space,
    pc: u64,
    count: u32,
    input: Input,
    output: Vec<u8>,
    output_limit: usize,
    log: Log,
    ended: Option<End>,
}

impl Model for Processor {
    ghost use Rattle.std.specs.Prelude.{◌+◌, ◌≤◌, length, vec_capacity};
    ghost use Rattle.pa_processor.specs.Processor.{Processor};

    ghost Value = { Processor };

    ghost view = { λ p. record {
      machine = record {
        registers = p.registers;
        sp = p.sp;
        flags = p.flags;
        memory = p.space;
        pc = p.pc;
        count = p.count;
        input = p.input;
        output = p.output.items;
        log = p.log.entries;
        ended = p.ended;
      };
      log_limit = length p.log.entries + p.log.spare;
      output_limit = p.output_limit;
    } };

    ghost invariant = { λ p. p.output_limit ≤ vec_capacity p.output };
}

impl Processor {
    /// A processor that begins where the images are loaded, with zeros in all registers and flags. It takes no memory.
    pub fn new(alloc: Global, loaded: Loaded, input: Bytes) -> Processor
        ensures machine { result.machine ≡ begun loaded.space loaded.log.entries loaded.pc loaded.sp input }
        ensures log { length result.machine.log ≤ result.log_limit }
    {
        let Loaded { space, log, pc, sp } = loaded;
        Processor {
            registers: [0; 31],
            sp,
            flags: Flags {
                negative: false,
                zero: false,
                carry: false,
                overflow: false,
            },
            space,
            pc,
            count: 0,
            input: Input::new(input),
            output: Vec::new(alloc),
            output_limit: 0,
            log,
            ended: None,
        }
    }

    /// Puts these numbers into the registers x0 to x30.
    pub fn set_registers(&mut self, registers: [u64; 31])
        ensures { self.new ≡ record self.old { machine = record self.old.machine { registers = registers } } }
    {
        self.registers = registers;
    }

    /// Makes room for what so many steps print and log: two entries and a byte each.
    pub fn reserve(&mut self, steps: u32) -> Result<(), Memory>
        ensures machine { self.new.machine ≡ self.old.machine }
        ensures log { OnOk result (length self.new.machine.log + 2 * steps ≤ self.new.log_limit) }
        ensures output { OnOk result (length self.new.machine.output + steps ≤ self.new.output_limit) }
        ensures log_limit { self.old.log_limit ≤ self.new.log_limit }
        ensures output_limit { self.old.output_limit ≤ self.new.output_limit }
    {
        self.log.reserve(2 * u64::from(steps))?;
        self.output.reserve(steps as usize)?;
        self.output_limit = self.output.capacity();
        Ok(())
    }

    /// The registers x0 to x30.
    pub fn registers(&self) -> &[u64; 31]
        ensures { result.now ≡ self.now.machine.registers }
    {
        &self.registers
    }

    /// The memory of the guest.
    pub fn space(&self) -> &Space
        ensures { result.now ≡ self.now.machine.memory }
    {
        &self.space
    }

    /// How many instructions ran.
    pub fn count(&self) -> u32
        ensures { result ≡ self.now.machine.count }
    {
        self.count
    }

    /// How the run has ended, if it has.
    pub fn ended(&self) -> Option<End>
        ensures { result ≡ self.now.machine.ended }
    {
        self.ended
    }

    /// The bytes that the program has printed.
    pub fn output(&self) -> &[u8]
        ensures { result.now ≡ self.now.machine.output }
    {
        self.output.as_slice()
    }

    /// The log of what was signed, authenticated and branched to.
    pub fn log(&self) -> &Log
        ensures { result.now.entries ≡ self.now.machine.log }
    {
        &self.log
    }

    /// What the program has printed, and the log.
    pub fn into_parts(self) -> (Bytes, Log)
        ensures output { result.0 ≡ self.machine.output }
        ensures log { result.1.entries ≡ self.machine.log }
    {
        let Processor {
            registers: _,
            sp: _,
            flags: _,
            space: _,
            pc: _,
            count: _,
            input: _,
            output,
            output_limit: _,
            log,
            ended: _,
        } = self;
        (Bytes::from_vec(output), log)
    }

    /// A register, where 31 is the zero register.
    pub(crate) fn register(&self, index: u8) -> u64
        ensures { result ≡ spec.register index self.now.machine }
    {
        self.registers.get(index as usize).copied().unwrap_or(0)
    }

    /// A register, where 31 is the stack pointer.
    pub(crate) fn register_or_sp(&self, index: u8) -> u64
        ensures { result ≡ spec.register_or_sp index self.now.machine }
    {
        if index == 31 {
            self.sp
        } else {
            self.register(index)
        }
    }

    /// The stack pointer.
    pub fn sp(&self) -> u64
        ensures { result ≡ self.now.machine.sp }
    {
        self.sp
    }

    /// The place of the next instruction.
    pub fn pc(&self) -> u64
        ensures { result ≡ self.now.machine.pc }
    {
        self.pc
    }

    /// The condition flags.
    pub fn flags(&self) -> Flags
        ensures { result ≡ self.now.machine.flags }
    {
        self.flags
    }

    /// The place behind the instruction.
    #[tactic(auto, unfolding(pa_num::specs::Arithmetic::add64, pa_num::specs::Arithmetic::wrap))]
    pub(crate) fn after(&self) -> u64
        ensures { result ≡ spec.after self.now.machine }
    {
        self.pc.wrapping_add(4)
    }

    pub(crate) fn set_register(&mut self, index: u8, value: u64)
        ensures { self.new ≡ record self.old { machine = spec.with_register index value self.old.machine } }
    {
        if index < 31 {
            self.registers[index as usize] = value;
        }
    }

    pub(crate) fn set_register_or_sp(&mut self, index: u8, value: u64)
        ensures { self.new ≡ record self.old { machine = spec.with_register_or_sp index value self.old.machine } }
    {
        if index == 31 {
            self.sp = value;
        } else {
            self.set_register(index, value);
        }
    }

    pub(crate) fn set_flags(&mut self, flags: Flags)
        ensures { self.new ≡ record self.old { machine = record self.old.machine { flags = flags } } }
    {
        self.flags = flags;
    }

    /// The instruction is done, and the next one is at `at`.
    pub(crate) fn goes_to(&mut self, at: u64)
        requires { self.old.machine.count + 1 < 2 ^ 32 }
        ensures { self.new ≡ record self.old { machine = spec.goes_to at self.old.machine } }
    {
        self.pc = at;
        self.count += 1;
    }

    /// The instruction is done, and the next one is behind it.
    pub(crate) fn next(&mut self)
        requires { self.old.machine.count + 1 < 2 ^ 32 }
        ensures { self.new ≡ record self.old { machine = spec.next self.old.machine } }
    {
        self.goes_to(self.after());
    }

    /// The place behind the instruction goes into x30.
    pub(crate) fn links(&mut self)
        ensures { self.new ≡ record self.old { machine = links self.old.machine } }
    {
        self.set_register(30, self.after());
    }

    pub(crate) fn read(&self, at: u64, size: Size) -> Result<u64, Trap>
        ensures { MatchResult result
            (λ value. (allowed Read self.now.machine.memory at (byte_count size) ≡ true) × (value ≡ load (byte_count size) self.now.machine.memory at))
            (λ trap. (allowed Read self.now.machine.memory at (byte_count size) ≡ false) × (trap ≡ DataAbort)) }
    {
        self.space.read(at, size).map_err(|_| Trap::DataAbort)
    }

    pub(crate) fn write(&mut self, at: u64, size: Size, value: u64) -> Result<(), Trap>
        ensures { MatchResult result
            (λ _. (allowed Write self.old.machine.memory at (byte_count size) ≡ true) × (self.new ≡ record self.old { machine = record self.old.machine { memory = store (byte_count size) self.old.machine.memory at value } }))
            (λ trap. (allowed Write self.old.machine.memory at (byte_count size) ≡ false) × (trap ≡ DataAbort) × (self.new ≡ self.old)) }
    {
        self.space
            .write(at, size, value)
            .map_err(|_| Trap::DataAbort)
    }

    /// Whether a number of this size may be written at `at`.
    #[tactic(auto, using(pa_mem::proofs::Found::allowing))]
    pub(crate) fn may_write(&self, at: u64, size: Size) -> bool
        ensures { result ≡ allowed Write self.now.machine.memory at (byte_count size) }
    {
        self.space.inside(at, size.count(), Rights::WRITE)
    }

    /// The instruction word at the place of the next instruction.
    pub(crate) fn fetch(&self) -> Result<u32, Trap>
        ensures { MatchResult result
            (λ word. fetch self.now.machine.memory self.now.machine.pc ≡ Some word)
            (λ trap. (fetch self.now.machine.memory self.now.machine.pc ≡ None) × (trap ≡ FetchAbort)) }
    {
        self.space.fetch(self.pc).map_err(|_| Trap::FetchAbort)
    }

    pub(crate) fn push_sign(&mut self, key: Key, modifier: u64, raw: u64, signed: u64)
        requires { length self.old.machine.log < self.old.log_limit }
        ensures { self.new ≡ record self.old { machine = spec.signs key modifier raw signed self.old.machine } }
    {
        self.log
            .push_sign(When::Step(self.count), key, modifier, raw, signed);
    }

    pub(crate) fn push_take(&mut self, key: Key, modifier: u64, raw: u64)
        requires { length self.old.machine.log < self.old.log_limit }
        ensures { self.new ≡ record self.old { machine = spec.takes key modifier raw self.old.machine } }
    {
        self.log
            .push_take(When::Step(self.count), key, modifier, raw);
    }

    /// The instruction is an indirect branch, and is done.
    pub(crate) fn lands(&mut self, way: Way, target: u64)
        requires count { self.old.machine.count + 1 < 2 ^ 32 }
        requires log { length self.old.machine.log < self.old.log_limit }
        ensures { self.new ≡ record self.old { machine = spec.lands way target self.old.machine } }
    {
        self.log.push_land(When::Step(self.count), way, target);
        self.goes_to(target);
    }

    /// The next byte of the input as a number of 64 bits, or -1 at its end.
    pub(crate) fn read_input(&mut self) -> u64
        ensures value { result ≡ first_or_end self.old.machine.input }
        ensures rest { self.new ≡ record self.old { machine = record self.old.machine { input = behind_first self.old.machine.input } } }
    {
        match self.input.next() {
            Some(byte) => u64::from(byte),
            None => u64::MAX,
        }
    }

    pub(crate) fn push_output(&mut self, byte: u8)
        requires { length self.old.machine.output < self.old.output_limit }
        ensures { self.new ≡ record self.old { machine = record self.old.machine { output = self.old.machine.output ++ byte ∷ [] } } }
    {
        let _ = self.output.push(byte);
    }

    /// The instruction is done, and the program has ended with the low 32 bits of x0 as its status.
    pub(crate) fn exits(&mut self)
        requires { self.old.machine.count + 1 < 2 ^ 32 }
        ensures { self.new ≡ record self.old { machine = exits self.old.machine } }
    {
        let status = (self.register(0) & 0xFFFF_FFFF) as u32;
        self.count += 1;
        self.ended = Some(End::Exit(status.cast_signed()));
    }

    /// The run has ended by this trap, which changes nothing else.
    pub fn ends(&mut self, trap: Trap)
        ensures { self.new ≡ record self.old { machine = ends (end.Trap trap) self.old.machine } }
    {
        self.ended = Some(End::Trap(trap));
    }

    /// What the second writer does to memory. A copy reads all its bytes first, and has at most 4,096.
    pub fn apply(&mut self, item: &Item)
        requires fits { deed_fits item.now.deed self.old.machine.memory ≡ true }
        requires short { copy_is_short item.now.deed ≡ true }
        ensures { self.new ≡ record self.old { machine = applied item.now self.old.machine } }
    {
        match &item.deed {
            Deed::Write { at, bytes } => {
                let _ = self.space.write_bytes(*at, bytes.as_slice());
            }
            Deed::Copy { to, from, count } => {
                let _ = self.space.copy(*to, *from, u64::from(*count));
            }
        }
    }
}
