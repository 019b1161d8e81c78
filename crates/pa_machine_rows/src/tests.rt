ghost use Rattle.std.specs.Prelude.{◌≡◌, IfOk, length, List, true};
ghost use Rattle.pa_mem.specs.Memory.{Region, Read, Write, allowed};
ghost use Rattle.pa_object.specs.Script.{deed_fits, is_line};

use pa_log::Log;
use pa_machine::{End, Flags, Loaded, Machine, Trap};
use pa_mem::{Rights, Size, Space};
use pa_num::{Bytes, Memory};
use pa_object::{Deed, Item};
use pa_pac::{Entry, Event, Key, Way, When, ZeroPac};
use std::alloc::Global;

const ALL: Rights = Rights {
    read: true,
    write: true,
    run: true,
};

fn sixteen(alloc: Global) -> Result<Bytes, Memory>
    ensures { IfOk result (λ bytes. length bytes ≡ 16) }
{
    let bytes = Bytes::from_slice(alloc, &[0; 16])?;
    Ok(bytes)
}

// Sixteen bytes to read and write at 0x2000, sixteen more right behind them, and these words at 0x4000.
#[tactic(auto, using(pa_mem::proofs::Found::allowing))]
fn space(alloc: Global, words: &[u32], rights: Rights) -> Result<Space, Memory>
    ensures read { IfOk result (λ space. allowed Read space 0x2000 16 ≡ true) }
    ensures write { IfOk result (λ space. allowed Write space 0x2010 16 ≡ true) }
{
    let data = Rights {
        read: true,
        write: true,
        run: false,
    };
    let mut space = Space::new(alloc);
    space.add(0x2000, sixteen(alloc)?, data)?;
    space.add(0x2010, sixteen(alloc)?, data)?;
    space.add(0x4000, code(alloc, words)?, rights)?;
    if space.inside(0x2000, 16, Rights::READ) && space.inside(0x2010, 16, Rights::WRITE) {
        Ok(space)
    } else {
        Err(Memory)
    }
}

fn machine<'a>(alloc: Global, words: &[u32], p: &'a ZeroPac) -> Result<Machine<'a, ZeroPac>, Memory>
    ensures read { IfOk result (λ made. allowed Read made.machine.memory 0x2000 16 ≡ true) }
    ensures write { IfOk result (λ made. allowed Write made.machine.memory 0x2010 16 ≡ true) }
{
    machine_under(alloc, words, Rights::RUN, p)
}

// The words lie in a region with these rights.
fn machine_under<'a>(
    alloc: Global,
    words: &[u32],
    rights: Rights,
    p: &'a ZeroPac,
) -> Result<Machine<'a, ZeroPac>, Memory>
    ensures read { IfOk result (λ made. allowed Read made.machine.memory 0x2000 16 ≡ true) }
    ensures write { IfOk result (λ made. allowed Write made.machine.memory 0x2010 16 ≡ true) }
{
    let loaded = Loaded {
        space: space(alloc, words, rights)?,
        log: Log::new(alloc),
        pc: 0x4000,
        sp: 0x2010,
    };
    Machine::new(alloc, loaded, b"z", p)
}

#[test]
fn ends(rt: HostRuntime) {
    let rows = [
        // svc #4; brk #0; a word of no row; no word at all.
        (&[0xD400_0081][..], End::Trap(Trap::BadWord)),
        (&[0xD420_0000][..], End::Trap(Trap::Break)),
        (&[0][..], End::Trap(Trap::BadWord)),
        (&[][..], End::Trap(Trap::FetchAbort)),
        // A pair over the border of two regions, and a sum of what it reads back.
        (
            &[
                0xD284_0101,
                0xD280_00E2,
                0xD280_0123,
                0xA900_0C22,
                0xA940_1424,
                0x8B05_0080,
                0xD400_0061,
            ][..],
            End::Exit(16),
        ),
        // A pair whose second half lies in no region.
        (&[0xD284_0301, 0xA900_0C22][..], End::Trap(Trap::DataAbort)),
        // A signed address that was changed.
        (
            &[0xD503_237F, 0xD2E0_021E, 0xD65F_0FFF][..],
            End::Trap(Trap::AuthFail),
        ),
    ];
    for (words, expected) in rows {
        let mut machine = machine(rt.alloc(), words, &ZeroPac).expect(&rt, "ample memory");
        assert_eq!(rt; machine.run(&[], 100), Ok(expected));
        assert!(rt; machine.output().is_empty());
    }
}

#[test]
fn stops_at_its_bound(rt: HostRuntime) {
    // Prints x0, reads a byte, prints it, reads at the input's end, and exits.
    let words = [
        0xD280_2820,
        0xD400_0021,
        0xD400_0041,
        0xD400_0021,
        0xD400_0041,
        0xD400_0061,
    ];
    let mut machine = machine(rt.alloc(), &words, &ZeroPac).expect(&rt, "ample memory");
    assert_eq!(rt; machine.run(&[], 0), Ok(End::Bound));
    assert_eq!(rt; machine.run(&[], 1), Ok(End::Bound));
    assert!(rt; machine.output().is_empty());
    assert_eq!(rt; machine.run(&[], 5), Ok(End::Bound));
    assert_eq!(rt; machine.output(), &b"Az"[..]);
    assert_eq!(rt; machine.run(&[], 6), Ok(End::Exit(-1)));
    assert_eq!(rt; machine.run(&[], 7), Ok(End::Exit(-1)));
    assert_eq!(rt; machine.output(), &b"Az"[..]);
}

#[test]
fn calls_by_x30(rt: HostRuntime) {
    // blraa x30, x1 goes to the old x30 and leaves the next place there, which becomes the status.
    let words = [
        0xD288_021E,
        0xD280_00A1,
        0xD73F_0BC1,
        0xD420_0000,
        0xAA1E_03E0,
        0xD400_0061,
    ];
    let mut machine = machine(rt.alloc(), &words, &ZeroPac).expect(&rt, "ample memory");
    assert_eq!(rt; machine.run(&[], 100), Ok(End::Exit(0x400C)));
    let take = Event::Take {
        key: Key::IA,
        modifier: 5,
        raw: 0x4010,
        known: false,
    };
    let land = Event::Land {
        way: Way::Call,
        target: 0x4010,
    };
    let when = When::Step(2);
    assert_eq!(rt;
        machine.log().entries(),
        &[Entry { when, event: take }, Entry { when, event: land }][..]
    );
}

#[test]
fn runs_what_it_has_written(rt: HostRuntime) {
    // A loop whose first instruction, movz x0, #5, is written over by svc #3.
    let words = [
        0xD288_0001,
        0xD280_0C22,
        0xF2BA_8002,
        0xD280_00A0,
        0xB900_0C22,
        0x17FF_FFFE,
    ];
    let rows = [
        (ALL, End::Exit(5)),
        (Rights::RUN, End::Trap(Trap::DataAbort)),
    ];
    for (rights, expected) in rows {
        let mut machine = machine_under(rt.alloc(), &words, rights, &ZeroPac).expect(
            &rt,
            "ample memory",
        );
        assert_eq!(rt; machine.run(&[], 100), Ok(expected));
    }
}

// movz x0, #5; ret x30.
fn gives_five(alloc: Global) -> Result<Bytes, Memory>
    ensures { IfOk result (λ bytes. length bytes ≡ 8) }
{
    let bytes = Bytes::from_slice(alloc, &[0xA0, 0x00, 0x80, 0xD2, 0xC0, 0x03, 0x5F, 0xD6])?;
    Ok(bytes)
}

fn code(alloc: Global, words: &[u32]) -> Result<Bytes, Memory> {
    let mut code = Bytes::new(alloc);
    for word in words {
        code.extend_from_slice(&word.to_le_bytes())?;
    }
    Ok(code)
}

// Code at 0x1000 that may also be written, and these words at 0x4000, which may be run alone.
fn two_codes(alloc: Global, words: &[u32]) -> Result<Space, Memory> {
    let mut space = Space::new(alloc);
    space.add(0x1000, gives_five(alloc)?, ALL)?;
    space.add(0x4000, code(alloc, words)?, Rights::RUN)?;
    Ok(space)
}

#[test]
fn runs_what_it_has_written_beside_code_that_stays(rt: HostRuntime) {
    // Calls what stands at 0x1000, writes svc #3 there, and calls it again.
    let words = [
        0xD282_0001,
        0xD63F_0020,
        0xD280_0C22,
        0xF2BA_8002,
        0xB900_0022,
        0xD63F_0020,
        0xD420_0000,
    ];
    let loaded = Loaded {
        space: two_codes(rt.alloc(), &words).expect(&rt, "ample memory"),
        log: Log::new(rt.alloc()),
        pc: 0x4000,
        sp: 0x2010,
    };
    let mut machine = Machine::new(rt.alloc(), loaded, &[], &ZeroPac).expect(&rt, "ample memory");
    assert_eq!(rt; machine.run(&[], 4), Ok(End::Bound));
    assert_eq!(rt; (machine.pc(), machine.registers()[0]), (0x4008, 5));
    assert_eq!(rt; machine.run(&[], 100), Ok(End::Exit(5)));
    assert_eq!(rt; machine.count(), 9);
}

#[test]
fn shows_its_state(rt: HostRuntime) {
    // subs x1, x0, #7, and svc #3.
    let words = [0xF100_1C01, 0xD400_0061];
    let machine = machine(rt.alloc(), &words, &ZeroPac).expect(&rt, "ample memory");
    let mut registers = [0; 31];
    registers[0] = 7;
    let mut machine = machine.with_registers(registers);
    assert_eq!(rt; machine.run(&[], 1), Ok(End::Bound));
    assert_eq!(rt;
        (machine.pc(), machine.sp(), machine.count()),
        (0x4004, 0x2010, 1)
    );
    assert_eq!(rt; machine.ended(), None);
    let flags = Flags {
        negative: false,
        zero: true,
        carry: true,
        overflow: false,
    };
    assert_eq!(rt; machine.flags(), flags);
    assert_eq!(rt; &machine.registers()[..2], &[7, 0][..]);
    assert_eq!(rt; machine.space().read(0x2000, Size::B8), Ok(0));
    assert_eq!(rt; machine.run(&[], 2), Ok(End::Exit(7)));
}

// Room for all the steps that there can be is more than memory holds.
#[test]
fn stays_where_memory_is_wanting(rt: HostRuntime) {
    // Prints A, signs x30, and exits.
    let words = [0xD280_0820, 0xD400_0021, 0xD503_237F, 0xD400_0061];
    let mut machine = machine(rt.alloc(), &words, &ZeroPac).expect(&rt, "ample memory");
    assert_eq!(rt; machine.run(&[], 3), Ok(End::Bound));
    assert_eq!(rt; machine.reserve(u32::MAX), Err(Memory));
    let event = Event::Sign {
        key: Key::IB,
        modifier: 0x2010,
        raw: 0,
        signed: 0,
    };
    let when = When::Step(2);
    assert_eq!(rt; machine.log().entries(), &[Entry { when, event }][..]);
    assert_eq!(rt; machine.output(), &b"A"[..]);
    assert_eq!(rt; machine.run(&[], 100), Ok(End::Exit(65)));
}

// This byte sixteen times over the second region.
fn fill(alloc: Global, step: u32, byte: u8) -> Result<Item, Memory>
    ensures fits { IfOk result (λ item. (memory : List Region) → allowed Write memory 0x2010 16 ≡ true → deed_fits item.deed memory ≡ true) }
    ensures line { IfOk result (λ item. is_line item ≡ true) }
    ensures step { IfOk result (λ item. item.step ≡ step) }
{
    let bytes = Bytes::from_slice(alloc, &[byte; 16])?;
    Ok(Item {
        step,
        deed: Deed::Write { at: 0x2010, bytes },
    })
}

// The first region copied over the second.
fn copy(step: u32) -> Item
    ensures fits { (memory : List Region) → allowed Read memory 0x2000 16 ≡ true → allowed Write memory 0x2010 16 ≡ true → deed_fits result.deed memory ≡ true }
    ensures line { is_line result ≡ true }
    ensures step { result.step ≡ step }
{
    Item {
        step,
        deed: Deed::Copy {
            to: 0x2010,
            from: 0x2000,
            count: 16,
        },
    }
}

#[test]
fn applies_an_item_before_its_instruction(rt: HostRuntime) {
    // ldr x0, [sp, #0]; svc #3.
    let words = [0xF940_03E0, 0xD400_0061];
    for (step, status) in [(0, 0x0707_0707), (1, 0), (2, 0)] {
        let mut machine = machine(rt.alloc(), &words, &ZeroPac).expect(&rt, "ample memory");
        let item = fill(rt.alloc(), step, 7).expect(&rt, "ample memory");
        assert_eq!(rt; machine.run(&[item], 100), Ok(End::Exit(status)));
    }
}

#[test]
fn applies_items_in_order(rt: HostRuntime) {
    // movz x0, #5; stur x0, [sp, #-16]; ldr x0, [sp, #0]; svc #3.
    let words = [0xD280_00A0, 0xF81F_03E0, 0xF940_03E0, 0xD400_0061];
    let mut first = machine(rt.alloc(), &words, &ZeroPac).expect(&rt, "ample memory");
    let filled = fill(rt.alloc(), 2, 7).expect(&rt, "ample memory");
    assert_eq!(rt; first.run(&[filled, copy(2)], 100), Ok(End::Exit(5)));
    let mut second = machine(rt.alloc(), &words, &ZeroPac).expect(&rt, "ample memory");
    let filled = fill(rt.alloc(), 2, 7).expect(&rt, "ample memory");
    assert_eq!(rt;
        second.run(&[copy(2), filled], 100),
        Ok(End::Exit(0x0707_0707))
    );
}
