use crate::attacks::{
    CALLS_FIRST, CALLS_FIRST_BY_PLACE, CALLS_POINTER, CALLS_TWICE, COUNTS, PRINTS, PRINTS_FOREVER,
    RETURNS, SPILLS,
};
use crate::program::{Counts, run_beside};
use pa_log::{Entry, Event, When};
use pa_machine::{End, Trap};
use pa_num::Fault;
use pa_pac::{FoldPac, Key, Pac, Way, ZeroPac};
use pa_script::ScriptRule;
use std::alloc::Global;
use std::process::Abort;

/// A program, a script, the end, the output, and the numbers of signatures, takes, branches and unsigned takes.
type Row<'a> = (&'a [u32], &'a [u8], End, &'a [u8], [usize; 4]);

/// More instructions than any of the programs that end runs.
const BOUND: u32 = 1000;

const DONE: End = End::Exit(0);

const REFUSED: End = End::Trap(Trap::AuthFail);

fn assert_shown<P: Pac>(rt: &impl Abort, alloc: Global, rows: &[Row], p: &P) {
    for (words, script, end, output, counts) in rows.iter().copied() {
        let Ok(shown) = run_beside(alloc, words, b"a.......b.......", script, BOUND, p) else {
            panic!(rt; "the script fits");
        };
        assert_eq!(rt; shown.end, end);
        assert_eq!(rt; shown.output.as_slice(), output);
        let [signs, takes, lands, unsigned] = counts;
        let counts = Counts {
            signs,
            takes,
            lands,
            unsigned,
        };
        assert_eq!(rt; shown.counts, counts);
    }
}

#[test]
fn unattacked(rt: HostRuntime) {
    let rows = [
        (RETURNS, &b""[..], DONE, &b""[..], [1, 1, 1, 0]),
        (CALLS_TWICE, b"", DONE, b"12", [2, 2, 2, 0]),
        (COUNTS, b"", DONE, b"AA", [0, 0, 0, 0]),
        (PRINTS, b"", DONE, b"a", [0, 0, 0, 0]),
        (SPILLS, b"", DONE, b"B", [0, 0, 0, 0]),
        (CALLS_POINTER, b"", DONE, b"B", [1, 1, 2, 0]),
        (CALLS_FIRST, b"", DONE, b"a", [2, 1, 2, 0]),
        (CALLS_FIRST_BY_PLACE, b"", DONE, b"a", [2, 1, 2, 0]),
    ];
    assert_shown(&rt, rt.alloc(), &rows, &FoldPac);
    assert_shown(&rt, rt.alloc(), &rows, &ZeroPac);
}

/// The scripts of `examples/attacks`.
#[test]
fn attacked(rt: HostRuntime) {
    let rows = [
        // The return address in the frame is overwritten.
        (
            RETURNS,
            &b"4 write 0x16ffffff8 0000000000000000\n"[..],
            REFUSED,
            &b""[..],
            [1, 0, 0, 0],
        ),
        // The first call's return address is put into the frame of the second.
        (
            CALLS_TWICE,
            b"4 copy 0x100004008 0x16ffffff8 8\n14 copy 0x16ffffff8 0x100004008 8\n",
            DONE,
            b"112",
            [3, 3, 3, 0],
        ),
        // The counter becomes 5.
        (
            COUNTS,
            b"5 write 0x16ffffff0 0500000000000000\n",
            DONE,
            b"AAAAA",
            [0, 0, 0, 0],
        ),
        // The first byte becomes the ninth.
        (
            PRINTS,
            b"0 copy 0x100004000 0x100004008 1\n",
            DONE,
            b"b",
            [0, 0, 0, 0],
        ),
        // The number on the stack becomes 88.
        (
            SPILLS,
            b"3 write 0x16ffffff8 58\n",
            DONE,
            b"Y",
            [0, 0, 0, 0],
        ),
        // The signed pointer becomes the plain address of the other function.
        (
            CALLS_POINTER,
            b"5 write 0x100004000 3804000001000000\n",
            REFUSED,
            b"",
            [1, 0, 0, 0],
        ),
    ];
    assert_shown(&rt, rt.alloc(), &rows, &FoldPac);
}

/// Where every code is 0, what was never signed is accepted, and the log marks it.
#[test]
fn attacked_without_codes(rt: HostRuntime) {
    let rows = [
        (
            RETURNS,
            &b"4 write 0x16ffffff8 0000000000000000\n"[..],
            End::Trap(Trap::FetchAbort),
            &b""[..],
            [1, 1, 1, 1],
        ),
        (
            CALLS_POINTER,
            b"5 write 0x100004000 3804000001000000\n",
            DONE,
            b"C",
            [1, 1, 2, 1],
        ),
    ];
    assert_shown(&rt, rt.alloc(), &rows, &ZeroPac);
}

/// The second writer comes before the instruction of its number: the frame holds the return address from 4 to 5.
#[test]
fn attacked_at_each_instruction(rt: HostRuntime) {
    let rows = [
        (&b"0"[..], DONE),
        (b"1", DONE),
        (b"2", DONE),
        (b"3", DONE),
        (b"4", REFUSED),
        (b"5", REFUSED),
        (b"6", DONE),
        (b"7", DONE),
        (b"8", DONE),
        (b"9", DONE),
        (b"10", DONE),
        (b"12", DONE),
    ];
    for (step, end) in rows {
        let mut text = Vec::from_slice(rt.alloc(), step).expect(&rt, "ample memory");
        let written = text.extend_from_slice(b" write 0x16ffffff8 0000000000000000");
        assert!(rt; written.is_ok());
        let data = b"................";
        let Ok(shown) = run_beside(rt.alloc(), RETURNS, data, text.as_slice(), BOUND, &FoldPac)
        else {
            panic!(rt; "the script fits");
        };
        assert_eq!(rt; shown.end, end);
    }
}

/// A signed pointer is copied over another. It is good there where both have one modifier, and where the place is in the
/// modifier only if every code is 0.
#[test]
fn replayed(rt: HostRuntime) {
    let by_modifier: Row = (
        CALLS_FIRST,
        b"10 copy 0x100004000 0x100004008 8\n",
        DONE,
        b"b",
        [2, 1, 2, 0],
    );
    let refused: Row = (
        CALLS_FIRST_BY_PLACE,
        b"13 copy 0x100004000 0x100004008 8\n",
        REFUSED,
        b"",
        [2, 0, 0, 0],
    );
    let accepted: Row = (
        CALLS_FIRST_BY_PLACE,
        b"13 copy 0x100004000 0x100004008 8\n",
        DONE,
        b"b",
        [2, 1, 2, 1],
    );
    assert_shown(&rt, rt.alloc(), &[by_modifier, refused], &FoldPac);
    assert_shown(&rt, rt.alloc(), &[by_modifier, accepted], &ZeroPac);
}

/// The return address that `RETURNS` signs, with the stack pointer as its modifier.
fn signed(signed: u64) -> Entry {
    let event = Event::Sign {
        key: Key::IB,
        modifier: 0x1_7000_0000,
        raw: 0x1_0000_0404,
        signed,
    };
    Entry {
        when: When::Step(1),
        event,
    }
}

/// The acceptance of this return address.
fn accepted(raw: u64, known: bool) -> Entry {
    let event = Event::Take {
        key: Key::IB,
        modifier: 0x1_7000_0000,
        raw,
        known,
    };
    Entry {
        when: When::Step(8),
        event,
    }
}

fn returned(target: u64) -> Entry {
    let event = Event::Land {
        way: Way::Return,
        target,
    };
    Entry {
        when: When::Step(8),
        event,
    }
}

/// What `RETURNS` logs beside this script.
fn assert_logged<P: Pac>(rt: &impl Abort, alloc: Global, script: &[u8], log: &[Entry], p: &P) {
    let data = b"................";
    let Ok(shown) = run_beside(alloc, RETURNS, data, script, BOUND, p) else {
        panic!(rt; "the script fits");
    };
    assert_eq!(rt; shown.log.entries(), log);
}

#[test]
fn logged(rt: HostRuntime) {
    let script = b"4 write 0x16ffffff8 0000000000000000\n";
    let by_fold = signed(0x7405_0001_0000_0404);
    let address = 0x1_0000_0404;
    let good = [by_fold, accepted(address, true), returned(address)];
    assert_logged(&rt, rt.alloc(), b"", &good, &FoldPac);
    assert_logged(&rt, rt.alloc(), script, &[by_fold], &FoldPac);
    let wrong = [signed(address), accepted(0, false), returned(0)];
    assert_logged(&rt, rt.alloc(), script, &wrong, &ZeroPac);
}

/// A run stops at its bound, and items of the bound's number or above it are never applied.
#[test]
fn stops_at_its_bound(rt: HostRuntime) {
    let rows = [
        (0, 0, &b""[..], b'a'),
        (1, 0, b"", b'a'),
        (2, 1, b"", b'a'),
        (20_000, 6_667, b"", b'a'),
        (20_000, 6_667, b"20001 write 0x100004000 58", b'a'),
        (20_000, 6_667, b"20000 write 0x100004000 58", b'a'),
        (20_000, 6_667, b"19999 write 0x100004000 58", b'X'),
    ];
    for (bound, printed, script, data) in rows {
        let bytes = b"a...............";
        let Ok(shown) = run_beside(rt.alloc(), PRINTS_FOREVER, bytes, script, bound, &FoldPac)
        else {
            panic!(rt; "the script fits");
        };
        assert_eq!(rt; shown.end, End::Bound);
        assert_eq!(rt; shown.output.len(), printed);
        assert!(rt; shown.output.as_slice().iter().all(|byte| *byte == 65));
        assert_eq!(rt; shown.data, Ok(u64::from(data)));
    }
}

/// What is refused is the first line that breaks a rule of form, and else the first whose item doesn't fit.
#[test]
fn refused(rt: HostRuntime) {
    let rows = [
        (&b"5 write 0x16ffffff8 0"[..], ScriptRule::P1, 1),
        (
            b"5 write 0x16ffffff8 00\n4 write 0x16ffffff8 00",
            ScriptRule::P2,
            2,
        ),
        (b"0 write 0x100000400 00", ScriptRule::P4, 1),
        (
            b"5 write 0x100000400 00\n4 write 0x16ffffff8 00",
            ScriptRule::P2,
            2,
        ),
        (
            b"0 write 0x16ffffff8 00\n2000001 write 0x100000400 00",
            ScriptRule::P4,
            2,
        ),
    ];
    for (script, rule, place) in rows {
        let data = b"................";
        let Err(fault) = run_beside(rt.alloc(), RETURNS, data, script, BOUND, &FoldPac) else {
            panic!(rt; "the script is refused");
        };
        assert_eq!(rt; fault, Fault::Refused { rule, place });
    }
}
