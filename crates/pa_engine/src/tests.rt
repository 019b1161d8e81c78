use crate::reports::write_report;
use pa_io::{Calls, Failed, MemSink};
use pa_num::Bytes;
use pa_object::{End, Trap};
use pa_pac::{Entry, Event, Key, Way, When};
use std::alloc::{AllocError, Global};
use std::test::Fail;

// An entry of the instruction of this number.
fn entry(number: u32, event: Event) -> Entry {
    let when = When::Step(number);
    Entry { when, event }
}

fn sign(signed: u64) -> Event {
    Event::Sign {
        key: Key::IB,
        modifier: 0x1_7000_0000,
        raw: 0x1_0000_0404,
        signed,
    }
}

fn take(raw: u64, known: bool) -> Event {
    Event::Take {
        key: Key::IB,
        modifier: 0x1_7000_0000,
        raw,
        known,
    }
}

fn land(target: u64) -> Event {
    let way = Way::Return;
    Event::Land { way, target }
}

// A sink that takes four bytes a call, and fails at this one.
fn sink(alloc: Global, failing: u64) -> Result<MemSink, AllocError> {
    let fails = Calls::from_slice(alloc, &[failing])?;
    Ok(MemSink::new(Bytes::new(alloc), 4, 0, fails, 0))
}

// A function that signs its return address, saves it and returns.
fn returning() -> [Entry; 3] {
    [
        entry(1, sign(0x7405_0001_0000_0404)),
        entry(8, take(0x1_0000_0404, true)),
        entry(8, land(0x1_0000_0404)),
    ]
}

// The same without codes, and with the saved return address overwritten by zeros.
fn overwritten() -> [Entry; 3] {
    [
        entry(1, sign(0x1_0000_0404)),
        entry(8, take(0, false)),
        entry(8, land(0)),
    ]
}

const RETURNED: &[u8] = b"output 0

end exit 0
signs 1 takes 1 lands 1 unsigned 0
1 sign ib 0000000170000000 0000000100000404 7405000100000404
8 take ib 0000000170000000 0000000100000404 known
8 land return 0000000100000404
";

const FAILED: &[u8] = b"output 0

end trap auth_fail
signs 1 takes 0 lands 0 unsigned 0
1 sign ib 0000000170000000 0000000100000404 7405000100000404
";

const JUMPED: &[u8] = b"output 0

end trap fetch_abort
signs 1 takes 1 lands 1 unsigned 1
1 sign ib 0000000170000000 0000000100000404 0000000100000404
8 take ib 0000000170000000 0000000000000000 UNSIGNED
8 land return 0000000000000000
";

const SHORT: &[u8] = b"output 3
Hi!
end exit -31
signs 1 takes 1 lands 1 unsigned 1
8 take ib 0000000170000000 0000000000000000 UNSIGNED
";

const LOADED: &[u8] = b"output 0

end bound
signs 1 takes 0 lands 1 unsigned 0
load sign ia 0000000000001234 0000000100008010 9225000100008010
4294967295 land call 00000000ffffffff
";

#[test]
fn reports_are_written(rt: HostRuntime) -> Result<(), Fail> {
    let returned = returning();
    let jumped = overwritten();
    let key = Key::IA;
    let event = Event::Sign {
        key,
        modifier: 0x1234,
        raw: 0x1_0000_8010,
        signed: 0x9225_0001_0000_8010,
    };
    let when = When::Load;
    let way = Way::Call;
    let target = 0xFFFF_FFFF;
    let loaded = [
        Entry { when, event },
        entry(0xFFFF_FFFF, Event::Land { way, target }),
    ];
    let cases: [(&[u8], End, &[Entry], bool, &[u8]); 5] = [
        (b"", End::Exit(0), &returned, false, RETURNED),
        (
            b"",
            End::Trap(Trap::AuthFail),
            &returned[..1],
            false,
            FAILED,
        ),
        (b"", End::Trap(Trap::FetchAbort), &jumped, false, JUMPED),
        (b"Hi!", End::Exit(-31), &jumped, true, SHORT),
        (b"", End::Bound, &loaded, false, LOADED),
    ];
    for (output, end, entries, short, wanted) in cases {
        let mut out = sink(rt.alloc(), 0)?;
        assert_eq!(rt; write_report(output, end, entries, short, &mut out), Ok(()));
        assert_eq!(rt; out.written.as_slice(), wanted);
    }
    Ok(())
}

#[test]
fn a_fault_leaves_a_prefix(rt: HostRuntime) -> Result<(), Fail> {
    let entries = returning();
    for failing in 1..100 {
        let mut out = sink(rt.alloc(), failing)?;
        let answer = write_report(b"", End::Exit(0), &entries, false, &mut out);
        let calls = RETURNED.len() as u64 / 4;
        assert!(rt; RETURNED.starts_with(out.written.as_slice()));
        if failing < calls {
            assert_eq!(rt; answer, Err(Failed), "at {failing}");
            assert!(rt; out.written.len() < RETURNED.len());
        }
        if answer.is_ok() {
            assert_eq!(rt; out.written.as_slice(), RETURNED);
        }
    }
    Ok(())
}
