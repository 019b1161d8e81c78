use crate::program::{FIRST, NEXT, SP, State, run};
use crate::signing::{LANDS, SIGNS, TAKES};
use crate::tables::{BRANCHES, COMPUTES, LOADS, SPS, STORES};
use pa_machine::{End, Trap};
use pa_pac::{Entry, Event, Key, Way, When};

const WHEN: When = When::Step(FIRST);

#[test]
fn computes(rt: HostRuntime) {
    for (text, word, given, x0, flags) in COMPUTES {
        let left = run(rt.alloc(), word, given).expect(&rt, "ample memory");
        let state = State {
            x0,
            flags,
            ..State::given(given)
        };
        assert_eq!(rt; left.numbers.as_slice(), &state.numbers()[..], "{text}");
        assert!(rt; left.log.entries().is_empty(), "{text}");
    }
}

#[test]
fn gives_the_stack_pointer(rt: HostRuntime) {
    for (text, word, given, sp) in SPS {
        let left = run(rt.alloc(), word, given).expect(&rt, "ample memory");
        let state = State {
            sp,
            ..State::given(given)
        };
        assert_eq!(rt; left.numbers.as_slice(), &state.numbers()[..], "{text}");
    }
}

#[test]
fn loads(rt: HostRuntime) {
    for (text, word, given, [x0, x1]) in LOADS {
        let left = run(rt.alloc(), word, given).expect(&rt, "ample memory");
        let state = State {
            x0,
            x1,
            ..State::given(given)
        };
        assert_eq!(rt; left.numbers.as_slice(), &state.numbers()[..], "{text}");
    }
}

#[test]
fn stores(rt: HostRuntime) {
    for (text, word, given, cells) in STORES {
        let left = run(rt.alloc(), word, given).expect(&rt, "ample memory");
        let state = State {
            cells,
            ..State::given(given)
        };
        assert_eq!(rt; left.numbers.as_slice(), &state.numbers()[..], "{text}");
    }
}

#[test]
fn branches(rt: HostRuntime) {
    for (text, word, given, skips, link) in BRANCHES {
        let left = run(rt.alloc(), word, given).expect(&rt, "ample memory");
        let state = State {
            skips,
            link,
            ..State::given(given)
        };
        assert_eq!(rt; left.numbers.as_slice(), &state.numbers()[..], "{text}");
    }
}

#[test]
fn notes_ways(rt: HostRuntime) {
    let rows = [
        ("br x1", 0xd61f_0020, Way::Jump),
        ("blr x1", 0xd63f_0020, Way::Call),
        ("ret x1", 0xd65f_0020, Way::Return),
    ];
    for (text, word, way) in rows {
        let left = run(rt.alloc(), word, [0, NEXT, 0, 0]).expect(&rt, "ample memory");
        let event = Event::Land { way, target: NEXT };
        assert_eq!(rt;
            left.log.entries(),
            &[Entry { when: WHEN, event }][..],
            "{text}"
        );
    }
}

#[test]
fn signs(rt: HostRuntime) {
    for (text, word, given, key, modifier, signed) in SIGNS {
        let left = run(rt.alloc(), word, given).expect(&rt, "ample memory");
        let state = State {
            x0: signed,
            ..State::given(given)
        };
        assert_eq!(rt; left.numbers.as_slice(), &state.numbers()[..], "{text}");
        let raw = state_before(given);
        let event = Event::Sign {
            key,
            modifier,
            raw,
            signed,
        };
        assert_eq!(rt;
            left.log.entries(),
            &[Entry { when: WHEN, event }][..],
            "{text}"
        );
    }
}

// Each of these rows signs what x0 is given.
fn state_before(given: [u64; 4]) -> u64 {
    let [x0, _, _, _] = given;
    x0
}

#[test]
fn signs_the_link(rt: HostRuntime) {
    let rows = [
        (0x1_0000_8010, 0x8020_0001_0000_8010),
        (0xffff_0000_0000_1000, 0x10b1_0000_0000_1000),
    ];
    for (raw, signed) in rows {
        // pacibsp, and autibsp of what it makes.
        let signing = run(rt.alloc(), 0xd503_237f, [0, raw, 0, 0]).expect(&rt, "ample memory");
        let taking = run(rt.alloc(), 0xd503_23ff, [0, signed, 0, 0]).expect(&rt, "ample memory");
        let state = State {
            link: signed,
            ..State::given([0, raw, 0, 0])
        };
        assert_eq!(rt; signing.numbers.as_slice(), &state.numbers()[..]);
        let state = State {
            link: raw,
            ..State::given([0, signed, 0, 0])
        };
        assert_eq!(rt; taking.numbers.as_slice(), &state.numbers()[..]);
        let event = Event::Sign {
            key: Key::IB,
            modifier: SP,
            raw,
            signed,
        };
        assert_eq!(rt; signing.log.entries(), &[Entry { when: WHEN, event }][..]);
        let event = Event::Take {
            key: Key::IB,
            modifier: SP,
            raw,
            known: false,
        };
        assert_eq!(rt; taking.log.entries(), &[Entry { when: WHEN, event }][..]);
    }
}

#[test]
fn takes(rt: HostRuntime) {
    for (text, word, given, key, modifier, raw) in TAKES {
        let left = run(rt.alloc(), word, given).expect(&rt, "ample memory");
        let state = State {
            x0: raw,
            ..State::given(given)
        };
        assert_eq!(rt; left.numbers.as_slice(), &state.numbers()[..], "{text}");
        let event = Event::Take {
            key,
            modifier,
            raw,
            known: false,
        };
        assert_eq!(rt;
            left.log.entries(),
            &[Entry { when: WHEN, event }][..],
            "{text}"
        );
    }
}

#[test]
fn lands(rt: HostRuntime) {
    for (text, word, given, key, modifier, way, raw, link) in LANDS {
        let left = run(rt.alloc(), word, given).expect(&rt, "ample memory");
        let state = State {
            skips: raw != NEXT,
            link,
            ..State::given(given)
        };
        assert_eq!(rt; left.numbers.as_slice(), &state.numbers()[..], "{text}");
        let take = Event::Take {
            key,
            modifier,
            raw,
            known: false,
        };
        let land = Event::Land { way, target: raw };
        let entries = [
            Entry {
                when: WHEN,
                event: take,
            },
            Entry {
                when: WHEN,
                event: land,
            },
        ];
        assert_eq!(rt; left.log.entries(), &entries[..], "{text}");
    }
}

#[test]
fn strips(rt: HostRuntime) {
    // xpaci x0, with bit 55 clear, set, and without a code.
    let rows = [
        (0x8014_0001_0000_8010, 0x1_0000_8010),
        (0x1280_0000_0000_1000, 0xffff_0000_0000_1000),
        (0x1_0000_8010, 0x1_0000_8010),
    ];
    for (value, raw) in rows {
        let given = [value, 0, 0, 0];
        let left = run(rt.alloc(), 0xdac1_43e0, given).expect(&rt, "ample memory");
        let state = State {
            x0: raw,
            ..State::given(given)
        };
        assert_eq!(rt; left.numbers.as_slice(), &state.numbers()[..]);
        assert!(rt; left.log.entries().is_empty());
    }
}

// A trap prints nothing and leaves no entry.
#[test]
fn traps(rt: HostRuntime) {
    let rows = [
        (
            "autia x0, x2",
            0xdac1_1040,
            0x9225_0001_0000_8014,
            Trap::AuthFail,
        ),
        (
            "autib x0, x2",
            0xdac1_1440,
            0x9225_0001_0000_8010,
            Trap::AuthFail,
        ),
        (
            "autda x0, x2",
            0xdac1_1840,
            0x9225_0001_0000_8010,
            Trap::AuthFail,
        ),
        (
            "autdb x0, x2",
            0xdac1_1c40,
            0x9225_0001_0000_8010,
            Trap::AuthFail,
        ),
        (
            "autiza x0",
            0xdac1_33e0,
            0x9225_0001_0000_8010,
            Trap::AuthFail,
        ),
        (
            "braa x0, x2",
            0xd71f_0802,
            0x9225_0001_0000_8014,
            Trap::AuthFail,
        ),
        (
            "blraa x0, x2",
            0xd73f_0802,
            0x9225_0001_0000_8014,
            Trap::AuthFail,
        ),
        (
            "blrab x0, x2",
            0xd73f_0c02,
            0x9225_0001_0000_8010,
            Trap::AuthFail,
        ),
        (
            "blraaz x0",
            0xd63f_081f,
            0x9225_0001_0000_8010,
            Trap::AuthFail,
        ),
        ("retab", 0xd65f_0fff, 0, Trap::AuthFail),
        ("autibsp", 0xd503_23ff, 0, Trap::AuthFail),
        ("ldr x0, [x0, #0]", 0xf940_0000, 0x1f_fff9, Trap::DataAbort),
        ("str x0, [x0, #0]", 0xf900_0000, 0x20_0049, Trap::DataAbort),
        (
            "str x0, [x0, #0]",
            0xf900_0000,
            0x1_0000_0000,
            Trap::DataAbort,
        ),
        (
            "ldrsw x1, [x0, #0]",
            0xb980_0001,
            0x20_004d,
            Trap::DataAbort,
        ),
        ("ldrh x1, [x0, #0]", 0x7940_0001, 0x20_004f, Trap::DataAbort),
        ("ldrb x1, [x0, #0]", 0x3940_0001, 0x20_0050, Trap::DataAbort),
        (
            "ldur x1, [x0, #-1]",
            0xf85f_f001,
            0x20_0000,
            Trap::DataAbort,
        ),
        (
            "ldp x1, x2, [x0, #0]",
            0xa940_0801,
            0x20_0048,
            Trap::DataAbort,
        ),
        (
            "stp x1, x2, [x0, #0]",
            0xa900_0801,
            0x20_0048,
            Trap::DataAbort,
        ),
        (
            "stp x1, x2, [x0, #0]",
            0xa900_0801,
            0x1f_fff8,
            Trap::DataAbort,
        ),
        ("brk #0", 0xd420_0000, 0, Trap::Break),
        ("brk #65535", 0xd43f_ffe0, 0, Trap::Break),
        ("svc #0", 0xd400_0001, 0, Trap::BadWord),
        ("svc #4", 0xd400_0081, 0, Trap::BadWord),
        ("a word of no row", 0, 0, Trap::BadWord),
        ("ldp x0, x0, [x1, #0]", 0xa940_0020, 0, Trap::BadWord),
    ];
    for (text, word, x0, trap) in rows {
        let given = [x0, 0, 0x1234, 0];
        let left = run(rt.alloc(), word, given).expect(&rt, "ample memory");
        assert_eq!(rt; left.end, End::Trap(trap), "{text}");
        assert!(rt; left.numbers.is_empty(), "{text}");
        assert!(rt; left.log.entries().is_empty(), "{text}");
    }
}

// A branch to a place where no word can be fetched lands there first.
#[test]
fn lands_where_nothing_is(rt: HostRuntime) {
    for target in [0, NEXT + 2, SP] {
        let left = run(rt.alloc(), 0xd61f_0020, [0, target, 0, 0]).expect(&rt, "ample memory");
        assert_eq!(rt; left.end, End::Trap(Trap::FetchAbort));
        let event = Event::Land {
            way: Way::Jump,
            target,
        };
        assert_eq!(rt; left.log.entries(), &[Entry { when: WHEN, event }][..]);
    }
}

// svc #1 prints the low byte of x0, and leaves it there.
#[test]
fn prints(rt: HostRuntime) {
    for (x0, byte) in [(0x141, 0x41), (u64::MAX, 0xff)] {
        let given = [x0, 0, 0, 0];
        let left = run(rt.alloc(), 0xd400_0021, given).expect(&rt, "ample memory");
        let state = State {
            x0: u64::from(byte),
            ..State::given(given)
        };
        assert_eq!(rt; left.printed.as_slice(), &[byte][..]);
        assert_eq!(rt; left.numbers.as_slice(), &state.numbers()[..]);
    }
}

// svc #2 gives the input's byte, and svc #3 ends with the low 32 bits of x0.
#[test]
fn reads_and_ends(rt: HostRuntime) {
    let given = [5, 0, 0, 0];
    let left = run(rt.alloc(), 0xd400_0041, given).expect(&rt, "ample memory");
    let state = State {
        x0: 0x7a,
        ..State::given(given)
    };
    assert_eq!(rt; left.numbers.as_slice(), &state.numbers()[..]);
    assert_eq!(rt; left.end, End::Exit(0));
    for (x0, status) in [(0x1_0000_0007, 7), (0xffff_ffff, -1)] {
        let left = run(rt.alloc(), 0xd400_0061, [x0, 0, 0, 0]).expect(&rt, "ample memory");
        assert_eq!(rt; left.end, End::Exit(status));
        assert!(rt; left.numbers.is_empty());
    }
}
