//! What programs print beside scripts.

use crate::assembly::{
    CALLS_AUTHENTICATED, CALLS_FIRST, CALLS_FIRST_BY_ADDRESS, CLEARS_IMPORT, IMPORT, RETURNS,
    function_slot, importing,
};
use crate::program::Program;
use pa_engine::{report, run_image};
use pa_fixups::Fix;
use pa_io::{Calls, MemSink};
use pa_num::{Bytes, Memory};
use pa_pac::{FoldPac, Pac, SipPac, ZeroPac};
use pa_script::read_script;
use std::alloc::Global;
use std::test::Fail;

/// The most bytes that a run takes as an image.
const IMAGE_LIMIT: usize = 0x100_0000;

/// A program, a script, whether the report is short, and the report.
#[derive(Clone, Copy)]
struct Row<'a> {
    program: Program<'a>,
    script: &'a [u8],
    short: bool,
    report: &'a [u8],
}

/// Whether the run of the program beside the script prints the report.
fn prints<P: Pac>(alloc: Global, row: &Row, p: &P) -> Result<bool, Memory> {
    let Ok(script) = read_script(alloc, row.script) else {
        return Ok(false);
    };
    let Some(bytes) = row.program.bytes(alloc)? else {
        return Ok(false);
    };
    if bytes.len() > IMAGE_LIMIT {
        return Ok(false);
    }
    let Ok(ran) = run_image(alloc, &bytes, &[], &script, 0, 1_000_000, p) else {
        return Ok(false);
    };
    let mut out = MemSink::new(Bytes::new(alloc), 4096, 0, Calls::new(alloc), 0);
    Ok(report(&ran, row.short, &mut out).is_ok() && out.written.as_slice() == row.report)
}

/// Overwrites the return address that `RETURNS` keeps in its frame.
const OVERWRITES_RETURN: &[u8] = b"4 write 0x16ffffff8 0000000000000000";

/// Copies the second slot of `__data` into the first.
const COPIES_SLOT: &[u8] = b"0 copy 0x100004010 0x100004018 8";

/// The slots of `CALLS_FIRST`.
fn slots() -> [Fix; 3] {
    [
        IMPORT,
        function_slot(16, 0x43c, false),
        function_slot(24, 0x45c, false),
    ]
}

/// The slots of `CALLS_FIRST_BY_ADDRESS`.
fn slots_by_address() -> [Fix; 3] {
    [
        IMPORT,
        function_slot(16, 0x440, true),
        function_slot(24, 0x460, true),
    ]
}

#[test]
fn a_return_is_authenticated(rt: HostRuntime) -> Result<(), Fail> {
    let row = Row {
        program: Program::of(RETURNS),
        script: b"",
        short: false,
        report: b"output 0

end exit 0
signs 1 takes 1 lands 1 unsigned 0
1 sign ib 0000000170000000 0000000100000404 7405000100000404
8 take ib 0000000170000000 0000000100000404 known
8 land return 0000000100000404
",
    };
    assert!(rt; prints(rt.alloc(), &row, &FoldPac)?);
    Ok(())
}

#[test]
fn an_overwritten_return_address_is_refused(rt: HostRuntime) -> Result<(), Fail> {
    let row = Row {
        program: Program::of(RETURNS),
        script: OVERWRITES_RETURN,
        short: false,
        report: b"output 0

end trap auth_fail
signs 1 takes 0 lands 0 unsigned 0
1 sign ib 0000000170000000 0000000100000404 7405000100000404
",
    };
    assert!(rt; prints(rt.alloc(), &row, &FoldPac)?);
    Ok(())
}

#[test]
fn without_codes_it_is_accepted_and_marked(rt: HostRuntime) -> Result<(), Fail> {
    let row = Row {
        program: Program::of(RETURNS),
        script: OVERWRITES_RETURN,
        short: false,
        report: b"output 0

end trap fetch_abort
signs 1 takes 1 lands 1 unsigned 1
1 sign ib 0000000170000000 0000000100000404 0000000100000404
8 take ib 0000000170000000 0000000000000000 UNSIGNED
8 land return 0000000000000000
",
    };
    assert!(rt; prints(rt.alloc(), &row, &ZeroPac)?);
    Ok(())
}

/// The code of 0 under IA and 0 is 0 by `FoldPac`: a guessed code is accepted, and marked.
#[test]
fn a_guessed_code_is_marked(rt: HostRuntime) -> Result<(), Fail> {
    let row = Row {
        program: Program::of(CALLS_AUTHENTICATED),
        script: b"",
        short: false,
        report: b"output 0

end trap fetch_abort
signs 1 takes 1 lands 1 unsigned 1
1 sign ib 0000000170000000 0000000100000404 7405000100000404
2 take ia 0000000000000000 0000000000000000 UNSIGNED
3 land call 0000000000000000
",
    };
    assert!(rt; prints(rt.alloc(), &row, &FoldPac)?);
    Ok(())
}

/// A signed pointer put into another slot is accepted where the slot's address isn't part of the modifier.
fn replays<P: Pac>(alloc: Global, p: &P) -> Result<bool, Memory> {
    let slots = slots();
    let row = Row {
        program: importing(CALLS_FIRST, &slots),
        script: COPIES_SLOT,
        short: true,
        report: b"output 1
b
end exit 0
signs 6 takes 5 lands 5 unsigned 0
",
    };
    prints(alloc, &row, p)
}

#[test]
fn a_replay_is_accepted(rt: HostRuntime) -> Result<(), Fail> {
    assert!(rt; replays(rt.alloc(), &FoldPac)?);
    Ok(())
}

#[test]
fn a_replay_is_accepted_without_codes(rt: HostRuntime) -> Result<(), Fail> {
    assert!(rt; replays(rt.alloc(), &ZeroPac)?);
    Ok(())
}

#[test]
fn a_replay_is_accepted_under_hashed_codes(rt: HostRuntime) -> Result<(), Fail> {
    assert!(rt; replays(rt.alloc(), &SipPac { k0: 1, k1: 2 })?);
    Ok(())
}

#[test]
fn a_replay_in_a_slot_of_its_own_is_refused(rt: HostRuntime) -> Result<(), Fail> {
    let slots = slots_by_address();
    let row = Row {
        program: importing(CALLS_FIRST_BY_ADDRESS, &slots),
        script: COPIES_SLOT,
        short: true,
        report: b"output 0

end trap auth_fail
signs 4 takes 0 lands 0 unsigned 0
",
    };
    assert!(rt; prints(rt.alloc(), &row, &FoldPac)?);
    Ok(())
}

#[test]
fn without_codes_it_is_accepted_there(rt: HostRuntime) -> Result<(), Fail> {
    let slots = slots_by_address();
    let row = Row {
        program: importing(CALLS_FIRST_BY_ADDRESS, &slots),
        script: COPIES_SLOT,
        short: true,
        report: b"output 1
b
end exit 0
signs 6 takes 5 lands 5 unsigned 1
8 take ia 0007000100004010 0000000100000460 UNSIGNED
",
    };
    assert!(rt; prints(rt.alloc(), &row, &ZeroPac)?);
    Ok(())
}

/// An import's slot that the program itself writes over is not accepted.
#[test]
fn an_overwritten_import_is_refused(rt: HostRuntime) -> Result<(), Fail> {
    let row = Row {
        program: importing(CLEARS_IMPORT, &[IMPORT]),
        script: b"",
        short: true,
        report: b"output 0

end trap auth_fail
signs 2 takes 0 lands 0 unsigned 0
",
    };
    assert!(rt; prints(rt.alloc(), &row, &FoldPac)?);
    Ok(())
}
