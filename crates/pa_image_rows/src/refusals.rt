//! What the checker answers, and with what the run of an image is refused: the first check that fails.

use crate::assembly::{
    CALLS_AUTHENTICATED, CLEARS_IMPORT, IMPORT, RETURNS, RETURNS_WORDS, STORES_RAW, importing,
};
use crate::program::Program;
use pa_check::{CheckRule, Verdict, check};
use pa_engine::{EngineFault, Refusal, Rule, run_image};
use pa_load::LoadRule;
use pa_macho::Role;
use pa_num::{Fault, ImageRule, Memory};
use pa_pac::FoldPac;
use pa_script::{ScriptRule, read_script};
use std::alloc::Global;
use std::test::Fail;

/// The most bytes that a run takes as an image.
const IMAGE_LIMIT: usize = 0x100_0000;

/// A script whose first item writes to code.
const WRITES_CODE: &[u8] = b"0 write 0x100000400 00";

/// What the checker answers for the program's image, where it has one.
fn verdict(alloc: Global, program: &Program) -> Result<Option<Verdict>, Memory> {
    Ok(match program.image(alloc)? {
        Some(image) => Some(check(&image)),
        None => None,
    })
}

#[test]
fn verdicts(rt: HostRuntime) -> Result<(), Fail> {
    let stores_raw = Verdict::Bad {
        offset: 1044,
        rule: CheckRule::K3,
    };
    let rows = [
        (RETURNS, Verdict::Windowed),
        (STORES_RAW, stores_raw),
        (CALLS_AUTHENTICATED, Verdict::Windowed),
    ];
    for (functions, wanted) in rows {
        assert_eq!(rt; verdict(rt.alloc(), &Program::of(functions))?, Some(wanted));
    }
    Ok(())
}

/// A program begins with the call of `_main`, and the assembler's words are the manual's.
#[test]
fn words_of_a_return(rt: HostRuntime) -> Result<(), Fail> {
    let Some(image) = Program::of(RETURNS).image(rt.alloc())? else {
        panic!(rt; "the program has an image");
    };
    assert_eq!(rt; image.text.as_slice().first(), Some(&0x9400_0003));
    assert_eq!(rt; image.text.as_slice().get(3..), Some(&RETURNS_WORDS[..]));
    Ok(())
}

/// With what bytes are refused beside a script.
fn refusal(alloc: Global, bytes: &[u8], script: &[u8]) -> Result<Option<Refusal>, Memory> {
    let Ok(script) = read_script(alloc, script) else {
        return Ok(None);
    };
    if bytes.len() > IMAGE_LIMIT {
        return Ok(None);
    }
    match run_image(alloc, bytes, &[], &script, 0, 1_000_000, &FoldPac) {
        Err(EngineFault::Refused(refusal)) => Ok(Some(refusal)),
        _ => Ok(None),
    }
}

/// The refusal of the image, which is file 1.
fn of_image(rule: Rule, place: u64) -> Option<Refusal> {
    let file = 1;
    Some(Refusal { rule, file, place })
}

/// Whether the first bytes of the program's image, so many, break this rule of images at this place.
fn cut_breaks(
    alloc: Global,
    bytes: &[u8],
    length: usize,
    rule: ImageRule,
    place: u64,
) -> Result<bool, Memory> {
    let Some(cut) = bytes.get(..length) else {
        return Ok(false);
    };
    Ok(refusal(alloc, cut, b"")? == of_image(Rule::Image(rule), place))
}

#[test]
fn cut_images(rt: HostRuntime) -> Result<(), Fail> {
    let Some(bytes) = Program::of(RETURNS).bytes(rt.alloc())? else {
        panic!(rt; "the program has bytes");
    };
    let rows = [
        (0, ImageRule::H1, 0),
        (31, ImageRule::H1, 0),
        (32, ImageRule::H2, 20),
        (100, ImageRule::H2, 20),
        (823, ImageRule::H2, 20),
        (824, ImageRule::H3, 152),
        (16_383, ImageRule::H3, 152),
        (16_384, ImageRule::H3, 464),
        (32_767, ImageRule::H3, 464),
        (32_768, ImageRule::H3, 696),
    ];
    for (length, rule, place) in rows {
        assert!(rt; cut_breaks(rt.alloc(), &bytes, length, rule, place)?);
    }
    Ok(())
}

/// Whether the program is refused by this rule at this place of its image, beside a script that doesn't fit.
fn breaks(alloc: Global, program: &Program, rule: Rule, place: u64) -> Result<bool, Memory> {
    let Some(bytes) = program.bytes(alloc)? else {
        return Ok(false);
    };
    Ok(refusal(alloc, &bytes, WRITES_CODE)? == of_image(rule, place))
}

#[test]
fn the_checker_comes_first(rt: HostRuntime) -> Result<(), Fail> {
    let library = Program {
        role: Role::Library,
        ..Program::of(".globl _f\npacibsp\nnop\n")
    };
    let rows = [
        (Program::of(STORES_RAW), CheckRule::K3, 1044),
        (library, CheckRule::K4, 1028),
    ];
    for (program, rule, place) in rows {
        assert!(rt; breaks(rt.alloc(), &program, Rule::Code(rule), place)?);
    }
    Ok(())
}

#[test]
fn a_library_is_no_program(rt: HostRuntime) -> Result<(), Fail> {
    let library = Program {
        role: Role::Library,
        ..Program::of(".globl _f\npacibsp\nretab\n")
    };
    assert!(rt; breaks(rt.alloc(), &library, Rule::B2, 12)?);
    Ok(())
}

#[test]
fn an_import_that_nothing_exports(rt: HostRuntime) -> Result<(), Fail> {
    let program = Program {
        imports: &[b"_unknown"],
        ..importing(CLEARS_IMPORT, &[IMPORT])
    };
    assert!(rt; breaks(rt.alloc(), &program, Rule::Load(LoadRule::B1), 0)?);
    Ok(())
}

#[test]
fn a_script_outside_of_data(rt: HostRuntime) -> Result<(), Fail> {
    let Some(bytes) = Program::of(RETURNS).bytes(rt.alloc())? else {
        panic!(rt; "the program has bytes");
    };
    let unfit = Refusal {
        rule: Rule::Script(ScriptRule::P4),
        file: 66,
        place: 1,
    };
    assert_eq!(rt; refusal(rt.alloc(), &bytes, WRITES_CODE)?, Some(unfit));
    Ok(())
}

/// Lines of scripts that break a rule before anything is run.
#[test]
fn unread_scripts(rt: HostRuntime) -> Result<(), Fail> {
    let rows: [(&[u8], ScriptRule, u64); 2] = [
        (b"5 write 0x16ffffff8 0", ScriptRule::P1, 1),
        (
            b"5 write 0x16ffffff8 00\n4 write 0x16ffffff8 00",
            ScriptRule::P2,
            2,
        ),
    ];
    for (text, rule, place) in rows {
        match read_script(rt.alloc(), text) {
            Err(fault) => assert_eq!(rt; fault, Fault::Refused { rule, place }),
            Ok(_) => panic!(rt; "a rule is broken"),
        }
    }
    Ok(())
}
