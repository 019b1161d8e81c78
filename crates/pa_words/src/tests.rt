use crate::{Command, Input, LogForm, PacName, UseFault, WordsFault, words};
use std::alloc::{AllocError, Global};
use std::test::Fail;

/// The words of a line, parted by single blanks. `''` stands for the empty word.
fn parted(alloc: Global, line: &str) -> Result<Vec<String>, AllocError> {
    let mut parts = Vec::new(alloc);
    for word in line.split(' ') {
        let word = if word == "''" { "" } else { word };
        parts.push(String::from_str(alloc, word)?)?;
    }
    Ok(parts)
}

#[test]
fn broken_rules_are_told_in_order(rt: HostRuntime) -> Result<(), Fail> {
    let rows = [
        ("''", UseFault::U1),
        ("Run a.c", UseFault::U1),
        ("-- run", UseFault::U1),
        ("run --fast a.c", UseFault::U2),
        ("run --steps=1 a.c", UseFault::U2),
        ("run --fuel 1 a.c", UseFault::U2),
        ("mean --steps 1 a.c", UseFault::U2),
        ("build --log", UseFault::U2),
        ("run --steps", UseFault::U3),
        ("run a.c --log", UseFault::U3),
        ("run --steps x a.c", UseFault::U4),
        ("run --steps 2000001 a.c", UseFault::U4),
        ("run --steps 000000000000000000001 a.c", UseFault::U4),
        ("run --steps +1 a.c", UseFault::U4),
        ("run --steps '' a.c", UseFault::U4),
        ("run --slide 65536 a.c", UseFault::U4),
        ("run --pac SIP a.c", UseFault::U4),
        ("run --seed 18446744073709551616 a.c", UseFault::U4),
        ("run --log all a.c", UseFault::U4),
        ("run --steps 1 --steps", UseFault::U5),
        ("run --steps 1 --steps x", UseFault::U5),
        ("run", UseFault::U6),
        ("run --", UseFault::U6),
        ("check a b", UseFault::U6),
        ("bulk 1", UseFault::U6),
        ("bulk 1 0", UseFault::U4),
        ("bulk x 1", UseFault::U4),
        ("bulk 1 2001", UseFault::U4),
    ];
    for (line, rule) in rows {
        let parts = parted(rt.alloc(), line)?;
        match words(rt.alloc(), &parts) {
            Err(WordsFault::Usage(told)) => assert_eq!(rt; told, rule, "{line}"),
            _ => assert!(rt; false, "{line}"),
        }
    }
    let none = Vec::new(rt.alloc());
    assert!(rt;
        matches!(
            words(rt.alloc(), &none),
            Err(WordsFault::Usage(UseFault::U1))
        )
    );
    Ok(())
}

#[test]
fn options_stand_before_and_behind_operands(rt: HostRuntime) -> Result<(), Fail> {
    let parts = parted(
        rt.alloc(),
        "run a.c --input --steps --steps 007 --slide 65535 --pac fold --seed 18446744073709551615 --log short --script - b.c -- --c.c --",
    )?;
    let Ok(Command::Run { files, options }) = words(rt.alloc(), &parts) else {
        assert!(rt; false, "a run");
        return Ok(());
    };
    let mut names = Vec::new(rt.alloc());
    for file in files.as_slice() {
        names.push(file.as_str())?;
    }
    assert_eq!(rt; names.as_slice(), ["a.c", "b.c", "--c.c", "--"].as_slice());
    assert!(rt; matches!(&options.input, Input::File(name) if name.as_str() == "--steps"));
    assert!(rt; matches!(&options.script, Some(name) if name.as_str() == "-"));
    assert_eq!(rt; options.steps, 7);
    assert_eq!(rt; options.slide, 65_535);
    assert_eq!(rt; options.pac, PacName::Fold);
    assert_eq!(rt; options.seed, u64::MAX);
    assert_eq!(rt; options.log, LogForm::Short);
    Ok(())
}

#[test]
fn what_is_not_said_has_its_default(rt: HostRuntime) -> Result<(), Fail> {
    let parts = parted(rt.alloc(), "exec a.out")?;
    let spelled = words(rt.alloc(), &parts);
    let Ok(Command::Exec { image, options }) = &spelled else {
        assert!(rt; false, "exec");
        return Ok(());
    };
    assert_eq!(rt; image.as_str(), "a.out");
    assert!(rt; matches!(options.input, Input::Empty));
    assert!(rt; options.script.is_none());
    assert_eq!(rt; options.steps, 1_000_000);
    assert_eq!(rt; options.slide, 0);
    assert_eq!(rt; options.pac, PacName::Host);
    assert_eq!(rt; options.seed, 0);
    assert_eq!(rt; options.log, LogForm::Full);
    Ok(())
}

#[test]
fn a_meaning_has_an_input_and_a_fuel(rt: HostRuntime) -> Result<(), Fail> {
    let parts = parted(rt.alloc(), "mean --input - a.c")?;
    let Ok(Command::Mean { files, options }) = words(rt.alloc(), &parts) else {
        assert!(rt; false, "mean");
        return Ok(());
    };
    assert_eq!(rt; files.len(), 1);
    assert!(rt; matches!(options.input, Input::Source));
    assert_eq!(rt; options.fuel, 1_000_000);
    Ok(())
}

#[test]
fn a_large_program_has_two_numbers(rt: HostRuntime) -> Result<(), Fail> {
    let parts = parted(rt.alloc(), "bulk 18446744073709551615 2000")?;
    let Ok(Command::Bulk { seed, size }) = words(rt.alloc(), &parts) else {
        assert!(rt; false, "bulk");
        return Ok(());
    };
    assert_eq!(rt; seed, u64::MAX);
    assert_eq!(rt; size, 2_000);
    Ok(())
}

#[test]
fn a_text_may_be_any_word(rt: HostRuntime) -> Result<(), Fail> {
    let rows = [
        ("disc ''", ""),
        ("disc -", "-"),
        ("disc -- --text", "--text"),
    ];
    for (line, wanted) in rows {
        let parts = parted(rt.alloc(), line)?;
        let spelled = words(rt.alloc(), &parts);
        match &spelled {
            Ok(Command::Disc { text }) => assert_eq!(rt; text.as_str(), wanted),
            _ => assert!(rt; false, "{line}"),
        }
    }
    Ok(())
}

#[test]
fn sources_are_built(rt: HostRuntime) -> Result<(), Fail> {
    let sources = parted(rt.alloc(), "build a.c b.c")?;
    let Ok(Command::Build { files }) = words(rt.alloc(), &sources) else {
        assert!(rt; false, "build");
        return Ok(());
    };
    assert_eq!(rt; files.len(), 2);
    Ok(())
}

#[test]
fn an_image_is_checked(rt: HostRuntime) -> Result<(), Fail> {
    let parts = parted(rt.alloc(), "check a.out")?;
    let spelled = words(rt.alloc(), &parts);
    let Ok(Command::Check { image }) = &spelled else {
        assert!(rt; false, "check");
        return Ok(());
    };
    assert_eq!(rt; image.as_str(), "a.out");
    Ok(())
}
