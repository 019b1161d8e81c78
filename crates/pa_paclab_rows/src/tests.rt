//! Each command and option, each refusal, and the status.

use crate::world::{HELLO, call, files, shelf, sink, source, words};
use pa_io::{DiskShelf, MemFiles, SureShelf, SureSink, SureSource};
use pa_num::Bytes;
use pa_pac::FoldPac;
use pa_paclab::{Exit, Refusal, Rule, ScriptRule, UseFault, command, paclab};
use std::alloc::Global;
use std::process::Abort;
use std::test::Fail;
use std::{fs, io};

const REPORT: &[u8] = b"output 2
Hi
end exit 7
signs 4 takes 5 lands 5 unsigned 0
load sign ia 0000000100004000 0000000180000400 c400000180000400
1 sign ib 0000000170000000 0000000100000404 7405000100000404
10 take ia 0000000100004000 0000000180000400 known
10 land jump 0000000180000400
11 sign ib 000000016ffffff0 0000000100000424 942a000100000424
13 take ib 000000016ffffff0 0000000100000424 known
13 land return 0000000100000424
20 take ia 0000000100004000 0000000180000400 known
20 land jump 0000000180000400
21 sign ib 000000016ffffff0 0000000100000430 943e000100000430
23 take ib 000000016ffffff0 0000000100000430 known
23 land return 0000000100000430
28 take ib 0000000170000000 0000000100000404 known
28 land return 0000000100000404
";

const SHORT: &[u8] = b"output 2
Hi
end exit 7
signs 4 takes 5 lands 5 unsigned 0
";

const REPLACED: &[u8] = b"output 2
Hi
end trap auth_fail
signs 4 takes 4 lands 4 unsigned 0
";

const UNSIGNED: &[u8] = b"output 2
Hi
end trap fetch_abort
signs 4 takes 5 lands 5 unsigned 1
28 take ib 0000000170000000 0000000000000000 UNSIGNED
";

/// The front of a report after two instructions.
const BOUND: &[u8] = b"output 0

end bound
signs 2 takes 0 lands 0 unsigned 0
";

/// Words, the answer, and what is printed.
type Row<'a> = (&'a str, Exit, &'a [u8]);

fn refused(rule: Rule, file: u32, place: u64) -> Exit {
    Exit::Refused(Refusal { rule, file, place })
}

fn script(rule: ScriptRule, line: u64) -> Exit {
    refused(Rule::Script(rule), 66, line)
}

/// Calls with the words of each row; the source is read in none.
fn assert_answers(rt: &impl Abort, alloc: Global, rows: &[Row]) -> Result<(), Fail> {
    for (line, exit, text) in rows {
        let mut source = source(alloc, 5, 0)?;
        let mut out = sink(alloc, 0)?;
        let answer = call(
            alloc,
            line,
            &mut shelf(alloc, line, 0)?,
            &mut source,
            &mut out,
        )?;
        assert_eq!(rt; answer, *exit, "{line}");
        assert_eq!(rt; out.written.as_slice(), *text, "{line}");
        assert_eq!(rt; source.calls, 0);
    }
    Ok(())
}

#[test]
fn words_that_are_no_command(rt: HostRuntime) -> Result<(), Fail> {
    let rows: [Row; 14] = [
        ("''", Exit::Usage(UseFault::U1), b"usage U1\n"),
        ("--help", Exit::Usage(UseFault::U1), b"usage U1\n"),
        ("walk hello.c", Exit::Usage(UseFault::U1), b"usage U1\n"),
        (
            "run --fast hello.c",
            Exit::Usage(UseFault::U2),
            b"usage U2\n",
        ),
        ("run --help", Exit::Usage(UseFault::U2), b"usage U2\n"),
        ("run --steps", Exit::Usage(UseFault::U3), b"usage U3\n"),
        (
            "run --steps x hello.c",
            Exit::Usage(UseFault::U4),
            b"usage U4\n",
        ),
        (
            "run --steps 2000001 hello.c",
            Exit::Usage(UseFault::U4),
            b"usage U4\n",
        ),
        (
            "run --steps 1 --steps",
            Exit::Usage(UseFault::U5),
            b"usage U5\n",
        ),
        ("run", Exit::Usage(UseFault::U6), b"usage U6\n"),
        ("run --log short", Exit::Usage(UseFault::U6), b"usage U6\n"),
        ("check a b", Exit::Usage(UseFault::U6), b"usage U6\n"),
        ("disc", Exit::Usage(UseFault::U6), b"usage U6\n"),
        ("bulk 1 0", Exit::Usage(UseFault::U4), b"usage U4\n"),
    ];
    assert_answers(&rt, rt.alloc(), &rows)
}

#[test]
fn no_word_at_all(rt: HostRuntime) -> Result<(), Fail> {
    let alloc = rt.alloc();
    let mut out = sink(alloc, 0)?;
    let answer = paclab(
        alloc,
        &Vec::new(alloc),
        &mut shelf(alloc, "", 0)?,
        &mut source(alloc, 0, 0)?,
        &mut out,
        &FoldPac,
    );
    assert_eq!(rt; answer, Exit::Usage(UseFault::U1));
    assert_eq!(rt; out.written.as_slice(), b"usage U1\n".as_slice());
    Ok(())
}

#[test]
fn commands_that_are_not_built(rt: HostRuntime) -> Result<(), Fail> {
    let exit = refused(Rule::N1, 0, 0);
    let rows: [Row; 6] = [
        ("build hello.c", exit, b"refused N1 0 0\n"),
        ("exec absent", exit, b"refused N1 0 0\n"),
        ("check hello.c", exit, b"refused N1 0 0\n"),
        ("mean --input - hello.c", exit, b"refused N1 0 0\n"),
        ("bulk 1 10", exit, b"refused N1 0 0\n"),
        ("run absent.c --input - hello.c", exit, b"refused N1 0 0\n"),
    ];
    assert_answers(&rt, rt.alloc(), &rows)
}

#[test]
fn discriminators(rt: HostRuntime) -> Result<(), Fail> {
    let rows: [Row; 3] = [
        ("disc ''", Exit::Done, b"disc 59283\n"),
        ("disc -- --", Exit::Done, b"disc 58043\n"),
        ("disc cb", Exit::Done, b"disc 6971\n"),
    ];
    assert_answers(&rt, rt.alloc(), &rows)
}

#[test]
fn a_run_prints_its_report(rt: HostRuntime) -> Result<(), Fail> {
    let rows: [Row; 3] = [
        ("run hello.c", Exit::Done, REPORT),
        ("run --log full -- --hello.c", Exit::Done, REPORT),
        ("run --log short hello.c", Exit::Done, SHORT),
    ];
    assert_answers(&rt, rt.alloc(), &rows)
}

#[test]
fn a_run_ends_at_its_bound(rt: HostRuntime) -> Result<(), Fail> {
    let rows: [Row; 3] = [
        (
            "run hello.c --log short --steps 29",
            Exit::Done,
            b"output 2\nHi\nend bound\nsigns 4 takes 5 lands 5 unsigned 0\n",
        ),
        ("run hello.c --log short --steps 0030", Exit::Done, SHORT),
        (
            "run hello.c --log short --steps 0",
            Exit::Done,
            b"output 0\n\nend bound\nsigns 1 takes 0 lands 0 unsigned 0\n",
        ),
    ];
    assert_answers(&rt, rt.alloc(), &rows)
}

#[test]
fn a_program_prints_the_same_under_each_option(rt: HostRuntime) -> Result<(), Fail> {
    let rows: [Row; 6] = [
        (
            "run hello.c --log short --slide 65535 --pac zero --seed 7",
            Exit::Done,
            SHORT,
        ),
        ("run hello.c --log short --pac sip", Exit::Done, SHORT),
        ("run hello.c --log short --pac fold", Exit::Done, SHORT),
        ("run hello.c --log short --input in", Exit::Done, SHORT),
        ("run hello.c --log short --input limit", Exit::Done, SHORT),
        (
            "run hello.c --log short --input --hello.c",
            Exit::Done,
            SHORT,
        ),
    ];
    assert_answers(&rt, rt.alloc(), &rows)
}

#[test]
fn a_run_beside_a_script(rt: HostRuntime) -> Result<(), Fail> {
    let rows: [Row; 4] = [
        ("run hello.c --log short --script empty", Exit::Done, SHORT),
        (
            "run hello.c --log short --script return",
            Exit::Done,
            REPLACED,
        ),
        ("run hello.c --log short --script late", Exit::Done, SHORT),
        (
            "run hello.c --log short --script return --pac zero",
            Exit::Done,
            UNSIGNED,
        ),
    ];
    assert_answers(&rt, rt.alloc(), &rows)
}

/// Values as another program works them out (tools/siphash.py).
#[test]
fn where_and_under_what_a_run_signs(rt: HostRuntime) -> Result<(), Fail> {
    let rows: [(&str, &[u8]); 5] = [
        (
            "--slide 1",
            b"load sign ia 0000000100008000 0000000180000400 0400000180000400\n1 sign ib 0000000170000000 0000000100004404 3405000100004404\n",
        ),
        (
            "--pac zero",
            b"load sign ia 0000000100004000 0000000180000400 0000000180000400\n1 sign ib 0000000170000000 0000000100000404 0000000100000404\n",
        ),
        (
            "--pac fold",
            b"load sign ia 0000000100004000 0000000180000400 c400000180000400\n1 sign ib 0000000170000000 0000000100000404 7405000100000404\n",
        ),
        (
            "--pac sip",
            b"load sign ia 0000000100004000 0000000180000400 ee47000180000400\n1 sign ib 0000000170000000 0000000100000404 c026000100000404\n",
        ),
        (
            "--pac sip --seed 506097522914230528",
            b"load sign ia 0000000100004000 0000000180000400 e92f000180000400\n1 sign ib 0000000170000000 0000000100000404 aa1f000100000404\n",
        ),
    ];
    let alloc = rt.alloc();
    for (options, line) in rows {
        let words = format!(in alloc; "run hello.c --steps 2 {options}")?;
        let mut source = source(alloc, 0, 0)?;
        let mut out = sink(alloc, 0)?;
        let answer = call(
            alloc,
            &words,
            &mut shelf(alloc, &words, 0)?,
            &mut source,
            &mut out,
        )?;
        assert_eq!(rt; answer, Exit::Done);
        let Some(lines) = out.written.as_slice().strip_prefix(BOUND) else {
            panic!(rt; "{words}");
        };
        assert!(rt; lines.starts_with(line), "{words}");
    }
    Ok(())
}

#[test]
fn refusals_in_their_order(rt: HostRuntime) -> Result<(), Fail> {
    let rows: [Row; 18] = [
        ("run absent.c", Exit::ReadFault(1), b"read fault 1\n"),
        (
            "run - --input absent --script absent",
            Exit::ReadFault(1),
            b"read fault 1\n",
        ),
        ("run '' --input -", Exit::ReadFault(1), b"read fault 1\n"),
        (
            "run long --input -",
            refused(Rule::M6, 1, 1_048_576),
            b"refused M6 1 1048576\n",
        ),
        (
            "run limit --input -",
            refused(Rule::N1, 0, 0),
            b"refused N1 0 0\n",
        ),
        (
            "run octal.c --input - --script form",
            refused(Rule::N1, 0, 0),
            b"refused N1 0 0\n",
        ),
        (
            "run hello.c --input absent --script form",
            Exit::ReadFault(65),
            b"read fault 65\n",
        ),
        (
            "run hello.c --input long --script form",
            refused(Rule::M6, 65, 1_048_576),
            b"refused M6 65 1048576\n",
        ),
        (
            "run hello.c --script absent",
            Exit::ReadFault(66),
            b"read fault 66\n",
        ),
        (
            "run hello.c --script -",
            Exit::ReadFault(66),
            b"read fault 66\n",
        ),
        (
            "run hello.c --script long",
            refused(Rule::M6, 66, 1_048_576),
            b"refused M6 66 1048576\n",
        ),
        (
            "run hello.c --script limit",
            script(ScriptRule::P1, 1),
            b"refused P1 66 1\n",
        ),
        (
            "run hello.c --script line",
            script(ScriptRule::P1, 1),
            b"refused P1 66 1\n",
        ),
        (
            "run hello.c --script form",
            script(ScriptRule::P1, 2),
            b"refused P1 66 2\n",
        ),
        (
            "run hello.c --script steps",
            script(ScriptRule::P2, 2),
            b"refused P2 66 2\n",
        ),
        (
            "run hello.c --script lines",
            script(ScriptRule::P3, 65_537),
            b"refused P3 66 65537\n",
        ),
        (
            "run hello.c --script text",
            script(ScriptRule::P4, 2),
            b"refused P4 66 2\n",
        ),
        (
            "run hello.c --script unread",
            script(ScriptRule::P4, 1),
            b"refused P4 66 1\n",
        ),
    ];
    assert_answers(&rt, rt.alloc(), &rows)
}

#[test]
fn objects_that_never_fail_give_the_same(rt: HostRuntime) -> Result<(), Fail> {
    let alloc = rt.alloc();
    let mut shelf = SureShelf::new(files(alloc, "")?);
    let mut source = SureSource::new(Bytes::from_slice(alloc, b"in")?);
    let mut out = SureSink::new(Bytes::new(alloc), false);
    let words = words(alloc, "run hello.c --input -")?;
    assert_eq!(rt;
        paclab(alloc, &words, &mut shelf, &mut source, &mut out, &FoldPac),
        Exit::Done
    );
    assert_eq!(rt; out.written.as_slice(), REPORT);
    assert!(rt; source.left.is_empty());
    Ok(())
}

/// The front of the report under the host's PAC function, as another program works it out (tools/siphash.py).
const HOST_REPORT: &[u8] = b"output 2
Hi
end exit 7
signs 4 takes 5 lands 5 unsigned 0
load sign ia 0000000100004000 0000000180000400 1924000180000400
1 sign ib 0000000170000000 0000000100000404 8a23000100000404
";

#[test]
fn the_disk_gives_the_same(rt: HostRuntime) -> Result<(), Fail> {
    let alloc = rt.alloc();
    fs::write(&rt, "hello.c", HELLO)?;
    fs::write(&rt, "some.script", "20 write 0x16ffffff8 0000000000000000")?;
    let rows: [(&str, u8, &[u8]); 5] = [
        ("run hello.c", 0, HOST_REPORT),
        ("run hello.c --script some.script --log short", 0, REPLACED),
        ("run hello.c --script absent", 4, b"read fault 66\n"),
        ("disc ''", 0, b"disc 59283\n"),
        ("run", 2, b"usage U6\n"),
    ];
    for (line, status, text) in rows {
        let mut shelf = DiskShelf::new(rt);
        let mut source = SureSource::new(Bytes::new(alloc));
        let mut out = sink(alloc, 0)?;
        let words = Ok(words(alloc, line)?);
        let answer = command(alloc, &words, &mut shelf, &mut source, &mut out);
        assert_eq!(rt; answer, status);
        assert!(rt; out.written.as_slice().starts_with(text));
    }
    fs::remove_file(&rt, "hello.c")?;
    fs::remove_file(&rt, "some.script")?;
    Ok(())
}

#[test]
fn no_words_are_told(rt: HostRuntime) {
    let alloc = rt.alloc();
    for (kind, status) in [(io::ErrorKind::OutOfMemory, 7), (io::ErrorKind::Other, 8)] {
        let mut shelf = SureShelf::new(MemFiles::new(alloc));
        let mut source = SureSource::new(Bytes::new(alloc));
        let mut out = SureSink::new(Bytes::new(alloc), false);
        let words = Err(io::Error::from(kind));
        let answer = command(alloc, &words, &mut shelf, &mut source, &mut out);
        assert_eq!(rt; answer, status);
        assert!(rt; out.written.is_empty());
    }
}

#[test]
fn statuses_are_the_documented_ones(rt: HostRuntime) {
    let rows = [
        (Exit::Done, 0),
        (Exit::Usage(UseFault::U6), 2),
        (refused(Rule::M6, 1, 1_048_576), 3),
        (Exit::ReadFault(66), 4),
        (Exit::InputFault, 5),
        (Exit::WriteFault, 6),
        (Exit::Memory, 7),
    ];
    for (exit, status) in rows {
        assert_eq!(rt; exit.status(), status);
    }
}
