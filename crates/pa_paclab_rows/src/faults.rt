//! A shelf, a source and a sink that fail at each of their calls in turn.

use crate::world::{MOST, call, shelf, sink, source};
use pa_paclab::{Exit, Refusal, Rule};
use std::alloc::Global;
use std::process::Abort;
use std::test::Fail;

/// A run that reads three files, and one that reads the source.
const FILES: &str = "run hello.c --input in --script return --log short";

const SOURCE: &str = "run hello.c --input - --script return --log short";

#[test]
fn a_shelf_fails_at_each_call(rt: HostRuntime) -> Result<(), Fail> {
    let alloc = rt.alloc();
    let rows: [(u64, Exit, &[u8], u64); 4] = [
        (1, Exit::ReadFault(1), b"read fault 1\n", 1),
        (2, Exit::ReadFault(65), b"read fault 65\n", 2),
        (3, Exit::ReadFault(66), b"read fault 66\n", 3),
        (4, Exit::Done, b"", 3),
    ];
    for (failing, exit, line, calls) in rows {
        let mut shelf = shelf(alloc, FILES, failing)?;
        let mut source = source(alloc, 5, 0)?;
        let mut out = sink(alloc, 0)?;
        let answer = call(alloc, FILES, &mut shelf, &mut source, &mut out)?;
        assert_eq!(rt; answer, exit);
        assert_eq!(rt; shelf.calls, calls);
        assert_eq!(rt; source.calls, 0);
        if exit != Exit::Done {
            assert_eq!(rt; out.written.as_slice(), line);
        }
    }
    Ok(())
}

#[test]
fn a_source_fails_at_each_call(rt: HostRuntime) -> Result<(), Fail> {
    let alloc = rt.alloc();
    let rows = [
        (1, Exit::InputFault, 1),
        (2, Exit::InputFault, 2),
        (3, Exit::InputFault, 3),
        (4, Exit::Done, 3),
    ];
    for (failing, exit, calls) in rows {
        let mut shelf = shelf(alloc, SOURCE, 0)?;
        let mut source = source(alloc, 70_000, failing)?;
        let mut out = sink(alloc, 0)?;
        let answer = call(alloc, SOURCE, &mut shelf, &mut source, &mut out)?;
        assert_eq!(rt; answer, exit);
        assert_eq!(rt; source.calls, calls);
        if exit == Exit::InputFault {
            assert_eq!(rt; out.written.as_slice(), b"input fault\n".as_slice());
            assert_eq!(rt; shelf.calls, 1);
        } else {
            assert!(rt; source.left.is_empty());
            assert_eq!(rt; shelf.calls, 2);
        }
    }
    Ok(())
}

#[test]
fn a_source_has_its_limit(rt: HostRuntime) -> Result<(), Fail> {
    let alloc = rt.alloc();
    let refused = Exit::Refused(Refusal {
        rule: Rule::M6,
        file: 65,
        place: MOST as u64,
    });
    for (count, exit) in [(MOST, Exit::Done), (MOST + 1, refused)] {
        let mut shelf = shelf(alloc, SOURCE, 0)?;
        let mut source = source(alloc, count, 0)?;
        let mut out = sink(alloc, 0)?;
        let answer = call(alloc, SOURCE, &mut shelf, &mut source, &mut out)?;
        assert_eq!(rt; answer, exit);
        assert!(rt; source.left.is_empty());
        if exit == refused {
            assert_eq!(rt;
                out.written.as_slice(),
                b"refused M6 65 1048576\n".as_slice()
            );
        }
    }
    Ok(())
}

/// Words whose text is done, and words that are refused.
const DONE: &str = "run hello.c --log short";

const REFUSED: &str = "run octal.c";

/// What is out of a text once this call of the sink failed, and the answer.
fn assert_cut(
    rt: &impl Abort,
    alloc: Global,
    line: &str,
    failing: u64,
    wanted: Exit,
    text: &[u8],
) -> Result<(), Fail> {
    let mut input = source(alloc, 0, 0)?;
    let mut out = sink(alloc, failing)?;
    let answer = call(
        alloc,
        line,
        &mut shelf(alloc, line, 0)?,
        &mut input,
        &mut out,
    )?;
    let reached = out.calls >= failing;
    let cut = if wanted == Exit::Done {
        Exit::WriteFault
    } else {
        wanted
    };
    assert_eq!(rt; answer, if reached { cut } else { wanted });
    assert!(rt; text.starts_with(out.written.as_slice()));
    assert_eq!(rt; out.written.len() < text.len(), reached);
    if reached {
        assert!(rt; out.written.len() as u64 <= failing.saturating_sub(1).saturating_mul(4));
    }
    Ok(())
}

#[test]
fn a_sink_fails_at_each_call(rt: HostRuntime) -> Result<(), Fail> {
    let alloc = rt.alloc();
    let rows: [(&str, &[u64]); 4] = [
        (DONE, &[1, 2, 9, 20]),
        ("disc cb", &[1, 2, 3, 4]),
        (REFUSED, &[1, 2, 3, 4, 5]),
        ("run", &[1, 2, 3, 4]),
    ];
    for (line, calls) in rows {
        let mut whole = sink(alloc, 0)?;
        let mut input = source(alloc, 0, 0)?;
        let wanted = call(
            alloc,
            line,
            &mut shelf(alloc, line, 0)?,
            &mut input,
            &mut whole,
        )?;
        for failing in calls {
            assert_cut(&rt, alloc, line, *failing, wanted, whole.written.as_slice())?;
        }
    }
    Ok(())
}
