ghost use Rattle.std.specs.Prelude.{◌≡◌, IfOk, length, true};
ghost use Rattle.pa_object.specs.Script.{is_line};

use crate::{Deed, Item, Script, ScriptRule, fits, read_script};
use pa_mem::{Rights, Space};
use pa_num::{Bytes, Fault, Memory};
use std::alloc::Global;

// The rule that a text breaks first, with its line, or how many items it has.
fn answer(alloc: Global, text: &[u8]) -> Result<usize, Fault<ScriptRule>> {
    let script = read_script(alloc, text)?;
    Ok(script.as_slice().len())
}

#[test]
fn reads_or_refuses(rt: HostRuntime) {
    let rows = [
        (&b""[..], Ok(0)),
        (b"4 write 0x16ffffff8 0000000000000000", Ok(1)),
        (b"4 write 0x16ffffff8 0000000000000000\n", Ok(1)),
        (b"0 copy 0x100004010 0x100004018 8", Ok(1)),
        (
            b"0 copy 0xABCDEFabcdef0123 0x0 4096\n4294967295 write 0x0 aF\n",
            Ok(2),
        ),
        (b"0000000007 write 0x0000000000000001 00", Ok(1)),
    ];
    for (text, expected) in rows {
        assert_eq!(rt; answer(rt.alloc(), text), expected);
    }
}

#[test]
fn refuses_other_forms(rt: HostRuntime) {
    let rows = [
        &b"\n"[..],
        b"5 write 0x16ffffff8 0",
        b"5 write 0x16ffffff8 ",
        b"5 write 0x16ffffff8 0g",
        b"5 write 0x16ffffff8",
        b"5 write 16ffffff8 00",
        b"5 write 0X16ffffff8 00",
        b"5 write 0x 00",
        b"5 write 0x00000000000000000 00",
        b"5 write 0xg 00",
        b"5  write 0x0 00",
        b"5 write  0x0 00",
        b" 5 write 0x0 00",
        b"5 write 0x0 00 ",
        b"5 write 0x0 00\r\n",
        b"5 write 0x0 00 00",
        b"5 Write 0x0 00",
        b"+5 write 0x0 00",
        b"00000000005 write 0x0 00",
        b"4294967296 write 0x0 00",
        b" write 0x0 00",
        b"5",
        b"5 copy 0x0 0x1",
        b"5 copy 0x0 0x1 0",
        b"5 copy 0x0 0x1 08",
        b"5 copy 0x0 0x1 4097",
        b"5 copy 0x0 0x1 10000",
        b"5 copy 0x0 0x1 8 8",
        b"5 copy 0x0 0x1 0x8",
    ];
    for text in rows {
        let expected = Err(Fault::Refused {
            rule: ScriptRule::P1,
            place: 1,
        });
        assert_eq!(rt; answer(rt.alloc(), text), expected);
    }
}

#[test]
fn finds_the_first_line_that_breaks_a_rule(rt: HostRuntime) {
    let rows = [
        (
            &b"5 write 0x16ffffff8 00\n4 write 0x16ffffff8 00"[..],
            ScriptRule::P2,
            2,
        ),
        (b"5 write 0x0 00\n\n4 write 0x0 00\n", ScriptRule::P1, 2),
        (b"5 write 0x0 00\n4 write 0x0 0\n", ScriptRule::P1, 2),
        (
            b"5 write 0x0 00\n5 write 0x0 00\n4 write 0x0 00\n?",
            ScriptRule::P2,
            3,
        ),
    ];
    for (text, rule, place) in rows {
        assert_eq!(rt;
            answer(rt.alloc(), text),
            Err(Fault::Refused { rule, place })
        );
    }
}

fn sixteen(alloc: Global) -> Result<Bytes, Memory>
    ensures { IfOk result (λ bytes. length bytes ≡ 16) }
{
    let bytes = Bytes::from_slice(alloc, &[0; 16])?;
    Ok(bytes)
}

// Sixteen bytes to read and write at 0x2000, sixteen to read right behind them, and sixteen to run at 0x4000.
fn space(alloc: Global) -> Result<Space, Memory> {
    let data = Rights {
        read: true,
        write: true,
        run: false,
    };
    let mut space = Space::new(alloc);
    space.add(0x2000, sixteen(alloc)?, data)?;
    space.add(0x2010, sixteen(alloc)?, Rights::READ)?;
    space.add(0x4000, sixteen(alloc)?, Rights::RUN)?;
    Ok(space)
}

#[test]
fn finds_the_first_line_that_does_not_fit(rt: HostRuntime) {
    let space = space(rt.alloc()).expect(&rt, "ample memory");
    let rows = [
        (&b""[..], None),
        (b"0 write 0x2000 00\n9 write 0x200f 00", None),
        (b"0 write 0x2000 00\n9 write 0x200f 0000", Some(2)),
        (b"0 write 0x2010 00", Some(1)),
        (b"0 write 0x100000400 00", Some(1)),
        (b"0 copy 0x2000 0x2010 16", None),
        (b"0 copy 0x2000 0x2008 8", None),
        (b"0 copy 0x2000 0x2008 9", Some(1)),
        (b"0 copy 0x2010 0x2000 16", Some(1)),
        (b"0 copy 0x2000 0x4000 8", Some(1)),
    ];
    for (text, expected) in rows {
        let Ok(script) = read_script(rt.alloc(), text) else {
            panic!(rt; "ample memory");
        };
        assert_eq!(rt; fits(&script, &space), expected);
    }
}

fn copy(step: u32) -> Item
    ensures { is_line result ≡ true }
{
    let deed = Deed::Copy {
        to: 0,
        from: 0,
        count: 1,
    };
    Item { step, deed }
}

#[test]
fn has_at_most_65536_items(rt: HostRuntime) {
    let mut script = Script::new(rt.alloc());
    for step in 0..65_536 {
        assert_eq!(rt; script.push(copy(step)), Ok(()));
    }
    let refused = Fault::Refused {
        rule: ScriptRule::P3,
        place: 65_537,
    };
    assert_eq!(rt; script.push(copy(65_535)), Err(refused));
    assert_eq!(rt; script.as_slice().len(), 65_536);
}
