use pa_fixups::{
    DataAt, FixKind, Fixups, Sig, Starts, read_fixups, read_slot, write_fixups, write_slot,
};
use pa_num::{Fault, ImageRule, Name, Names};
use pa_pac::Key;
use std::test::Fail;

#[test]
fn spells_the_four_kinds(rt: HostRuntime) {
    let sig = Sig {
        key: Key::IA,
        addr: true,
        disc: 0x1234,
    };
    let plain = Sig { disc: 0, ..sig };
    let rebase = FixKind::Rebase {
        target: 0x1_0000_8020,
        high8: 0,
    };
    let bind = FixKind::Bind {
        ordinal: 1,
        addend: 5,
    };
    let auth_rebase = FixKind::AuthRebase { target: 0x598, sig };
    let auth_bind = FixKind::AuthBind {
        ordinal: 3,
        sig: plain,
    };
    let words = [
        (rebase, 2, 0x0010_0001_0000_8020),
        (bind, 0, 0x4000_0005_0000_0001),
        (auth_rebase, 1, 0x8009_1234_0000_0598),
        (auth_bind, 0, 0xC001_0000_0000_0003),
    ];
    for (kind, next, word) in words {
        assert_eq!(rt; read_slot(word), Ok((kind, next)), "at {word:x}");
    }
    assert_eq!(rt; write_slot(rebase, 2), 0x0010_0001_0000_8020);
    assert_eq!(rt; write_slot(bind, 0), 0x4000_0005_0000_0001);
    assert_eq!(rt; write_slot(auth_rebase, 1), 0x8009_1234_0000_0598);
    assert_eq!(rt; write_slot(auth_bind, 0), 0xC001_0000_0000_0003);
}

#[test]
fn takes_no_set_zero_bit(rt: HostRuntime) {
    assert_eq!(rt; read_slot(0xC001_0000_0001_0003), Err(ImageRule::F3));
    assert_eq!(rt; read_slot(0x4000_0005_8000_0001), Err(ImageRule::F3));
}

#[test]
fn reads_a_negative_addend(rt: HostRuntime) {
    let kind = FixKind::Bind {
        ordinal: 1,
        addend: -1,
    };
    assert_eq!(rt; read_slot(0x4007_FFFF_0000_0001), Ok((kind, 0)));
    assert_eq!(rt; write_slot(kind, 0), 0x4007_FFFF_0000_0001);
}

const AT: DataAt = DataAt {
    segments: 4,
    offset: 0x4000,
    pages: 1,
};

const PART: [u8; 88] = [
    0, 0, 0, 0, 32, 0, 0, 0, 80, 0, 0, 0, 84, 0, 0, 0, 1, 0, 0, 0, 1, 0, 0, 0, 0, 0, 0, 0, 0, 0, 0,
    0, 4, 0, 0, 0, 0, 0, 0, 0, 0, 0, 0, 0, 24, 0, 0, 0, 0, 0, 0, 0, 0, 0, 0, 0, 24, 0, 0, 0, 0,
    0x40, 1, 0, 0, 0x40, 0, 0, 0, 0, 0, 0, 0, 0, 0, 0, 1, 0, 8, 0, 1, 2, 0, 0, 0, b'_', b'a', 0,
];

#[test]
fn spells_one_page_and_one_import(rt: HostRuntime) -> Result<(), Fail> {
    let Ok(read) = read_fixups(rt.alloc(), &PART, AT) else {
        return Err(Fail::from("fixups"));
    };
    assert_eq!(rt; read.starts.as_slice(), [8].as_slice());
    assert_eq!(rt; read.imports.len(), 1);
    for name in read.imports.as_slice() {
        assert_eq!(rt; name.as_slice(), b"_a".as_slice());
    }
    let starts = Starts::from_slice(rt.alloc(), &[8])?;
    let mut imports = Names::new(rt.alloc());
    imports.push(Name::from_slice(rt.alloc(), b"_a")?)?;
    let fixups = Fixups { starts, imports };
    let Ok(part) = write_fixups(rt.alloc(), &fixups, AT) else {
        return Err(Fail::from("memory"));
    };
    assert_eq!(rt; part.as_slice(), PART.as_slice());
    Ok(())
}

#[test]
fn tells_the_first_flaw(rt: HostRuntime) -> Result<(), Fail> {
    // A byte that changes, and the flaw: version, count, gaps, the format of pointers, the library, where a name begins,
    // the zero byte before the names, a name's end, and a byte behind it.
    let flaws = [
        (0, 1, ImageRule::F2, 0),
        (16, 2, ImageRule::F2, 12),
        (28, 1, ImageRule::F2, 28),
        (52, 1, ImageRule::F2, 52),
        (62, 12, ImageRule::F2, 62),
        (80, 2, ImageRule::F2, 80),
        (81, 4, ImageRule::F7, 80),
        (84, 1, ImageRule::F2, 84),
        (87, b'b', ImageRule::F7, 80),
        (86, 0, ImageRule::F1, 87),
    ];
    for (at, byte, rule, place) in flaws {
        let mut part = PART;
        assert!(rt; at < 88);
        part[at] = byte;
        let Err(fault) = read_fixups(rt.alloc(), &part, AT) else {
            return Err(Fail::from("a flaw"));
        };
        assert_eq!(rt; fault, Fault::Refused { rule, place }, "at {at}");
    }
    // A size, and the part that passes it.
    for (len, place) in [(27, 0), (30, 32), (79, 32), (83, 80), (84, 84)] {
        assert!(rt; len < 88);
        let Err(fault) = read_fixups(rt.alloc(), &PART[..len], AT) else {
            return Err(Fail::from("a flaw"));
        };
        let rule = ImageRule::F1;
        assert_eq!(rt; fault, Fault::Refused { rule, place }, "at {len}");
    }
    Ok(())
}
