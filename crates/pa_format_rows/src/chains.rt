use crate::bytes::{put, zeros};
use pa_fixups::{Bounds, Fix, FixKind, erase_slots, read_chain, write_chain};
use pa_num::{Fault, ImageRule};
use std::test::Fail;

const BOUNDS: Bounds = Bounds {
    page: 0,
    got: 0,
    cells: 0x4000,
    imports: 1,
    base: 0x1_0000_0000,
    size: 0xC000,
};

const TARGET: FixKind = FixKind::Rebase {
    target: 0x1_0000_C000,
    high8: 0,
};

#[test]
fn links_to_the_last_slot_of_a_page(rt: HostRuntime) -> Result<(), Fail> {
    let fixes = [
        Fix {
            at: 0,
            kind: TARGET,
        },
        Fix {
            at: 16376,
            kind: TARGET,
        },
    ];
    let mut page = zeros(rt.alloc(), 0x4000)?;
    write_chain(&mut page, &fixes);
    assert_eq!(rt; &page[..8], [0, 0xC0, 0, 0, 1, 0, 0xF8, 0x3F].as_slice());
    let Ok(read) = read_chain(rt.alloc(), &page, 0, &BOUNDS) else {
        return Err(Fail::from("a chain"));
    };
    assert_eq!(rt; read.as_slice(), fixes.as_slice());
    erase_slots(&mut page, &fixes);
    assert!(rt; page.iter().all(|byte| *byte == 0));
    Ok(())
}

#[test]
fn tells_the_first_flaw(rt: HostRuntime) -> Result<(), Fail> {
    // The first slot, its word, and the flaw: a link past the page, an ordinal before a link, a zero bit before an
    // ordinal, a target behind the end, a place that holds no slot.
    let flaws = [
        (8, 0x3FF8_0001_0000_0000, ImageRule::F4, 8),
        (16, 0x7FF8_0000_0000_0001, ImageRule::F5, 16),
        (16, 0x7FF8_0000_0001_0001, ImageRule::F3, 16),
        (24, 0x0000_0001_0000_C001, ImageRule::F6, 24),
        (24, 0x8000_0000_0000_C000, ImageRule::F6, 24),
        (12, 0x0000_0001_0000_0000, ImageRule::F4, 65536),
        (16380, 0x0000_0001_0000_0000, ImageRule::F4, 65536),
    ];
    for (first, word, rule, place) in flaws {
        let mut page = zeros(rt.alloc(), 0x4000)?;
        put(&mut page, first as usize, word);
        let read = read_chain(rt.alloc(), &page, first, &BOUNDS);
        let Err(fault) = read else {
            return Err(Fail::from("a flaw"));
        };
        assert_eq!(rt; fault, Fault::Refused { rule, place }, "at {first}");
    }
    Ok(())
}
