ghost use Rattle.std.specs.Prelude.{◌≡◌, ◌≤◌, ◌<◌, ◌+◌, ◌*◌, ◌^◌, length, IfOk};
ghost use Rattle.pa_slots.specs.Pages.{page_size, cells_from};

use crate::bytes::{put, zeros};
use pa_fixups::{Fix, FixKind, Sig};
use pa_num::{Fault, ImageRule, Memory};
use pa_pac::Key;
use pa_slots::{Slots, SlotsAt, Written, read_slots, slots_fit, write_slots};
use std::alloc::{AllocError, Global};
use std::test::Fail;

/// Two pages at 0x4000 of a file of 0x10000 bytes. `__auth_got` has two slots, `__data` begins at 0x10 and ends at 0x4020, in
/// the second page.
const AT: SlotsAt = SlotsAt {
    place: 0x4000,
    starts: 0xc04e,
    got: 16,
    cells: 0x4010,
    imports: 1,
    base: 0x1_0000_0000,
    size: 0x1_0000,
};

const SIG: Sig = Sig {
    key: Key::IA,
    addr: true,
    disc: 0,
};

const FIXES: [Fix; 4] = [
    Fix {
        at: 0,
        kind: FixKind::AuthBind {
            ordinal: 0,
            sig: SIG,
        },
    },
    Fix {
        at: 0x3ff8,
        kind: FixKind::Rebase {
            target: 0x1_0000_0400,
            high8: 0,
        },
    },
    Fix {
        at: 0x4000,
        kind: FixKind::AuthRebase {
            target: 0x40c,
            sig: SIG,
        },
    },
    Fix {
        at: 0x4010,
        kind: FixKind::Rebase {
            target: 0x1_0001_0000,
            high8: 0x80,
        },
    },
];

/// The two pages, laid out by hand: the words of the slots, and a word of `__data` behind them.
fn pages(alloc: Global) -> Result<Vec<u8>, AllocError>
    ensures { IfOk result (λ bytes. length bytes.items ≡ 0x8000) }
{
    let mut bytes = zeros(alloc, 0x8000)?;
    put(&mut bytes, 0, 0xfff9_0000_0000_0000);
    put(&mut bytes, 0x3ff8, 0x1_0000_0400);
    put(&mut bytes, 0x4000, 0x8011_0000_0000_040c);
    put(&mut bytes, 0x4010, 0x0004_0001_0001_0000);
    put(&mut bytes, 0x4018, 0x0807_0605_0403_0201);
    Ok(bytes)
}

/// `__data` beside the slots.
fn cells(alloc: Global) -> Result<Vec<u8>, AllocError>
    ensures { IfOk result (λ bytes. length bytes.items ≡ 0x4010) }
{
    let mut bytes = zeros(alloc, 0x4010)?;
    put(&mut bytes, 0x4008, 0x0807_0605_0403_0201);
    Ok(bytes)
}

/// The pages of slots that fit.
fn written(
    alloc: Global,
    at: &SlotsAt,
    cells: &[u8],
    fixes: &[Fix],
    pages: u32,
) -> Result<Written, Fail>
    requires pages { pages < 2 ^ 16 }
    requires inside { cells_from at.now + at.now.cells ≤ page_size * pages }
    ensures { IfOk result (λ made. length made.bytes.items ≡ page_size * pages) }
{
    if !slots_fit(at, cells, fixes) {
        return Err(Fail::from("slots"));
    }
    let Ok(made) = write_slots(alloc, at, cells, fixes, pages) else {
        return Err(Fail::from("memory"));
    };
    Ok(made)
}

#[test]
fn spells_two_pages(rt: HostRuntime) -> Result<(), Fail> {
    let cells = cells(rt.alloc())?;
    let Written { bytes, starts } = written(rt.alloc(), &AT, &cells, &FIXES, 2)?;
    assert_eq!(rt; starts.as_slice(), [0, 0].as_slice());
    assert_eq!(rt; bytes.as_slice(), pages(rt.alloc())?.as_slice());
    let Ok(Slots { cells: read, fixes }) = read_slots(rt.alloc(), &AT, starts.as_slice(), &bytes)
    else {
        return Err(Fail::from("slots"));
    };
    assert_eq!(rt; read.as_slice(), cells.as_slice());
    assert_eq!(rt; fixes.as_slice(), FIXES.as_slice());
    Ok(())
}

/// Reads the pages, and answers the flaw.
fn flaw(alloc: Global, starts: [u16; 2], bytes: &[u8]) -> Result<Option<(ImageRule, u64)>, Memory>
    requires { length bytes.now ≡ 0x8000 }
{
    match read_slots(alloc, &AT, &starts, bytes) {
        Ok(_) => Ok(None),
        Err(Fault::Refused { rule, place }) => Ok(Some((rule, place))),
        Err(Fault::Memory) => Err(Memory),
    }
}

#[test]
fn tells_the_first_flaw(rt: HostRuntime) -> Result<(), Fail> {
    use ImageRule::{F3, F4, F5, F6, H3};

    // The starts of the pages, a place with its word, and the flaw.
    let rows = [
        ([0, 0], 0x4018, 0, None),
        // A start that no slot may have: in a word, behind `__data`, across the border of pages.
        ([0, 4], 0x4018, 0, Some((F4, 0xc050))),
        ([0, 0x20], 0x4018, 0, Some((F4, 0xc050))),
        ([0x3ffc, 0], 0x4018, 0, Some((F4, 0xc04e))),
        // Without its chain a page of `__data` is bytes, and a slot of `__auth_got` has to be zero.
        ([0, 0xffff], 0x4018, 0, None),
        ([0xffff, 0], 0x4018, 0, Some((H3, 0x4006))),
        ([0, 0], 8, 0x1_0000, Some((H3, 0x400a))),
        ([0, 0], 0x4020, 0x100, Some((H3, 0x8021))),
        ([0, 0], 0x7ff8, 1 << 63, Some((H3, 0xbfff))),
        // A zero bit, an ordinal, and targets below the base and behind the end.
        ([0, 0], 0x4000, 0x4010_0000_0001_0000, Some((F3, 0x8000))),
        ([0, 0], 0x4000, 0x4010_0000_0000_0001, Some((F5, 0x8000))),
        ([0, 0], 0x4010, 0xffff_ffff, Some((F6, 0x8010))),
        ([0, 0], 0x4010, 0x1_0001_0001, Some((F6, 0x8010))),
        ([0, 0], 0x4010, 0x8001_0000_0001_0000, Some((F6, 0x8010))),
        // A link across the border of pages, and one behind `__data`.
        ([0, 0], 0x3ff8, 0x0008_0001_0000_0400, Some((F4, 0x7ff8))),
        ([0, 0], 0x4010, 0x0014_0001_0001_0000, Some((F4, 0x8010))),
        // The first page before the second, and chains before zeros.
        ([4, 4], 0x4018, 0, Some((F4, 0xc04e))),
        ([0, 4], 8, 1, Some((F4, 0xc050))),
    ];
    for (starts, at, word, expected) in rows {
        let mut bytes = pages(rt.alloc())?;
        put(&mut bytes, at, word);
        assert_eq!(rt; flaw(rt.alloc(), starts, &bytes), Ok(expected), "at {at:x}");
    }
    Ok(())
}

const TARGET: FixKind = FixKind::Rebase {
    target: 0x1_0000_0000,
    high8: 0,
};

#[test]
fn tells_which_slots_fit(rt: HostRuntime) -> Result<(), Fail> {
    // Where two slots stand, of which the first is in `__auth_got`.
    let rows = [
        (0, 8, true),
        (0, 16, true),
        (8, 16, true),
        (0, 0x3ff8, true),
        (0, 0x4000, true),
        (0, 0x4010, true),
        (8, 8, false),
        (8, 0, false),
        (0, 12, false),
        (4, 16, false),
        (0, 0x3ffc, false),
        // These stand on a byte of `__data` that isn't zero, behind `__data`, and behind all pages.
        (0, 0x4018, false),
        (0, 0x4020, false),
        (0, 0x8000, false),
        (0, 0xffff_fff8, false),
    ];
    let cells = cells(rt.alloc())?;
    for (first, second, fits) in rows {
        let fixes = [
            Fix {
                at: first,
                kind: TARGET,
            },
            Fix {
                at: second,
                kind: TARGET,
            },
        ];
        assert_eq!(rt;
            slots_fit(&AT, &cells, &fixes),
            fits,
            "at {first}, {second}"
        );
    }
    let shorter = zeros(rt.alloc(), 0x400f)?;
    assert!(rt; slots_fit(&AT, &cells, &[]));
    assert!(rt; !slots_fit(&AT, &shorter, &[]));
    Ok(())
}
