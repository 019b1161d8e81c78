ghost use Rattle.std.specs.Prelude.{◌≡◌, [], IfOk};
ghost use Rattle.pa_macho.specs.declared.header.Role.TheVariants as role;

use pa_fixups::{Fix, FixKind, Fixes, Sig};
use pa_image::{Image, is_small, legal};
use pa_load::{LoadRule, Loaded, load};
use pa_log::{Entry, Event, When};
use pa_macho::Role;
use pa_mem::{Abort, Rights, Size};
use pa_num::{Bytes, Fault, Name, Names, Words};
use pa_object::{Mark, Marks};
use pa_pac::{FoldPac, Key};
use std::alloc::Global;
use std::test::Fail;

/// Eight words that tell themselves apart.
const WORDS: [u32; 8] = [
    0x94000001, 0xd4000061, 0xd4200000, 0xd503237f, 0xd2800000, 0xd65f0fff, 0xd503237f, 0xd65f0fff,
];

fn names(alloc: Global, list: &[&[u8]]) -> Result<Names, Fail> {
    let mut names = Names::new(alloc);
    for name in list {
        names.push(Name::from_slice(alloc, *name)?)?;
    }
    Ok(names)
}

fn mark(alloc: Global, name: &[u8], at: u32, public: bool) -> Result<Mark, Fail> {
    let name = Name::from_slice(alloc, name)?;
    Ok(Mark { name, at, public })
}

/// A program of these words and one stub, with these imports, two slots of `__auth_got` and 40 bytes of data.
fn program(alloc: Global, imports: &[&[u8]], fixes: &[Fix]) -> Result<Image, Fail>
    ensures { IfOk result (λ image. image.role ≡ role.Main) }
{
    let mut marks = Marks::new(alloc);
    marks.push(mark(alloc, b"_main", 3, true)?)?;
    Ok(Image {
        role: Role::Main,
        text: Words::from_slice(alloc, &WORDS)?,
        stubs: Words::from_slice(alloc, &[0x90000011, 0x91000231, 0xf9400230, 0xd71f0a11])?,
        consts: Bytes::new(alloc),
        got: 16,
        cells: Bytes::from_slice(alloc, &[0; 40])?,
        marks,
        imports: names(alloc, imports)?,
        fixes: Fixes::from_slice(alloc, fixes)?,
    })
}

/// A runtime image whose functions are public but for `_hidden`.
fn runtime(alloc: Global) -> Result<Image, Fail>
    ensures role { IfOk result (λ image. image.role ≡ role.Library) }
    ensures imports { IfOk result (λ image. image.imports ≡ []) }
    ensures fixes { IfOk result (λ image. image.fixes ≡ []) }
{
    let mut marks = Marks::new(alloc);
    marks.push(mark(alloc, b"_putchar", 0, true)?)?;
    marks.push(mark(alloc, b"_hidden", 2, false)?)?;
    marks.push(mark(alloc, b"_getchar", 3, true)?)?;
    Ok(Image {
        role: Role::Library,
        text: Words::from_slice(alloc, &WORDS)?,
        stubs: Words::new(alloc),
        consts: Bytes::new(alloc),
        got: 0,
        cells: Bytes::new(alloc),
        marks,
        imports: Names::new(alloc),
        fixes: Fixes::new(alloc),
    })
}

/// What `load` answers on a program with these imports and slots.
fn answer(
    alloc: Global,
    imports: &[&[u8]],
    fixes: &[Fix],
    slide: u16,
) -> Result<Result<Loaded, Fault<LoadRule>>, Fail> {
    let main = program(alloc, imports, fixes)?;
    let runtime = runtime(alloc)?;
    if !legal(&main) {
        return Err(Fail::from("a legal program"));
    }
    if !legal(&runtime) {
        return Err(Fail::from("a legal runtime image"));
    }
    if !is_small(&main) {
        return Err(Fail::from("a small program"));
    }
    if !is_small(&runtime) {
        return Err(Fail::from("a small runtime image"));
    }
    Ok(load(alloc, &main, &runtime, slide, &FoldPac))
}

fn loaded(alloc: Global, fixes: &[Fix], slide: u16) -> Result<Loaded, Fail> {
    match answer(alloc, &[b"_putchar", b"_getchar"], fixes, slide)? {
        Ok(loaded) => Ok(loaded),
        Err(_) => Err(Fail::from("loaded")),
    }
}

/// The address alone.
const ADDRESS: Sig = Sig {
    key: Key::IA,
    addr: true,
    disc: 0,
};

/// The address and a discriminator.
const BLENDED: Sig = Sig {
    key: Key::IA,
    addr: true,
    disc: 0x1234,
};

/// Discriminators alone.
const DATA: Sig = Sig {
    key: Key::DA,
    addr: false,
    disc: 0x77,
};

const OTHER: Sig = Sig {
    key: Key::IB,
    addr: false,
    disc: 9,
};

/// Slots of each kind, with the address in the modifier and without it.
const SLOTS: [Fix; 7] = [
    Fix {
        at: 0,
        kind: FixKind::AuthBind {
            ordinal: 0,
            sig: ADDRESS,
        },
    },
    Fix {
        at: 8,
        kind: FixKind::AuthRebase {
            target: 0x410,
            sig: BLENDED,
        },
    },
    Fix {
        at: 16,
        kind: FixKind::Rebase {
            target: 0x1_0000_4010,
            high8: 0xff,
        },
    },
    Fix {
        at: 24,
        kind: FixKind::Bind {
            ordinal: 0,
            addend: -262_144,
        },
    },
    Fix {
        at: 32,
        kind: FixKind::Bind {
            ordinal: 1,
            addend: 262_143,
        },
    },
    Fix {
        at: 40,
        kind: FixKind::AuthRebase {
            target: 0x414,
            sig: DATA,
        },
    },
    Fix {
        at: 48,
        kind: FixKind::AuthBind {
            ordinal: 1,
            sig: OTHER,
        },
    },
];

/// What they hold under the slides 0, 1 and 65,535, worked from the formulas with the folding code.
const VALUES: [(u16, u64, [u64; 7]); 3] = [
    (
        0,
        0x1_0000_4000,
        [
            0xc400_0001_8000_0400,
            0x562c_0001_0000_0410,
            0xff00_0001_0000_4010,
            0x1_7ffc_0400,
            0x1_8004_040b,
            0x0460_0001_0000_0414,
            0x8405_0001_8000_040c,
        ],
    ),
    (
        1,
        0x1_0000_8000,
        [
            0x0400_0001_8000_0400,
            0xd62c_0001_0000_4410,
            0xff00_0001_0000_8010,
            0x1_7ffc_0400,
            0x1_8004_040b,
            0x4460_0001_0000_4414,
            0x8405_0001_8000_040c,
        ],
    ),
    (
        0xffff,
        0x1_4000_0000,
        [
            0xc400_0001_8000_0400,
            0xa953_0001_3fff_c410,
            0xff00_0001_4000_0010,
            0x1_7ffc_0400,
            0x1_8004_040b,
            0xfb1f_0001_3fff_c414,
            0x8405_0001_8000_040c,
        ],
    ),
];

#[test]
fn fills_each_kind_of_slot(rt: HostRuntime) -> Result<(), Fail> {
    for (slide, slots, values) in &VALUES {
        let loaded = loaded(rt.alloc(), &SLOTS, *slide)?;
        for (value, fix) in values.iter().zip(SLOTS.iter()) {
            let at = slots.wrapping_add(u64::from(fix.at));
            assert_eq!(rt;
                loaded.space.read(at, Size::B8),
                Ok(*value),
                "slot {} under {slide}",
                fix.at
            );
        }
    }
    Ok(())
}

#[test]
fn logs_each_signature(rt: HostRuntime) -> Result<(), Fail> {
    let loaded = loaded(rt.alloc(), &SLOTS, 0)?;
    let signs = [
        (Key::IA, 0x1_0000_4000, 0x1_8000_0400, 0xc400_0001_8000_0400),
        (
            Key::IA,
            0x1234_0001_0000_4008,
            0x1_0000_0410,
            0x562c_0001_0000_0410,
        ),
        (Key::DA, 0x77, 0x1_0000_0414, 0x0460_0001_0000_0414),
        (Key::IB, 9, 0x1_8000_040c, 0x8405_0001_8000_040c),
    ];
    let entries = loaded.log.entries();
    assert_eq!(rt; entries.len(), signs.len());
    for (entry, (key, modifier, raw, signed)) in entries.iter().zip(signs.iter()) {
        let event = Event::Sign {
            key: *key,
            modifier: *modifier,
            raw: *raw,
            signed: *signed,
        };
        assert_eq!(rt;
            *entry,
            Entry {
                when: When::Load,
                event
            }
        );
    }
    Ok(())
}

#[test]
fn tells_the_first_missing_import(rt: HostRuntime) -> Result<(), Fail> {
    let cases: [(&[&[u8]], u64); 4] = [
        (&[b"_none"], 0),
        (&[b"_putchar", b"_none", b"_nil", b"_none"], 1),
        (&[b"_putchar", b"_getchar", b"_hidden"], 2),
        (&[b"_getchar", b"_putcha", b"_putchar"], 1),
    ];
    for (imports, place) in &cases {
        let Err(fault) = answer(rt.alloc(), *imports, &[], 0)? else {
            return Err(Fail::from("a missing import"));
        };
        let rule = LoadRule::B1;
        assert_eq!(rt;
            fault,
            Fault::Refused {
                rule,
                place: *place
            }
        );
    }
    Ok(())
}

#[test]
fn maps_the_segments_and_the_stack(rt: HostRuntime) -> Result<(), Fail> {
    let both = Rights {
        read: true,
        write: true,
        run: false,
    };
    let code = Rights {
        read: true,
        write: false,
        run: true,
    };
    for (slide, base) in [(0, 0x1_0000_0000), (3, 0x1_0000_c000)] {
        let Loaded { space, log, pc, sp } = loaded(rt.alloc(), &[], slide)?;
        assert_eq!(rt;
            (pc, sp, log.entries().len()),
            (base + 0x400, 0x1_7000_0000, 0)
        );
        assert_eq!(rt; space.fetch(base + 0x400), Ok(0x9400_0001));
        assert_eq!(rt; space.fetch(base + 0x420), Ok(0x9000_0011));
        assert_eq!(rt; space.fetch(0x1_8000_040c), Ok(0xd503_237f));
        let regions = [
            (base, 0x4000, code),
            (base + 0x4000, 0x4000, both),
            (base + 0x8000, 0x4000, Rights::READ),
            (0x1_6f80_0000, 0x80_0000, both),
            (0x1_8000_0000, 0x4000, code),
            (0x1_8000_4000, 0x4000, both),
            (0x1_8000_8000, 0x4000, Rights::READ),
        ];
        for (at, count, rights) in regions {
            assert!(rt; space.inside(at, count, rights), "{at}");
            assert!(rt; !space.inside(at, count + 1, Rights::READ), "{at}");
            let all = Rights {
                read: true,
                write: true,
                run: true,
            };
            assert!(rt; !space.inside(at, 1, all), "{at}");
        }
        assert_eq!(rt; space.read(base + 0xbfff, Size::B1), Ok(0));
        assert_eq!(rt; space.read(base.wrapping_sub(1), Size::B1), Err(Abort));
    }
    Ok(())
}
