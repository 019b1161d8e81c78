//! Slots and stubs of a small program that breaks no other rule.

use crate::sample::{Want, is_answer};
use crate::words::{
    ADD_X17_0, ADD_X17_8, ADRP_X17_4, B_1, BL_3, BRAA_X16_X17, BRK_0, LDR_X16_X17, NOP,
    PACIA_X16_X17, PACIBSP, RETAB, SVC_3, XPACI_X0,
};
use pa_check::CheckRule;
use pa_fixups::{Fix, FixKind, Fixes, Sig};
use pa_image::Image;
use pa_macho::Role;
use pa_num::{Bytes, Name, Names, Words};
use pa_object::{Mark, Marks};
use pa_pac::Key;
use std::alloc::{AllocError, Global};
use std::test::Fail;

/// Where the first stub stands, and the first slot, with `__data` 16 bytes behind it.
const STUBS: u64 = 0x420;

const GOT: u64 = 0x4000;

const STUB_0: [u32; 4] = [ADRP_X17_4, ADD_X17_0, LDR_X16_X17, BRAA_X16_X17];

const IMPORT: Sig = Sig {
    key: Key::IA,
    addr: true,
    disc: 0,
};

/// A slot that holds the import's address, signed so.
fn bound(at: u32, sig: Sig) -> Fix {
    let kind = FixKind::AuthBind { ordinal: 0, sig };
    Fix { at, kind }
}

/// A slot that holds an address of the image, signed so.
fn rebased(at: u32, target: u32, sig: Sig) -> Fix {
    let kind = FixKind::AuthRebase { target, sig };
    Fix { at, kind }
}

/// A slot that holds an address of the image, unsigned.
fn unsigned(at: u32, target: u64, high8: u8) -> Fix {
    let kind = FixKind::Rebase { target, high8 };
    Fix { at, kind }
}

/// The program with an import table of `got` bytes, these stubs and these slots.
fn image(alloc: Global, got: u32, stubs: &[u32], fixes: &[Fix]) -> Result<Image, AllocError> {
    let mut marks = Marks::new(alloc);
    marks.push(Mark {
        name: Name::from_slice(alloc, b"_main")?,
        at: 3,
        public: false,
    })?;
    let mut imports = Names::new(alloc);
    imports.push(Name::from_slice(alloc, b"_putchar")?)?;
    Ok(Image {
        role: Role::Main,
        text: Words::from_slice(alloc, &[BL_3, SVC_3, BRK_0, PACIBSP, RETAB])?,
        stubs: Words::from_slice(alloc, stubs)?,
        consts: Bytes::new(alloc),
        got,
        cells: Bytes::from_slice(alloc, &[0; 16])?,
        marks,
        imports,
        fixes: Fixes::from_slice(alloc, fixes)?,
    })
}

/// Whether that is legal, and the checker answers this.
fn answers(
    alloc: Global,
    got: u32,
    stubs: &[u32],
    fixes: &[Fix],
    want: Want,
) -> Result<bool, AllocError> {
    Ok(is_answer(&image(alloc, got, stubs, fixes)?, want))
}

#[test]
fn imports_are_signed_with_their_address(rt: HostRuntime) -> Result<(), Fail> {
    let bad = Want::Bad(CheckRule::K5, GOT);
    let rows = [
        (IMPORT, Want::Windowed),
        (
            Sig {
                key: Key::IB,
                ..IMPORT
            },
            bad,
        ),
        (
            Sig {
                addr: false,
                ..IMPORT
            },
            bad,
        ),
        (Sig { disc: 1, ..IMPORT }, bad),
    ];
    for (sig, want) in rows {
        assert!(rt; answers(rt.alloc(), 8, &STUB_0, &[bound(0, sig)], want)?);
    }
    Ok(())
}

#[test]
fn each_slot_of_the_import_table_is_bound(rt: HostRuntime) -> Result<(), Fail> {
    let first = bound(0, IMPORT);
    let second = bound(8, IMPORT);
    let other = rebased(0, 1036, IMPORT);
    let rows = [
        (8, first, Want::Windowed),
        (8, other, Want::Bad(CheckRule::K5, GOT)),
        (16, first, Want::Bad(CheckRule::K5, GOT + 8)),
        (16, second, Want::Bad(CheckRule::K5, GOT)),
    ];
    for (got, fix, want) in rows {
        assert!(rt; answers(rt.alloc(), got, &STUB_0, &[fix], want)?);
    }
    let none = Want::Bad(CheckRule::K5, GOT);
    assert!(rt; answers(rt.alloc(), 8, &STUB_0, &[], none)?);
    assert!(rt; answers(rt.alloc(), 16, &STUB_0, &[first, second], Want::Windowed)?);
    Ok(())
}

#[test]
fn slots_of_data_hold_signed_functions(rt: HostRuntime) -> Result<(), Fail> {
    let under = |key: Key| Sig {
        key,
        addr: false,
        disc: 7,
    };
    let bad = Want::Bad(CheckRule::K5, GOT + 16);
    let bind = Fix {
        at: 16,
        kind: FixKind::Bind {
            ordinal: 0,
            addend: 0,
        },
    };
    let rows = [
        (rebased(16, 1036, under(Key::IA)), Want::Windowed),
        (rebased(16, 1040, under(Key::IA)), bad),
        (rebased(16, 1036, under(Key::DA)), bad),
        (
            rebased(24, 1036, under(Key::IB)),
            Want::Bad(CheckRule::K5, GOT + 24),
        ),
        (bound(16, under(Key::IA)), Want::Windowed),
        (bound(16, under(Key::IB)), bad),
        (unsigned(16, 0x1_0000_0410, 0), Want::Windowed),
        (unsigned(16, 0x1_0000_040c, 0), bad),
        (unsigned(16, 0x1_0000_040c, 1), bad),
        (bind, bad),
    ];
    for (fix, want) in rows {
        assert!(rt; answers(rt.alloc(), 8, &STUB_0, &[bound(0, IMPORT), fix], want)?);
    }
    Ok(())
}

#[test]
fn a_stub_is_that_of_its_slot(rt: HostRuntime) -> Result<(), Fail> {
    let rows: [(&[u32], Want); 10] = [
        (&[], Want::Windowed),
        (&STUB_0, Want::Windowed),
        (
            &[NOP, ADD_X17_0, LDR_X16_X17, BRAA_X16_X17],
            Want::Bad(CheckRule::K7, STUBS),
        ),
        (
            &[ADRP_X17_4, ADD_X17_8, LDR_X16_X17, BRAA_X16_X17],
            Want::Bad(CheckRule::K7, STUBS + 4),
        ),
        (
            &[ADRP_X17_4, ADD_X17_0, NOP, BRAA_X16_X17],
            Want::Bad(CheckRule::K7, STUBS + 8),
        ),
        (
            &[ADRP_X17_4, ADD_X17_0, LDR_X16_X17, NOP],
            Want::Bad(CheckRule::K7, STUBS + 12),
        ),
        (
            &[
                ADRP_X17_4,
                ADD_X17_0,
                LDR_X16_X17,
                BRAA_X16_X17,
                ADRP_X17_4,
                ADD_X17_0,
                LDR_X16_X17,
                BRAA_X16_X17,
            ],
            Want::Bad(CheckRule::K7, STUBS + 16),
        ),
        (
            &[PACIA_X16_X17, ADD_X17_0, LDR_X16_X17, BRAA_X16_X17],
            Want::Bad(CheckRule::K3, STUBS),
        ),
        (
            &[ADRP_X17_4, B_1, LDR_X16_X17, BRAA_X16_X17],
            Want::Bad(CheckRule::K2, STUBS + 4),
        ),
        (
            &[ADRP_X17_4, ADD_X17_0, LDR_X16_X17, XPACI_X0],
            Want::Bad(CheckRule::K6, STUBS + 12),
        ),
    ];
    for (stubs, want) in rows {
        assert!(rt; answers(rt.alloc(), 8, stubs, &[bound(0, IMPORT)], want)?);
    }
    Ok(())
}

#[test]
fn stubs_stand_in_the_order_of_their_slots(rt: HostRuntime) -> Result<(), Fail> {
    let slots = [bound(0, IMPORT), bound(8, IMPORT)];
    let rows: [([u32; 8], Want); 2] = [
        (
            [
                ADRP_X17_4,
                ADD_X17_0,
                LDR_X16_X17,
                BRAA_X16_X17,
                ADRP_X17_4,
                ADD_X17_8,
                LDR_X16_X17,
                BRAA_X16_X17,
            ],
            Want::Windowed,
        ),
        (
            [
                ADRP_X17_4,
                ADD_X17_8,
                LDR_X16_X17,
                BRAA_X16_X17,
                ADRP_X17_4,
                ADD_X17_0,
                LDR_X16_X17,
                BRAA_X16_X17,
            ],
            Want::Bad(CheckRule::K7, STUBS + 4),
        ),
    ];
    for (stubs, want) in rows {
        assert!(rt; answers(rt.alloc(), 16, &stubs, &slots, want)?);
    }
    Ok(())
}
