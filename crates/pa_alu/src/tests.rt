use crate::arithmetic::{asr, bitfield, lsl, quotient, with_part};
use crate::flags::{flags_of_difference, meets};
use pa_a64::{BitfieldOp, DivideOp};

const SMALLEST: u64 = 1 << 63;

#[test]
fn computes_at_the_borders(rt: HostRuntime) {
    let rows = [
        (
            bitfield(BitfieldOp::Sbfm, 0x80, 0, 7),
            0xFFFF_FFFF_FFFF_FF80,
        ),
        (bitfield(BitfieldOp::Ubfm, 0x80, 0, 7), 0x80),
        (bitfield(BitfieldOp::Sbfm, 0x1F0, 4, 63), 0x1F),
        // The low four bits, moved up by eight.
        (
            bitfield(BitfieldOp::Sbfm, 0x18, 56, 3),
            0xFFFF_FFFF_FFFF_F800,
        ),
        (bitfield(BitfieldOp::Ubfm, 0x18, 56, 3), 0x800),
        (quotient(DivideOp::Sdiv, SMALLEST, u64::MAX), SMALLEST),
        (quotient(DivideOp::Sdiv, u64::MAX - 6, 2), u64::MAX - 2),
        (quotient(DivideOp::Sdiv, 7, 0), 0),
        (quotient(DivideOp::Udiv, u64::MAX, 2), SMALLEST - 1),
        (quotient(DivideOp::Udiv, 7, 0), 0),
        (lsl(3, 63), SMALLEST),
        (lsl(3, 64), 3),
        (asr(SMALLEST, 63), u64::MAX),
        (asr(SMALLEST, 64), SMALLEST),
        (
            with_part(0x1111_2222_3333_4444, 2, 0xABCD),
            0x1111_ABCD_3333_4444,
        ),
    ];
    for (result, expected) in rows {
        assert_eq!(rt; result, expected);
    }
}

// Numbers, and the conditions that their difference meets, a bit for each.
#[test]
fn meets_conditions(rt: HostRuntime) {
    let rows = [
        (0, 0, 0xE6A5),
        (0, 1, 0xEA9A),
        (5, 3, 0xD5A6),
        (SMALLEST, 1, 0xE966),
        (SMALLEST - 1, u64::MAX, 0xD65A),
        (u64::MAX, 1, 0xE996),
    ];
    for (x, y, expected) in rows {
        let flags = flags_of_difference(x, y);
        for condition in 0..16u8 {
            let held = expected >> condition & 1 == 1;
            assert_eq!(rt; meets(flags, condition), held, "{x} {y} {condition}");
        }
    }
}
