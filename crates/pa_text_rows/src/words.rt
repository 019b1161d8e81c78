use pa_a64::{
    AuthenticateOp, BitfieldOp, BranchAuthenticatedOp, BranchOp, Instr, LoadStorePairOp,
    LoadStoreUnscaledOp, MoveWideOp, PlainOp, StackOp, SumImmediateOp, decode, encode, in_range,
};

const SP: u8 = 31;

/// Words as LLVM's assembler gives them for arm64e.
const WORDS: [(u32, Instr); 17] = [
    (0xd65f_0fff, Instr::Stack { op: StackOp::Retab }),
    (0xd63f_0a1f, Instr::Blraaz { rn: 16 }),
    (
        0xd71f_0a11,
        Instr::BranchAuthenticated {
            op: BranchAuthenticatedOp::Braa,
            rn: 16,
            rm: 17,
        },
    ),
    (
        0xdac1_1230,
        Instr::Authenticate {
            op: AuthenticateOp::Autia,
            rd: 16,
            rn: 17,
        },
    ),
    (
        0xdac1_23f0,
        Instr::Plain {
            op: PlainOp::Paciza,
            rd: 16,
        },
    ),
    (
        0x9340_1c20,
        Instr::Bitfield {
            op: BitfieldOp::Sbfm,
            rd: 0,
            rn: 1,
            immr: 0,
            imms: 7,
        },
    ),
    (
        0xd503_237f,
        Instr::Stack {
            op: StackOp::Pacibsp,
        },
    ),
    (
        0xd100_43ff,
        Instr::SumImmediate {
            op: SumImmediateOp::Sub,
            rd: SP,
            rn: SP,
            imm: 16,
            shifted: false,
        },
    ),
    (
        0xa900_7bfd,
        Instr::LoadStorePair {
            op: LoadStorePairOp::Stp,
            rt: 29,
            rt2: 30,
            rn: SP,
            imm: 0,
        },
    ),
    (0xd503_201f, Instr::Nop),
    (
        0xa940_7bfd,
        Instr::LoadStorePair {
            op: LoadStorePairOp::Ldp,
            rt: 29,
            rt2: 30,
            rn: SP,
            imm: 0,
        },
    ),
    (
        0x9100_43ff,
        Instr::SumImmediate {
            op: SumImmediateOp::Add,
            rd: SP,
            rn: SP,
            imm: 16,
            shifted: false,
        },
    ),
    (
        0xd280_0000,
        Instr::MoveWide {
            op: MoveWideOp::Movz,
            rd: 0,
            imm: 0,
            hw: 0,
        },
    ),
    (0xf0ff_ffe1, Instr::Adrp { rd: 1, pages: -1 }),
    (0xb000_0022, Instr::Adrp { rd: 2, pages: 5 }),
    (
        0xf85f_f062,
        Instr::LoadStoreUnscaled {
            op: LoadStoreUnscaledOp::Ldur,
            rt: 2,
            rn: 3,
            imm: -1,
        },
    ),
    (
        0x17ff_ffff,
        Instr::Branch {
            op: BranchOp::B,
            words: -1,
        },
    ),
];

#[test]
fn words_are_the_assemblers(rt: HostRuntime) {
    for (word, instr) in WORDS {
        assert_eq!(rt; decode(word), Some(instr), "at {word:x}");
        assert!(rt; in_range(instr), "at {word:x}");
        assert_eq!(rt; encode(instr), word);
    }
}

#[test]
fn words_of_no_row(rt: HostRuntime) {
    // The second is `ldp x0, x0, [x1, #0]`, the last a hint that isn't nop.
    for word in [0, 0xa940_0020, 0xd503_203f] {
        assert_eq!(rt; decode(word), None, "at {word:x}");
    }
    assert!(rt; !in_range(Instr::Blraaz { rn: 32 }));
}
