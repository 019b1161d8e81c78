use super::printer::text_of;
use super::{assert_read, assert_words};
use pa_a64::*;

/// Registers from the first to the last.
const REGISTERS: [(u8, u8, u8, u8); 3] = [(0, 1, 2, 3), (31, 30, 29, 9), (10, 31, 31, 31)];

#[test]
fn rows_of_registers(rt: HostRuntime) {
    for (rd, rn, rm, ra) in REGISTERS {
        for op in [SumOp::Add, SumOp::Sub, SumOp::Subs] {
            assert_read(&rt, rt.alloc(), Instr::Sum { op, rd, rn, rm });
        }
        for op in [
            LogicalOp::And,
            LogicalOp::Orr,
            LogicalOp::Eor,
            LogicalOp::Orn,
        ] {
            assert_read(&rt, rt.alloc(), Instr::Logical { op, rd, rn, rm });
        }
        for op in [DivideOp::Udiv, DivideOp::Sdiv] {
            assert_read(&rt, rt.alloc(), Instr::Divide { op, rd, rn, rm });
        }
        for op in [ShiftOp::Lslv, ShiftOp::Lsrv, ShiftOp::Asrv] {
            assert_read(&rt, rt.alloc(), Instr::Shift { op, rd, rn, rm });
        }
        for op in [MultiplyAddOp::Madd, MultiplyAddOp::Msub] {
            assert_read(&rt, rt.alloc(), Instr::MultiplyAdd { op, rd, rn, rm, ra });
        }
        for condition in [0, 15] {
            assert_read(
                &rt,
                rt.alloc(),
                Instr::Csinc {
                    rd,
                    rn,
                    rm,
                    condition,
                },
            );
        }
        assert_read(&rt, rt.alloc(), Instr::Pacga { rd, rn, rm });
    }
}

#[test]
fn rows_of_numbers(rt: HostRuntime) {
    for (rd, rn, ..) in REGISTERS {
        for (op, imm, hw) in [
            (MoveWideOp::Movz, 0, 0),
            (MoveWideOp::Movn, 65_535, 3),
            (MoveWideOp::Movk, 7, 1),
        ] {
            assert_read(&rt, rt.alloc(), Instr::MoveWide { op, rd, imm, hw });
        }
        for (op, imm, shifted) in [
            (SumImmediateOp::Add, 4095, true),
            (SumImmediateOp::Sub, 0, false),
        ] {
            assert_read(
                &rt,
                rt.alloc(),
                Instr::SumImmediate {
                    op,
                    rd,
                    rn,
                    imm,
                    shifted,
                },
            );
            assert_read(
                &rt,
                rt.alloc(),
                Instr::SubsImmediate {
                    rd,
                    rn,
                    imm,
                    shifted,
                },
            );
        }
        for (op, immr, imms) in [(BitfieldOp::Sbfm, 0, 63), (BitfieldOp::Ubfm, 63, 0)] {
            assert_read(
                &rt,
                rt.alloc(),
                Instr::Bitfield {
                    op,
                    rd,
                    rn,
                    immr,
                    imms,
                },
            );
        }
        for pages in [-1_048_576, 0, 1_048_575] {
            assert_read(&rt, rt.alloc(), Instr::Adrp { rd, pages });
        }
    }
    for (op, imm) in [(ExceptionOp::Svc, 65_535), (ExceptionOp::Brk, 0)] {
        assert_read(&rt, rt.alloc(), Instr::Exception { op, imm });
    }
}

#[test]
fn rows_of_memory(rt: HostRuntime) {
    for (t, rn, rt2, _) in REGISTERS {
        for imm in [0, 1, 4095] {
            for op in [LoadStoreOp::Ldr, LoadStoreOp::Str] {
                assert_read(&rt, rt.alloc(), Instr::LoadStore { op, rt: t, rn, imm });
            }
            for op in [
                LoadStoreWordOp::Ldrw,
                LoadStoreWordOp::Strw,
                LoadStoreWordOp::Ldrsw,
            ] {
                assert_read(&rt, rt.alloc(), Instr::LoadStoreWord { op, rt: t, rn, imm });
            }
            for op in [
                LoadStoreHalfOp::Ldrh,
                LoadStoreHalfOp::Strh,
                LoadStoreHalfOp::Ldrsh,
            ] {
                assert_read(&rt, rt.alloc(), Instr::LoadStoreHalf { op, rt: t, rn, imm });
            }
            for op in [
                LoadStoreByteOp::Ldrb,
                LoadStoreByteOp::Strb,
                LoadStoreByteOp::Ldrsb,
            ] {
                assert_read(&rt, rt.alloc(), Instr::LoadStoreByte { op, rt: t, rn, imm });
            }
        }
        for (op, imm) in [
            (LoadStoreUnscaledOp::Ldur, -256),
            (LoadStoreUnscaledOp::Stur, 255),
        ] {
            assert_read(
                &rt,
                rt.alloc(),
                Instr::LoadStoreUnscaled { op, rt: t, rn, imm },
            );
        }
        for (op, imm) in [(LoadStorePairOp::Ldp, -64), (LoadStorePairOp::Stp, 63)] {
            assert_read(
                &rt,
                rt.alloc(),
                Instr::LoadStorePair {
                    op,
                    rt: t,
                    rt2,
                    rn,
                    imm,
                },
            );
        }
    }
}

#[test]
fn rows_of_authentication(rt: HostRuntime) {
    for (rd, rn, ..) in REGISTERS {
        for op in [SignOp::Pacia, SignOp::Pacib, SignOp::Pacda, SignOp::Pacdb] {
            assert_read(&rt, rt.alloc(), Instr::Sign { op, rd, rn });
        }
        for op in [
            AuthenticateOp::Autia,
            AuthenticateOp::Autib,
            AuthenticateOp::Autda,
            AuthenticateOp::Autdb,
        ] {
            assert_read(&rt, rt.alloc(), Instr::Authenticate { op, rd, rn });
        }
        for op in [PlainOp::Paciza, PlainOp::Autiza, PlainOp::Xpaci] {
            assert_read(&rt, rt.alloc(), Instr::Plain { op, rd });
        }
        for op in [
            BranchRegisterOp::Br,
            BranchRegisterOp::Blr,
            BranchRegisterOp::Ret,
        ] {
            assert_read(&rt, rt.alloc(), Instr::BranchRegister { op, rn: rd });
        }
        for op in [
            BranchAuthenticatedOp::Braa,
            BranchAuthenticatedOp::Blraa,
            BranchAuthenticatedOp::Blrab,
        ] {
            assert_read(
                &rt,
                rt.alloc(),
                Instr::BranchAuthenticated { op, rn: rd, rm: rn },
            );
        }
        assert_read(&rt, rt.alloc(), Instr::Blraaz { rn });
    }
    for op in [StackOp::Retab, StackOp::Pacibsp, StackOp::Autibsp] {
        assert_read(&rt, rt.alloc(), Instr::Stack { op });
    }
    assert_read(&rt, rt.alloc(), Instr::Nop);
}

/// The label is the next line but one.
#[test]
fn rows_of_branches(rt: HostRuntime) {
    let words = 2;
    for instr in [
        Instr::Branch {
            op: BranchOp::B,
            words,
        },
        Instr::Branch {
            op: BranchOp::Bl,
            words,
        },
        Instr::BranchConditional {
            condition: 14,
            words,
        },
        Instr::CompareBranch {
            op: CompareBranchOp::Cbz,
            rt: 31,
            words,
        },
        Instr::CompareBranch {
            op: CompareBranchOp::Cbnz,
            rt: 0,
            words,
        },
    ] {
        assert!(rt; in_range(instr));
        let mut text = text_of(rt.alloc(), instr).expect(&rt, "memory");
        text.push_str("\nnop\nlabel:\n").expect(&rt, "memory");
        assert_words(
            &rt,
            rt.alloc(),
            text.as_str(),
            &[encode(instr), encode(Instr::Nop)],
        );
    }
}
