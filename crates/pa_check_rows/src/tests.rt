use crate::sample::{Row, Want, answers};
use crate::words::{
    ADD_X0_X16, ADD_X16_WORD_3, ADD_X16_WORD_4, ADRP_X16, AUTDB_X0_X1, AUTIA_X16_X16,
    AUTIA_X16_X17, AUTIB_X30_SP, AUTIBSP, AUTIZA_X15, AUTIZA_X16, B_1, B_2, B_3, B_4, B_BACK_1,
    B_BACK_2, BEQ_2, BL_1, BL_2, BL_3, BL_4, BL_BACK_1, BLR_X15, BLR_X16, BLRAA_X0_X1, BLRAAZ_X0,
    BLRAB_X0_X1, BR_X16, BRAA_X16_X17, BRK_0, CBNZ_X0_2, CBZ_X0_1, CBZ_X0_2, MOVZ_X0, MOVZ_X16,
    MOVZ_X30, NO_ROW, NOP, PACDA_X0_X1, PACGA_X0_X1_X2, PACIA_X16_X17, PACIA_X17_X16, PACIB_X0_X1,
    PACIB_X30_SP, PACIBSP, PACIZA_X16, RET_X30, RETAB, STR_X16_SP, SVC_1, SVC_3, XPACI_X0,
};
use pa_check::CheckRule;
use std::test::Fail;

#[test]
fn functions_begin_with_pacibsp(rt: HostRuntime) -> Result<(), Fail> {
    let rows = [
        Row {
            words: &[BL_3, SVC_3, BRK_0, PACIBSP, RETAB],
            marks: &[3],
            want: Want::Windowed,
        },
        Row {
            words: &[BL_3, SVC_3, BRK_0, NOP, RETAB],
            marks: &[3],
            want: Want::Bad(CheckRule::K1, 1036),
        },
        Row {
            words: &[BL_4, SVC_3, BRK_0, NOP, PACIBSP, RETAB],
            marks: &[4],
            want: Want::Bad(CheckRule::K1, 1036),
        },
        Row {
            words: &[BL_3, SVC_3, BRK_0, PACIBSP, RETAB, PACIBSP, RETAB],
            marks: &[3, 5],
            want: Want::Windowed,
        },
        Row {
            words: &[BL_3, SVC_3, BRK_0, PACIBSP, RETAB, NOP, RETAB],
            marks: &[3, 5],
            want: Want::Bad(CheckRule::K1, 1044),
        },
        Row {
            words: &[BL_2, SVC_3, PACIBSP, RETAB],
            marks: &[2],
            want: Want::Bad(CheckRule::K1, 1032),
        },
        Row {
            words: &[BL_1, PACIBSP, RETAB],
            marks: &[1],
            want: Want::Bad(CheckRule::K1, 1028),
        },
        Row {
            words: &[BL_3, SVC_3, BRK_0, NOP],
            marks: &[],
            want: Want::Bad(CheckRule::K2, 1024),
        },
        Row {
            words: &[SVC_3, SVC_3, BRK_0],
            marks: &[],
            want: Want::Bad(CheckRule::K6, 1024),
        },
        Row {
            words: &[],
            marks: &[],
            want: Want::Bad(CheckRule::K6, 1024),
        },
    ];
    for row in &rows {
        assert!(rt; answers(rt.alloc(), row)?);
    }
    Ok(())
}

#[test]
fn branches_stay_in_their_function(rt: HostRuntime) -> Result<(), Fail> {
    let rows = [
        Row {
            words: &[BL_3, SVC_3, BRK_0, PACIBSP, B_1, RETAB],
            marks: &[3],
            want: Want::Windowed,
        },
        Row {
            words: &[BL_3, SVC_3, BRK_0, PACIBSP, B_2, RETAB],
            marks: &[3],
            want: Want::Bad(CheckRule::K2, 1040),
        },
        Row {
            words: &[BL_3, SVC_3, BRK_0, PACIBSP, B_BACK_1, RETAB],
            marks: &[3],
            want: Want::Bad(CheckRule::K2, 1040),
        },
        Row {
            words: &[BL_3, SVC_3, BRK_0, PACIBSP, NOP, B_BACK_1],
            marks: &[3],
            want: Want::Windowed,
        },
        Row {
            words: &[BL_3, SVC_3, BRK_0, PACIBSP, CBZ_X0_1, RETAB],
            marks: &[3],
            want: Want::Windowed,
        },
        Row {
            words: &[BL_3, SVC_3, BRK_0, PACIBSP, CBZ_X0_2, RETAB],
            marks: &[3],
            want: Want::Bad(CheckRule::K2, 1040),
        },
        Row {
            words: &[
                BL_3, SVC_3, BRK_0, PACIBSP, CBNZ_X0_2, RETAB, PACIBSP, RETAB,
            ],
            marks: &[3, 6],
            want: Want::Bad(CheckRule::K2, 1040),
        },
        Row {
            words: &[BL_3, SVC_3, BRK_0, PACIBSP, BEQ_2, RETAB],
            marks: &[3],
            want: Want::Bad(CheckRule::K2, 1040),
        },
        Row {
            words: &[BL_3, SVC_3, BRK_0, PACIBSP, BL_BACK_1, RETAB],
            marks: &[3],
            want: Want::Windowed,
        },
        Row {
            words: &[BL_3, SVC_3, BRK_0, PACIBSP, BL_2, RETAB],
            marks: &[3],
            want: Want::Bad(CheckRule::K2, 1040),
        },
        Row {
            words: &[BL_3, SVC_3, BRK_0, PACIBSP, BL_2, RETAB, PACIBSP, RETAB],
            marks: &[3, 6],
            want: Want::Windowed,
        },
        Row {
            words: &[BL_3, SVC_3, BRK_0, PACIBSP, BL_3, RETAB, PACIBSP, RETAB],
            marks: &[3, 6],
            want: Want::Bad(CheckRule::K2, 1040),
        },
    ];
    for row in &rows {
        assert!(rt; answers(rt.alloc(), row)?);
    }
    Ok(())
}

#[test]
fn windows_are_whole(rt: HostRuntime) -> Result<(), Fail> {
    let rows = [
        Row {
            words: &[BL_3, SVC_3, BRK_0, PACIBSP, AUTIZA_X16, BLR_X16, RETAB],
            marks: &[3],
            want: Want::Windowed,
        },
        Row {
            words: &[
                BL_3, SVC_3, BRK_0, PACIBSP, AUTIZA_X16, STR_X16_SP, BLR_X16, RETAB,
            ],
            marks: &[3],
            want: Want::Bad(CheckRule::K3, 1044),
        },
        Row {
            words: &[
                BL_3, SVC_3, BRK_0, PACIBSP, AUTIZA_X16, NOP, NOP, NOP, NOP, NOP, NOP, BLR_X16,
                RETAB,
            ],
            marks: &[3],
            want: Want::Windowed,
        },
        Row {
            words: &[
                BL_3, SVC_3, BRK_0, PACIBSP, AUTIZA_X16, NOP, NOP, NOP, NOP, NOP, NOP, NOP,
                BLR_X16, RETAB,
            ],
            marks: &[3],
            want: Want::Bad(CheckRule::K3, 1072),
        },
        Row {
            words: &[
                BL_3, SVC_3, BRK_0, PACIBSP, AUTIZA_X16, NOP, NOP, NOP, NOP, NOP, NOP, NOP, NOP,
                RETAB,
            ],
            marks: &[3],
            want: Want::Bad(CheckRule::K3, 1072),
        },
        Row {
            words: &[
                BL_3,
                SVC_3,
                BRK_0,
                PACIBSP,
                ADRP_X16,
                ADD_X16_WORD_3,
                NOP,
                NOP,
                NOP,
                NOP,
                NOP,
                PACIZA_X16,
                RETAB,
            ],
            marks: &[3],
            want: Want::Windowed,
        },
        Row {
            words: &[
                BL_3,
                SVC_3,
                BRK_0,
                PACIBSP,
                ADRP_X16,
                ADD_X16_WORD_3,
                NOP,
                NOP,
                NOP,
                NOP,
                NOP,
                NOP,
                PACIZA_X16,
                RETAB,
            ],
            marks: &[3],
            want: Want::Bad(CheckRule::K3, 1072),
        },
        Row {
            words: &[
                BL_3,
                SVC_3,
                BRK_0,
                PACIBSP,
                ADRP_X16,
                ADD_X16_WORD_4,
                NOP,
                RETAB,
            ],
            marks: &[3],
            want: Want::Windowed,
        },
        Row {
            words: &[
                BL_3,
                SVC_3,
                BRK_0,
                PACIBSP,
                ADRP_X16,
                ADD_X16_WORD_4,
                PACIZA_X16,
                RETAB,
            ],
            marks: &[3],
            want: Want::Bad(CheckRule::K3, 1048),
        },
        Row {
            words: &[
                BL_3,
                SVC_3,
                BRK_0,
                PACIBSP,
                AUTIA_X16_X17,
                PACIA_X16_X17,
                RETAB,
            ],
            marks: &[3],
            want: Want::Windowed,
        },
        Row {
            words: &[
                BL_3,
                SVC_3,
                BRK_0,
                PACIBSP,
                AUTIA_X16_X16,
                PACIA_X16_X17,
                RETAB,
            ],
            marks: &[3],
            want: Want::Bad(CheckRule::K3, 1040),
        },
        Row {
            words: &[
                BL_3,
                SVC_3,
                BRK_0,
                PACIBSP,
                AUTIA_X16_X17,
                PACIA_X17_X16,
                RETAB,
            ],
            marks: &[3],
            want: Want::Bad(CheckRule::K3, 1044),
        },
        Row {
            words: &[BL_3, SVC_3, BRK_0, PACIBSP, AUTIZA_X15, RETAB],
            marks: &[3],
            want: Want::Bad(CheckRule::K3, 1040),
        },
        Row {
            words: &[BL_3, SVC_3, BRK_0, PACIBSP, PACIA_X16_X17, RETAB],
            marks: &[3],
            want: Want::Bad(CheckRule::K3, 1040),
        },
        Row {
            words: &[BL_3, SVC_3, BRK_0, PACIBSP, PACIZA_X16, RETAB],
            marks: &[3],
            want: Want::Bad(CheckRule::K3, 1040),
        },
        Row {
            words: &[
                BL_3, SVC_3, BRK_0, PACIBSP, AUTIZA_X16, MOVZ_X0, BLR_X16, RETAB,
            ],
            marks: &[3],
            want: Want::Windowed,
        },
        Row {
            words: &[
                BL_3, SVC_3, BRK_0, PACIBSP, AUTIZA_X16, MOVZ_X16, BLR_X16, RETAB,
            ],
            marks: &[3],
            want: Want::Bad(CheckRule::K3, 1044),
        },
        Row {
            words: &[
                BL_3, SVC_3, BRK_0, PACIBSP, AUTIZA_X16, MOVZ_X30, BLR_X16, RETAB,
            ],
            marks: &[3],
            want: Want::Bad(CheckRule::K3, 1044),
        },
        Row {
            words: &[
                BL_3, SVC_3, BRK_0, PACIBSP, AUTIZA_X16, ADD_X0_X16, BLR_X16, RETAB,
            ],
            marks: &[3],
            want: Want::Bad(CheckRule::K3, 1044),
        },
        Row {
            words: &[BL_3, SVC_3, BRK_0, PACIBSP, B_1, AUTIZA_X16, BLR_X16, RETAB],
            marks: &[3],
            want: Want::Windowed,
        },
        Row {
            words: &[BL_3, SVC_3, BRK_0, PACIBSP, B_2, AUTIZA_X16, BLR_X16, RETAB],
            marks: &[3],
            want: Want::Bad(CheckRule::K3, 1040),
        },
        Row {
            words: &[BL_3, SVC_3, BRK_0, PACIBSP, B_3, AUTIZA_X16, BLR_X16, RETAB],
            marks: &[3],
            want: Want::Windowed,
        },
        Row {
            words: &[BL_3, SVC_3, BRK_0, PACIBSP, AUTIZA_X16, BLR_X16, B_BACK_2],
            marks: &[3],
            want: Want::Windowed,
        },
        Row {
            words: &[BL_3, SVC_3, BRK_0, PACIBSP, AUTIZA_X16, BLR_X16, B_BACK_1],
            marks: &[3],
            want: Want::Bad(CheckRule::K3, 1048),
        },
        Row {
            words: &[
                BL_3, SVC_3, BRK_0, PACIBSP, B_3, AUTIZA_X16, AUTIZA_X16, BLR_X16, RETAB,
            ],
            marks: &[3],
            want: Want::Bad(CheckRule::K3, 1048),
        },
        Row {
            words: &[
                BL_3, SVC_3, BRK_0, PACIBSP, B_4, AUTIZA_X16, AUTIZA_X16, AUTIZA_X16, BLR_X16,
                RETAB,
            ],
            marks: &[3],
            want: Want::Bad(CheckRule::K3, 1040),
        },
    ];
    for row in &rows {
        assert!(rt; answers(rt.alloc(), row)?);
    }
    Ok(())
}

#[test]
fn functions_end(rt: HostRuntime) -> Result<(), Fail> {
    let rows = [
        Row {
            words: &[BL_3, SVC_3, BRK_0, PACIBSP, RETAB],
            marks: &[3],
            want: Want::Windowed,
        },
        Row {
            words: &[BL_3, SVC_3, BRK_0, PACIBSP, NOP],
            marks: &[3],
            want: Want::Bad(CheckRule::K4, 1040),
        },
        Row {
            words: &[BL_3, SVC_3, BRK_0, PACIBSP, NOP, B_BACK_1],
            marks: &[3],
            want: Want::Windowed,
        },
        Row {
            words: &[BL_3, SVC_3, BRK_0, PACIBSP, BRK_0],
            marks: &[3],
            want: Want::Windowed,
        },
        Row {
            words: &[BL_3, SVC_3, BRK_0, PACIBSP, SVC_3],
            marks: &[3],
            want: Want::Bad(CheckRule::K4, 1040),
        },
        Row {
            words: &[BL_3, SVC_3, BRK_0, PACIBSP, BL_BACK_1],
            marks: &[3],
            want: Want::Bad(CheckRule::K4, 1040),
        },
        Row {
            words: &[BL_3, SVC_3, BRK_0, PACIBSP, NOP, PACIBSP, RETAB],
            marks: &[3, 5],
            want: Want::Bad(CheckRule::K4, 1040),
        },
        Row {
            words: &[BL_3, SVC_3, BRK_0, PACIBSP, AUTIZA_X16, PACIBSP, RETAB],
            marks: &[3, 5],
            want: Want::Bad(CheckRule::K4, 1040),
        },
        Row {
            words: &[BL_3, SVC_3, BRK_0, PACIBSP, CBZ_X0_1],
            marks: &[3],
            want: Want::Bad(CheckRule::K2, 1040),
        },
        Row {
            words: &[BL_3, SVC_3, BRK_0, PACIBSP],
            marks: &[3],
            want: Want::Bad(CheckRule::K4, 1036),
        },
    ];
    for row in &rows {
        assert!(rt; answers(rt.alloc(), row)?);
    }
    Ok(())
}

#[test]
fn words_are_allowed(rt: HostRuntime) -> Result<(), Fail> {
    let rows = [
        Row {
            words: &[BL_3, SVC_3, BRK_0, PACIBSP, NOP, RETAB],
            marks: &[3],
            want: Want::Windowed,
        },
        Row {
            words: &[BL_3, SVC_3, BRK_0, PACIBSP, NO_ROW, RETAB],
            marks: &[3],
            want: Want::Bad(CheckRule::K6, 1040),
        },
        Row {
            words: &[BL_3, SVC_3, BRK_0, PACIBSP, XPACI_X0, RETAB],
            marks: &[3],
            want: Want::Bad(CheckRule::K6, 1040),
        },
        Row {
            words: &[BL_3, SVC_3, BRK_0, PACIBSP, PACGA_X0_X1_X2, RETAB],
            marks: &[3],
            want: Want::Bad(CheckRule::K6, 1040),
        },
        Row {
            words: &[BL_3, SVC_3, BRK_0, PACIBSP, PACDA_X0_X1, RETAB],
            marks: &[3],
            want: Want::Bad(CheckRule::K6, 1040),
        },
        Row {
            words: &[BL_3, SVC_3, BRK_0, PACIBSP, AUTDB_X0_X1, RETAB],
            marks: &[3],
            want: Want::Bad(CheckRule::K6, 1040),
        },
        Row {
            words: &[BL_3, SVC_3, BRK_0, PACIBSP, NO_ROW],
            marks: &[3],
            want: Want::Bad(CheckRule::K4, 1040),
        },
        Row {
            words: &[BL_3, SVC_1, BRK_0, PACIBSP, RETAB],
            marks: &[3],
            want: Want::Bad(CheckRule::K6, 1028),
        },
        Row {
            words: &[BL_4, SVC_3, BRK_0, PACIBSP, RETAB],
            marks: &[3],
            want: Want::Bad(CheckRule::K2, 1024),
        },
        Row {
            words: &[BL_3, SVC_3, XPACI_X0, PACIBSP, RETAB],
            marks: &[3],
            want: Want::Bad(CheckRule::K6, 1032),
        },
        Row {
            words: &[BL_3, SVC_3, B_1, PACIBSP, RETAB],
            marks: &[3],
            want: Want::Bad(CheckRule::K2, 1032),
        },
    ];
    for row in &rows {
        assert!(rt; answers(rt.alloc(), row)?);
    }
    Ok(())
}

#[test]
fn branches_by_registers_are_authenticated(rt: HostRuntime) -> Result<(), Fail> {
    let rows = [
        Row {
            words: &[BL_3, SVC_3, BRK_0, PACIBSP, BLRAA_X0_X1, BLRAAZ_X0, RETAB],
            marks: &[3],
            want: Want::Windowed,
        },
        Row {
            words: &[BL_3, SVC_3, BRK_0, PACIBSP, BR_X16, RETAB],
            marks: &[3],
            want: Want::Bad(CheckRule::K7, 1040),
        },
        Row {
            words: &[BL_3, SVC_3, BRK_0, PACIBSP, RET_X30, RETAB],
            marks: &[3],
            want: Want::Bad(CheckRule::K7, 1040),
        },
        Row {
            words: &[BL_3, SVC_3, BRK_0, PACIBSP, BRAA_X16_X17, RETAB],
            marks: &[3],
            want: Want::Bad(CheckRule::K7, 1040),
        },
        Row {
            words: &[BL_3, SVC_3, BRK_0, PACIBSP, BLRAB_X0_X1, RETAB],
            marks: &[3],
            want: Want::Bad(CheckRule::K7, 1040),
        },
        Row {
            words: &[BL_3, SVC_3, BRK_0, PACIBSP, BLR_X16, RETAB],
            marks: &[3],
            want: Want::Bad(CheckRule::K7, 1040),
        },
        Row {
            words: &[BL_3, SVC_3, BRK_0, PACIBSP, BLR_X15, RETAB],
            marks: &[3],
            want: Want::Bad(CheckRule::K7, 1040),
        },
        Row {
            words: &[
                BL_3,
                SVC_3,
                BRK_0,
                PACIBSP,
                ADRP_X16,
                ADD_X16_WORD_3,
                BLR_X16,
                RETAB,
            ],
            marks: &[3],
            want: Want::Bad(CheckRule::K7, 1048),
        },
        Row {
            words: &[
                BL_3, SVC_3, BRK_0, PACIBSP, AUTIZA_X16, BLR_X16, BLR_X16, RETAB,
            ],
            marks: &[3],
            want: Want::Bad(CheckRule::K7, 1048),
        },
        Row {
            words: &[BL_3, SVC_3, BRK_0, PACIBSP, RET_X30],
            marks: &[3],
            want: Want::Bad(CheckRule::K4, 1040),
        },
    ];
    for row in &rows {
        assert!(rt; answers(rt.alloc(), row)?);
    }
    Ok(())
}

#[test]
fn return_addresses_are_signed_once(rt: HostRuntime) -> Result<(), Fail> {
    let rows = [
        Row {
            words: &[BL_3, SVC_3, BRK_0, PACIBSP, NOP, RETAB],
            marks: &[3],
            want: Want::Windowed,
        },
        Row {
            words: &[BL_3, SVC_3, BRK_0, PACIBSP, PACIBSP, RETAB],
            marks: &[3],
            want: Want::Bad(CheckRule::K8, 1040),
        },
        Row {
            words: &[BL_3, SVC_3, BRK_0, PACIBSP, PACIB_X30_SP, RETAB],
            marks: &[3],
            want: Want::Bad(CheckRule::K8, 1040),
        },
        Row {
            words: &[BL_3, SVC_3, BRK_0, PACIBSP, PACIB_X0_X1, RETAB],
            marks: &[3],
            want: Want::Bad(CheckRule::K8, 1040),
        },
        Row {
            words: &[BL_3, SVC_3, BRK_0, PACIBSP, AUTIB_X30_SP, RETAB],
            marks: &[3],
            want: Want::Bad(CheckRule::K8, 1040),
        },
        Row {
            words: &[BL_3, SVC_3, BRK_0, PACIBSP, AUTIBSP, RETAB],
            marks: &[3],
            want: Want::Bad(CheckRule::K8, 1040),
        },
        Row {
            words: &[BL_3, SVC_3, BRK_0, PACIBSP, AUTIBSP],
            marks: &[3],
            want: Want::Bad(CheckRule::K4, 1040),
        },
        Row {
            words: &[BL_3, SVC_3, BRK_0, PACIBSP, PACIBSP, RETAB, PACIBSP, RETAB],
            marks: &[3, 6],
            want: Want::Bad(CheckRule::K8, 1040),
        },
        Row {
            words: &[BL_3, SVC_3, BRK_0, PACIBSP, RETAB, PACIBSP, AUTIBSP, RETAB],
            marks: &[3, 5],
            want: Want::Bad(CheckRule::K8, 1048),
        },
    ];
    for row in &rows {
        assert!(rt; answers(rt.alloc(), row)?);
    }
    Ok(())
}
