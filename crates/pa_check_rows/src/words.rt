//! Words by the Arm Architecture Reference Manual.

pub const PACIBSP: u32 = 0xd503_237f;

pub const RETAB: u32 = 0xd65f_0fff;

pub const AUTIBSP: u32 = 0xd503_23ff;

pub const NOP: u32 = 0xd503_201f;

pub const SVC_3: u32 = 0xd400_0061;

pub const BRK_0: u32 = 0xd420_0000;

pub const AUTIA_X16_X17: u32 = 0xdac1_1230;

pub const AUTIA_X16_X16: u32 = 0xdac1_1210;

pub const AUTIZA_X16: u32 = 0xdac1_33f0;

pub const AUTIZA_X15: u32 = 0xdac1_33ef;

pub const PACIA_X16_X17: u32 = 0xdac1_0230;

pub const PACIA_X17_X16: u32 = 0xdac1_0211;

pub const PACIZA_X16: u32 = 0xdac1_23f0;

pub const PACIB_X30_SP: u32 = 0xdac1_07fe;

pub const PACIB_X0_X1: u32 = 0xdac1_0420;

pub const AUTIB_X30_SP: u32 = 0xdac1_17fe;

pub const PACDA_X0_X1: u32 = 0xdac1_0820;

pub const AUTDB_X0_X1: u32 = 0xdac1_1c20;

pub const PACGA_X0_X1_X2: u32 = 0x9ac2_3020;

pub const XPACI_X0: u32 = 0xdac1_43e0;

pub const BLR_X16: u32 = 0xd63f_0200;

pub const BLR_X15: u32 = 0xd63f_01e0;

pub const BR_X16: u32 = 0xd61f_0200;

pub const RET_X30: u32 = 0xd65f_03c0;

pub const BRAA_X16_X17: u32 = 0xd71f_0a11;

pub const BLRAA_X0_X1: u32 = 0xd73f_0801;

pub const BLRAB_X0_X1: u32 = 0xd73f_0c01;

pub const BLRAAZ_X0: u32 = 0xd63f_081f;

/// str x16, [sp, #0]
pub const STR_X16_SP: u32 = 0xf900_03f0;
/// movz x16, #0
pub const MOVZ_X16: u32 = 0xd280_0010;
/// movz x30, #0
pub const MOVZ_X30: u32 = 0xd280_001e;
/// movz x0, #0
pub const MOVZ_X0: u32 = 0xd280_0000;
/// add x0, x16, x0
pub const ADD_X0_X16: u32 = 0x8b00_0200;
/// adrp x16, #0
pub const ADRP_X16: u32 = 0x9000_0010;
/// add x16, x16, #0x40c: from the page of the text, word 3
pub const ADD_X16_WORD_3: u32 = 0x9110_3210;
/// add x16, x16, #0x410: from the page of the text, word 4
pub const ADD_X16_WORD_4: u32 = 0x9110_4210;
/// svc #1
pub const SVC_1: u32 = 0xd400_0021;

/// b #1: so many words ahead
pub const B_1: u32 = 0x1400_0001;
/// b #2: so many words ahead
pub const B_2: u32 = 0x1400_0002;
/// b #3: so many words ahead
pub const B_3: u32 = 0x1400_0003;
/// b #4: so many words ahead
pub const B_4: u32 = 0x1400_0004;
/// b #-1
pub const B_BACK_1: u32 = 0x17ff_ffff;
/// b #-2
pub const B_BACK_2: u32 = 0x17ff_fffe;
/// bl #1: so many words ahead
pub const BL_1: u32 = 0x9400_0001;
/// bl #3
pub const BL_3: u32 = 0x9400_0003;
/// bl #2
pub const BL_2: u32 = 0x9400_0002;
/// bl #4
pub const BL_4: u32 = 0x9400_0004;
/// bl #-1
pub const BL_BACK_1: u32 = 0x97ff_ffff;
/// cbz x0, #1
pub const CBZ_X0_1: u32 = 0xb400_0020;
/// cbz x0, #2
pub const CBZ_X0_2: u32 = 0xb400_0040;
/// cbnz x0, #2
pub const CBNZ_X0_2: u32 = 0xb500_0040;
/// bcond #0, #2
pub const BEQ_2: u32 = 0x5400_0040;
/// a word of no row
pub const NO_ROW: u32 = 0x0000_0000;
/// adrp x17, #4
pub const ADRP_X17_4: u32 = 0x9000_0031;
/// add x17, x17, #0
pub const ADD_X17_0: u32 = 0x9100_0231;
/// add x17, x17, #8
pub const ADD_X17_8: u32 = 0x9100_2231;
/// ldr x16, [x17, #0]
pub const LDR_X16_X17: u32 = 0xf940_0230;
