//! Instructions, one variant for each line of the table. Names, fields and encoding classes are those of the Arm
//! Architecture Reference Manual for A-profile, in its chapters on the A64 base instructions and on the A64 instruction set
//! encoding. `ldrw`, `strw` and the numeric conditions are this project's spelling.

/// MOVZ sets the other bits to zero, MOVN gives the inverse, MOVK keeps the other bits.
#[derive(Clone, Copy, Debug, PartialEq, Eq)]
pub enum MoveWideOp {
    Movz,
    Movn,
    Movk,
}

/// ADD and SUB (immediate).
#[derive(Clone, Copy, Debug, PartialEq, Eq)]
pub enum SumImmediateOp {
    Add,
    Sub,
}

/// ADD, SUB and SUBS (shifted register), with a shift of 0.
#[derive(Clone, Copy, Debug, PartialEq, Eq)]
pub enum SumOp {
    Add,
    Sub,
    Subs,
}

/// AND, ORR, EOR and ORN (shifted register), with a shift of 0.
#[derive(Clone, Copy, Debug, PartialEq, Eq)]
pub enum LogicalOp {
    And,
    Orr,
    Eor,
    Orn,
}

/// MADD and MSUB.
#[derive(Clone, Copy, Debug, PartialEq, Eq)]
pub enum MultiplyAddOp {
    Madd,
    Msub,
}

/// UDIV and SDIV.
#[derive(Clone, Copy, Debug, PartialEq, Eq)]
pub enum DivideOp {
    Udiv,
    Sdiv,
}

/// LSLV, LSRV and ASRV.
#[derive(Clone, Copy, Debug, PartialEq, Eq)]
pub enum ShiftOp {
    Lslv,
    Lsrv,
    Asrv,
}

/// SBFM and UBFM.
#[derive(Clone, Copy, Debug, PartialEq, Eq)]
pub enum BitfieldOp {
    Sbfm,
    Ubfm,
}

/// LDR and STR (immediate) of 64 bits, with an unsigned offset.
#[derive(Clone, Copy, Debug, PartialEq, Eq)]
pub enum LoadStoreOp {
    Ldr,
    Str,
}

/// LDR and STR (immediate) of 32 bits, and LDRSW (immediate).
#[derive(Clone, Copy, Debug, PartialEq, Eq)]
pub enum LoadStoreWordOp {
    Ldrw,
    Strw,
    Ldrsw,
}

/// LDRH, STRH and LDRSH (immediate), the last to 64 bits.
#[derive(Clone, Copy, Debug, PartialEq, Eq)]
pub enum LoadStoreHalfOp {
    Ldrh,
    Strh,
    Ldrsh,
}

/// LDRB, STRB and LDRSB (immediate), the last to 64 bits.
#[derive(Clone, Copy, Debug, PartialEq, Eq)]
pub enum LoadStoreByteOp {
    Ldrb,
    Strb,
    Ldrsb,
}

/// LDUR and STUR.
#[derive(Clone, Copy, Debug, PartialEq, Eq)]
pub enum LoadStoreUnscaledOp {
    Ldur,
    Stur,
}

/// LDP and STP, with a signed offset.
#[derive(Clone, Copy, Debug, PartialEq, Eq)]
pub enum LoadStorePairOp {
    Ldp,
    Stp,
}

/// B and BL.
#[derive(Clone, Copy, Debug, PartialEq, Eq)]
pub enum BranchOp {
    B,
    Bl,
}

/// CBZ and CBNZ.
#[derive(Clone, Copy, Debug, PartialEq, Eq)]
pub enum CompareBranchOp {
    Cbz,
    Cbnz,
}

/// BR, BLR and RET.
#[derive(Clone, Copy, Debug, PartialEq, Eq)]
pub enum BranchRegisterOp {
    Br,
    Blr,
    Ret,
}

/// BRAA, BLRAA and BLRAB.
#[derive(Clone, Copy, Debug, PartialEq, Eq)]
pub enum BranchAuthenticatedOp {
    Braa,
    Blraa,
    Blrab,
}

/// RETAB, PACIBSP and AUTIBSP, which sign or authenticate x30 with the stack pointer as modifier.
#[derive(Clone, Copy, Debug, PartialEq, Eq)]
pub enum StackOp {
    Retab,
    Pacibsp,
    Autibsp,
}

/// PACIA, PACIB, PACDA and PACDB.
#[derive(Clone, Copy, Debug, PartialEq, Eq)]
pub enum SignOp {
    Pacia,
    Pacib,
    Pacda,
    Pacdb,
}

/// AUTIA, AUTIB, AUTDA and AUTDB.
#[derive(Clone, Copy, Debug, PartialEq, Eq)]
pub enum AuthenticateOp {
    Autia,
    Autib,
    Autda,
    Autdb,
}

/// PACIZA and AUTIZA, whose modifier is 0, and XPACI, which has none.
#[derive(Clone, Copy, Debug, PartialEq, Eq)]
pub enum PlainOp {
    Paciza,
    Autiza,
    Xpaci,
}

/// SVC and BRK.
#[derive(Clone, Copy, Debug, PartialEq, Eq)]
pub enum ExceptionOp {
    Svc,
    Brk,
}

/// An instruction. All work on 64 bits. A register is 0 to 31, and 31 is the stack pointer where the row takes it there,
/// else the zero register.
#[derive(Clone, Copy, Debug, PartialEq, Eq)]
pub enum Instr {
    /// Move wide (immediate): `imm` at the 16-bit part `hw` of the register.
    MoveWide {
        op: MoveWideOp,
        rd: u8,
        imm: u16,
        hw: u8,
    },
    /// Add/subtract (immediate). `shifted`: `imm` counts 4096 each. Register 31 is the stack pointer in both places.
    SumImmediate {
        op: SumImmediateOp,
        rd: u8,
        rn: u8,
        imm: u16,
        shifted: bool,
    },
    /// SUBS (immediate), as above. Register 31 is the stack pointer as `rn`.
    SubsImmediate {
        rd: u8,
        rn: u8,
        imm: u16,
        shifted: bool,
    },
    /// Add/subtract (shifted register).
    Sum {
        op: SumOp,
        rd: u8,
        rn: u8,
        rm: u8,
    },
    /// Logical (shifted register).
    Logical {
        op: LogicalOp,
        rd: u8,
        rn: u8,
        rm: u8,
    },
    /// Data-processing (3 source): `ra` plus or minus the product of `rn` and `rm`.
    MultiplyAdd {
        op: MultiplyAddOp,
        rd: u8,
        rn: u8,
        rm: u8,
        ra: u8,
    },
    /// Data-processing (2 source): `rn` divided by `rm`.
    Divide {
        op: DivideOp,
        rd: u8,
        rn: u8,
        rm: u8,
    },
    /// Data-processing (2 source): `rn` shifted by `rm` modulo 64.
    Shift {
        op: ShiftOp,
        rd: u8,
        rn: u8,
        rm: u8,
    },
    /// Bitfield.
    Bitfield {
        op: BitfieldOp,
        rd: u8,
        rn: u8,
        immr: u8,
        imms: u8,
    },
    /// CSINC: `rn` where the condition holds, else `rm` plus 1.
    Csinc {
        rd: u8,
        rn: u8,
        rm: u8,
        condition: u8,
    },
    /// ADRP: `pages` of 4096 bytes from the instruction's own.
    Adrp {
        rd: u8,
        pages: i32,
    },
    /// NOP.
    Nop,
    /// Load/store register (unsigned immediate). `imm` counts 8 bytes. Register 31 is the stack pointer as `rn`, as in the
    /// next five.
    LoadStore {
        op: LoadStoreOp,
        rt: u8,
        rn: u8,
        imm: u16,
    },
    /// Load/store register (unsigned immediate). `imm` counts 4 bytes.
    LoadStoreWord {
        op: LoadStoreWordOp,
        rt: u8,
        rn: u8,
        imm: u16,
    },
    /// Load/store register (unsigned immediate). `imm` counts 2 bytes.
    LoadStoreHalf {
        op: LoadStoreHalfOp,
        rt: u8,
        rn: u8,
        imm: u16,
    },
    /// Load/store register (unsigned immediate). `imm` counts bytes.
    LoadStoreByte {
        op: LoadStoreByteOp,
        rt: u8,
        rn: u8,
        imm: u16,
    },
    /// Load/store register (unscaled immediate). `imm` counts bytes.
    LoadStoreUnscaled {
        op: LoadStoreUnscaledOp,
        rt: u8,
        rn: u8,
        imm: i16,
    },
    /// Load/store register pair (offset). `imm` counts 8 bytes. LDP takes two different registers.
    LoadStorePair {
        op: LoadStorePairOp,
        rt: u8,
        rt2: u8,
        rn: u8,
        imm: i8,
    },
    /// Unconditional branch (immediate). `words` from the instruction itself, as in the next two.
    Branch {
        op: BranchOp,
        words: i32,
    },
    /// Conditional branch (immediate), B.cond.
    BranchConditional {
        condition: u8,
        words: i32,
    },
    /// Compare and branch (immediate).
    CompareBranch {
        op: CompareBranchOp,
        rt: u8,
        words: i32,
    },
    /// Unconditional branch (register).
    BranchRegister {
        op: BranchRegisterOp,
        rn: u8,
    },
    /// Unconditional branch (register): authenticates `rn` with modifier `rm`, where register 31 is the stack pointer.
    BranchAuthenticated {
        op: BranchAuthenticatedOp,
        rn: u8,
        rm: u8,
    },
    /// BLRAAZ: authenticates `rn` with modifier 0.
    Blraaz {
        rn: u8,
    },
    /// Pointer authentication of x30 with the stack pointer as modifier.
    Stack {
        op: StackOp,
    },
    /// Data-processing (1 source): signs `rd` with modifier `rn`, where register 31 is the stack pointer.
    Sign {
        op: SignOp,
        rd: u8,
        rn: u8,
    },
    /// Data-processing (1 source): authenticates `rd` with modifier `rn`, where register 31 is the stack pointer.
    Authenticate {
        op: AuthenticateOp,
        rd: u8,
        rn: u8,
    },
    /// Data-processing (1 source) of `rd` alone.
    Plain {
        op: PlainOp,
        rd: u8,
    },
    /// PACGA: the generic code of `rn` under modifier `rm`, where register 31 as `rm` is the stack pointer.
    Pacga {
        rd: u8,
        rn: u8,
        rm: u8,
    },
    /// Exception generation.
    Exception {
        op: ExceptionOp,
        imm: u16,
    },
}
