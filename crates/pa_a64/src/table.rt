// The table of rows, once for both directions: `table!(macro, arguments)` hands it to a macro.
//
// It has four parts. In each, a list of highest bytes of a word stands before the lines that such a word may be of. A line
// is a variant of `Instr`; its one row with its fixed bits, or its rows by name; and its fields from bit 0 up, each with its
// type and its place: lowest bit and width, and for a field in two pieces those of the upper piece and then of the lower.
macro_rules! table {
    ($go:ident, $($given:ident),*) => {
        $go! { $($given),*;
            immediate {
                [0x90 | 0xb0 | 0xd0 | 0xf0] {
                    Adrp = 0x9000_0000 { rd: u8 [0, 5]; pages: i32 [5, 19, 29, 2]; }
                }
                [0x91 | 0xd1] {
                    SumImmediate op: SumImmediateOp [Add = 0x9100_0000, Sub = 0xd100_0000]
                        { rd: u8 [0, 5]; rn: u8 [5, 5]; imm: u16 [10, 12]; shifted: bool [22, 1]; }
                }
                [0xf1] {
                    SubsImmediate = 0xf100_0000 { rd: u8 [0, 5]; rn: u8 [5, 5]; imm: u16 [10, 12]; shifted: bool [22, 1]; }
                }
                [0x92 | 0xd2 | 0xf2] {
                    MoveWide op: MoveWideOp [Movz = 0xd280_0000, Movn = 0x9280_0000, Movk = 0xf280_0000]
                        { rd: u8 [0, 5]; imm: u16 [5, 16]; hw: u8 [21, 2]; }
                }
                [0x93 | 0xd3] {
                    Bitfield op: BitfieldOp [Sbfm = 0x9340_0000, Ubfm = 0xd340_0000]
                        { rd: u8 [0, 5]; rn: u8 [5, 5]; imms: u8 [10, 6]; immr: u8 [16, 6]; }
                }
            }
            register {
                [0x8a | 0xaa | 0xca] {
                    Logical op: LogicalOp [And = 0x8a00_0000, Orr = 0xaa00_0000, Eor = 0xca00_0000, Orn = 0xaa20_0000]
                        { rd: u8 [0, 5]; rn: u8 [5, 5]; rm: u8 [16, 5]; }
                }
                [0x8b | 0xcb | 0xeb] {
                    Sum op: SumOp [Add = 0x8b00_0000, Sub = 0xcb00_0000, Subs = 0xeb00_0000]
                        { rd: u8 [0, 5]; rn: u8 [5, 5]; rm: u8 [16, 5]; }
                }
                [0x9b] {
                    MultiplyAdd op: MultiplyAddOp [Madd = 0x9b00_0000, Msub = 0x9b00_8000]
                        { rd: u8 [0, 5]; rn: u8 [5, 5]; ra: u8 [10, 5]; rm: u8 [16, 5]; }
                }
                [0x9a] {
                    Divide op: DivideOp [Udiv = 0x9ac0_0800, Sdiv = 0x9ac0_0c00]
                        { rd: u8 [0, 5]; rn: u8 [5, 5]; rm: u8 [16, 5]; }
                    Shift op: ShiftOp [Lslv = 0x9ac0_2000, Lsrv = 0x9ac0_2400, Asrv = 0x9ac0_2800]
                        { rd: u8 [0, 5]; rn: u8 [5, 5]; rm: u8 [16, 5]; }
                    Csinc = 0x9a80_0400 { rd: u8 [0, 5]; rn: u8 [5, 5]; condition: u8 [12, 4]; rm: u8 [16, 5]; }
                    Pacga = 0x9ac0_3000 { rd: u8 [0, 5]; rn: u8 [5, 5]; rm: u8 [16, 5]; }
                }
                [0xda] {
                    Sign op: SignOp [Pacia = 0xdac1_0000, Pacib = 0xdac1_0400, Pacda = 0xdac1_0800, Pacdb = 0xdac1_0c00]
                        { rd: u8 [0, 5]; rn: u8 [5, 5]; }
                    Authenticate op: AuthenticateOp
                        [Autia = 0xdac1_1000, Autib = 0xdac1_1400, Autda = 0xdac1_1800, Autdb = 0xdac1_1c00]
                        { rd: u8 [0, 5]; rn: u8 [5, 5]; }
                    Plain op: PlainOp [Paciza = 0xdac1_23e0, Autiza = 0xdac1_33e0, Xpaci = 0xdac1_43e0] { rd: u8 [0, 5]; }
                }
            }
            memory {
                [0xf9] {
                    LoadStore op: LoadStoreOp [Ldr = 0xf940_0000, Str = 0xf900_0000]
                        { rt: u8 [0, 5]; rn: u8 [5, 5]; imm: u16 [10, 12]; }
                }
                [0xb9] {
                    LoadStoreWord op: LoadStoreWordOp [Ldrw = 0xb940_0000, Strw = 0xb900_0000, Ldrsw = 0xb980_0000]
                        { rt: u8 [0, 5]; rn: u8 [5, 5]; imm: u16 [10, 12]; }
                }
                [0x79] {
                    LoadStoreHalf op: LoadStoreHalfOp [Ldrh = 0x7940_0000, Strh = 0x7900_0000, Ldrsh = 0x7980_0000]
                        { rt: u8 [0, 5]; rn: u8 [5, 5]; imm: u16 [10, 12]; }
                }
                [0x39] {
                    LoadStoreByte op: LoadStoreByteOp [Ldrb = 0x3940_0000, Strb = 0x3900_0000, Ldrsb = 0x3980_0000]
                        { rt: u8 [0, 5]; rn: u8 [5, 5]; imm: u16 [10, 12]; }
                }
                [0xf8] {
                    LoadStoreUnscaled op: LoadStoreUnscaledOp [Ldur = 0xf840_0000, Stur = 0xf800_0000]
                        { rt: u8 [0, 5]; rn: u8 [5, 5]; imm: i16 [12, 9]; }
                }
                [0xa9] {
                    LoadStorePair op: LoadStorePairOp [Ldp = 0xa940_0000 if rt != rt2, Stp = 0xa900_0000]
                        { rt: u8 [0, 5]; rn: u8 [5, 5]; rt2: u8 [10, 5]; imm: i8 [15, 7]; }
                }
            }
            branch {
                [0x14 | 0x15 | 0x16 | 0x17 | 0x94 | 0x95 | 0x96 | 0x97] {
                    Branch op: BranchOp [B = 0x1400_0000, Bl = 0x9400_0000] { words: i32 [0, 26]; }
                }
                [0x54] {
                    BranchConditional = 0x5400_0000 { condition: u8 [0, 4]; words: i32 [5, 19]; }
                }
                [0xb4 | 0xb5] {
                    CompareBranch op: CompareBranchOp [Cbz = 0xb400_0000, Cbnz = 0xb500_0000] { rt: u8 [0, 5]; words: i32 [5, 19]; }
                }
                [0xd4] {
                    Exception op: ExceptionOp [Svc = 0xd400_0001, Brk = 0xd420_0000] { imm: u16 [5, 16]; }
                }
                [0xd5 | 0xd6] {
                    Nop = 0xd503_201f {}
                    Stack op: StackOp [Retab = 0xd65f_0fff, Pacibsp = 0xd503_237f, Autibsp = 0xd503_23ff] {}
                    BranchRegister op: BranchRegisterOp [Br = 0xd61f_0000, Blr = 0xd63f_0000, Ret = 0xd65f_0000]
                        { rn: u8 [5, 5]; }
                    Blraaz = 0xd63f_081f { rn: u8 [5, 5]; }
                }
                [0xd7] {
                    BranchAuthenticated op: BranchAuthenticatedOp
                        [Braa = 0xd71f_0800, Blraa = 0xd73f_0800, Blrab = 0xd73f_0c00]
                        { rm: u8 [0, 5]; rn: u8 [5, 5]; }
                }
            }
        }
    };
}

pub(crate) use table;
