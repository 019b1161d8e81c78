ghost use Rattle.std.specs.Prelude.{◌≡◌};
ghost use Rattle.pa_asmline.specs.Rows as rows;

use crate::kind::{Kind, Range, Step};
use pa_a64::{
    AuthenticateOp, BitfieldOp, BranchAuthenticatedOp, BranchRegisterOp, CompareBranchOp, DivideOp,
    ExceptionOp, LoadStoreByteOp, LoadStoreHalfOp, LoadStoreOp, LoadStorePairOp,
    LoadStoreUnscaledOp, LoadStoreWordOp, LogicalOp, MoveWideOp, MultiplyAddOp, PlainOp, ShiftOp,
    SignOp, StackOp, SumImmediateOp, SumOp,
};

/// The forms of a line that gives an instruction. A row of the table of instructions has one, or more where its last operand
/// may be left out or may be a name; the operation tells rows of one form apart.
#[derive(Clone, Copy, Debug, PartialEq, Eq)]
pub enum Form {
    MoveWide(MoveWideOp),
    MoveWideShifted(MoveWideOp),
    SumImmediate(SumImmediateOp),
    SumImmediateShifted(SumImmediateOp),
    AddPageOffset,
    SubsImmediate,
    SubsImmediateShifted,
    Sum(SumOp),
    Logical(LogicalOp),
    MultiplyAdd(MultiplyAddOp),
    Divide(DivideOp),
    Shift(ShiftOp),
    Bitfield(BitfieldOp),
    Csinc,
    Adrp,
    AdrpPage,
    Nop,
    LoadStore(LoadStoreOp),
    LoadStoreWord(LoadStoreWordOp),
    LoadStoreHalf(LoadStoreHalfOp),
    LoadStoreByte(LoadStoreByteOp),
    LoadStoreUnscaled(LoadStoreUnscaledOp),
    LoadStorePair(LoadStorePairOp),
    Jump,
    Call,
    BranchConditional,
    CompareBranch(CompareBranchOp),
    BranchRegister(BranchRegisterOp),
    BranchAuthenticated(BranchAuthenticatedOp),
    Blraaz,
    Stack(StackOp),
    Sign(SignOp),
    Authenticate(AuthenticateOp),
    Plain(PlainOp),
    Pacga,
    Exception(ExceptionOp),
}

// What the numbers of a form may be.

const IMMEDIATE: Range = Range {
    below: 0,
    most: 65535,
    step: Step::One,
};

const LEFT_SHIFT: Range = Range {
    below: 0,
    most: 48,
    step: Step::Sixteen,
};

const UNSIGNED_12: Range = Range {
    below: 0,
    most: 4095,
    step: Step::One,
};

const BIT: Range = Range {
    below: 0,
    most: 63,
    step: Step::One,
};

const CONDITION: Range = Range {
    below: 0,
    most: 15,
    step: Step::One,
};

const PAGES: Range = Range {
    below: 1048576,
    most: 1048575,
    step: Step::One,
};

const UNSIGNED_12_BY_8: Range = Range {
    below: 0,
    most: 32760,
    step: Step::Eight,
};

const UNSIGNED_12_BY_4: Range = Range {
    below: 0,
    most: 16380,
    step: Step::Four,
};

const UNSIGNED_12_BY_2: Range = Range {
    below: 0,
    most: 8190,
    step: Step::Two,
};

const SIGNED_9: Range = Range {
    below: 256,
    most: 255,
    step: Step::One,
};

const SIGNED_7_BY_8: Range = Range {
    below: 512,
    most: 504,
    step: Step::Eight,
};

const NEAR: Range = Range {
    below: 33554432,
    most: 33554431,
    step: Step::One,
};

const NEARER: Range = Range {
    below: 262144,
    most: 262143,
    step: Step::One,
};

// The lines that give instructions, once for their names, their operands and their first bytes: `table!(macro, argument)` hands
// them to a macro. A line is a form with its operation, its name, and what its operands may be, from left to right. Lines
// stand by the first byte of their names.
macro_rules! table {
    ($go:ident, $given:ident) => {
        $go! { $given;
            b'a' {
                SumImmediate(SumImmediateOp::Add) = b"add" [RegisterOrStack, RegisterOrStack, Number(UNSIGNED_12)];
                SumImmediateShifted(SumImmediateOp::Add) = b"add" [RegisterOrStack, RegisterOrStack, Number(UNSIGNED_12), Shift12];
                AddPageOffset = b"add" [RegisterOrStack, RegisterOrStack, PageOffset];
                Sum(SumOp::Add) = b"add" [Register, Register, Register];
                Logical(LogicalOp::And) = b"and" [Register, Register, Register];
                Shift(ShiftOp::Asrv) = b"asrv" [Register, Register, Register];
                Adrp = b"adrp" [Register, Number(PAGES)];
                AdrpPage = b"adrp" [Register, Page];
                Stack(StackOp::Autibsp) = b"autibsp" [];
                Authenticate(AuthenticateOp::Autia) = b"autia" [Register, RegisterOrStack];
                Authenticate(AuthenticateOp::Autib) = b"autib" [Register, RegisterOrStack];
                Authenticate(AuthenticateOp::Autda) = b"autda" [Register, RegisterOrStack];
                Authenticate(AuthenticateOp::Autdb) = b"autdb" [Register, RegisterOrStack];
                Plain(PlainOp::Autiza) = b"autiza" [Register];
            }
            b'b' {
                Jump = b"b" [Target(NEAR)];
                Call = b"bl" [Callee(NEAR)];
                BranchConditional = b"bcond" [Number(CONDITION), Target(NEARER)];
                BranchRegister(BranchRegisterOp::Br) = b"br" [Register];
                BranchRegister(BranchRegisterOp::Blr) = b"blr" [Register];
                BranchAuthenticated(BranchAuthenticatedOp::Braa) = b"braa" [Register, RegisterOrStack];
                BranchAuthenticated(BranchAuthenticatedOp::Blraa) = b"blraa" [Register, RegisterOrStack];
                BranchAuthenticated(BranchAuthenticatedOp::Blrab) = b"blrab" [Register, RegisterOrStack];
                Blraaz = b"blraaz" [Register];
                Exception(ExceptionOp::Brk) = b"brk" [Number(IMMEDIATE)];
            }
            b'c' {
                Csinc = b"csinc" [Register, Register, Register, Number(CONDITION)];
                CompareBranch(CompareBranchOp::Cbz) = b"cbz" [Register, Target(NEARER)];
                CompareBranch(CompareBranchOp::Cbnz) = b"cbnz" [Register, Target(NEARER)];
            }
            b'e' {
                Logical(LogicalOp::Eor) = b"eor" [Register, Register, Register];
            }
            b'l' {
                Shift(ShiftOp::Lslv) = b"lslv" [Register, Register, Register];
                Shift(ShiftOp::Lsrv) = b"lsrv" [Register, Register, Register];
                LoadStore(LoadStoreOp::Ldr) = b"ldr" [Register, Base, Offset(UNSIGNED_12_BY_8)];
                LoadStoreWord(LoadStoreWordOp::Ldrw) = b"ldrw" [Register, Base, Offset(UNSIGNED_12_BY_4)];
                LoadStoreWord(LoadStoreWordOp::Ldrsw) = b"ldrsw" [Register, Base, Offset(UNSIGNED_12_BY_4)];
                LoadStoreHalf(LoadStoreHalfOp::Ldrh) = b"ldrh" [Register, Base, Offset(UNSIGNED_12_BY_2)];
                LoadStoreHalf(LoadStoreHalfOp::Ldrsh) = b"ldrsh" [Register, Base, Offset(UNSIGNED_12_BY_2)];
                LoadStoreByte(LoadStoreByteOp::Ldrb) = b"ldrb" [Register, Base, Offset(UNSIGNED_12)];
                LoadStoreByte(LoadStoreByteOp::Ldrsb) = b"ldrsb" [Register, Base, Offset(UNSIGNED_12)];
                LoadStoreUnscaled(LoadStoreUnscaledOp::Ldur) = b"ldur" [Register, Base, Offset(SIGNED_9)];
                LoadStorePair(LoadStorePairOp::Ldp) = b"ldp" [Register, Register, Base, Offset(SIGNED_7_BY_8)];
            }
            b'm' {
                MoveWide(MoveWideOp::Movz) = b"movz" [Register, Number(IMMEDIATE)];
                MoveWide(MoveWideOp::Movn) = b"movn" [Register, Number(IMMEDIATE)];
                MoveWide(MoveWideOp::Movk) = b"movk" [Register, Number(IMMEDIATE)];
                MoveWideShifted(MoveWideOp::Movz) = b"movz" [Register, Number(IMMEDIATE), Shift(LEFT_SHIFT)];
                MoveWideShifted(MoveWideOp::Movn) = b"movn" [Register, Number(IMMEDIATE), Shift(LEFT_SHIFT)];
                MoveWideShifted(MoveWideOp::Movk) = b"movk" [Register, Number(IMMEDIATE), Shift(LEFT_SHIFT)];
                MultiplyAdd(MultiplyAddOp::Madd) = b"madd" [Register, Register, Register, Register];
                MultiplyAdd(MultiplyAddOp::Msub) = b"msub" [Register, Register, Register, Register];
            }
            b'n' {
                Nop = b"nop" [];
            }
            b'o' {
                Logical(LogicalOp::Orr) = b"orr" [Register, Register, Register];
                Logical(LogicalOp::Orn) = b"orn" [Register, Register, Register];
            }
            b'p' {
                Stack(StackOp::Pacibsp) = b"pacibsp" [];
                Sign(SignOp::Pacia) = b"pacia" [Register, RegisterOrStack];
                Sign(SignOp::Pacib) = b"pacib" [Register, RegisterOrStack];
                Sign(SignOp::Pacda) = b"pacda" [Register, RegisterOrStack];
                Sign(SignOp::Pacdb) = b"pacdb" [Register, RegisterOrStack];
                Plain(PlainOp::Paciza) = b"paciza" [Register];
                Pacga = b"pacga" [Register, Register, RegisterOrStack];
            }
            b'r' {
                BranchRegister(BranchRegisterOp::Ret) = b"ret" [Register];
                Stack(StackOp::Retab) = b"retab" [];
            }
            b's' {
                SumImmediate(SumImmediateOp::Sub) = b"sub" [RegisterOrStack, RegisterOrStack, Number(UNSIGNED_12)];
                SumImmediateShifted(SumImmediateOp::Sub) = b"sub" [RegisterOrStack, RegisterOrStack, Number(UNSIGNED_12), Shift12];
                SubsImmediate = b"subs" [Register, RegisterOrStack, Number(UNSIGNED_12)];
                SubsImmediateShifted = b"subs" [Register, RegisterOrStack, Number(UNSIGNED_12), Shift12];
                Sum(SumOp::Sub) = b"sub" [Register, Register, Register];
                Sum(SumOp::Subs) = b"subs" [Register, Register, Register];
                Divide(DivideOp::Sdiv) = b"sdiv" [Register, Register, Register];
                Bitfield(BitfieldOp::Sbfm) = b"sbfm" [Register, Register, Number(BIT), Number(BIT)];
                LoadStore(LoadStoreOp::Str) = b"str" [Register, Base, Offset(UNSIGNED_12_BY_8)];
                LoadStoreWord(LoadStoreWordOp::Strw) = b"strw" [Register, Base, Offset(UNSIGNED_12_BY_4)];
                LoadStoreHalf(LoadStoreHalfOp::Strh) = b"strh" [Register, Base, Offset(UNSIGNED_12_BY_2)];
                LoadStoreByte(LoadStoreByteOp::Strb) = b"strb" [Register, Base, Offset(UNSIGNED_12)];
                LoadStoreUnscaled(LoadStoreUnscaledOp::Stur) = b"stur" [Register, Base, Offset(SIGNED_9)];
                LoadStorePair(LoadStorePairOp::Stp) = b"stp" [Register, Register, Base, Offset(SIGNED_7_BY_8)];
                Exception(ExceptionOp::Svc) = b"svc" [Number(IMMEDIATE)];
            }
            b'u' {
                Divide(DivideOp::Udiv) = b"udiv" [Register, Register, Register];
                Bitfield(BitfieldOp::Ubfm) = b"ubfm" [Register, Register, Number(BIT), Number(BIT)];
            }
            b'x' {
                Plain(PlainOp::Xpaci) = b"xpaci" [Register];
            }
        }
    };
}

macro_rules! name_of {
    ($form:ident; $($first:literal { $($variant:ident $(($op:ident::$row:ident))? = $name:literal [$($kind:ident $(($range:ident))?),*];)* })*) => {
        match $form {
            $($(Form::$variant $(($op::$row))? => $name,)*)*
        }
    };
}

macro_rules! kinds_of {
    ($form:ident; $($first:literal { $($variant:ident $(($op:ident::$row:ident))? = $name:literal [$($kind:ident $(($range:ident))?),*];)* })*) => {
        match $form {
            $($(Form::$variant $(($op::$row))? => &[$(Kind::$kind $(($range))?),*],)*)*
        }
    };
}

macro_rules! forms_by_first {
    ($byte:ident; $($first:literal { $($variant:ident $(($op:ident::$row:ident))? = $name:literal [$($kind:ident $(($range:ident))?),*];)* })*) => {
        match $byte {
            $($first => &[$(Form::$variant $(($op::$row))?),*],)*
            _ => &[],
        }
    };
}

impl Form {
    /// The name that the line begins with.
    pub fn name(self) -> &'static [u8]
        ensures { result.now ≡ rows.name self }
    {
        table!(name_of, self)
    }

    /// What its operands may be, from left to right.
    pub fn kinds(self) -> &'static [Kind]
        ensures { result.now ≡ rows.kinds self }
    {
        table!(kinds_of, self)
    }
}

/// The forms whose names begin with this byte.
pub fn forms_at(first: u8) -> &'static [Form]
    ensures { result.now ≡ rows.forms_at first }
{
    table!(forms_by_first, first)
}
