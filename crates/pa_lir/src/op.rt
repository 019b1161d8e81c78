use pa_num::{Name, Sequence};
use pa_pac::Schema;

/// A temporary of a function, by its number.
pub type Temp = u32;

/// Temporaries in order.
pub type Temps = Sequence<Temp>;

/// A place in the code of a function, by its number.
pub type Label = u32;

/// What is done to two numbers of 64 bits. Sums, differences and products wrap, shift amounts count modulo 64, quotients are
/// cut towards zero, and a comparison gives 0 or 1. The letters S and U say whether the numbers count as signed.
#[derive(Clone, Copy, Debug, PartialEq, Eq)]
pub enum BinOp {
    Add,
    Sub,
    Mul,
    SDiv,
    UDiv,
    SRem,
    URem,
    And,
    Or,
    Xor,
    Shl,
    Lsr,
    Asr,
    Eq,
    Ne,
    SLt,
    SLe,
    ULt,
    ULe,
}

/// What is done to one number of 64 bits.
#[derive(Clone, Copy, Debug, PartialEq, Eq)]
pub enum UnOp {
    /// The number's negative, in two's complement.
    Neg,
    /// Each bit turned.
    Not,
}

/// An operation of flat code. `to` is the temporary that is written; all others are read.
#[derive(Debug, Drop)]
pub enum Op {
    /// A number.
    Const {
        to: Temp,
        value: u64,
    },
    Bin {
        to: Temp,
        op: BinOp,
        left: Temp,
        right: Temp,
    },
    Un {
        to: Temp,
        op: UnOp,
        from: Temp,
    },
    /// The low bits of a number, extended by their sign or by zeros.
    Extend {
        to: Temp,
        from: Temp,
        bits: u8,
        signed: bool,
    },
    /// The place of a local of the function, by its number.
    Local {
        to: Temp,
        local: u32,
    },
    /// The place of a global.
    Global {
        to: Temp,
        name: Name,
    },
    /// A pointer to a function, signed under the plain schema: key IA, no address, discriminator 0.
    Code {
        to: Temp,
        name: Name,
    },
    /// The number of so many bytes at a place, extended, or the pointer there.
    Load {
        to: Temp,
        at: Temp,
        bytes: u8,
        signed: bool,
    },
    /// Writes the low bytes of a number, or a pointer.
    Store {
        at: Temp,
        from: Temp,
        bytes: u8,
    },
    /// The pointer to a function that is stored under the schema, signed under the plain one.
    LoadSigned {
        to: Temp,
        at: Temp,
        schema: Schema,
    },
    /// Stores a pointer to a function that is signed under the plain schema, signed under this one.
    StoreSigned {
        at: Temp,
        from: Temp,
        schema: Schema,
    },
    /// A call of a function by its name.
    Call {
        to: Option<Temp>,
        name: Name,
        arguments: Temps,
    },
    /// A call of a pointer that is signed under the plain schema.
    CallPlain {
        to: Option<Temp>,
        called: Temp,
        arguments: Temps,
    },
    /// A call of the pointer that is stored under the schema.
    CallSigned {
        to: Option<Temp>,
        at: Temp,
        schema: Schema,
        arguments: Temps,
    },
    /// A place in the code.
    Label {
        label: Label,
    },
    /// Goes to a label.
    Jump {
        label: Label,
    },
    /// Goes to a label where `on` is neither 0 nor null.
    Branch {
        on: Temp,
        label: Label,
    },
    /// Ends the function, with a result or without one.
    Return {
        from: Option<Temp>,
    },
}

/// Operations in order.
pub type Ops = Sequence<Op>;
