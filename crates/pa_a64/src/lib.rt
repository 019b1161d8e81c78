//! The A64 instructions of the machine: one table of rows, from instructions to words and back.
#![tactic(auto)]

mod decoding;
mod encoding;
mod instr;
mod signed;
mod table;

pub use decoding::decode;
pub use encoding::{encode, in_range};
pub use instr::{
    AuthenticateOp, BitfieldOp, BranchAuthenticatedOp, BranchOp, BranchRegisterOp, CompareBranchOp,
    DivideOp, ExceptionOp, Instr, LoadStoreByteOp, LoadStoreHalfOp, LoadStoreOp, LoadStorePairOp,
    LoadStoreUnscaledOp, LoadStoreWordOp, LogicalOp, MoveWideOp, MultiplyAddOp, PlainOp, ShiftOp,
    SignOp, StackOp, SumImmediateOp, SumOp,
};
