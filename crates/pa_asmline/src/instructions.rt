ghost use Rattle.std.specs.Prelude.{◌≡◌};
ghost use Rattle.pa_asmline.specs.Instructions as instructions;

use crate::form::Form;
use crate::value::{Value, byte, half, signed, signed_byte, signed_half};
use pa_a64::{BranchOp, Instr, SumImmediateOp};

/// The instruction of a form with these values for its operands, from left to right.
pub fn instruction(form: Form, values: &[Value]) -> Instr
    ensures { result ≡ instructions.instruction form values.now }
{
    match form {
        Form::MoveWide(op) => Instr::MoveWide {
            op,
            rd: byte(values, 0),
            imm: half(values, 1),
            hw: 0,
        },
        Form::MoveWideShifted(op) => Instr::MoveWide {
            op,
            rd: byte(values, 0),
            imm: half(values, 1),
            hw: byte(values, 2),
        },
        Form::SumImmediate(op) => Instr::SumImmediate {
            op,
            rd: byte(values, 0),
            rn: byte(values, 1),
            imm: half(values, 2),
            shifted: false,
        },
        Form::SumImmediateShifted(op) => Instr::SumImmediate {
            op,
            rd: byte(values, 0),
            rn: byte(values, 1),
            imm: half(values, 2),
            shifted: true,
        },
        Form::AddPageOffset => Instr::SumImmediate {
            op: SumImmediateOp::Add,
            rd: byte(values, 0),
            rn: byte(values, 1),
            imm: half(values, 2),
            shifted: false,
        },
        Form::SubsImmediate => Instr::SubsImmediate {
            rd: byte(values, 0),
            rn: byte(values, 1),
            imm: half(values, 2),
            shifted: false,
        },
        Form::SubsImmediateShifted => Instr::SubsImmediate {
            rd: byte(values, 0),
            rn: byte(values, 1),
            imm: half(values, 2),
            shifted: true,
        },
        Form::Sum(op) => Instr::Sum {
            op,
            rd: byte(values, 0),
            rn: byte(values, 1),
            rm: byte(values, 2),
        },
        Form::Logical(op) => Instr::Logical {
            op,
            rd: byte(values, 0),
            rn: byte(values, 1),
            rm: byte(values, 2),
        },
        Form::MultiplyAdd(op) => Instr::MultiplyAdd {
            op,
            rd: byte(values, 0),
            rn: byte(values, 1),
            rm: byte(values, 2),
            ra: byte(values, 3),
        },
        Form::Divide(op) => Instr::Divide {
            op,
            rd: byte(values, 0),
            rn: byte(values, 1),
            rm: byte(values, 2),
        },
        Form::Shift(op) => Instr::Shift {
            op,
            rd: byte(values, 0),
            rn: byte(values, 1),
            rm: byte(values, 2),
        },
        Form::Bitfield(op) => Instr::Bitfield {
            op,
            rd: byte(values, 0),
            rn: byte(values, 1),
            immr: byte(values, 2),
            imms: byte(values, 3),
        },
        Form::Csinc => Instr::Csinc {
            rd: byte(values, 0),
            rn: byte(values, 1),
            rm: byte(values, 2),
            condition: byte(values, 3),
        },
        Form::Adrp => Instr::Adrp {
            rd: byte(values, 0),
            pages: signed(values, 1),
        },
        Form::AdrpPage => Instr::Adrp {
            rd: byte(values, 0),
            pages: signed(values, 1),
        },
        Form::Nop => Instr::Nop,
        Form::LoadStore(op) => Instr::LoadStore {
            op,
            rt: byte(values, 0),
            rn: byte(values, 1),
            imm: half(values, 2),
        },
        Form::LoadStoreWord(op) => Instr::LoadStoreWord {
            op,
            rt: byte(values, 0),
            rn: byte(values, 1),
            imm: half(values, 2),
        },
        Form::LoadStoreHalf(op) => Instr::LoadStoreHalf {
            op,
            rt: byte(values, 0),
            rn: byte(values, 1),
            imm: half(values, 2),
        },
        Form::LoadStoreByte(op) => Instr::LoadStoreByte {
            op,
            rt: byte(values, 0),
            rn: byte(values, 1),
            imm: half(values, 2),
        },
        Form::LoadStoreUnscaled(op) => Instr::LoadStoreUnscaled {
            op,
            rt: byte(values, 0),
            rn: byte(values, 1),
            imm: signed_half(values, 2),
        },
        Form::LoadStorePair(op) => Instr::LoadStorePair {
            op,
            rt: byte(values, 0),
            rt2: byte(values, 1),
            rn: byte(values, 2),
            imm: signed_byte(values, 3),
        },
        Form::Jump => Instr::Branch {
            op: BranchOp::B,
            words: signed(values, 0),
        },
        Form::Call => Instr::Branch {
            op: BranchOp::Bl,
            words: signed(values, 0),
        },
        Form::BranchConditional => Instr::BranchConditional {
            condition: byte(values, 0),
            words: signed(values, 1),
        },
        Form::CompareBranch(op) => Instr::CompareBranch {
            op,
            rt: byte(values, 0),
            words: signed(values, 1),
        },
        Form::BranchRegister(op) => Instr::BranchRegister {
            op,
            rn: byte(values, 0),
        },
        Form::BranchAuthenticated(op) => Instr::BranchAuthenticated {
            op,
            rn: byte(values, 0),
            rm: byte(values, 1),
        },
        Form::Blraaz => Instr::Blraaz {
            rn: byte(values, 0),
        },
        Form::Stack(op) => Instr::Stack { op },
        Form::Sign(op) => Instr::Sign {
            op,
            rd: byte(values, 0),
            rn: byte(values, 1),
        },
        Form::Authenticate(op) => Instr::Authenticate {
            op,
            rd: byte(values, 0),
            rn: byte(values, 1),
        },
        Form::Plain(op) => Instr::Plain {
            op,
            rd: byte(values, 0),
        },
        Form::Pacga => Instr::Pacga {
            rd: byte(values, 0),
            rn: byte(values, 1),
            rm: byte(values, 2),
        },
        Form::Exception(op) => Instr::Exception {
            op,
            imm: half(values, 0),
        },
    }
}
