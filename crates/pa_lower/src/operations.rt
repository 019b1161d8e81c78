//! The operations on numbers.

ghost use Rattle.std.specs.Prelude.{◌≡◌, ◌++◌, ◌∷◌, [], OnOk};
ghost use Rattle.pa_lir.specs.declared.op.Op.TheVariants.{Const, Bin};
ghost use Rattle.pa_lower.specs.Operations as spec;
ghost use Rattle.pa_lower.specs.Sources.{type_in};

use crate::code::Code;
use crate::source::Source;
use pa_convert::Form;
use pa_lir::{BinOp, Op, Temp, UnOp};
use pa_typed::{BinaryOperation, Comparison, UnaryOperation};
use std::alloc::AllocError;

impl Code {
    /// Whether the number isn't 0, as 1 or 0.
    pub(crate) fn push_truth(&mut self, temp: Temp, free: Temp) -> Result<(), AllocError>
        ensures ops { OnOk result (self.new.ops ≡ self.old.ops ++ spec.truth_ops temp free) }
        ensures labels { self.new.labels ≡ self.old.labels }
    {
        self.push_zero_test(BinOp::Ne, temp, free)
    }

    /// A comparison of the number with 0.
    fn push_zero_test(&mut self, op: BinOp, temp: Temp, free: Temp) -> Result<(), AllocError>
        ensures ops { OnOk result (self.new.ops ≡ self.old.ops ++ Const free 0 ∷ Bin temp op temp free ∷ []) }
        ensures labels { self.new.labels ≡ self.old.labels }
    {
        self.push(Op::Const { to: free, value: 0 })?;
        self.push(Op::Bin {
            to: temp,
            op,
            left: temp,
            right: free,
        })
    }

    /// The place of the store around.
    pub(crate) fn push_same(&mut self, same: Option<Temp>, to: Temp) -> Result<(), AllocError>
        ensures ops { OnOk result (self.new.ops ≡ self.old.ops ++ spec.same_ops same to) }
        ensures labels { self.new.labels ≡ self.old.labels }
    {
        self.push(Op::Const { to, value: 0 })?;
        match same {
            Some(place) => self.push(Op::Bin {
                to,
                op: BinOp::Add,
                left: place,
                right: to,
            }),
            None => Ok(()),
        }
    }
}

fn by_sign(is_signed: bool, signed: BinOp, unsigned: BinOp) -> BinOp
    ensures { result ≡ spec.by_sign is_signed signed unsigned }
{
    if is_signed { signed } else { unsigned }
}

/// The result may leave the range of the operands.
fn may_leave(operation: BinaryOperation) -> bool
    ensures { result ≡ spec.may_leave operation }
{
    matches!(
        operation,
        BinaryOperation::Multiply
            | BinaryOperation::Add
            | BinaryOperation::Subtract
            | BinaryOperation::ShiftLeft
    )
}

/// The comparison of two temporaries (C11 6.5.8, 6.5.9).
pub(crate) fn compare_op(
    comparison: Comparison,
    is_signed: bool,
    to: Temp,
    left: Temp,
    right: Temp,
) -> Op
    ensures { result ≡ spec.compare_op comparison is_signed to left right }
{
    let less = by_sign(is_signed, BinOp::SLt, BinOp::ULt);
    let less_equal = by_sign(is_signed, BinOp::SLe, BinOp::ULe);
    let (op, left, right) = match comparison {
        Comparison::Less => (less, left, right),
        Comparison::Greater => (less, right, left),
        Comparison::LessEqual => (less_equal, left, right),
        Comparison::GreaterEqual => (less_equal, right, left),
        Comparison::Equal => (BinOp::Eq, left, right),
        Comparison::NotEqual => (BinOp::Ne, left, right),
    };
    Op::Bin {
        to,
        op,
        left,
        right,
    }
}

impl Source<'_> {
    /// The conversion to the type (C11 6.3.1.2, 6.3.1.3).
    #[tactic(auto, using(crate::proofs::Forms::function_converts))]
    pub(crate) fn push_converted(
        &self,
        code: &mut Code,
        of: u32,
        temp: Temp,
        free: Temp,
    ) -> Result<(), AllocError>
        ensures ops { OnOk result (code.new.ops ≡ code.old.ops ++ spec.convert_ops (type_in self.now of) temp free) }
        ensures labels { code.new.labels ≡ code.old.labels }
    {
        match self.form(of) {
            Form::Boolean => code.push_truth(temp, free),
            Form::Integer { bits, signed } => code.push(Op::Extend {
                to: temp,
                from: temp,
                bits,
                signed,
            }),
            Form::Void
            | Form::Pointer { .. }
            | Form::Array { .. }
            | Form::Struct { .. }
            | Form::Function => Ok(()),
        }
    }

    /// The result modulo the range of an unsigned type (C11 6.2.5p9).
    #[tactic(auto, using(crate::proofs::Forms::function_wraps))]
    fn push_wrapped(&self, code: &mut Code, of: u32, temp: Temp) -> Result<(), AllocError>
        ensures ops { OnOk result (code.new.ops ≡ code.old.ops ++ spec.wrap_ops (type_in self.now of) temp) }
        ensures labels { code.new.labels ≡ code.old.labels }
    {
        match self.form(of) {
            Form::Integer {
                bits,
                signed: false,
            } => code.push(Op::Extend {
                to: temp,
                from: temp,
                bits,
                signed: false,
            }),
            Form::Integer { .. }
            | Form::Boolean
            | Form::Void
            | Form::Pointer { .. }
            | Form::Array { .. }
            | Form::Struct { .. }
            | Form::Function => Ok(()),
        }
    }

    /// An operator on the number in a temporary (C11 6.5.3.3).
    pub(crate) fn push_unary(
        &self,
        code: &mut Code,
        operation: UnaryOperation,
        of: u32,
        temp: Temp,
        free: Temp,
    ) -> Result<(), AllocError>
        ensures ops { OnOk result (code.new.ops ≡ code.old.ops ++ spec.unary_ops operation (type_in self.now of) temp free) }
        ensures labels { code.new.labels ≡ code.old.labels }
    {
        let op = match operation {
            UnaryOperation::Not => return code.push_zero_test(BinOp::Eq, temp, free),
            UnaryOperation::Minus => UnOp::Neg,
            UnaryOperation::Complement => UnOp::Not,
        };
        code.push(Op::Un {
            to: temp,
            op,
            from: temp,
        })?;
        self.push_wrapped(code, of, temp)
    }

    /// The operation of an operator (C11 6.5.5 to 6.5.7, 6.5.10 to 6.5.12).
    fn binary_op(&self, operation: BinaryOperation, of: u32) -> BinOp
        ensures { result ≡ spec.binary_op operation (type_in self.now of) }
    {
        match operation {
            BinaryOperation::Multiply => BinOp::Mul,
            BinaryOperation::Divide => by_sign(self.is_signed(of), BinOp::SDiv, BinOp::UDiv),
            BinaryOperation::Remainder => by_sign(self.is_signed(of), BinOp::SRem, BinOp::URem),
            BinaryOperation::Add => BinOp::Add,
            BinaryOperation::Subtract => BinOp::Sub,
            BinaryOperation::ShiftLeft => BinOp::Shl,
            BinaryOperation::ShiftRight => by_sign(self.is_signed(of), BinOp::Asr, BinOp::Lsr),
            BinaryOperation::And => BinOp::And,
            BinaryOperation::Xor => BinOp::Xor,
            BinaryOperation::Or => BinOp::Or,
        }
    }

    /// An operator on the number in a temporary, where its result goes, and that in another.
    pub(crate) fn push_binary(
        &self,
        code: &mut Code,
        operation: BinaryOperation,
        of: u32,
        temp: Temp,
        right: Temp,
    ) -> Result<(), AllocError>
        ensures ops { OnOk result (code.new.ops ≡ code.old.ops ++ spec.binary_ops operation (type_in self.now of) temp right) }
        ensures labels { code.new.labels ≡ code.old.labels }
    {
        code.push(Op::Bin {
            to: temp,
            op: self.binary_op(operation, of),
            left: temp,
            right,
        })?;
        if may_leave(operation) {
            self.push_wrapped(code, of, temp)?;
        }
        Ok(())
    }

    pub(crate) fn load_op(&self, of: u32, to: Temp, at: Temp) -> Op
        ensures { result ≡ spec.load_op (type_in self.now of) to at }
    {
        Op::Load {
            to,
            at,
            bytes: self.bytes(of),
            signed: self.is_signed(of),
        }
    }

    pub(crate) fn store_op(&self, of: u32, at: Temp, from: Temp) -> Op
        ensures { result ≡ spec.store_op (type_in self.now of) at from }
    {
        Op::Store {
            at,
            from,
            bytes: self.bytes(of),
        }
    }

    /// The temporary of a call's result of this type. None: it gives nothing.
    pub(crate) fn result_temp(&self, of: u32, temp: Temp) -> Option<Temp>
        ensures { result ≡ spec.result_temp (spec.is_void (type_in self.now of)) temp }
    {
        if self.is_void(of) { None } else { Some(temp) }
    }
}
