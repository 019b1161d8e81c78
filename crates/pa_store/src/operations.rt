//! What is done to values (C11 6.3 and 6.5). None: the behaviour is undefined.

ghost use Rattle.std.specs.Prelude.{◌≡◌, ◌<◌, ◌^◌, ℕ, List, Some, None, IsTrue, option_map};
ghost use Rattle.pa_cmean.specs.Operations as spec;
ghost use Rattle.pa_typed.specs.declared.expr.UnaryOperation.TheVariants.{Minus, Complement};
ghost use Rattle.pa_integer.specs.Integers as integers;
ghost use Rattle.pa_store.specs.Views.{Answers, ForTrees};
ghost use Rattle.pa_store.specs.Operands.{ForForm, IsOperand, IsRightOperand, IsConvertedPointer, integer_form, number_in};
ghost use Rattle.pa_ctype.specs.Types.{Integer};

use crate::value::{Owner, Place, Value};
use pa_convert::Form;
use pa_integer::{arithmetic, compares, complemented, negated, wrapped};
use pa_typed::{BinaryOperation, Comparison, UnaryOperation};

/// What a void expression gives, which no rule of types lets anyone use (C11 6.3.2.2).
const NOTHING: Value = Value::Number { number: 0 };

/// Whether a value is neither 0 nor null (C11 6.3.1.2, 6.5.3.3, 6.5.13, 6.8.4.1).
pub fn truth(value: Value) -> bool
    ensures { ForTrees (λ tree. result ≡ spec.truth (tree value)) }
{
    match value {
        Value::Number { number } => number != 0,
        Value::At { .. } => true,
        Value::Code { .. } => true,
        Value::Null => false,
    }
}

/// 1 where it is true, 0 where it isn't (C11 6.5.3.3p5, 6.5.8p6).
pub fn of_truth(truth: bool) -> Value
    ensures { ForTrees (λ tree. tree result ≡ spec.of_truth truth) }
{
    Value::Number {
        number: i128::from(truth),
    }
}

/// The number that a value is, if it is one.
fn number_of(value: Value) -> Option<i128>
    ensures { result ≡ number_in value }
{
    match value {
        Value::Number { number } => Some(number),
        _ => None,
    }
}

/// Whether an integer type of C has that many bits.
fn is_width(bits: u8) -> bool
    ensures { result ≡ integers.is_width bits }
{
    matches!(bits, 8 | 16 | 32 | 64)
}

/// A value that is converted to an integer type (C11 6.3.1.3): only numbers are.
fn converted_integer(bits: u8, signed: bool, value: Value) -> Option<Value>
    ensures { Answers result (λ tree. spec.converted_to (Integer bits signed) (tree value)) }
{
    match value {
        Value::Number { number } if is_width(bits) => Some(Value::Number {
            number: wrapped(bits, signed, number),
        }),
        _ => None,
    }
}

/// A value that is converted to a type of pointers (C11 6.3.2.3): of the numbers only 0 is, to null.
fn converted_pointer(value: Value) -> Option<Value>
    ensures { ForTrees (λ tree. IsConvertedPointer (tree value) (option_map tree result)) }
{
    match value {
        Value::Number { number: 0 } => Some(Value::Null),
        Value::Number { .. } => None,
        _ => Some(value),
    }
}

/// A value that is converted to a type of this form (C11 6.3).
pub fn converted(form: Form, value: Value) -> Option<Value>
    ensures { ForForm form (λ of. Answers result (λ tree. spec.converted of (tree value))) }
{
    match form {
        Form::Void => Some(NOTHING),
        Form::Boolean => Some(of_truth(truth(value))),
        Form::Integer { bits, signed } => converted_integer(bits, signed, value),
        Form::Pointer { .. } => converted_pointer(value),
        Form::Array { .. } | Form::Struct { .. } | Form::Function => None,
    }
}

/// An integer type.
#[derive(Clone, Copy)]
struct IntegerType {
    bits: u8,
    signed: bool,
}

/// The integer type of this form. None: it is none, or has another width than those of C.
fn integer_type(form: Form) -> Option<IntegerType>
    ensures { result ≡ integer_form form }
{
    match form {
        Form::Integer { bits, signed } if is_width(bits) => Some(IntegerType { bits, signed }),
        _ => None,
    }
}

/// `-value` (C11 6.5.3.3p3).
fn minus(form: Form, value: Value) -> Option<Value>
    requires { IsOperand form value }
    ensures { ForForm form (λ of. Answers result (λ tree. spec.unary Minus of (tree value))) }
{
    let number = number_of(value)?;
    let of = integer_type(form)?;
    Some(Value::Number {
        number: negated(of.bits, of.signed, number)?,
    })
}

/// `~value` (C11 6.5.3.3p4).
fn complement(form: Form, value: Value) -> Option<Value>
    ensures { ForForm form (λ of. Answers result (λ tree. spec.unary Complement of (tree value))) }
{
    let number = number_of(value)?;
    let of = integer_type(form)?;
    Some(Value::Number {
        number: complemented(of.bits, of.signed, number),
    })
}

/// `op value` in a type of this form (C11 6.5.3.3).
pub fn unary(op: UnaryOperation, form: Form, value: Value) -> Option<Value>
    requires { IsOperand form value }
    ensures { ForForm form (λ of. Answers result (λ tree. spec.unary op of (tree value))) }
{
    match op {
        UnaryOperation::Minus => minus(form, value),
        UnaryOperation::Complement => complement(form, value),
        UnaryOperation::Not => Some(of_truth(!truth(value))),
    }
}

/// `left op right` in a type of this form (C11 6.5.5 to 6.5.7, 6.5.10 to 6.5.12).
pub fn binary(op: BinaryOperation, form: Form, left: Value, right: Value) -> Option<Value>
    requires left { IsOperand form left }
    requires right { IsRightOperand op form right }
    ensures { ForForm form (λ of. Answers result (λ tree. spec.binary op of (tree left) (tree right))) }
{
    let left = number_of(left)?;
    let right = number_of(right)?;
    let of = integer_type(form)?;
    Some(Value::Number {
        number: arithmetic(op, of.bits, of.signed, left, right)?,
    })
}
