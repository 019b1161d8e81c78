//! The types of values, and the types that operands are brought to (C11 6.3.1, 6.3.2).

ghost use Rattle.std.specs.Prelude.{◌≡◌, ◌<◌, length, option_map, IfOk, OnErr};
ghost use Rattle.pa_ctype.specs.Tables.{ForTypes};
ghost use Rattle.pa_convert.specs.Conversions as spec;
ghost use Rattle.pa_convert.specs.Grows.{Grows};
ghost use Rattle.pa_convert.specs.Kinds as kinds;

use crate::form::{Form, form_of};
use crate::kind::target;
use pa_ctype::{Node, Types};
use pa_num::Memory;

/// An integer type other than `_Bool`, by its bits.
#[derive(Clone, Copy)]
struct IntegerForm {
    bits: u8,
    signed: bool,
}

/// What two types of promoted operands are brought to, where both are integer types.
fn wider_form(left: Form, right: Form) -> Option<IntegerForm>
    ensures { option_map (λ f. spec.integer f.bits f.signed) result ≡ kinds.wider left right }
{
    match (left, right) {
        (
            Form::Integer { bits, signed },
            Form::Integer {
                bits: others,
                signed: other,
            },
        ) => Some(if bits == others {
            IntegerForm {
                bits,
                signed: signed && other,
            }
        } else if others < bits {
            IntegerForm { bits, signed }
        } else {
            IntegerForm {
                bits: others,
                signed: other,
            }
        }),
        (_, _) => None,
    }
}

/// The integer type of that many bits: 8, 16, 32 or 64. After want of memory the table is as before.
pub fn integer(types: &mut Types, bits: u8, signed: bool) -> Result<u32, Memory>
    ensures known { IfOk result (λ n. n < length types.new.nodes) }
    ensures is { IfOk result (λ n. ForTypes types.new (λ m. m n ≡ spec.integer bits signed)) }
    ensures grows { Grows types.old types.new }
    ensures err { OnErr result (types.new ≡ types.old) }
{
    types.put(Node::Int { bits, signed })
}

/// The pointer to a type. After want of memory the table is as before.
pub fn pointer_to(types: &mut Types, to: u32) -> Result<u32, Memory>
    requires { to < length types.old.nodes }
    ensures known { IfOk result (λ n. n < length types.new.nodes) }
    ensures is { IfOk result (λ n. ForTypes types.new (λ m. m n ≡ spec.pointer_to (m to))) }
    ensures grows { Grows types.old types.new }
    ensures err { OnErr result (types.new ≡ types.old) }
{
    types.put(Node::Pointer {
        to,
        qualifier: None,
    })
}

/// The type of a value: without qualifiers of its own (C11 6.3.2.1p2). After want of memory the table is as before.
#[tactic(auto, using(crate::proofs::Conversions::pointer_value, crate::proofs::Conversions::plain_value))]
pub fn value_type(types: &mut Types, number: u32) -> Result<u32, Memory>
    requires { number < length types.old.nodes }
    ensures known { IfOk result (λ n. n < length types.new.nodes) }
    ensures is { IfOk result (λ n. ForTypes types.new (λ m. m n ≡ spec.value_type (m number))) }
    ensures grows { Grows types.old types.new }
    ensures err { OnErr result (types.new ≡ types.old) }
{
    match target(types, number) {
        Some(to) => pointer_to(types, to),
        None => Ok(types.without_const(number)),
    }
}

/// The promoted type (C11 6.3.1.1p2). After want of memory the table is as before.
pub fn promoted(types: &mut Types, number: u32) -> Result<u32, Memory>
    requires { number < length types.old.nodes }
    ensures known { IfOk result (λ n. n < length types.new.nodes) }
    ensures is { IfOk result (λ n. ForTypes types.new (λ m. m n ≡ spec.promoted (m number))) }
    ensures grows { Grows types.old types.new }
    ensures err { OnErr result (types.new ≡ types.old) }
{
    match form_of(types, number) {
        Form::Boolean => integer(types, 32, true),
        Form::Integer { bits, .. } if bits < 32 => integer(types, 32, true),
        Form::Integer { bits, signed } => integer(types, bits, signed),
        Form::Void
        | Form::Pointer { .. }
        | Form::Array { .. }
        | Form::Struct { .. }
        | Form::Function => value_type(types, number),
    }
}

/// The type that two operands of promoted types are brought to: the wider one, or of two alike the unsigned one. After want of
/// memory the table is as before.
fn wider(types: &mut Types, left: u32, right: u32) -> Result<u32, Memory>
    requires left { left < length types.old.nodes }
    requires right { right < length types.old.nodes }
    ensures known { IfOk result (λ n. n < length types.new.nodes) }
    ensures is { IfOk result (λ n. ForTypes types.new (λ m. m n ≡ spec.common_by (m left) (m right))) }
    ensures grows { Grows types.old types.new }
    ensures err { OnErr result (types.new ≡ types.old) }
{
    match wider_form(form_of(types, left), form_of(types, right)) {
        Some(IntegerForm { bits, signed }) => integer(types, bits, signed),
        None => Ok(left),
    }
}

/// The type that two operands are brought to (C11 6.3.1.8).
pub fn common(types: &mut Types, left: u32, right: u32) -> Result<u32, Memory>
    requires left { left < length types.old.nodes }
    requires right { right < length types.old.nodes }
    ensures known { IfOk result (λ n. n < length types.new.nodes) }
    ensures is { IfOk result (λ n. ForTypes types.new (λ m. m n ≡ spec.common (m left) (m right))) }
    ensures grows { Grows types.old types.new }
{
    let left = promoted(types, left)?;
    let right = promoted(types, right)?;
    wider(types, left, right)
}
