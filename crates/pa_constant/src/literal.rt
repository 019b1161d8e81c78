//! Integer and character constants (C11 6.4.4), and the discriminators of strings.

ghost use Rattle.std.specs.Prelude.{◌≡◌, ◌<◌, length, IfOk};
ghost use Rattle.pa_constant.specs.Literals as literals;
ghost use Rattle.pa_constant.specs.Literals.{integer_tree};
ghost use Rattle.pa_convert.specs.Grows.{Grows};
ghost use Rattle.pa_rexpr.specs.Names as spec;
ghost use Rattle.pa_value.specs.Forms.{IsForm, Gives};

use pa_convert::integer;
use pa_ctype::Types;
use pa_num::{Fault, Memory};
use pa_rexpr::Category;
use pa_scope::TypeRule;
use pa_sip::string_disc;
use pa_typed::TExpr;
use pa_value::{TypedForm, expr_type, refused};

/// An integer type other than `_Bool`.
#[derive(Clone, Copy)]
pub(crate) struct IntegerType {
    bits: u8,
    signed: bool,
}

/// `int`.
pub(crate) const INT: IntegerType = IntegerType {
    bits: 32,
    signed: true,
};

/// `unsigned int`.
const UNSIGNED_INT: IntegerType = IntegerType {
    bits: 32,
    signed: false,
};

/// `long`.
const LONG: IntegerType = IntegerType {
    bits: 64,
    signed: true,
};

/// `unsigned long`.
const UNSIGNED_LONG: IntegerType = IntegerType {
    bits: 64,
    signed: false,
};

/// A number of an integer type, as 64 bits of two's complement. `null`: it converts to every pointer.
#[tactic(auto, unfolding(pa_typed::specs::Views::t_expr_tree))]
pub(crate) fn number(
    types: &mut Types,
    value: u64,
    of: IntegerType,
    null: bool,
) -> Result<TypedForm, Memory>
    ensures known { IfOk result (λ t. t.of < length types.new.nodes) }
    ensures is { IsForm types.new result (λ names m. spec.number value (integer_tree of) null) }
    ensures grows { Grows types.old types.new }
{
    let number = integer(types, of.bits, of.signed)?;
    let of = expr_type(types, number);
    Ok(TypedForm {
        tree: TExpr::Number { value, of },
        of: number,
        category: Category::Value,
        null,
    })
}

/// An integer constant as its token has it (C11 6.4.4.1): its number, whether it is decimal, and whether it has the
/// suffixes `u` and `l`.
#[derive(Clone, Copy, Debug, PartialEq, Eq)]
pub struct IntegerConstant {
    pub value: u64,
    pub decimal: bool,
    pub unsigned: bool,
    pub long: bool,
}

/// Whether a constant has the type `int`, where it has no type before it.
fn takes_int(constant: IntegerConstant) -> bool
    ensures { result ≡ literals.takes_int constant }
{
    !constant.unsigned && !constant.long && constant.value < 0x8000_0000
}

/// Whether it has the type `unsigned int`, where it has no type before it.
fn takes_unsigned_int(constant: IntegerConstant) -> bool
    ensures { result ≡ literals.takes_unsigned_int constant }
{
    (constant.unsigned || !constant.decimal) && !constant.long && constant.value < 0x1_0000_0000
}

/// Whether it has the type `long`, where it has no type before it.
fn takes_long(constant: IntegerConstant) -> bool
    ensures { result ≡ literals.takes_long constant }
{
    !constant.unsigned && constant.value < 0x8000_0000_0000_0000
}

/// The type of a constant: the first of its list that has the number (C11 6.4.4.1p5). None: no type has it.
#[tactic(auto, using(crate::proofs::Fitting::first_fit_is))]
fn constant_type(constant: IntegerConstant) -> Option<IntegerType>
    ensures { literals.IsFirstFit constant result }
{
    if takes_int(constant) {
        Some(INT)
    } else if takes_unsigned_int(constant) {
        Some(UNSIGNED_INT)
    } else if takes_long(constant) {
        Some(LONG)
    } else if constant.unsigned || !constant.decimal {
        Some(UNSIGNED_LONG)
    } else {
        None
    }
}

/// An integer constant (C11 6.4.4.1). A 0 converts to every pointer (6.3.2.3p3). C14: no type has the number.
pub fn integer_constant(
    types: &mut Types,
    constant: IntegerConstant,
    place: u64,
) -> Result<TypedForm, Fault<TypeRule>>
    ensures known { IfOk result (λ t. t.of < length types.new.nodes) }
    ensures is { Gives types.new result (λ names m. literals.constant_at constant place) }
    ensures grows { Grows types.old types.new }
{
    match constant_type(constant) {
        Some(of) => Ok(number(types, constant.value, of, constant.value == 0)?),
        None => Err(refused(TypeRule::C14, place)),
    }
}

/// A character constant, an `int` (C11 6.4.4.4p10).
#[tactic(auto, using(crate::proofs::Words::word_is))]
pub fn character(types: &mut Types, value: i8) -> Result<TypedForm, Memory>
    ensures known { IfOk result (λ t. t.of < length types.new.nodes) }
    ensures is { IsForm types.new result (λ names m. spec.character value) }
    ensures grows { Grows types.old types.new }
{
    number(types, i64::from(value).cast_unsigned(), INT, false)
}

/// The discriminator of a string, an `unsigned long` (`ptrauth_string_discriminator` of Clang's Pointer
/// Authentication page).
pub fn discriminator(types: &mut Types, bytes: &[u8]) -> Result<TypedForm, Memory>
    ensures known { IfOk result (λ t. t.of < length types.new.nodes) }
    ensures is { IsForm types.new result (λ names m. spec.discriminator_value bytes.now) }
    ensures grows { Grows types.old types.new }
{
    number(types, u64::from(string_disc(bytes)), UNSIGNED_LONG, false)
}
