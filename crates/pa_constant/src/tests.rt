//! Constants by hand.

use crate::{IntegerConstant, character, discriminator, integer_constant};
use pa_ctype::{Shape, Types};
use pa_num::Fault;
use pa_scope::TypeRule;
use pa_typed::TExpr;
use pa_value::TypedForm;
use std::test::Fail;

/// An integer constant, and the type that it has or the rule that it breaks.
#[derive(Clone, Copy)]
struct Row {
    constant: IntegerConstant,
    wanted: Result<Shape, TypeRule>,
}

const INT: Result<Shape, TypeRule> = Ok(Shape::Int {
    bits: 32,
    signed: true,
});

const UNSIGNED_INT: Result<Shape, TypeRule> = Ok(Shape::Int {
    bits: 32,
    signed: false,
});

const LONG: Result<Shape, TypeRule> = Ok(Shape::Int {
    bits: 64,
    signed: true,
});

const UNSIGNED_LONG: Result<Shape, TypeRule> = Ok(Shape::Int {
    bits: 64,
    signed: false,
});

const NO_TYPE: Result<Shape, TypeRule> = Err(TypeRule::C14);

/// The row of a number, whether it is decimal, and whether it has the suffixes `u` and `l`.
fn row_of(
    value: u64,
    decimal: bool,
    unsigned: bool,
    long: bool,
    wanted: Result<Shape, TypeRule>,
) -> Row {
    let constant = IntegerConstant {
        value,
        decimal,
        unsigned,
        long,
    };
    Row { constant, wanted }
}

/// C11 6.4.4.1, the table behind p5.
fn rows() -> [Row; 18] {
    [
        row_of(0, true, false, false, INT),
        row_of(0x7FFF_FFFF, true, false, false, INT),
        row_of(0x8000_0000, true, false, false, LONG),
        row_of(0x1_0000_0000, true, false, false, LONG),
        row_of(0x7FFF_FFFF_FFFF_FFFF, true, false, false, LONG),
        row_of(0x8000_0000_0000_0000, true, false, false, NO_TYPE),
        row_of(0x7FFF_FFFF, false, false, false, INT),
        row_of(0x8000_0000, false, false, false, UNSIGNED_INT),
        row_of(0x1_0000_0000, false, false, false, LONG),
        row_of(0x8000_0000_0000_0000, false, false, false, UNSIGNED_LONG),
        row_of(1, true, true, false, UNSIGNED_INT),
        row_of(0x1_0000_0000, true, true, false, UNSIGNED_LONG),
        row_of(1, true, false, true, LONG),
        row_of(0x8000_0000_0000_0000, true, false, true, NO_TYPE),
        row_of(0x8000_0000_0000_0000, false, false, true, UNSIGNED_LONG),
        row_of(1, true, true, true, UNSIGNED_LONG),
        row_of(0xFFFF_FFFF_FFFF_FFFF, true, true, false, UNSIGNED_LONG),
        row_of(0xFFFF_FFFF_FFFF_FFFF, true, false, false, NO_TYPE),
    ]
}

/// The type of a number. None: it is no number.
fn shape_of(form: &TypedForm) -> Option<Shape> {
    match &form.tree {
        TExpr::Number { of, .. } => Some(of.shape),
        _ => None,
    }
}

/// A number. None: it is none.
fn value_of(form: &TypedForm) -> Option<u64> {
    match &form.tree {
        TExpr::Number { value, .. } => Some(*value),
        _ => None,
    }
}

/// The type of an integer constant, or the rule that it breaks at its place. None: any other answer.
fn type_of(types: &mut Types, row: Row) -> Option<Result<Shape, TypeRule>> {
    match integer_constant(types, row.constant, 7) {
        Ok(form) => Some(Ok(shape_of(&form)?)),
        Err(Fault::Refused { rule, place: 7 }) => Some(Err(rule)),
        Err(Fault::Refused { .. } | Fault::Memory) => None,
    }
}

#[test]
fn an_integer_constant_has_the_first_type_that_takes_it(rt: HostRuntime) -> Result<(), Fail> {
    let mut types = Types::new(rt.alloc(), 0);
    for row in &rows() {
        assert_eq!(rt; type_of(&mut types, *row), Some(row.wanted));
    }
    Ok(())
}

#[test]
fn the_number_0_alone_is_null(rt: HostRuntime) -> Result<(), Fail> {
    let mut types = Types::new(rt.alloc(), 0);
    let zero = integer_constant(&mut types, row_of(0, false, true, true, LONG).constant, 7);
    let one = integer_constant(&mut types, row_of(1, true, false, false, INT).constant, 7);
    let letter = character(&mut types, 0)?;
    assert!(rt; zero.is_ok_and(|form| form.null));
    assert!(rt; one.is_ok_and(|form| !form.null));
    assert!(rt; !letter.null);
    Ok(())
}

#[test]
fn a_character_is_an_int_and_a_discriminator_an_unsigned_long(rt: HostRuntime) -> Result<(), Fail> {
    let mut types = Types::new(rt.alloc(), 0);
    let letter = character(&mut types, -1)?;
    assert_eq!(rt;
        shape_of(&letter),
        Some(Shape::Int {
            bits: 32,
            signed: true
        })
    );
    assert_eq!(rt; value_of(&letter), Some(18_446_744_073_709_551_615));
    let empty = discriminator(&mut types, b"")?;
    assert_eq!(rt;
        shape_of(&empty),
        Some(Shape::Int {
            bits: 64,
            signed: false
        })
    );
    assert_eq!(rt; value_of(&empty), Some(59283));
    Ok(())
}
