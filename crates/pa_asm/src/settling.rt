ghost use Rattle.std.specs.Prelude.{◌≡◌, ◌≤◌, ◌++◌, length, map, OnOk};
ghost use Rattle.std.specs.List.{list_any};
ghost use Rattle.pa_asmline.specs.Shapes.{shown_operand, shown_operands};
ghost use Rattle.pa_asm.specs.Reading.{kept};
ghost use Rattle.pa_asm.specs.Settled as spec;

use crate::labels::{Labels, Place};
use crate::rule::AsmRule;
use arrayvec::ArrayVec;
use pa_asmline::{Kind, MOST_OPERANDS, Operand, Range, Value};
use pa_num::{Memory, Name};
use pa_object::{Ref, RefKind, Refs};
use std::alloc::Global;

/// What the operands of a row are worth, from left to right.
pub type Values = ArrayVec<Value, MOST_OPERANDS>;

/// The field of a word that is filled later.
const UNFILLED: Value = Value::Number {
    negative: false,
    count: 0,
};

fn distance(range: Range, at: u32, to: u32) -> Value
    ensures { result ≡ spec.distance range at to }
{
    if at <= to {
        range.value(false, to - at)
    } else {
        range.value(true, at - to)
    }
}

fn reached(range: Range, at: u32, otherwise: Value, place: Option<Place>) -> Value
    ensures { result ≡ spec.reached range at otherwise place }
{
    match place {
        Some(place) => distance(range, at, place.at),
        None => otherwise,
    }
}

/// What an operand of the instruction at a place is worth.
fn settled(labels: &Labels, at: u32, operand: Operand) -> Value
    ensures { result ≡ spec.settled (kept labels.now) at (shown_operand operand.entry) }
{
    match operand {
        Operand::Given(value) => value,
        Operand::Named {
            kind: Kind::Target(range),
            name,
        } => reached(range, at, Value::Missing, labels.find(name)),
        Operand::Named {
            kind: Kind::Callee(range),
            name,
        } => reached(range, at, UNFILLED, labels.find(name)),
        Operand::Named { .. } => UNFILLED,
    }
}

/// What the operands of the instruction at a place are worth.
pub fn all_settled(labels: &Labels, at: u32, operands: &[Operand]) -> Values
    requires { length operands.now ≤ MOST_OPERANDS }
    ensures { result.items ≡ spec.all_settled (kept labels.now) at (shown_operands operands.now) }
{
    let mut values = Values::new();
    for operand in operands {
        values.push(settled(labels, at, *operand));
    }
    values
}

fn refer(alloc: Global, at: u32, kind: RefKind, name: &[u8], refs: &mut Refs) -> Result<(), Memory>
    ensures { OnOk result (refs.new ≡ refs.old ++ spec.reference at kind name.now) }
{
    let name = Name::from_slice(alloc, name)?;
    refs.push(Ref { at, kind, name })?;
    Ok(())
}

/// Adds the references that an operand of the instruction at a place leaves.
fn refer_operand(
    alloc: Global,
    labels: &Labels,
    at: u32,
    operand: Operand,
    refs: &mut Refs,
) -> Result<(), Memory>
    ensures { OnOk result (refs.new ≡ refs.old ++ spec.refers (kept labels.now) at (shown_operand operand.entry)) }
{
    match operand {
        Operand::Named {
            kind: Kind::Callee(_),
            name,
        } if labels.find(name).is_none() => refer(alloc, at, RefKind::Call, name, refs),
        Operand::Named {
            kind: Kind::Page,
            name,
        } => refer(alloc, at, RefKind::Page, name, refs),
        Operand::Named {
            kind: Kind::PageOffset,
            name,
        } => refer(alloc, at, RefKind::Low, name, refs),
        Operand::Given(_) | Operand::Named { .. } => Ok(()),
    }
}

/// Adds the references that the operands of the instruction at a place leave.
pub fn refer_all(
    alloc: Global,
    labels: &Labels,
    at: u32,
    operands: &[Operand],
    refs: &mut Refs,
) -> Result<(), Memory>
    ensures { OnOk result (refs.new ≡ refs.old ++ spec.all_refer (kept labels.now) at (shown_operands operands.now)) }
{
    for operand in operands {
        refer_operand(alloc, labels, at, *operand, refs)?;
    }
    Ok(())
}

fn is_out(value: Value) -> bool
    ensures { result ≡ spec.is_out value }
{
    matches!(value, Value::Out)
}

fn is_missing(value: Value) -> bool
    ensures { result ≡ spec.is_missing value }
{
    matches!(value, Value::Missing)
}

fn any_out(values: &[Value]) -> bool
    ensures { result ≡ list_any spec.is_out values.now }
{
    values.iter().any(|value| is_out(*value))
}

fn any_missing(values: &[Value]) -> bool
    ensures { result ≡ list_any spec.is_missing values.now }
{
    values.iter().any(|value| is_missing(*value))
}

/// The rule that values break.
pub fn rule_of(values: &[Value]) -> Option<AsmRule>
    ensures { result ≡ spec.rule_of values.now }
{
    if any_out(values) {
        Some(AsmRule::A2)
    } else if any_missing(values) {
        Some(AsmRule::A3)
    } else {
        None
    }
}
