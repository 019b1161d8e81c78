//! How values compare (C11 6.5.8, 6.5.9). None: the behaviour is undefined.

ghost use Rattle.std.specs.Prelude.{◌≡◌, Some, option_map};
ghost use Rattle.pa_cmean.specs.Operations as spec;
ghost use Rattle.pa_store.specs.Views.{place_tree, value_tree};
ghost use Rattle.pa_store.specs.Store.{ForPlaces, ForOperands, objects_tree};

use crate::operations::of_truth;
use crate::pointers::{is_same_owner, ordered};
use crate::store::Objects;
use crate::value::{Place, Value};
use pa_integer::compares;
use pa_typed::Comparison;

/// Whether two places are the same (C11 6.5.9p6). None: they lie in two objects, of which one is dead, or one place alone is the
/// end of its object.
fn is_same_place(objects: &Objects, left: Place, right: Place) -> Option<bool>
    ensures { ForPlaces objects.now left right (λ t names.
        result ≡ spec.same_place (objects_tree names t objects.now)
        (place_tree names left) (place_tree names right)) }
{
    if is_same_owner(left.owner, right.owner) {
        return Some(left.offset == right.offset);
    }
    let first = objects.object(left.owner)?;
    let second = objects.object(right.owner)?;
    let at_end = left.offset == first.size;
    if first.alive && second.alive && at_end == (right.offset == second.size) {
        Some(false)
    } else {
        None
    }
}

/// Whether two pointers are equal (C11 6.5.9); null goes with every pointer.
fn is_same_value(objects: &Objects, left: Value, right: Value) -> Option<bool>
    ensures { ForOperands objects.now left right (λ t names.
        result ≡ spec.same_value (objects_tree names t objects.now)
        (value_tree names left) (value_tree names right)) }
{
    match (left, right) {
        (Value::At { place: left }, Value::At { place: right }) => {
            is_same_place(objects, left, right)
        }
        (Value::Code { name: left }, Value::Code { name: right }) => Some(left == right),
        (Value::Null, Value::Null) => Some(true),
        (Value::Null, Value::At { .. } | Value::Code { .. }) => Some(false),
        (Value::At { .. } | Value::Code { .. }, Value::Null) => Some(false),
        _ => None,
    }
}

/// How two pointers compare.
fn compared_pointers(objects: &Objects, op: Comparison, left: Value, right: Value) -> Option<bool>
    ensures { ForOperands objects.now left right (λ t names.
        result ≡ spec.compared_pointers (objects_tree names t objects.now) op
        (value_tree names left) (value_tree names right)) }
{
    match op {
        Comparison::Equal => is_same_value(objects, left, right),
        Comparison::NotEqual => Some(!is_same_value(objects, left, right)?),
        _ => ordered(op, left, right),
    }
}

/// `left op right`, an `int` (C11 6.5.8, 6.5.9).
pub fn compared(objects: &Objects, op: Comparison, left: Value, right: Value) -> Option<Value>
    ensures { ForOperands objects.now left right (λ t names.
        option_map (value_tree names) result
        ≡ spec.compared (objects_tree names t objects.now) op
        (value_tree names left) (value_tree names right)) }
{
    match (left, right) {
        (Value::Number { number: left }, Value::Number { number: right }) => {
            Some(of_truth(compares(op, left, right)))
        }
        _ => Some(of_truth(compared_pointers(objects, op, left, right)?)),
    }
}
