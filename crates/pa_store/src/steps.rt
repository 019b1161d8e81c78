//! Pointers that are moved inside their objects (C11 6.5.6). None: the behaviour is undefined.

ghost use Rattle.std.specs.Prelude.{◌≡◌, ◌≤◌, ◌<◌, ◌^◌, ◌*ℤ◌, pos, Some, option_map};
ghost use Rattle.std.specs.Int.RustNames.{unsigned_abs};
ghost use Rattle.pa_cmean.specs.Operations as spec;
ghost use Rattle.pa_store.specs.Views.{value_tree, ForTrees};
ghost use Rattle.pa_store.specs.Operands.{IsShort};
ghost use Rattle.pa_store.specs.Store.{ForOperands, ForElements, objects_tree};

use crate::store::Objects;
use crate::value::{Place, Value};

/// A pointer so many bytes further on; the place may not leave its object, whose end counts as inside (C11 6.5.6p8).
pub fn moved(objects: &Objects, bytes: i128, pointer: Value) -> Option<Value>
    requires { unsigned_abs bytes ≤ 2 ^ 96 }
    ensures { ForOperands objects.now pointer pointer (λ t names.
        option_map (value_tree names) result
        ≡ spec.moved (objects_tree names t objects.now) bytes (value_tree names pointer)) }
{
    match pointer {
        Value::At { place } => {
            let object = objects.object(place.owner)?;
            let there = i128::from(place.offset) + bytes;
            if 0 <= there && there <= i128::from(object.size) {
                Some(Value::At {
                    place: Place {
                        owner: place.owner,
                        offset: there as u64,
                    },
                })
            } else {
                None
            }
        }
        _ => None,
    }
}

/// A pointer to elements of so many bytes plus a number (C11 6.5.6p8).
pub fn stepped(objects: &Objects, size: u64, pointer: Value, number: Value) -> Option<Value>
    requires size { size < 2 ^ 32 }
    requires number { IsShort number }
    ensures { ForOperands objects.now pointer pointer (λ t names. ForElements size (λ table of.
        option_map (value_tree names) result
        ≡ spec.stepped table (objects_tree names t objects.now) of
        (value_tree names pointer) (value_tree names number))) }
{
    match number {
        Value::Number { number } => moved(objects, number * i128::from(size), pointer),
        _ => None,
    }
}

/// The number that is subtracted is added with the other sign (C11 6.5.6p8).
pub fn opposite(subtracts: bool, value: Value) -> Value
    requires { IsShort value }
    ensures { ForTrees (λ tree. tree result ≡ spec.opposite subtracts (tree value)) }
{
    match value {
        Value::Number { number } if subtracts => Value::Number { number: -number },
        _ => value,
    }
}
