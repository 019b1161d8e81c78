//! What is done to pointers: two in one object, or two functions (C11 6.5.6, 6.5.8, 6.5.9).

ghost use Rattle.std.specs.Prelude.{◌≡◌, ◌<◌, ℕ, List, Some};
ghost use Rattle.pa_cmean.specs.Operations as spec;
ghost use Rattle.pa_cmean.specs.State as state;
ghost use Rattle.pa_ctype.specs.Values as values;
ghost use Rattle.pa_store.specs.Views.{place_tree, value_tree, ForOwners, ForValues};
ghost use Rattle.pa_store.specs.Pointers.{offsets_of};
ghost use Rattle.std.specs.Option.{option_map};

use crate::value::{Owner, Place, Value};
use pa_integer::compares;
use pa_typed::Comparison;

/// Whether it is the same object.
pub fn is_same_owner(left: Owner, right: Owner) -> bool
    ensures { ForOwners left right (λ tree. result ≡ values.same_owner (tree left) (tree right)) }
{
    left == right
}

/// The places of two values in one object. None: they aren't, so their difference and their order are undefined.
fn in_one_object(left: Value, right: Value) -> Option<Offsets>
    ensures { ForValues left right (λ tree. result ≡ offsets_of (tree left) (tree right)) }
{
    match (left, right) {
        (Value::At { place: left }, Value::At { place: right })
            if is_same_owner(left.owner, right.owner) => Some(Offsets {
            left: left.offset,
            right: right.offset,
        }),
        _ => None,
    }
}

/// Two places in one object, in bytes behind its first one.
#[derive(Clone, Copy)]
struct Offsets {
    left: u64,
    right: u64,
}

/// How many elements of so many bytes the left place is behind the right one, cut towards zero (C11 6.5.6p9).
pub fn difference(size: u64, left: Value, right: Value) -> Option<Value>
    requires { 0 < size }
    ensures { ForValues left right
        (λ tree. option_map tree result ≡ spec.difference size (tree left) (tree right)) }
{
    let places = in_one_object(left, right)?;
    Some(Value::Number {
        number: (i128::from(places.left) - i128::from(places.right)) / i128::from(size),
    })
}

/// How two places in one object compare (C11 6.5.8p5).
pub fn ordered(op: Comparison, left: Value, right: Value) -> Option<bool>
    ensures { ForValues left right (λ tree. result ≡ spec.ordered op (tree left) (tree right)) }
{
    let places = in_one_object(left, right)?;
    Some(compares(op, i128::from(places.left), i128::from(places.right)))
}

/// The place that a pointer to an object is (C11 6.5.3.2p4). None: the pointer is null, or points to a function.
pub fn place_of(value: Value) -> Option<Place>
    ensures { (names : ℕ → List ℕ)
        → option_map (place_tree names) result ≡ state.place_of (value_tree names value) }
{
    match value {
        Value::At { place } => Some(place),
        _ => None,
    }
}
