//! Typed forms by number: the value of an expression, its conversions, and values that are given to a place.
#![tactic(auto)]

mod form;
mod giving;
mod kinds;
mod values;

pub use form::{TypedForm, designator, expr_type, lvalue, refused, temporary, value};
pub use giving::{given, is_same_struct};
pub use kinds::{
    are_integers, are_pointers, are_scalars, are_void, is_either_function_pointer, is_either_void,
    is_pointer_beside,
};
pub use values::{converted, operand, read};
