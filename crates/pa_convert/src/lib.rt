//! Kinds of types of C, and the conversions of values (C11 6.3).
#![tactic(auto)]

mod conversion;
mod form;
mod kind;
mod pointer;

pub use conversion::{common, integer, pointer_to, promoted, value_type};
pub use form::{Form, form_of};
pub use kind::{
    is_array, is_boolean, is_complete, is_function, is_function_pointer, is_integer, is_movable,
    is_pointer, is_scalar, is_struct, is_void, target,
};
pub use pointer::{adjusted, common_pointer, go_together, takes};
