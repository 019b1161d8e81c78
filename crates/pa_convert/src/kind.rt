//! Kinds of types (C11 6.2.5), by their numbers.

ghost use Rattle.std.specs.Prelude.{◌≡◌, ◌<◌, length, option_map, IfSome};
ghost use Rattle.pa_ctype.specs.Tables.{ForTypes, ForStructs};
ghost use Rattle.pa_convert.specs.Conversions as spec;
ghost use Rattle.pa_convert.specs.Kinds as kinds;

use crate::form::{Form, form_of};
use pa_ctype::Types;

impl Form {
    fn is_integer(self) -> bool
        ensures { result ≡ kinds.is_integer self }
    {
        matches!(self, Form::Boolean | Form::Integer { .. })
    }

    fn is_boolean(self) -> bool
        ensures { result ≡ kinds.is_boolean self }
    {
        matches!(self, Form::Boolean)
    }

    fn is_pointer(self) -> bool
        ensures { result ≡ kinds.is_pointer self }
    {
        matches!(self, Form::Pointer { .. })
    }

    fn is_void(self) -> bool
        ensures { result ≡ kinds.is_void self }
    {
        matches!(self, Form::Void)
    }

    fn is_array(self) -> bool
        ensures { result ≡ kinds.is_array self }
    {
        matches!(self, Form::Array { .. })
    }

    fn is_struct(self) -> bool
        ensures { result ≡ kinds.is_struct self }
    {
        matches!(self, Form::Struct { .. })
    }

    fn is_function(self) -> bool
        ensures { result ≡ kinds.is_function self }
    {
        matches!(self, Form::Function)
    }
}

/// Whether it is an integer type (C11 6.2.5p17). All arithmetic types are integer types here.
#[tactic(auto, using(crate::proofs::Forms::integer_of))]
pub fn is_integer(types: &Types, number: u32) -> bool
    requires { number < length types.now.nodes }
    ensures { ForTypes types.now (λ m. result ≡ spec.is_integer (m number)) }
{
    form_of(types, number).is_integer()
}

/// Whether it is `_Bool` (C11 6.2.5p2).
#[tactic(auto, using(crate::proofs::Forms::boolean_of))]
pub fn is_boolean(types: &Types, number: u32) -> bool
    requires { number < length types.now.nodes }
    ensures { ForTypes types.now (λ m. result ≡ spec.is_boolean (m number)) }
{
    form_of(types, number).is_boolean()
}

/// Whether it is a pointer (C11 6.2.5p20).
#[tactic(auto, using(crate::proofs::Forms::pointer_of))]
pub fn is_pointer(types: &Types, number: u32) -> bool
    requires { number < length types.now.nodes }
    ensures { ForTypes types.now (λ m. result ≡ spec.is_pointer (m number)) }
{
    form_of(types, number).is_pointer()
}

/// Whether it is `void` (C11 6.2.5p19).
#[tactic(auto, using(crate::proofs::Forms::void_of))]
pub fn is_void(types: &Types, number: u32) -> bool
    requires { number < length types.now.nodes }
    ensures { ForTypes types.now (λ m. result ≡ spec.is_void (m number)) }
{
    form_of(types, number).is_void()
}

/// Whether it is an array (C11 6.2.5p20).
#[tactic(auto, using(crate::proofs::Forms::array_of))]
pub fn is_array(types: &Types, number: u32) -> bool
    requires { number < length types.now.nodes }
    ensures { ForTypes types.now (λ m. result ≡ spec.is_array (m number)) }
{
    form_of(types, number).is_array()
}

/// Whether it is a struct (C11 6.2.5p20).
#[tactic(auto, using(crate::proofs::Forms::struct_of))]
pub fn is_struct(types: &Types, number: u32) -> bool
    requires { number < length types.now.nodes }
    ensures { ForTypes types.now (λ m. result ≡ spec.is_struct (m number)) }
{
    form_of(types, number).is_struct()
}

/// Whether it is a function (C11 6.2.5p20).
#[tactic(auto, using(crate::proofs::Forms::function_of))]
pub fn is_function(types: &Types, number: u32) -> bool
    requires { number < length types.now.nodes }
    ensures { ForTypes types.now (λ m. result ≡ spec.is_function (m number)) }
{
    form_of(types, number).is_function()
}

/// Whether it is an integer or a pointer (C11 6.2.5p21).
pub fn is_scalar(types: &Types, number: u32) -> bool
    requires { number < length types.now.nodes }
    ensures { ForTypes types.now (λ m. result ≡ spec.is_scalar (m number)) }
{
    is_integer(types, number) || is_pointer(types, number)
}

/// What a pointer points to. None: the type is no pointer.
#[tactic(auto, using(crate::proofs::Forms::target_of))]
pub fn target(types: &Types, number: u32) -> Option<u32>
    requires { number < length types.now.nodes }
    ensures known { IfSome result (λ to. to < length types.now.nodes) }
    ensures is { ForTypes types.now (λ m. option_map m result ≡ spec.target (m number)) }
{
    match form_of(types, number) {
        Form::Pointer { to, .. } => Some(to),
        Form::Void
        | Form::Boolean
        | Form::Integer { .. }
        | Form::Array { .. }
        | Form::Struct { .. }
        | Form::Function => None,
    }
}

/// Whether it is a pointer to a function.
pub fn is_function_pointer(types: &Types, number: u32) -> bool
    requires { number < length types.now.nodes }
    ensures { ForTypes types.now (λ m. result ≡ spec.is_function_pointer (m number)) }
{
    match target(types, number) {
        Some(to) => is_function(types, to),
        None => false,
    }
}

/// Whether it is a complete object type (C11 6.2.5p1).
pub fn is_complete(types: &Types, number: u32) -> bool
    requires { number < length types.now.nodes }
    ensures { ForStructs types.now (λ table m. result ≡ spec.is_complete table (m number)) }
{
    types.layout_of(number).is_some()
}

/// Whether it is a pointer that may be moved by elements (C11 6.5.6p2).
pub fn is_movable(types: &Types, number: u32) -> bool
    requires { number < length types.now.nodes }
    ensures { ForStructs types.now (λ table m. result ≡ spec.is_movable table (m number)) }
{
    match target(types, number) {
        Some(to) => is_complete(types, to),
        None => false,
    }
}
