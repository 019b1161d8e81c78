//! Kinds of two types at once.

ghost use Rattle.std.specs.Prelude.{◌≡◌, ◌<◌, ◌&&◌, length};
ghost use Rattle.pa_ctype.specs.Tables.{ForTypes};
ghost use Rattle.pa_convert.specs.Conversions as spec;
ghost use Rattle.pa_value.specs.Kinds.{IsOfBoth, IsOfEither};

use pa_convert::{is_function_pointer, is_integer, is_pointer, is_scalar, is_void};
use pa_ctype::Types;

/// Whether both are integers.
pub fn are_integers(types: &Types, left: u32, right: u32) -> bool
    requires left { left < length types.now.nodes }
    requires right { right < length types.now.nodes }
    ensures { IsOfBoth types.now left right result spec.is_integer }
{
    is_integer(types, left) && is_integer(types, right)
}

/// Whether both are pointers.
pub fn are_pointers(types: &Types, left: u32, right: u32) -> bool
    requires left { left < length types.now.nodes }
    requires right { right < length types.now.nodes }
    ensures { IsOfBoth types.now left right result spec.is_pointer }
{
    is_pointer(types, left) && is_pointer(types, right)
}

/// Whether both are scalars.
pub fn are_scalars(types: &Types, left: u32, right: u32) -> bool
    requires left { left < length types.now.nodes }
    requires right { right < length types.now.nodes }
    ensures { IsOfBoth types.now left right result spec.is_scalar }
{
    is_scalar(types, left) && is_scalar(types, right)
}

/// Whether both are void.
pub fn are_void(types: &Types, left: u32, right: u32) -> bool
    requires left { left < length types.now.nodes }
    requires right { right < length types.now.nodes }
    ensures { IsOfBoth types.now left right result spec.is_void }
{
    is_void(types, left) && is_void(types, right)
}

/// Whether one of them is void.
pub fn is_either_void(types: &Types, left: u32, right: u32) -> bool
    requires left { left < length types.now.nodes }
    requires right { right < length types.now.nodes }
    ensures { IsOfEither types.now left right result spec.is_void }
{
    is_void(types, left) || is_void(types, right)
}

/// Whether one of them is a pointer to a function.
pub fn is_either_function_pointer(types: &Types, left: u32, right: u32) -> bool
    requires left { left < length types.now.nodes }
    requires right { right < length types.now.nodes }
    ensures { IsOfEither types.now left right result spec.is_function_pointer }
{
    is_function_pointer(types, left) || is_function_pointer(types, right)
}

/// Whether it is a pointer, and what stands beside it is null.
pub fn is_pointer_beside(types: &Types, pointer: u32, null: bool) -> bool
    requires { pointer < length types.now.nodes }
    ensures { ForTypes types.now (λ m. result ≡ (spec.is_pointer (m pointer) && null)) }
{
    is_pointer(types, pointer) && null
}
