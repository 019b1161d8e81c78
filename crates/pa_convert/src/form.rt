ghost use Rattle.std.specs.Prelude.{◌≡◌, ◌<◌, length};
ghost use Rattle.std.specs.Option.{option_map};
ghost use Rattle.pa_ctype.specs.Nodes.{schema_of};
ghost use Rattle.pa_ctype.specs.Tables.{ForTypes};
ghost use Rattle.pa_convert.specs.Forms.{HasForm, IsFormBelow};

use pa_ctype::{Node, Qualifier, Types};
use pa_pac::Schema;

/// One layer of a type of C11 (6.2.5) without a `const` of its own. The types in it are numbers of the table of types; those of a
/// function are left out.
#[derive(Clone, Copy, Debug, PartialEq, Eq)]
pub enum Form {
    Void,
    /// `_Bool`.
    Boolean,
    /// An integer type of 8, 16, 32 or 64 bits.
    Integer { bits: u8, signed: bool },
    /// A pointer, with the schema of its `__ptrauth` qualifier.
    Pointer { to: u32, schema: Option<Schema> },
    /// Without a `count` the array has no length.
    Array { of: u32, count: Option<u64> },
    /// The struct of this id.
    Struct { id: u32 },
    /// A function.
    Function,
}

/// The schema of a qualifier.
fn schema(qualifier: Option<Qualifier>) -> Option<Schema>
    ensures { result ≡ option_map schema_of qualifier }
{
    Some(qualifier?.schema())
}

/// The layer of a type, without a `const` of its own.
pub fn form_of(types: &Types, number: u32) -> Form
    requires { number < length types.now.nodes }
    ensures below { IsFormBelow (length types.now.nodes) result }
    ensures is { ForTypes types.now (λ m. HasForm m result (m number)) }
{
    match types.node(types.without_const(number)) {
        Node::Void => Form::Void,
        Node::Bool => Form::Boolean,
        Node::Int { bits, signed } => Form::Integer { bits, signed },
        Node::Pointer { to, qualifier } => Form::Pointer {
            to,
            schema: schema(qualifier),
        },
        Node::Array { of, count } => Form::Array { of, count },
        Node::Struct { id } => Form::Struct { id },
        Node::Returns { .. } | Node::Takes { .. } => Form::Function,
        Node::Constant { .. } => unreachable!(),
    }
}
