//! Types of the tables, and their numbers.
ghost use Rattle.std.specs.Prelude.{◌≡◌, ◌<◌, ◌≤◌, length, true, false, IfOk, IfSome};
ghost use Rattle.pa_ctype.specs.declared.node.Node.TheVariants as variant;
ghost use Rattle.pa_ctype.specs.Nodes.{Fits, AllBelow};
ghost use Rattle.pa_ctype.specs.Bounds.{HoldsComplete};
ghost use Rattle.pa_ctype.specs.Tables.{ForTypes};
ghost use Rattle.pa_ctype.specs.Types.{Of, Struct};

use pa_ctype::{Node, Qualifier, Types};
use pa_num::{Memory, Sequence};
use pa_pac::{Key, Schema};
use std::alloc::{AllocError, Global};

/// A type without other types in it.
#[derive(Clone, Copy, Debug)]
pub enum Leaf {
    Void,
    Bool,
    Int(u8, bool),
    Struct(u32),
}

/// Whether it is `const`, and the type.
pub type Part = (bool, Leaf);

/// A type of the tables, its own `const` aside.
#[derive(Clone, Copy, Debug)]
pub enum Sample {
    Leaf(Leaf),
    Pointer(Part, Option<Schema>),
    Array(Part, Option<u64>),
    /// An array of arrays.
    Rows(Part, u64, u64),
    /// A pointer to an array of two.
    ToRow(Part),
    Function(&'static [Part], Part),
    /// A pointer to a function from `long` to `int`.
    ToFunction(Option<Schema>),
    /// An array of such functions.
    Functions,
}

pub const VOID: Part = (false, Leaf::Void);

pub const INT: Part = (false, Leaf::Int(32, true));

pub const CONST_INT: Part = (true, Leaf::Int(32, true));

pub const LONG: Part = (false, Leaf::Int(64, true));

pub const SCHEMA: Schema = Schema {
    key: Key::IA,
    addr: true,
    disc: 42,
};

/// The number of a type, with `const` where that is set.
fn qualified(types: &mut Types, constant: bool, of: Option<u32>) -> Result<Option<u32>, Memory>
    requires { IfSome of (λ n. n < length types.old.nodes) }
    ensures known { IfOk result (λ made. IfSome made (λ n. n < length types.new.nodes)) }
    ensures longer { length types.old.nodes ≤ length types.new.nodes }
    ensures grows { ForTypes types.new (λ m. Fits m types.old.nodes) }
    ensures structs { types.new.structs ≡ types.old.structs }
    ensures names { types.new.names ≡ types.old.names }
{
    let Some(of) = of else {
        return Ok(None);
    };
    if !constant {
        return Ok(Some(of));
    }
    Ok(Some(types.constant(of)?))
}

/// The number of a struct. None: there is no such struct.
pub fn structure(types: &mut Types, id: u32) -> Result<Option<u32>, Memory>
    ensures known { IfOk result (λ made. IfSome made (λ n. n < length types.new.nodes)) }
    ensures longer { length types.old.nodes ≤ length types.new.nodes }
    ensures grows { ForTypes types.new (λ m. Fits m types.old.nodes) }
    ensures structs { types.new.structs ≡ types.old.structs }
    ensures names { types.new.names ≡ types.old.names }
    ensures is { IfOk result (λ made. IfSome made (λ n. ForTypes types.new (λ m. m n ≡ Of false (Struct id)))) }
{
    if id as usize >= types.struct_count() {
        return Ok(None);
    }
    Ok(Some(types.put(Node::Struct { id })?))
}

fn leaf_number(types: &mut Types, of: Leaf) -> Result<Option<u32>, Memory>
    ensures known { IfOk result (λ made. IfSome made (λ n. n < length types.new.nodes)) }
    ensures longer { length types.old.nodes ≤ length types.new.nodes }
    ensures grows { ForTypes types.new (λ m. Fits m types.old.nodes) }
    ensures structs { types.new.structs ≡ types.old.structs }
    ensures names { types.new.names ≡ types.old.names }
{
    let node = match of {
        Leaf::Void => Node::Void,
        Leaf::Bool => Node::Bool,
        Leaf::Int(bits, signed) => Node::Int { bits, signed },
        Leaf::Struct(id) => return structure(types, id),
    };
    Ok(Some(types.put(node)?))
}

/// The number of a part. None: there is no such struct.
pub fn part_number(types: &mut Types, part: Part) -> Result<Option<u32>, Memory>
    ensures known { IfOk result (λ made. IfSome made (λ n. n < length types.new.nodes)) }
    ensures longer { length types.old.nodes ≤ length types.new.nodes }
    ensures grows { ForTypes types.new (λ m. Fits m types.old.nodes) }
    ensures structs { types.new.structs ≡ types.old.structs }
    ensures names { types.new.names ≡ types.old.names }
{
    let (constant, of) = part;
    let number = leaf_number(types, of)?;
    qualified(types, constant, number)
}

/// The numbers of parts. None: one of them is a struct that there isn't.
fn part_numbers(
    alloc: Global,
    types: &mut Types,
    parts: &[Part],
) -> Result<Option<Sequence<u32>>, Memory>
    ensures known { IfOk result (λ made. IfSome made (λ ns. AllBelow (length types.new.nodes) ns)) }
    ensures longer { length types.old.nodes ≤ length types.new.nodes }
    ensures grows { ForTypes types.new (λ m. Fits m types.old.nodes) }
    ensures structs { types.new.structs ≡ types.old.structs }
    ensures names { types.new.names ≡ types.old.names }
{
    let mut numbers = Sequence::new(alloc);
    let mut rest = parts;
    'parts: while let [part, tail @ ..] = rest {
        let Some(number) = part_number(types, *part)? else {
            return Ok(None);
        };
        numbers.push(number)?;
        rest = tail;
    }
    Ok(Some(numbers))
}

/// Whether an array may have such elements.
fn may_hold(types: &Types, of: u32, count: Option<u64>) -> bool
    requires { of < length types.now.nodes }
    ensures { result ≡ true → HoldsComplete types.now (variant.Array of count) }
{
    match count {
        Some(count) => types.array_layout(of, count).is_some(),
        None => types.layout_of(of).is_some(),
    }
}

/// The number of an array. None: its elements aren't complete, or it is too large.
fn array(types: &mut Types, of: Option<u32>, count: Option<u64>) -> Result<Option<u32>, Memory>
    requires { IfSome of (λ n. n < length types.old.nodes) }
    ensures known { IfOk result (λ made. IfSome made (λ n. n < length types.new.nodes)) }
    ensures longer { length types.old.nodes ≤ length types.new.nodes }
    ensures grows { ForTypes types.new (λ m. Fits m types.old.nodes) }
    ensures structs { types.new.structs ≡ types.old.structs }
    ensures names { types.new.names ≡ types.old.names }
{
    let Some(of) = of else {
        return Ok(None);
    };
    if !may_hold(types, of, count) {
        return Ok(None);
    }
    Ok(Some(types.put(Node::Array { of, count })?))
}

fn pointer(
    types: &mut Types,
    to: Option<u32>,
    schema: Option<Schema>,
) -> Result<Option<u32>, Memory>
    requires { IfSome to (λ n. n < length types.old.nodes) }
    ensures known { IfOk result (λ made. IfSome made (λ n. n < length types.new.nodes)) }
    ensures longer { length types.old.nodes ≤ length types.new.nodes }
    ensures grows { ForTypes types.new (λ m. Fits m types.old.nodes) }
    ensures structs { types.new.structs ≡ types.old.structs }
    ensures names { types.new.names ≡ types.old.names }
{
    let Some(to) = to else {
        return Ok(None);
    };
    let qualifier = match schema {
        Some(schema) => Some(Qualifier::new(schema)),
        None => None,
    };
    Ok(Some(types.put(Node::Pointer { to, qualifier })?))
}

fn function(
    alloc: Global,
    types: &mut Types,
    parts: &[Part],
    of: Part,
) -> Result<Option<u32>, Memory>
    ensures known { IfOk result (λ made. IfSome made (λ n. n < length types.new.nodes)) }
    ensures longer { length types.old.nodes ≤ length types.new.nodes }
    ensures grows { ForTypes types.new (λ m. Fits m types.old.nodes) }
    ensures structs { types.new.structs ≡ types.old.structs }
    ensures names { types.new.names ≡ types.old.names }
{
    let Some(result_type) = part_number(types, of)? else {
        return Ok(None);
    };
    let Some(params) = part_numbers(alloc, types, parts)? else {
        return Ok(None);
    };
    Ok(Some(types.function(params.as_slice(), result_type)?))
}

fn plain(alloc: Global, types: &mut Types, sample: Sample) -> Result<Option<u32>, Memory>
    ensures known { IfOk result (λ made. IfSome made (λ n. n < length types.new.nodes)) }
    ensures longer { length types.old.nodes ≤ length types.new.nodes }
    ensures grows { ForTypes types.new (λ m. Fits m types.old.nodes) }
    ensures structs { types.new.structs ≡ types.old.structs }
    ensures names { types.new.names ≡ types.old.names }
{
    match sample {
        Sample::Leaf(of) => leaf_number(types, of),
        Sample::Pointer(to, schema) => {
            let to = part_number(types, to)?;
            pointer(types, to, schema)
        }
        Sample::Array(of, count) => {
            let of = part_number(types, of)?;
            array(types, of, count)
        }
        Sample::Rows(of, inner, outer) => {
            let of = part_number(types, of)?;
            let row = array(types, of, Some(inner))?;
            array(types, row, Some(outer))
        }
        Sample::ToRow(of) => {
            let of = part_number(types, of)?;
            let row = array(types, of, Some(2))?;
            pointer(types, row, None)
        }
        Sample::Function(parts, result) => function(alloc, types, parts, result),
        Sample::ToFunction(schema) => {
            let to = function(alloc, types, &[LONG], INT)?;
            pointer(types, to, schema)
        }
        Sample::Functions => {
            let of = function(alloc, types, &[LONG], INT)?;
            array(types, of, Some(2))
        }
    }
}

/// The number of a type of the tables, with `const` where that is set. None: an array's elements aren't complete, or there is no
/// such struct.
pub fn built(
    alloc: Global,
    types: &mut Types,
    constant: bool,
    sample: Sample,
) -> Result<Option<u32>, Memory>
    ensures known { IfOk result (λ made. IfSome made (λ n. n < length types.new.nodes)) }
    ensures longer { length types.old.nodes ≤ length types.new.nodes }
    ensures grows { ForTypes types.new (λ m. Fits m types.old.nodes) }
    ensures structs { types.new.structs ≡ types.old.structs }
    ensures names { types.new.names ≡ types.old.names }
{
    let number = plain(alloc, types, sample)?;
    qualified(types, constant, number)
}
