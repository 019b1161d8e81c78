//! The cell of an object that begins at a place, found by going down the object's type.

ghost use Rattle.std.specs.Prelude.{◌≡◌, ◌≤◌, ◌<◌, ℕ, List, length, Some, IfSome, option_map, false};
ghost use Rattle.pa_ctype.specs.Nodes.{at};
ghost use Rattle.pa_ctype.specs.Tables.{types_bound};
ghost use Rattle.pa_cmean.specs.Finding as spec;
ghost use Rattle.pa_store.specs.Found.{structs_in, IsPart, IsInside, Finds, IsArrayOf, IsStructWith, HasLayoutAt, cell_type};
ghost use Rattle.pa_ctype.specs.Types.{Of, Array, Struct};
ghost use Rattle.pa_store.specs.Found as found;

use pa_ctype::{Held, Layout, Node, Types};

/// A part of an object, in which a cell is looked for.
#[derive(Clone, Copy)]
pub(crate) struct Part {
    /// The number of its type.
    pub(crate) of: u32,
    /// Whether it lies in a constant part.
    pub(crate) constant: bool,
    /// The place that is looked for, in bytes behind the part's first one.
    pub(crate) offset: u64,
    /// How deep structs lie in one another in it, at most.
    pub(crate) depth: usize,
}

/// A cell: the number of its type, and whether it lies in a constant part (C11 6.7.3p9).
#[derive(Clone, Copy, Debug, PartialEq, Eq)]
pub struct Scalar {
    pub of: u32,
    pub constant: bool,
}

/// What a part has at the place: a part inside, or its cell, if there is one.
#[derive(Clone, Copy)]
pub(crate) enum Inside {
    Part { part: Part },
    Cell { cell: Option<Scalar> },
}

/// In a part of a scalar type: its one cell, at its first byte.
fn scalar_at(part: Part) -> Option<Scalar>
    ensures { result ≡ found.scalar_at part }
{
    if part.offset == 0 {
        Some(Scalar {
            of: part.of,
            constant: part.constant,
        })
    } else {
        None
    }
}

/// In an array of so many elements of a type: the element that the place lies in.
fn element(types: &Types, part: Part, of: u32, count: u64) -> Inside
    requires part { IsPart types.now part }
    requires array { IsArrayOf types.now part of count }
    requires before { of < part.of }
    ensures finds { Finds types.now part result }
    ensures inside { IsInside types.now part result }
{
    let Some(layout) = types.layout_of(of) else {
        return Inside::Cell { cell: None };
    };
    if part.offset / layout.size < count {
        let offset = part.offset % layout.size;
        Inside::Part {
            part: Part {
                of,
                constant: part.constant,
                offset,
                depth: part.depth,
            },
        }
    } else {
        Inside::Cell { cell: None }
    }
}

/// In a struct of these members: the member that the place lies in.
fn member(types: &Types, members: &[Held], part: Part) -> Inside
    requires part { IsPart types.now part }
    requires body { IsStructWith types.now part members.now }
    requires known { types_bound members.now ≤ length types.now.nodes }
    ensures finds { Finds types.now part result }
    ensures inside { IsInside types.now part result }
{
    let mut so_far = Layout { size: 0, align: 1 };
    let mut rest = members;
    'members: while let [held, tail @ ..] = rest {
        let Some(layout) = types.layout_of(held.of) else {
            return Inside::Cell { cell: None };
        };
        let start = so_far.size.next_multiple_of(layout.align);
        let end = start + layout.size;
        if part.offset < start {
            return Inside::Cell { cell: None };
        }
        if part.offset < end {
            let offset = part.offset - start;
            return Inside::Part {
                part: Part {
                    of: held.of,
                    constant: part.constant,
                    offset,
                    depth: part.depth - 1,
                },
            };
        }
        so_far = Layout {
            size: end,
            align: so_far.align.max(layout.align),
        };
        rest = tail;
    }
    Inside::Cell { cell: None }
}

/// In the struct of this id: the member that the place lies in.
fn structure(types: &Types, part: Part, id: u32) -> Inside
    requires part { IsPart types.now part }
    requires is { at types.now.nodes part.of ≡ Of false (Struct id) }
    ensures finds { Finds types.now part result }
    ensures inside { IsInside types.now part result }
{
    if part.depth == 0 {
        return Inside::Cell { cell: None };
    }
    match types.members(id) {
        Some(members) => member(types, members.as_slice(), part),
        None => Inside::Cell { cell: None },
    }
}

/// In an array with a length, or without one, which has no element.
fn array(types: &Types, part: Part, of: u32, count: Option<u64>) -> Inside
    requires part { IsPart types.now part }
    requires array { at types.now.nodes part.of ≡ Of false (Array (at types.now.nodes of) count) }
    requires before { of < part.of }
    ensures finds { Finds types.now part result }
    ensures inside { IsInside types.now part result }
{
    match count {
        Some(count) => element(types, part, of, count),
        None => Inside::Cell { cell: None },
    }
}

/// One step down.
fn go_down(types: &Types, part: Part) -> Inside
    requires { IsPart types.now part }
    ensures finds { Finds types.now part result }
    ensures inside { IsInside types.now part result }
{
    let only = scalar_at(part);
    match types.node(part.of) {
        Node::Bool => Inside::Cell { cell: only },
        Node::Int { .. } => Inside::Cell { cell: only },
        Node::Pointer { .. } => Inside::Cell { cell: only },
        Node::Array { of, count } => array(types, part, of, count),
        Node::Struct { id } => structure(types, part, id),
        Node::Constant { of } => Inside::Part {
            part: Part {
                of,
                constant: true,
                offset: part.offset,
                depth: part.depth,
            },
        },
        Node::Void => Inside::Cell { cell: None },
        Node::Returns { .. } => Inside::Cell { cell: None },
        Node::Takes { .. } => Inside::Cell { cell: None },
    }
}

/// The cell that begins so many bytes behind the first one of an object of a type. None: there is none.
pub fn find_cell(types: &Types, of: u32, offset: u64) -> Option<Scalar>
    requires known { of < length types.now.nodes }
    requires complete { (names : ℕ → List ℕ) → HasLayoutAt (length types.now.structs) (structs_in names types.now) (at types.now.nodes of) }
    ensures known { IfSome result (λ cell. cell.of < length types.now.nodes) }
    ensures is { (names : ℕ → List ℕ) → option_map (cell_type types.now) result ≡ spec.find_cell (structs_in names types.now) (at types.now.nodes of) offset }
{
    let mut now = Inside::Part {
        part: Part {
            of,
            constant: false,
            offset,
            depth: types.struct_count(),
        },
    };
    'down: loop {
        match now {
            Inside::Part { part } => now = go_down(types, part),
            Inside::Cell { cell } => return cell,
        }
    }
}
