//! Layouts by hand, as clang has them for arm64 with the same declarations.
ghost use Rattle.std.specs.Prelude.{◌≡◌, ◌<◌, ◌≤◌, ◌+◌, ◌∷◌, [], length, true, IfOk, IfSome};
ghost use Rattle.pa_ctype.specs.Layouts.{IsLaidStruct};
ghost use Rattle.pa_ctype.specs.Nodes.{Fits};
ghost use Rattle.pa_ctype.specs.Tables.{types_bound, names_bound, ForTypes, ForStructs, IsSoundIn};

use crate::samples::{Leaf, SCHEMA, Sample, VOID, built, structure};
use pa_ctype::{Held, Members, Types};
use pa_num::Memory;
use std::alloc::{AllocError, Global};
use std::test::Fail;

/// A member: the number of its name, its type and its offset.
pub type Row = (u32, Sample, u64);

/// How many names the tables have.
pub const NAMES: u32 = 10;

pub const INT8: Sample = Sample::Leaf(Leaf::Int(8, true));

const INT16: Sample = Sample::Leaf(Leaf::Int(16, true));

pub const INT32: Sample = Sample::Leaf(Leaf::Int(32, true));

pub const INT64: Sample = Sample::Leaf(Leaf::Int(64, true));

const BOOL: Sample = Sample::Leaf(Leaf::Bool);

const POINTER: Sample = Sample::Pointer(VOID, None);

const SIGNED_POINTER: Sample = Sample::ToFunction(Some(SCHEMA));

const BYTE: (bool, Leaf) = (false, Leaf::Int(8, true));

const HALF: (bool, Leaf) = (false, Leaf::Int(16, true));

const WORD: (bool, Leaf) = (false, Leaf::Int(32, true));

/// The member of a row. None: its type has no layout, or there is no such name.
fn held(alloc: Global, types: &mut Types, row: Row) -> Result<Option<Held>, Memory>
    ensures longer { length types.old.nodes ≤ length types.new.nodes }
    ensures grows { ForTypes types.new (λ m. Fits m types.old.nodes) }
    ensures structs { types.new.structs ≡ types.old.structs }
    ensures names { types.new.names ≡ types.old.names }
    ensures known { IfOk result (λ made. IfSome made (λ held. held.of < length types.new.nodes)) }
    ensures named { IfOk result (λ made. IfSome made (λ held. held.name < 10)) }
    ensures sound { IfOk result (λ made. IfSome made (λ held. IsSoundIn types.new (held ∷ []))) }
{
    let (name, sample, _) = row;
    let Some(of) = built(alloc, types, false, sample)? else {
        return Ok(None);
    };
    if name >= NAMES || types.layout_of(of).is_none() {
        return Ok(None);
    }
    Ok(Some(Held { name, of }))
}

/// The members of rows. None: a member's type has no layout, or there is no such name.
fn members(alloc: Global, types: &mut Types, rows: &[Row]) -> Result<Option<Members>, Memory>
    ensures structs { types.new.structs ≡ types.old.structs }
    ensures names { types.new.names ≡ types.old.names }
    ensures known { IfOk result (λ made. IfSome made (λ members. types_bound members ≤ length types.new.nodes)) }
    ensures named { IfOk result (λ made. IfSome made (λ members. names_bound members ≤ 10)) }
    ensures sound { IfOk result (λ made. IfSome made (λ members. IsSoundIn types.new members)) }
{
    let mut members = Members::new(alloc);
    let mut rest = rows;
    'rows: while let [row, tail @ ..] = rest {
        let Some(held) = held(alloc, types, *row)? else {
            return Ok(None);
        };
        members.push(held)?;
        rest = tail;
    }
    Ok(Some(members))
}

/// One more struct of these members: its id. None: a member's type has no layout, or there are too many structs.
pub fn add(alloc: Global, types: &mut Types, rows: &[Row]) -> Result<Option<u32>, Memory>
    requires { 10 ≤ types.old.names }
    ensures names { types.new.names ≡ types.old.names }
    ensures few { length types.old.structs ≤ 101 → length types.new.structs ≤ 101 }
{
    if types.struct_count() > 100 {
        return Ok(None);
    }
    let id = types.declare()?;
    let Some(members) = members(alloc, types, rows)? else {
        return Ok(None);
    };
    types.define(alloc, id, members)?;
    Ok(Some(id))
}

/// The same in one call.
fn add_whole(alloc: Global, types: &mut Types, rows: &[Row]) -> Result<Option<u32>, Memory>
    requires { 10 ≤ types.old.names }
    ensures names { types.new.names ≡ types.old.names }
    ensures few { length types.old.structs ≤ 101 → length types.new.structs ≤ 101 }
{
    if types.struct_count() > 100 {
        return Ok(None);
    }
    let Some(members) = members(alloc, types, rows)? else {
        return Ok(None);
    };
    Ok(Some(types.declare_with(alloc, members)?))
}

/// Size and alignment, where the type has a layout.
pub fn measures(types: &Types, number: u32) -> Option<(u64, u64)>
    requires { number < length types.now.nodes }
{
    types.layout_of(number)?;
    Some((types.size(number), types.align(number)))
}

/// Those of a type of the tables.
pub fn sample_measures(
    alloc: Global,
    types: &mut Types,
    sample: Sample,
) -> Result<Option<(u64, u64)>, Memory>
    ensures structs { types.new.structs ≡ types.old.structs }
    ensures names { types.new.names ≡ types.old.names }
{
    let Some(number) = built(alloc, types, false, sample)? else {
        return Ok(None);
    };
    Ok(measures(types, number))
}

/// Whether the struct has a layout.
fn is_laid(types: &mut Types, id: u32) -> Result<bool, Memory>
    ensures laid { IfOk result (λ laid. laid ≡ true → ForStructs types.new (λ table m. IsLaidStruct table id)) }
    ensures structs { types.new.structs ≡ types.old.structs }
    ensures names { types.new.names ≡ types.old.names }
{
    let Some(number) = structure(types, id)? else {
        return Ok(false);
    };
    Ok(types.layout_of(number).is_some())
}

/// Offset and place of a member, where the struct has a layout.
pub fn member_place(types: &mut Types, id: u32, name: u32) -> Result<Option<(u64, usize)>, Memory>
    requires { name < types.old.names }
    ensures structs { types.new.structs ≡ types.old.structs }
    ensures names { types.new.names ≡ types.old.names }
{
    if !is_laid(types, id)? {
        return Ok(None);
    }
    let Some(found) = types.member(id, name) else {
        return Ok(None);
    };
    Ok(Some((found.offset, found.index as usize)))
}

const SAMPLES: [(Sample, Option<(u64, u64)>); 22] = [
    (Sample::Leaf(Leaf::Void), None),
    (BOOL, Some((1, 1))),
    (INT8, Some((1, 1))),
    (INT16, Some((2, 2))),
    (INT32, Some((4, 4))),
    (INT64, Some((8, 8))),
    (Sample::Leaf(Leaf::Int(24, true)), None),
    (POINTER, Some((8, 8))),
    (SIGNED_POINTER, Some((8, 8))),
    (Sample::Function(&[], WORD), None),
    (Sample::Functions, None),
    (Sample::Leaf(Leaf::Struct(0)), None),
    (Sample::Array((false, Leaf::Struct(0)), Some(1)), None),
    (Sample::Array(WORD, None), None),
    (Sample::Array(HALF, Some(0)), None),
    (Sample::Array(HALF, Some(3)), Some((6, 2))),
    (
        Sample::Array(BYTE, Some(4_294_967_295)),
        Some((4_294_967_295, 1)),
    ),
    (Sample::Array(BYTE, Some(4_294_967_296)), None),
    (
        Sample::Array((false, Leaf::Int(64, true)), Some(u64::MAX)),
        None,
    ),
    (Sample::Rows(WORD, 3, 2), Some((24, 4))),
    (Sample::Rows(BYTE, 65_535, 65_537), Some((4_294_967_295, 1))),
    (Sample::Rows(BYTE, 65_536, 65_536), None),
];

const STRUCTS: [(&[Row], Option<(u64, u64)>); 14] = [
    (&[(0, INT8, 0)], Some((1, 1))),
    (&[(0, INT8, 0), (1, INT32, 4)], Some((8, 4))),
    (&[(0, INT32, 0), (1, INT8, 4)], Some((8, 4))),
    (
        &[
            (0, INT8, 0),
            (1, INT16, 2),
            (2, INT8, 4),
            (3, INT64, 8),
            (4, BOOL, 16),
        ],
        Some((24, 8)),
    ),
    (
        &[
            (0, BOOL, 0),
            (1, POINTER, 8),
            (2, INT8, 16),
            (3, SIGNED_POINTER, 24),
        ],
        Some((32, 8)),
    ),
    (
        &[
            (0, Sample::Array(BYTE, Some(3)), 0),
            (1, Sample::Array(HALF, Some(3)), 4),
        ],
        Some((10, 2)),
    ),
    (
        &[
            (0, INT8, 0),
            (1, Sample::Leaf(Leaf::Struct(1)), 4),
            (2, INT8, 12),
        ],
        Some((16, 4)),
    ),
    (
        &[
            (0, Sample::Array((false, Leaf::Struct(3)), Some(2)), 0),
            (1, INT8, 48),
        ],
        Some((56, 8)),
    ),
    (
        &[(0, Sample::Rows(WORD, 3, 2), 0), (1, INT8, 24)],
        Some((28, 4)),
    ),
    (
        &[
            (0, Sample::Array((false, Leaf::Struct(0)), Some(5)), 0),
            (1, Sample::Leaf(Leaf::Struct(5)), 6),
            (2, INT64, 16),
        ],
        Some((24, 8)),
    ),
    (
        &[(0, Sample::Leaf(Leaf::Struct(9)), 0), (1, INT16, 24)],
        Some((32, 8)),
    ),
    (
        &[
            (0, Sample::Array(BYTE, Some(4_294_967_292)), 0),
            (1, BOOL, 4_294_967_292),
        ],
        Some((4_294_967_293, 1)),
    ),
    (
        &[
            (0, Sample::Array(BYTE, Some(4_294_967_292)), 0),
            (1, INT32, 4_294_967_292),
        ],
        None,
    ),
    (
        &[
            (0, Sample::Array(BYTE, Some(4_294_967_295)), 0),
            (1, BOOL, 4_294_967_295),
        ],
        None,
    ),
];

/// Whether each member lies where its row says, where the struct has a layout, and nowhere else.
fn members_lie(types: &mut Types, id: u32, rows: &[Row], laid: bool) -> Result<bool, Memory>
    requires { 10 ≤ types.old.names }
    ensures structs { types.new.structs ≡ types.old.structs }
    ensures names { types.new.names ≡ types.old.names }
{
    let mut index = 0;
    let mut rest = rows;
    'rows: while let [(name, _, offset), tail @ ..] = rest {
        let want = laid.then_some((*offset, index));
        if *name >= NAMES || member_place(types, id, *name)? != want {
            return Ok(false);
        }
        index += 1;
        rest = tail;
    }
    Ok(true)
}

/// What is found of one more struct of these members: whether there is one, its size and alignment, whether its members lie
/// where they should, and a member of a name that it has not.
type Found = (bool, Option<(u64, u64)>, bool, Option<(u64, usize)>);

fn added(alloc: Global, types: &mut Types, rows: &[Row], laid: bool) -> Result<Found, Memory>
    requires { 10 ≤ types.old.names }
    ensures names { types.new.names ≡ types.old.names }
    ensures few { length types.old.structs ≤ 101 → length types.new.structs ≤ 101 }
{
    let Some(id) = add(alloc, types, rows)? else {
        return Ok((false, None, false, None));
    };
    let size = sample_measures(alloc, types, Sample::Leaf(Leaf::Struct(id)))?;
    let lie = members_lie(types, id, rows, laid)?;
    let other = member_place(types, id, 9)?;
    Ok((true, size, lie, other))
}

/// Size and alignment of one more struct that comes with its members, if it has a layout.
fn whole_measures(
    alloc: Global,
    types: &mut Types,
    rows: &[Row],
) -> Result<Option<(u64, u64)>, Memory>
    requires { 10 ≤ types.old.names }
    ensures names { types.new.names ≡ types.old.names }
    ensures few { length types.old.structs ≤ 101 → length types.new.structs ≤ 101 }
{
    let Some(id) = add_whole(alloc, types, rows)? else {
        return Ok(None);
    };
    sample_measures(alloc, types, Sample::Leaf(Leaf::Struct(id)))
}

#[test]
fn types_have_their_layouts(rt: HostRuntime) -> Result<(), Fail> {
    let mut types = Types::new(rt.alloc(), NAMES);
    for (sample, want) in &SAMPLES {
        let got = sample_measures(rt.alloc(), &mut types, *sample).map_err(|_| "no memory")?;
        assert_eq!(rt; got, *want, "at {sample:?}");
    }
    Ok(())
}

#[test]
fn structs_have_their_layouts(rt: HostRuntime) -> Result<(), Fail> {
    let mut types = Types::new(rt.alloc(), NAMES);
    for (rows, want) in &STRUCTS {
        let got = added(rt.alloc(), &mut types, *rows, want.is_some()).map_err(|_| "no memory")?;
        assert_eq!(rt; got, (true, *want, true, None), "at {rows:?}");
    }
    Ok(())
}

#[test]
fn structs_that_come_with_their_bodies_have_the_same(rt: HostRuntime) -> Result<(), Fail> {
    let mut types = Types::new(rt.alloc(), NAMES);
    for (rows, want) in &STRUCTS {
        let got = whole_measures(rt.alloc(), &mut types, *rows).map_err(|_| "no memory")?;
        assert_eq!(rt; got, *want, "at {rows:?}");
    }
    assert_eq!(rt; types.struct_count(), STRUCTS.len());
    Ok(())
}

#[test]
fn a_struct_without_a_body_has_none(rt: HostRuntime) -> Result<(), Fail> {
    let mut types = Types::new(rt.alloc(), NAMES);
    // A struct that holds itself, one of an array of those, one of a function, and one of such as hold nothing.
    for sample in [
        Sample::Leaf(Leaf::Struct(0)),
        Sample::Array((false, Leaf::Struct(1)), Some(2)),
        Sample::Function(&[], WORD),
        Sample::Leaf(Leaf::Struct(2)),
    ] {
        let got = add(rt.alloc(), &mut types, &[(0, sample, 0)]).map_err(|_| "no memory")?;
        assert_eq!(rt; got, None);
    }
    assert_eq!(rt; types.struct_count(), 4);
    let got = added(rt.alloc(), &mut types, &[], false).map_err(|_| "no memory")?;
    assert_eq!(rt; got, (true, None, true, None));
    let got = member_place(&mut types, 9, 0).map_err(|_| "no memory")?;
    assert_eq!(rt; got, None);
    Ok(())
}
