//! Tables behind others.
ghost use Rattle.std.specs.Prelude.{◌≡◌, ◌<◌, ◌≤◌, IfOk, length};
ghost use Rattle.pa_ctype.specs.Nodes.{AllBelow};

use crate::layouts::{
    INT8, INT32, INT64, NAMES, Row, add, measures, member_place, sample_measures,
};
use crate::samples::{Leaf, Sample};
use pa_ctype::{Joined, Node, Types};
use pa_num::Memory;
use std::alloc::Global;
use std::test::Fail;

const FIRST: [&[Row]; 2] = [&[(0, INT8, 0)], &[(1, INT64, 0)]];

const SECOND: [&[Row]; 2] = [
    &[(0, INT32, 0)],
    &[
        (2, INT8, 0),
        (3, Sample::Array((false, Leaf::Struct(0)), Some(3)), 4),
    ],
];

/// The numbers in the first table of the names of the second.
const NUMBERS: [u32; 10] = [9, 8, 7, 6, 5, 4, 3, 2, 1, 0];

/// The structs of these members, each by its place.
fn table(alloc: Global, structs: &[&[Row]]) -> Result<Types, Memory>
    ensures few { IfOk result (λ types. length types.structs ≤ 101) }
    ensures names { IfOk result (λ types. types.names ≡ 10) }
{
    let mut types = Types::new(alloc, NAMES);
    let mut rest = structs;
    'structs: while let [rows, tail @ ..] = rest {
        add(alloc, &mut types, rows)?;
        rest = tail;
    }
    Ok(types)
}

/// The second table behind the first.
fn both_tables(alloc: Global) -> Result<Joined, Memory>
    ensures { IfOk result (λ both. both.types.names ≡ 10) }
{
    let first = table(alloc, &FIRST)?;
    let second = table(alloc, &SECOND)?;
    first.followed_by(alloc, &second, &NUMBERS)
}

/// Size and alignment of a struct of both tables.
fn both_measures(alloc: Global, id: u32) -> Result<Option<(u64, u64)>, Memory> {
    let mut both = both_tables(alloc)?;
    sample_measures(alloc, &mut both.types, Sample::Leaf(Leaf::Struct(id)))
}

/// Offset and place of a member of a struct of both tables.
fn both_place(alloc: Global, id: u32, name: u32) -> Result<Option<(u64, usize)>, Memory>
    requires { name < 10 }
{
    let mut both = both_tables(alloc)?;
    member_place(&mut both.types, id, name)
}

/// How many of the first hundred types of a table measure behind another, where they have these numbers, what they measure in it.
fn same_measures(both: &Types, file: &Types, numbers: &[u32]) -> u32
    requires count { length numbers.now ≡ length file.now.nodes }
    requires known { AllBelow (length both.now.nodes) numbers.now }
{
    let mut same = 0;
    let mut index = 0;
    let mut rest = numbers;
    'types: while let [number, tail @ ..] = rest {
        if index == 100 {
            return same;
        }
        if measures(both, *number) == measures(file, index) {
            same += 1;
        }
        index += 1;
        rest = tail;
    }
    same
}

/// How many types of the second table measure in both what they measure there, and how many there are.
fn kept_measures(alloc: Global) -> Result<(u32, usize), Memory> {
    let first = table(alloc, &FIRST)?;
    let second = table(alloc, &SECOND)?;
    let both = first.followed_by(alloc, &second, &NUMBERS)?;
    let same = same_measures(&both.types, &second, both.numbers.as_slice());
    Ok((same, second.len()))
}

/// The struct that an array's elements are. None: the type is no array of structs.
fn element_struct(types: &Types, number: u32) -> Option<u32>
    requires { number < length types.now.nodes }
{
    let Node::Array { of, .. } = types.node(number) else {
        return None;
    };
    let Node::Struct { id } = types.node(of) else {
        return None;
    };
    Some(id)
}

/// The struct that the elements of the last member of both tables are.
fn last_element(alloc: Global) -> Result<Option<u32>, Memory> {
    let both = both_tables(alloc)?;
    for number in 0..both.types.len() {
        if number < 4_294_967_296 {
            let found = element_struct(&both.types, number as u32);
            if found.is_some() {
                return Ok(found);
            }
        }
    }
    Ok(None)
}

#[test]
fn structs_keep_their_layouts_behind_others(rt: HostRuntime) -> Result<(), Fail> {
    for (id, want) in [
        (0, Some((1, 1))),
        (1, Some((8, 8))),
        (2, Some((4, 4))),
        (3, Some((16, 4))),
        (4, None),
    ] {
        let got = both_measures(rt.alloc(), id).map_err(|_| "no memory")?;
        assert_eq!(rt; got, want, "at {id}");
    }
    Ok(())
}

#[test]
fn members_have_their_new_names(rt: HostRuntime) -> Result<(), Fail> {
    for (id, name, want) in [
        (0, 0, Some((0, 0))),
        (1, 1, Some((0, 0))),
        (2, 9, Some((0, 0))),
        (2, 0, None),
        (3, 7, Some((0, 0))),
        (3, 6, Some((4, 1))),
        (3, 3, None),
    ] {
        let got = both_place(rt.alloc(), id, name).map_err(|_| "no memory")?;
        assert_eq!(rt; got, want, "at {id} {name}");
    }
    Ok(())
}

#[test]
fn types_behind_others_name_their_structs(rt: HostRuntime) -> Result<(), Fail> {
    let got = last_element(rt.alloc()).map_err(|_| "no memory")?;
    assert_eq!(rt; got, Some(2));
    let (kept, count) = kept_measures(rt.alloc()).map_err(|_| "no memory")?;
    assert_eq!(rt; (kept as usize, count > 3), (count, true));
    Ok(())
}
