//! Files as they stand in the program.

ghost use Rattle.std.specs.Prelude.{◌≡◌, ◌+◌, ◌^◌, [], nat_lt, length, IfOk};
ghost use Rattle.pa_ctype.specs.Nodes.{AllBelow};
ghost use Rattle.pa_link.specs.Linked as spec;
ghost use Rattle.pa_link.specs.NameNumbers.{AreNamesOfProgram, AreFiles};

use crate::names::{FileNames, ProgramNames};
use crate::numbering::Numbering;
use crate::parts::{Part, part_of};
use pa_ctype::{Joined, Node, Types};
use pa_num::{Memory, Sequence};
use pa_typed::Unit;
use std::alloc::Global;

/// The types that each program has, by number.
#[derive(Clone, Copy)]
pub(crate) struct FirstTypes {
    pub(crate) void: u32,
    /// `int (int)`, that of `putchar`.
    pub(crate) unary: u32,
    /// `int (void)`, that of `getchar` and of `main`.
    pub(crate) nullary: u32,
}

/// Puts the types in that each program has.
fn first_types(types: &mut Types) -> Result<FirstTypes, Memory>
    ensures are { IfOk result (spec.AreFirstOf types.new) }
    ensures structs { types.new.structs ≡ types.old.structs }
    ensures names { types.new.names ≡ types.old.names }
{
    let void = types.put(Node::Void)?;
    let int = types.put(Node::Int {
        bits: 32,
        signed: true,
    })?;
    let unary = types.function(&[int], int)?;
    let nullary = types.function(&[], int)?;
    Ok(FirstTypes {
        void,
        unary,
        nullary,
    })
}

/// Whether numbers of so many structs together fit.
fn have_numbers(structs: usize, more: usize) -> bool
    ensures { result ≡ nat_lt (structs + more) (2 ^ 32) }
{
    match structs.checked_add(more) {
        Some(count) => count < 0x1_0000_0000,
        None => false,
    }
}

/// A file in the program: the types with its own behind, and what it declares and defines.
#[derive(Drop)]
pub(crate) struct LinkedFile {
    pub(crate) types: Types,
    pub(crate) part: Part,
}

/// A file behind those of a table, whose names have these numbers. Want of memory is told too where a number of structs doesn't fit.
fn linked_file(
    alloc: Global,
    types: Types,
    void: u32,
    texts: u32,
    unit: &Unit,
    names: &FileNames,
) -> Result<LinkedFile, Memory>
    requires void { spec.IsVoid types void }
    requires names { AllBelow types.names names.now.plain }
    requires count { length names.now.plain ≡ unit.now.types.names }
    ensures { IfOk result (spec.IsLinked types texts unit.now names.now) }
{
    if !have_numbers(types.struct_count(), unit.types.struct_count()) {
        return Err(Memory);
    }
    let Joined { types, numbers } = types.followed_by(alloc, &unit.types, names.plain.as_slice())?;
    let numbering = Numbering {
        names: Sequence::from_slice(alloc, names.linkage.as_slice())?,
        unnamed: names.unnamed,
        types: numbers,
        void,
        texts,
    };
    Ok(LinkedFile {
        part: part_of(alloc, unit, &numbering)?,
        types,
    })
}

/// The number of the first string literal behind those of a file. One that doesn't fit counts as want of memory.
fn texts_behind(texts: u32, unit: &Unit) -> Result<u32, Memory>
    ensures { IfOk result (λ n. n ≡ texts + length unit.now.texts) }
{
    match u32::try_from(unit.texts.len()) {
        Ok(more) => texts.checked_add(more).ok_or(Memory),
        Err(_) => Err(Memory),
    }
}

/// The files of a program, and its types.
#[derive(Drop)]
pub(crate) struct Linked {
    pub(crate) types: Types,
    pub(crate) first_types: FirstTypes,
    pub(crate) parts: Sequence<Part>,
}

/// The files as they stand in the program. Want of memory is told too where a number doesn't fit.
pub(crate) fn linked_files(
    alloc: Global,
    units: &[Unit],
    names: &ProgramNames,
) -> Result<Linked, Memory>
    requires names { AreNamesOfProgram names.now.names }
    requires files { AreFiles names.now.names units.now names.now.files }
    requires counts { spec.AreNamed units.now }
    ensures { IfOk result (spec.AreLinked names.now.names units.now) }
{
    let Ok(count) = u32::try_from(names.names.len()) else {
        return Err(Memory);
    };
    let mut types = Types::new(alloc, count);
    let first_types = first_types(&mut types)?;
    let mut parts = Sequence::new(alloc);
    let mut texts: u32 = 0;
    let mut index = 0;
    'units: while index < units.len() {
        let file_names = &names.files.as_slice()[index];
        let made = linked_file(
            alloc,
            types,
            first_types.void,
            texts,
            &units[index],
            file_names,
        )?;
        let LinkedFile { types: more, part } = made;
        types = more;
        parts.push(part)?;
        texts = texts_behind(texts, &units[index])?;
        index += 1;
    }
    Ok(Linked {
        types,
        first_types,
        parts,
    })
}
