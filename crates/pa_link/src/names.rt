//! The names of the program by number.

ghost use Rattle.std.specs.Prelude.{◌≡◌, ◌||◌, ◌<◌, ◌≤◌, ℕ, List, map, length, codes, decimal, ◌++◌, if◌then◌else◌, IfOk, OnOk};
ghost use Rattle.std.specs.Str.{bytes_eq};
ghost use Rattle.pa_typed.specs.Units.{name_in};
ghost use Rattle.pa_ctype.specs.Nodes.{AllBelow};
ghost use Rattle.pa_ctype.specs.Tables.{AreApart};
ghost use Rattle.pa_link.specs.Names as spec;
ghost use Rattle.pa_link.specs.NameNumbers as numbers;

use indexmap::IndexSet;
use itoa::Buffer;
use pa_names::TextKey;
use pa_num::{Memory, Name, Names, Sequence};
use pa_typed::{Declared, Unit};
use std::alloc::Global;

/// Names, each once.
pub(crate) type NameTable<'a> = IndexSet<&'a [u8], TextKey>;

/// The name of a number, or the empty one behind the last.
pub(crate) fn name_at(names: &Names, number: u32) -> &[u8]
    ensures { result.now ≡ name_in names.now number }
{
    match names.get(number as usize) {
        Some(name) => name.as_slice(),
        None => &[],
    }
}

/// Notes a name.
fn note<'a>(names: &mut NameTable<'a>, name: &'a [u8]) -> Result<(), Memory>
    ensures { OnOk result ((text : List ℕ) →
        spec.is_noted names.new.keys text ≡ (bytes_eq text name.now || spec.is_noted names.old.keys text)) }
{
    match names.insert(name) {
        Ok(_) => Ok(()),
        Err(_) => Err(Memory),
    }
}

/// Notes the name to which a declaration gives internal linkage.
fn note_internal<'a>(
    internal: &mut NameTable<'a>,
    names: &'a Names,
    declared: &Declared,
) -> Result<(), Memory>
    ensures { OnOk result ((text : List ℕ) → spec.is_noted internal.new.keys text
        ≡ spec.noted_by names.now declared.now text (spec.is_noted internal.old.keys text)) }
{
    if declared.public {
        Ok(())
    } else {
        note(internal, name_at(names, declared.name))
    }
}

/// The names to which a declaration of the file gives internal linkage (C11 6.2.2p3).
pub(crate) fn internal_names<'a>(
    alloc: Global,
    unit: &'a Unit,
    key: TextKey,
) -> Result<NameTable<'a>, Memory>
    ensures { IfOk result (λ table. (text : List ℕ) → spec.is_noted table.keys text ≡ spec.is_internal unit.now.names unit.now.declared text) }
{
    let mut internal = IndexSet::with_hasher(alloc, key);
    let mut rest = unit.declared.as_slice();
    'declared: while let [declared, tail @ ..] = rest {
        note_internal(&mut internal, &unit.names, declared)?;
        rest = tail;
    }
    Ok(internal)
}

/// The name in the program of a function or a global of a file: `n.k` for an internal name `n` of file k.
fn linkage_name(alloc: Global, name: &[u8], file: u32, internal: bool) -> Result<Name, Memory>
    ensures { IfOk result (λ made. made ≡ (if internal then name.now ++ (codes "." ++ decimal file) else name.now)) }
{
    if !internal {
        return Ok(Name::from_slice(alloc, name)?);
    }
    let mut buffer = Buffer::new();
    let mut made = Vec::from_slice(alloc, name)?;
    made.extend_from_slice(b".")?;
    made.extend_from_slice(buffer.format(file).as_bytes())?;
    Ok(Sequence::from_vec(made))
}

/// The names in the program of the functions and globals that the file's names may name, and at the end that of the empty name.
pub(crate) fn linkage_names(
    alloc: Global,
    unit: &Unit,
    file: u32,
    internal: &NameTable,
) -> Result<Names, Memory>
    requires { (text : List ℕ) → spec.is_noted internal.now.keys text ≡ spec.is_internal unit.now.names unit.now.declared text }
    ensures { IfOk result (λ made. made ≡ spec.linkage_names file unit.now.names unit.now.declared) }
{
    let mut made = Names::new(alloc);
    let mut rest = unit.names.as_slice();
    'names: while let [name, tail @ ..] = rest {
        let text = name.as_slice();
        made.push(linkage_name(alloc, text, file, internal.contains(text))?)?;
        rest = tail;
    }
    let none: &[u8] = &[];
    made.push(linkage_name(alloc, none, file, internal.contains(none))?)?;
    Ok(made)
}

/// The number of a name in the table, where it is put if it is new. A number that doesn't fit counts as want of memory.
fn number_of<'a>(table: &mut NameTable<'a>, name: &'a [u8]) -> Result<u32, Memory>
    ensures number { IfOk result (λ n. n < length table.new.keys) }
    ensures is { IfOk result (λ n. name_in (spec.texts_of table.new.keys) n ≡ name.now) }
    ensures names { OnOk result (spec.texts_of table.new.keys ≡ spec.with_name (spec.texts_of table.old.keys) name.now) }
    ensures grows { OnOk result (spec.IsGrown table.old.keys table.new.keys) }
{
    let Ok((index, _)) = table.insert_full(name) else {
        return Err(Memory);
    };
    match u32::try_from(index) {
        Ok(number) => Ok(number),
        Err(_) => Err(Memory),
    }
}

/// The numbers of these names in the table, where the new ones are put.
pub(crate) fn numbers_of<'a>(
    alloc: Global,
    table: &mut NameTable<'a>,
    names: &'a [Name],
) -> Result<Sequence<u32>, Memory>
    ensures known { IfOk result (λ numbers. AllBelow (length table.new.keys) numbers) }
    ensures are { IfOk result (λ numbers. map (name_in (spec.texts_of table.new.keys)) numbers ≡ names.now) }
    ensures grows { OnOk result (spec.IsGrown table.old.keys table.new.keys) }
{
    let mut numbers = Sequence::new(alloc);
    let mut rest = names;
    'names: while let [name, tail @ ..] = rest {
        numbers.push(number_of(table, name.as_slice())?)?;
        rest = tail;
    }
    Ok(numbers)
}

/// The names in the program of the functions and globals of each file.
pub(crate) fn all_linkage_names(
    alloc: Global,
    units: &[Unit],
    key: TextKey,
) -> Result<Sequence<Names>, Memory>
    requires { length units.now ≤ 64 }
    ensures { IfOk result (λ made. made ≡ spec.linkages_from 1 units.now) }
{
    let mut made = Sequence::new(alloc);
    let mut file = 1;
    let mut rest = units;
    'units: while let [unit, tail @ ..] = rest {
        let internal = internal_names(alloc, unit, key)?;
        made.push(linkage_names(alloc, unit, file, &internal)?)?;
        file += 1;
        rest = tail;
    }
    Ok(made)
}

/// The numbers that the names of a file have in the program.
#[derive(Drop)]
pub(crate) struct FileNames {
    /// By the number of a name in the file: that of the same name, as members of structs have it.
    pub(crate) plain: Sequence<u32>,
    /// By the same number: that of the name as a function's or a global's.
    pub(crate) linkage: Sequence<u32>,
    /// The number that the empty name has as a function's or a global's.
    pub(crate) unnamed: u32,
}

/// The numbers of the names of a file in the table, where the new ones are put. The last of `linkage` is the empty name's.
fn file_names<'a>(
    alloc: Global,
    table: &mut NameTable<'a>,
    plain: &'a [Name],
    linkage: &'a [Name],
) -> Result<FileNames, Memory>
    requires { 0 < length linkage.now }
    ensures are { IfOk result (numbers.AreNumbersOf (spec.texts_of table.new.keys) plain.now linkage.now) }
    ensures grows { OnOk result (spec.IsGrown table.old.keys table.new.keys) }
{
    let plain = numbers_of(alloc, table, plain)?;
    let mut linkage = numbers_of(alloc, table, linkage)?;
    let unnamed = linkage.pop().unwrap();
    Ok(FileNames {
        plain,
        linkage,
        unnamed,
    })
}

/// The numbers of the names of each file in the table, where the new ones are put.
fn all_file_names<'a>(
    alloc: Global,
    table: &mut NameTable<'a>,
    units: &'a [Unit],
    linkages: &'a [Names],
) -> Result<Sequence<FileNames>, Memory>
    requires { linkages.now ≡ spec.linkages_from 1 units.now }
    ensures are { IfOk result (numbers.AreFiles (spec.texts_of table.new.keys) units.now) }
    ensures grows { OnOk result (spec.IsGrown table.old.keys table.new.keys) }
{
    let mut files = Sequence::new(alloc);
    let mut index = 0;
    'units: while index < units.len() {
        files.push(file_names(
            alloc,
            table,
            units[index].names.as_slice(),
            linkages[index].as_slice(),
        )?)?;
        index += 1;
    }
    Ok(files)
}

/// The number of `putchar`.
pub(crate) const PUTCHAR: u32 = 1;

/// The number of `getchar`.
pub(crate) const GETCHAR: u32 = 2;

/// The number of `main`.
pub(crate) const MAIN: u32 = 3;

/// A table of the names that each program has.
fn first_names<'a>(alloc: Global, key: TextKey) -> Result<NameTable<'a>, Memory>
    ensures { IfOk result (λ table. spec.texts_of table.keys ≡ numbers.first_names) }
{
    let mut table: NameTable<'a> = IndexSet::with_hasher(alloc, key);
    number_of(&mut table, b"")?;
    number_of(&mut table, b"putchar")?;
    number_of(&mut table, b"getchar")?;
    number_of(&mut table, b"main")?;
    Ok(table)
}

/// Copies of the names of a table.
fn copies(alloc: Global, table: &NameTable) -> Result<Names, Memory>
    ensures are { IfOk result (λ made. made ≡ spec.texts_of table.now.keys) }
    ensures apart { IfOk result (λ made. AreApart (length made) (name_in made)) }
{
    let count = table.len();
    let mut names = Names::new(alloc);
    let mut index = 0;
    'names: while let Some(name) = table.get_index(index) {
        names.push(Name::from_slice(alloc, *name)?)?;
        index += 1;
    }
    Ok(names)
}

/// The names of a program, each once, and the numbers that those of its files have. The first names are the empty one, `putchar`,
/// `getchar` and `main`.
#[derive(Drop)]
pub(crate) struct ProgramNames {
    pub(crate) names: Names,
    pub(crate) files: Sequence<FileNames>,
}

/// The names of the program of these files, by number.
pub(crate) fn program_names(
    alloc: Global,
    units: &[Unit],
    key: TextKey,
) -> Result<ProgramNames, Memory>
    requires { length units.now ≤ 64 }
    ensures names { IfOk result (λ p. numbers.AreNamesOfProgram p.names) }
    ensures files { IfOk result (λ p. numbers.AreFiles p.names units.now p.files) }
{
    let linkages = all_linkage_names(alloc, units, key)?;
    let mut table = first_names(alloc, key)?;
    let files = all_file_names(alloc, &mut table, units, linkages.as_slice())?;
    Ok(ProgramNames {
        names: copies(alloc, &table)?,
        files,
    })
}
