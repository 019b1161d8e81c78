ghost use Rattle.std.specs.Prelude.{◌≡◌, ◌++◌, OnOk, IfOk};
ghost use Rattle.pa_layout.specs.Fields.{AllFit};
ghost use Rattle.pa_symbols.specs.Symbols as spec;

use crate::entry::{PRIVATE, PUBLIC};
use crate::places::TextAt;
use pa_layout::{FileField, put_fields};
use pa_num::{Bytes, Memory};
use pa_object::Mark;
use std::alloc::{AllocError, Global};

/// The symbols and the strings of an image.
#[derive(Debug, Drop)]
pub struct SymbolTables {
    pub symbols: Bytes,
    pub strings: Bytes,
}

/// The fields of the mark's entry, whose name begins at that place of the strings.
pub(crate) fn entry_fields(mark: &Mark, place: u128, address: u64) -> [FileField; 4]
    ensures { result ≡ spec.entry_of place address mark.now }
{
    let kind = if mark.public { PUBLIC } else { PRIVATE };
    [
        FileField::four(place),
        FileField::two(kind as u128),
        FileField::two(0),
        FileField::eight(address as u128 + 4 * mark.at as u128),
    ]
}

/// Appends the symbols of the marks.
pub fn put_symbols(out: &mut Vec<u8>, marks: &[Mark], text: TextAt) -> Result<(), AllocError>
    requires { AllFit (spec.entries 1 text.address marks.now) }
    ensures { OnOk result (out.new.items ≡ out.old.items ++ spec.symbols_of text marks.now) }
{
    let mut place: u128 = 1;
    for mark in marks {
        put_fields(out, &entry_fields(mark, place, text.address))?;
        place += mark.name.len() as u128 + 1;
    }
    Ok(())
}

/// Appends the strings of the marks.
pub fn put_strings(out: &mut Vec<u8>, marks: &[Mark]) -> Result<(), AllocError>
    ensures { OnOk result (out.new.items ≡ out.old.items ++ spec.strings_of marks.now) }
{
    out.push(0)?;
    for mark in marks {
        out.extend_from_slice(mark.name.as_slice())?;
        out.push(0)?;
    }
    Ok(())
}

/// The symbols and the strings of marks that are legal. Between them an image has no gap, since an entry has 16 bytes.
pub fn write_symbols(alloc: Global, marks: &[Mark], text: TextAt) -> Result<SymbolTables, Memory>
    requires { spec.AreLegal text marks.now }
    ensures { IfOk result (λ tables. spec.AreMarks text marks.now tables.symbols tables.strings) }
{
    let mut symbols = Vec::new(alloc);
    put_symbols(&mut symbols, marks, text)?;
    let mut strings = Vec::new(alloc);
    put_strings(&mut strings, marks)?;
    Ok(SymbolTables {
        symbols: Bytes::from_vec(symbols),
        strings: Bytes::from_vec(strings),
    })
}
