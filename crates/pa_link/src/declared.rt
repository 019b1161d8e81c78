//! What a file defines, by name and place.

ghost use Rattle.std.specs.Prelude.{◌≡◌, ◌||◌, ℕ, IfOk, OnOk};
ghost use Rattle.pa_link.specs.FileDefinitions as spec;

use crate::parts::Part;
use indexmap::IndexSet;
use pa_names::TextKey;
use pa_num::Memory;
use pa_typed::{CGlobal, Function};
use std::alloc::Global;

/// A name's number and its place in a file, where it is defined.
#[derive(Clone, Copy, PartialEq, Eq, Hash)]
pub(crate) struct Definition {
    pub(crate) name: u32,
    pub(crate) place: u64,
}

/// What a file defines.
pub(crate) type FileDefinitions = IndexSet<Definition, TextKey>;

/// Notes a definition.
fn note(made: &mut FileDefinitions, name: u32, place: u64) -> Result<(), Memory>
    ensures { OnOk result ((n p : ℕ) →
        spec.is_noted made.new.keys n p ≡ (spec.is_at n p name place || spec.is_noted made.old.keys n p)) }
{
    match made.insert(Definition { name, place }) {
        Ok(_) => Ok(()),
        Err(_) => Err(Memory),
    }
}

fn note_functions(made: &mut FileDefinitions, functions: &[Function]) -> Result<(), Memory>
    ensures { OnOk result ((n p : ℕ) →
        spec.is_noted made.new.keys n p ≡ (spec.has_function n p functions.now || spec.is_noted made.old.keys n p)) }
{
    let mut rest = functions;
    'functions: while let [function, tail @ ..] = rest {
        note(made, function.name, function.place)?;
        rest = tail;
    }
    Ok(())
}

fn note_globals(made: &mut FileDefinitions, globals: &[CGlobal]) -> Result<(), Memory>
    ensures { OnOk result ((n p : ℕ) →
        spec.is_noted made.new.keys n p ≡ (spec.has_global n p globals.now || spec.is_noted made.old.keys n p)) }
{
    let mut rest = globals;
    'globals: while let [global, tail @ ..] = rest {
        note(made, global.name, global.place)?;
        rest = tail;
    }
    Ok(())
}

/// What a file defines.
pub(crate) fn definitions_of(
    alloc: Global,
    part: &Part,
    key: TextKey,
) -> Result<FileDefinitions, Memory>
    ensures { IfOk result (λ made. (n p : ℕ) → spec.is_noted made.keys n p ≡ spec.defines n p part.now) }
{
    let mut made = IndexSet::with_hasher(alloc, key);
    note_globals(&mut made, part.globals.as_slice())?;
    note_functions(&mut made, part.functions.as_slice())?;
    Ok(made)
}
