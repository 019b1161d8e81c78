//! What a program as a whole has to have, and how large it is.

ghost use Rattle.std.specs.Prelude.{◌≡◌, ◌<◌, ◌≤◌, ◌+◌, ◌^◌, length};
ghost use Rattle.std.specs.Option.{SomeIff};
ghost use Rattle.pa_link.specs.Whole as spec;

use crate::limits::{global_bytes, text_bytes, wide_fault};
use crate::names::MAIN;
use crate::parts::Part;
use crate::rule::LinkFault;
use pa_typed::{Function, Unit};

/// The type of the first function of a name.
fn type_named(functions: &[Function], name: u32) -> Option<u32>
    ensures { result ≡ spec.type_named name functions.now }
{
    let mut rest = functions;
    'functions: while let [function, tail @ ..] = rest {
        if function.name == name {
            return Some(function.of);
        }
        rest = tail;
    }
    None
}

/// The type of `main`. None: no file defines it.
pub(crate) fn main_type(parts: &[Part]) -> Option<u32>
    ensures { result ≡ spec.main_type parts.now }
{
    let mut rest = parts;
    'parts: while let [part, tail @ ..] = rest {
        let of = type_named(part.functions.as_slice(), MAIN);
        if of.is_some() {
            return of;
        }
        rest = tail;
    }
    None
}

/// The first function whose objects have too many bytes.
pub(crate) fn first_wide(parts: &[Part]) -> Option<LinkFault>
    requires { length parts.now ≤ 64 }
    ensures { result ≡ spec.wide_from 1 parts.now }
{
    let mut file = 1;
    let mut rest = parts;
    'parts: while let [part, tail @ ..] = rest {
        let fault = wide_fault(part.functions.as_slice(), file);
        if fault.is_some() {
            return fault;
        }
        file += 1;
        rest = tail;
    }
    None
}

/// The bytes of all globals, each rounded up to 8. None: the sum doesn't fit.
pub(crate) fn all_globals_bytes(parts: &[Part]) -> Option<u64>
    ensures { SomeIff result (spec.all_globals_bytes parts.now < 2 ^ 64) (spec.all_globals_bytes parts.now) }
{
    let mut total = 0;
    let mut rest = parts;
    'parts: while let [part, tail @ ..] = rest {
        total = global_bytes(part.globals.as_slice(), total)?;
        rest = tail;
    }
    Some(total)
}

/// The bytes of all string literals with their zeros, behind others. None: the sum doesn't fit.
pub(crate) fn all_texts_bytes(units: &[Unit], before: u64) -> Option<u64>
    ensures { SomeIff result (before + spec.all_texts_bytes units.now < 2 ^ 64) (before + spec.all_texts_bytes units.now) }
{
    let mut total = before;
    let mut rest = units;
    'units: while let [unit, tail @ ..] = rest {
        total = text_bytes(unit.texts.as_slice(), total)?;
        rest = tail;
    }
    Some(total)
}

/// The nodes of all files. None: the sum doesn't fit.
pub(crate) fn all_nodes(units: &[Unit]) -> Option<u64>
    ensures { SomeIff result (spec.all_nodes units.now < 2 ^ 64) (spec.all_nodes units.now) }
{
    let mut total: u64 = 0;
    let mut rest = units;
    'units: while let [unit, tail @ ..] = rest {
        total = total.checked_add(unit.nodes)?;
        rest = tail;
    }
    Some(total)
}

/// How many functions the files define. None: the sum doesn't fit.
pub(crate) fn function_count(parts: &[Part]) -> Option<u64>
    ensures { SomeIff result (spec.function_count parts.now < 2 ^ 64) (spec.function_count parts.now) }
{
    let mut total: u64 = 0;
    let mut rest = parts;
    'parts: while let [part, tail @ ..] = rest {
        total = total.checked_add(part.functions.len() as u64)?;
        rest = tail;
    }
    Some(total)
}
