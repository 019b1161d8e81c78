//! How large a program may be, and its `main`.

ghost use Rattle.std.specs.Prelude.{◌≡◌, ◌<◌, ◌+◌, ◌^◌, nat_lt};
ghost use Rattle.std.specs.Int.{next_multiple_of};
ghost use Rattle.std.specs.Option.{SomeIff};
ghost use Rattle.pa_typed.specs.Counts.{locals_bytes};
ghost use Rattle.pa_link.specs.Limits as spec;
ghost use Rattle.pa_link.specs.Program as program;

use crate::rule::{LinkFault, LinkRule};
use pa_num::Bytes;
use pa_typed::{CGlobal, CLocal, Function};

/// The most nodes of all files.
pub(crate) const MOST_NODES: u64 = 16384;

/// The most bytes of globals and string literals.
pub(crate) const MOST_STATIC_BYTES: u64 = 1_048_576;

/// The most functions.
pub(crate) const MOST_FUNCTIONS: u64 = 4096;

/// The most bytes of the objects of a function.
pub(crate) const MOST_LOCAL_BYTES: u64 = 16384;

/// A size, rounded up to 8, behind others. None: the sum doesn't fit.
fn with_rounded(total: u64, size: u64) -> Option<u64>
    ensures { SomeIff result (total + next_multiple_of size 8 < 2 ^ 64) (total + next_multiple_of size 8) }
{
    total.checked_add(size.checked_next_multiple_of(8)?)
}

/// The bytes of globals, each rounded up to 8, behind others. None: the sum doesn't fit.
pub(crate) fn global_bytes(globals: &[CGlobal], before: u64) -> Option<u64>
    ensures { SomeIff result (before + spec.globals_bytes globals.now < 2 ^ 64) (before + spec.globals_bytes globals.now) }
{
    let mut total = before;
    let mut rest = globals;
    'globals: while let [global, tail @ ..] = rest {
        total = with_rounded(total, global.size)?;
        rest = tail;
    }
    Some(total)
}

/// The bytes of string literals with their zeros, behind others. None: the sum doesn't fit.
pub(crate) fn text_bytes(texts: &[Bytes], before: u64) -> Option<u64>
    ensures { SomeIff result (before + spec.texts_bytes texts.now < 2 ^ 64) (before + spec.texts_bytes texts.now) }
{
    let mut total = before;
    let mut rest = texts;
    'texts: while let [text, tail @ ..] = rest {
        total = total.checked_add(text.len() as u64)?.checked_add(1)?;
        rest = tail;
    }
    Some(total)
}

/// The bytes of the objects of a function, each rounded up to 8. None: the sum doesn't fit.
fn local_bytes(locals: &[CLocal]) -> Option<u64>
    ensures { SomeIff result (locals_bytes locals.now < 2 ^ 64) (locals_bytes locals.now) }
{
    let mut total = 0;
    let mut rest = locals;
    'locals: while let [local, tail @ ..] = rest {
        total = with_rounded(total, local.size)?;
        rest = tail;
    }
    Some(total)
}

/// Whether the objects of a function have too many bytes.
fn is_too_wide(locals: &[CLocal]) -> bool
    ensures { result ≡ spec.is_too_wide locals.now }
{
    match local_bytes(locals) {
        Some(bytes) => MOST_LOCAL_BYTES < bytes,
        None => true,
    }
}

/// The first function of a file whose objects have too many bytes.
pub(crate) fn wide_fault(functions: &[Function], file: u32) -> Option<LinkFault>
    ensures { result ≡ spec.wide_fault file functions.now }
{
    let mut rest = functions;
    'functions: while let [function, tail @ ..] = rest {
        if is_too_wide(function.locals.as_slice()) {
            return Some(LinkFault {
                rule: LinkRule::M4,
                file,
                place: function.place,
            });
        }
        rest = tail;
    }
    None
}

/// The fault where a count passes its limit.
pub(crate) fn passed(rule: LinkRule, count: u64, limit: u64) -> Option<LinkFault>
    ensures { result ≡ program.passes rule count limit }
{
    if limit < count {
        Some(LinkFault {
            rule,
            file: 0,
            place: count,
        })
    } else {
        None
    }
}
