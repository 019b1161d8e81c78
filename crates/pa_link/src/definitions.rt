ghost use Rattle.std.specs.Prelude.{◌≡◌, fold, replicate, false, IfOk};
ghost use Rattle.pa_link.specs.Missing as spec;
ghost use Rattle.pa_link.specs.Definitions as names_of;

use crate::names::{GETCHAR, PUTCHAR};
use crate::parts::Part;
use pa_num::{Memory, Sequence};
use pa_typed::{CGlobal, Function};
use std::alloc::Global;

/// Which names of the program are defined, by their numbers.
#[derive(Drop)]
pub(crate) struct Definitions {
    pub(crate) defined: Sequence<bool>,
    /// Whether the empty name is, which is that of each number behind the last.
    pub(crate) unnamed: bool,
}

impl Definitions {
    pub(crate) fn has(&self, name: u32) -> bool
        ensures { result ≡ spec.has self.now name }
    {
        match self.defined.get(name as usize) {
            Some(defined) => *defined,
            None => self.unnamed,
        }
    }
}

/// Marks a name as defined.
fn mark(defined: &mut Sequence<bool>, name: u32)
    ensures { defined.new ≡ names_of.marked defined.old name }
{
    if (name as usize) < defined.len() {
        defined.set(name as usize, true);
    }
}

fn mark_functions(defined: &mut Sequence<bool>, functions: &[Function])
    ensures { defined.new ≡ fold names_of.marked_function defined.old functions.now }
{
    let mut rest = functions;
    'functions: while let [function, tail @ ..] = rest {
        mark(defined, function.name);
        rest = tail;
    }
}

fn mark_globals(defined: &mut Sequence<bool>, globals: &[CGlobal])
    ensures { defined.new ≡ fold names_of.marked_global defined.old globals.now }
{
    let mut rest = globals;
    'globals: while let [global, tail @ ..] = rest {
        mark(defined, global.name);
        rest = tail;
    }
}

fn mark_parts(defined: &mut Sequence<bool>, parts: &[Part])
    ensures { defined.new ≡ fold names_of.marked_part defined.old parts.now }
{
    let mut rest = parts;
    'parts: while let [part, tail @ ..] = rest {
        mark_functions(defined, part.functions.as_slice());
        mark_globals(defined, part.globals.as_slice());
        rest = tail;
    }
}

/// As many marks, none of which is set.
fn no_marks(alloc: Global, count: usize) -> Result<Sequence<bool>, Memory>
    ensures { IfOk result (λ made. made ≡ replicate count false) }
{
    let mut made = Sequence::new(alloc);
    let mut index = 0;
    'marks: while index < count {
        made.push(false)?;
        index += 1;
    }
    Ok(made)
}

/// Which of so many names these files or the runtime define.
pub(crate) fn defined_names(
    alloc: Global,
    names: usize,
    parts: &[Part],
) -> Result<Definitions, Memory>
    ensures { IfOk result (λ made. made ≡ names_of.definitions names parts.now) }
{
    let mut defined = no_marks(alloc, names)?;
    mark(&mut defined, PUTCHAR);
    mark(&mut defined, GETCHAR);
    mark_parts(&mut defined, parts);
    let unnamed = defined.get(0).copied().unwrap_or(false);
    Ok(Definitions { defined, unnamed })
}
