ghost use Rattle.std.specs.Prelude.{◌≡◌, ◌<◌, length, IfOk};
ghost use Rattle.std.specs.List.{AllByRecursion};
ghost use Rattle.std.specs.Option.{option_copied};
ghost use Rattle.pa_linker.specs.Imports as spec;
ghost use Rattle.pa_linker.specs.Tables.{IsByWord};

use pa_num::{Memory, Sequence};
use pa_object::Ref;
use std::alloc::Global;

/// For each of so many words of code, which of the references stands there.
pub(crate) fn by_word(
    alloc: Global,
    refs: &[Ref],
    words: usize,
) -> Result<Sequence<Option<usize>>, Memory>
    requires { AllByRecursion (λ ref. ref.at < words) refs.now }
    ensures { IfOk result (λ table. IsByWord refs.now words table) }
{
    let mut table = Sequence::new(alloc);
    for _ in 0..words {
        table.push(None)?;
    }
    let mut left = refs.len();
    while left > 0 {
        left -= 1;
        table.set(refs[left].at as usize, Some(left));
    }
    Ok(table)
}

/// The reference that stands at a word of code, by the code's table.
pub(crate) fn ref_at<'a>(refs: &'a [Ref], table: &[Option<usize>], word: usize) -> Option<&'a Ref>
    requires table { IsByWord refs.now (length table.now) table.now }
    requires inside { word < length table.now }
    ensures { option_copied result ≡ spec.ref_at refs.now word }
{
    match table[word] {
        Some(index) => refs.get(index),
        None => None,
    }
}
