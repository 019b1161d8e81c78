ghost use Rattle.std.specs.Prelude.{◌≡◌, ◌≤◌, ◌<◌, ◌+◌, ◌*◌, ◌/◌, ◌^◌, ◌&&◌, ◌==◌, length, IfOk};
ghost use Rattle.pa_num.specs.declared.fault.ImageRule.TheVariants.{F7};
ghost use Rattle.pa_layout.specs.Fields.{number, numbers};
ghost use Rattle.pa_layout.specs.Flaws.{Answers, AnswersOrMemory, Holds, flaw_of, first};
ghost use Rattle.pa_layout.specs.Names.{name_length, has_end, cut, behind};
ghost use Rattle.pa_fixups.specs.Fixups.{entry_checks, name_checks};

use crate::tables::Starts;
use pa_layout::{Flaw, check, name_length, number_of_four, number_of_two};
use pa_num::{Fault, ImageRule, Names, Sequence};
use std::alloc::{AllocError, Global};

/// The first slots' offsets from `at` on.
pub(crate) fn read_starts(
    alloc: Global,
    part: &[u8],
    at: usize,
    pages: u32,
) -> Result<Starts, AllocError>
    requires { at + 2 * pages ≤ length part.now }
    ensures { IfOk result (λ starts. starts ≡ numbers pages 2 at part.now) }
{
    let mut starts = Starts::new(alloc);
    for page in 0..pages as usize {
        starts.push(number_of_two(part, at + 2 * page))?;
    }
    Ok(starts)
}

/// Each of the entries from `at` on is that of an import of library 1 that isn't weak.
pub(crate) fn check_entries(part: &[u8], at: usize, count: u32) -> Result<(), Flaw>
    requires { at + 4 * count ≤ length part.now }
    ensures { Answers result (first (entry_checks count at part.now) part.now) }
{
    for k in 0..count as usize {
        let place = at + 4 * k;
        let plain = number_of_four(part, place) % 512 == 1;
        check(part, ImageRule::F2, place as u64, plain)?;
    }
    Ok(())
}

/// The entry at `place` says that its name begins at `at`, and the name of `len` bytes at the front of the text has its end.
fn tells_name(part: &[u8], place: usize, at: usize, text: &[u8], len: usize) -> bool
    requires place { place + 4 ≤ length part.now }
    requires len { len ≡ name_length text.now }
    ensures { result ≡ ((number 4 place part.now / 2 ^ 9 == at) && has_end text.now) }
{
    (number_of_four(part, place) >> 9) as usize == at && len < text.len()
}

/// The length of the name that the text begins with, where the entry at `place` says that it begins at `at`.
#[tactic(auto, using(crate::proofs::Cuts::name_ends))]
fn name_at(part: &[u8], place: usize, at: usize, text: &[u8]) -> Result<usize, Flaw>
    requires { place + 4 ≤ length part.now }
    ensures value { IfOk result (λ len. (len ≡ name_length text.now) × (len < length text.now)) }
    ensures exact { Answers result (flaw_of (Holds F7 place ((number 4 place part.now / 2 ^ 9 == at) && has_end text.now)) part.now) }
{
    let len = name_length(text);
    let told = tells_name(part, place, at, text, len);
    check(part, ImageRule::F7, place as u64, told)?;
    Ok(len)
}

/// The names that the entries from `entries` on tell, at the front of the text, and how many bytes stand after them.
pub(crate) fn read_names(
    alloc: Global,
    part: &[u8],
    entries: usize,
    count: u32,
    text: &[u8],
) -> Result<(Names, usize), Fault<ImageRule>>
    requires { entries + 4 * count ≤ length part.now }
    ensures value { IfOk result (λ read. (read.0 ≡ cut count text.now) × (read.1 ≡ length (behind count text.now))) }
    ensures exact { AnswersOrMemory result (first (name_checks count entries 1 part.now text.now) part.now) }
{
    let mut names = Names::new(alloc);
    let mut rest = text;
    let mut at = 1;
    for k in 0..count as usize {
        let len = name_at(part, entries + 4 * k, at, rest)?;
        names.push(Sequence::from_slice(alloc, &rest[..len])?)?;
        rest = &rest[len + 1..];
        at += len + 1;
    }
    Ok((names, rest.len()))
}
