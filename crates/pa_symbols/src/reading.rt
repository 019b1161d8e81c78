ghost use Rattle.std.specs.Prelude.{◌≡◌, ◌≤◌, ◌<◌, ◌+◌, ◌*◌, ◌%◌, ◌^◌, List, suc, true, false, ◌==◌, ◌&&◌, length, slice_index, IfOk, IfSome, MatchOption};
ghost use Rattle.pa_layout.specs.Flaws.{AnswersOrMemory, GivesOrMemory, first};
ghost use Rattle.pa_symbols.specs.Symbols.{Text, AreMarks};
ghost use Rattle.pa_symbols.specs.Names.{is_noted};
ghost use Rattle.pa_symbols.specs.Reading as spec;

use crate::entry::{ENTRY_SIZE, Entry, ascends};
use crate::names::{PublicNames, is_first, key_of, name_at};
use crate::places::{SymbolsAt, TextAt};
use pa_layout::check;
use pa_num::{Fault, ImageRule, Memory, Name};
use pa_object::{Mark, Marks};
use std::alloc::Global;

/// The mark of entry `k`, whose name is due at a place of the strings, if the entry stands. The names are the public ones
/// of the entries before.
#[tactic(auto, unfolding(crate::specs::Reading::entry_stands))]
fn read_mark<'a>(
    alloc: Global,
    symbols: &[u8],
    strings: &'a [u8],
    text: TextAt,
    k: usize,
    due: usize,
    names: &mut PublicNames<'a>,
) -> Result<Option<Mark>, Memory>
    requires inside { 16 * k + 16 ≤ length symbols.now }
    requires due { due ≡ spec.due_place symbols.now strings.now k }
    requires known { (name : Text) →
        is_noted names.old.keys name ≡ spec.public_before symbols.now strings.now k name }
    ensures value { IfOk result (λ mark. MatchOption mark
        (spec.entry_stands text symbols.now strings.now k ≡ false)
        (λ read. (spec.entry_stands text symbols.now strings.now k ≡ true)
        × (read ≡ spec.mark_in text symbols.now strings.now k))) }
    ensures known { IfOk result (λ mark. IfSome mark (λ _. (name : Text) →
        is_noted names.new.keys name ≡ spec.public_before symbols.now strings.now (suc k) name)) }
    ensures within { IfOk result (λ mark. IfSome mark (λ read. due + (length read.name + 1) ≤ length strings.now)) }
{
    let entry = Entry::read(symbols, k);
    if !entry.is_of_code(text) {
        return Ok(None);
    }
    if !ascends(symbols, k) {
        return Ok(None);
    }
    let Some(name) = name_at(strings, entry.place as usize, due) else {
        return Ok(None);
    };
    let public = entry.is_public();
    if !is_first(names, name, public)? {
        return Ok(None);
    }
    let at = ((entry.address - text.address) / 4) as u32;
    let name = Name::from_slice(alloc, name)?;
    Ok(Some(Mark { name, at, public }))
}

/// The marks of the entries, where each stands, and the place of the strings after their names.
fn read_marks<'a>(
    alloc: Global,
    symbols: &[u8],
    strings: &'a [u8],
    text: TextAt,
    at: SymbolsAt,
) -> Result<(Marks, usize), Fault<ImageRule>>
    requires room { at.symbols + length symbols.now < 2 ^ 64 }
    ensures value { IfOk result (λ read.
        (read.0 ≡ spec.marks_from text symbols.now strings.now 0 (spec.count_in symbols.now))
        × (read.1 ≡ spec.due_place symbols.now strings.now (spec.count_in symbols.now))) }
    ensures exact { AnswersOrMemory result
        (first (spec.entry_checks text at symbols.now strings.now 0 (spec.count_in symbols.now)) symbols.now) }
{
    let mut marks = Marks::new(alloc);
    let mut names = PublicNames::with_hasher(alloc, key_of(symbols, strings));
    let mut due = 1;
    for k in 0..symbols.len() / ENTRY_SIZE {
        let read = read_mark(alloc, symbols, strings, text, k, due, &mut names)?;
        let Some(mark) = read else {
            let place = at.symbols + (ENTRY_SIZE * k) as u64;
            return Err(Fault::Refused {
                rule: ImageRule::H5,
                place,
            });
        };
        due += mark.name.len() + 1;
        marks.push(mark)?;
    }
    Ok((marks, due))
}

/// The strings begin with a zero byte, and end at that place.
fn are_whole(strings: &[u8], end: usize) -> bool
    requires { 0 < end }
    ensures { result ≡ ((slice_index strings.now 0 == 0) && (end == length strings.now)) }
{
    strings.first() == Some(&0) && end == strings.len()
}

/// The marks of the symbols and strings, or the first flaw.
#[tactic(auto, unfolding(crate::specs::Reading::symbols_flaw))]
fn read_tables(
    alloc: Global,
    symbols: &[u8],
    strings: &[u8],
    text: TextAt,
    at: SymbolsAt,
) -> Result<Marks, Fault<ImageRule>>
    requires room { at.symbols + length symbols.now < 2 ^ 64 }
    ensures value { IfOk result (λ marks.
        marks ≡ spec.marks_from text symbols.now strings.now 0 (spec.count_in symbols.now)) }
    ensures exact { AnswersOrMemory result (spec.symbols_flaw text at symbols.now strings.now) }
{
    let (marks, end) = read_marks(alloc, symbols, strings, text, at)?;
    check(symbols, ImageRule::H5, at.strings, are_whole(strings, end))?;
    Ok(marks)
}

/// The marks of the symbols and the strings of an image, or the first flaw with its place in the file: that of an entry,
/// or the strings' first byte where they begin with another byte or have another size.
pub fn read_symbols(
    alloc: Global,
    symbols: &[u8],
    strings: &[u8],
    text: TextAt,
    at: SymbolsAt,
) -> Result<Marks, Fault<ImageRule>>
    requires whole { length symbols.now % 16 ≡ 0 }
    requires room { at.symbols + length symbols.now < 2 ^ 64 }

    // What is read is what the bytes are of, and what they are of is read.
    ensures found { IfOk result (λ marks. AreMarks text marks symbols.now strings.now) }
    ensures only { (marks : List Mark) → AreMarks text marks symbols.now strings.now → GivesOrMemory marks result }
    ensures flaw { AnswersOrMemory result (spec.symbols_flaw text at symbols.now strings.now) }
{
    read_tables(alloc, symbols, strings, text, at)
}
