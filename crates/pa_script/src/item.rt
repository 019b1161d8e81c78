//! The item of a line.

ghost use Rattle.std.specs.Prelude.{◌≡◌, IfOk, IfSome, option_and_then, option_map, true};
ghost use Rattle.pa_object.specs.Script.{is_line};
ghost use Rattle.pa_script.specs.Items as items;
ghost use Rattle.pa_script.specs.Pieces.{pieces_behind};
ghost use Rattle.pa_script.specs.Spelled.{deed_spelled, item_spelled};

use crate::number::{address, count, step};
use crate::pieces::cut;
use hex::FromHexError;
use pa_num::{Bytes, Memory};
use pa_object::{Deed, Item};
use std::alloc::Global;

const WRITE: &[u8] = b"write";

const COPY: &[u8] = b"copy";

/// The deed of a line, where the bytes of a write are still digits.
#[derive(Clone, Copy)]
pub enum SpelledDeed<'a> {
    Write { at: u64, digits: &'a [u8] },
    Copy { to: u64, from: u64, count: u32 },
}

#[derive(Clone, Copy)]
pub struct SpelledItem<'a> {
    step: u32,
    deed: SpelledDeed<'a>,
}

/// `ADDRESS BYTES`.
fn write(parts: Option<&[u8]>) -> Option<SpelledDeed<'_>>
    ensures { option_and_then deed_spelled result ≡ items.write (pieces_behind 32 parts.entry) }
{
    let (at, behind) = cut(b' ', parts?);
    let (digits, behind) = cut(b' ', behind?);
    if behind.is_some() {
        return None;
    }
    let at = address(at)?;
    Some(SpelledDeed::Write { at, digits })
}

/// `TO FROM COUNT`.
fn copy(parts: Option<&[u8]>) -> Option<SpelledDeed<'_>>
    ensures { option_and_then deed_spelled result ≡ items.copy (pieces_behind 32 parts.entry) }
{
    let (to, behind) = cut(b' ', parts?);
    let (from, behind) = cut(b' ', behind?);
    let (some, behind) = cut(b' ', behind?);
    if behind.is_some() {
        return None;
    }
    let to = address(to)?;
    let from = address(from)?;
    let count = count(some)?;
    Some(SpelledDeed::Copy { to, from, count })
}

fn deed<'a>(word: &[u8], parts: Option<&'a [u8]>) -> Option<SpelledDeed<'a>>
    ensures { option_and_then deed_spelled result ≡ items.deed word.now (pieces_behind 32 parts.entry) }
{
    if word == WRITE {
        write(parts)
    } else if word == COPY {
        copy(parts)
    } else {
        None
    }
}

fn spelled(line: &[u8]) -> Option<SpelledItem<'_>>
    ensures { option_and_then item_spelled result ≡ items.item_of line.now }
{
    let (number, behind) = cut(b' ', line);
    let (word, parts) = cut(b' ', behind?);
    let step = step(number)?;
    let deed = deed(word, parts)?;
    Some(SpelledItem { step, deed })
}

/// The bytes that these digits stand for, where they are 1 to 4,096.
fn bytes(alloc: Global, digits: &[u8]) -> Result<Option<Bytes>, Memory>
    ensures { IfOk result (λ bytes. bytes ≡ items.bytes digits.now) }
{
    match hex::decode(alloc, digits) {
        Ok(bytes) if (1..=4096).contains(&bytes.len()) => Ok(Some(Bytes::from_vec(bytes))),
        Err(FromHexError::OutOfMemory) => Err(Memory),
        _ => Ok(None),
    }
}

/// What a line says, if it has the form.
pub fn read_item(alloc: Global, line: &[u8]) -> Result<Option<Item>, Memory>
    ensures said { IfOk result (λ item. item ≡ items.item_of line.now) }
    ensures line { IfOk result (λ item. IfSome item (λ said. is_line said ≡ true)) }
{
    let Some(SpelledItem { step, deed }) = spelled(line) else {
        return Ok(None);
    };
    match deed {
        SpelledDeed::Copy { to, from, count } => Ok(Some(Item {
            step,
            deed: Deed::Copy { to, from, count },
        })),
        SpelledDeed::Write { at, digits } => match bytes(alloc, digits)? {
            Some(bytes) => Ok(Some(Item {
                step,
                deed: Deed::Write { at, bytes },
            })),
            None => Ok(None),
        },
    }
}
