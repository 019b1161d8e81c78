ghost use Rattle.std.specs.Prelude.{◌≡◌, ◌≤◌, ◌<◌, ◌+◌, ◌*◌, ◌++◌, ◌^◌, length, map, IfOk, OnOk, List};
ghost use Rattle.pa_layout.specs.Flaws.{Answers, AnswersOrMemory, GivesOrMemory};
ghost use Rattle.pa_fixups.specs.Chain.{AreWritable, without_slots};
ghost use Rattle.pa_slots.specs.declared.slots.Slots.{Slots};
ghost use Rattle.pa_slots.specs.Pages as spec;
ghost use Rattle.pa_slots.specs.Pages.{Below, in_page, page_size, page_flaw, pages_flaw, chain_in, slots_in, plain_in, cells_from};
ghost use Rattle.pa_slots.specs.Slots.{AreSlots, beside, slots_flaw, taken};

use crate::slots::{PAGE, Slots, SlotsAt};
use pa_fixups::{Fix, Fixes, erase_slots, read_chain};
use pa_layout::{Flaw, first_nonzero};
use pa_num::{Bytes, Fault, ImageRule};
use std::alloc::{AllocError, Global};

/// The start of a page that has no slot.
const NO_SLOT: u16 = 0xffff;

/// The place that `read_chain` tells where a page's first slot may not stand where it should.
const NO_PLACE: u64 = 65536;

/// Where a flaw in a page is told in the file.
fn told_place(at: &SlotsAt, page: u32, place: u64) -> u64
    requires page { page < 2 ^ 16 }
    requires place { place < 2 ^ 32 }
    requires starts { at.now.starts < 2 ^ 62 }
    requires here { at.now.place < 2 ^ 62 }
    ensures { result ≡ spec.told_place at.now page place }
{
    if place == NO_PLACE {
        at.starts + 2 * u64::from(page)
    } else {
        at.place + (0x4000 * u64::from(page) + place)
    }
}

/// The slots of a page along its chain.
fn read_page(
    alloc: Global,
    at: &SlotsAt,
    page: u32,
    start: u16,
    bytes: &[u8],
) -> Result<Fixes, Fault<ImageRule>>
    requires page { page < 2 ^ 16 }
    requires starts { at.now.starts < 2 ^ 62 }
    requires here { at.now.place < 2 ^ 62 }
    requires size { length bytes.now ≡ page_size }
    ensures value { IfOk result (λ fixes. fixes ≡ chain_in at.now page start bytes.now) }
    ensures below { IfOk result (Below page_size) }
    ensures writable { IfOk result (AreWritable (length bytes.now)) }
    ensures exact { AnswersOrMemory result (page_flaw at.now page start bytes.now) }
{
    if start == NO_SLOT {
        return Ok(Fixes::new(alloc));
    }
    match read_chain(alloc, bytes, start, &at.bounds(page)) {
        Ok(fixes) => Ok(fixes),
        Err(Fault::Refused { rule, place }) => Err(Fault::Refused {
            rule,
            place: told_place(at, page, place),
        }),
        Err(Fault::Memory) => Err(Fault::Memory),
    }
}

/// Appends the page's slots by their offsets in `__DATA`.
fn append_slots(out: &mut Fixes, fixes: &[Fix], page: u32) -> Result<(), AllocError>
    requires page { page < 2 ^ 16 }
    requires below { Below page_size fixes.now }
    ensures { OnOk result (out.new ≡ out.old ++ map (in_page page) fixes.now) }
{
    for fix in fixes {
        out.push(Fix {
            at: 0x4000 * page + fix.at,
            kind: fix.kind,
        })?;
    }
    Ok(())
}

/// Appends the page's bytes with zeros for its slots.
fn append_plain(
    alloc: Global,
    out: &mut Vec<u8>,
    bytes: &[u8],
    fixes: &[Fix],
) -> Result<(), AllocError>
    requires { AreWritable (length bytes.now) fixes.now }
    ensures value { OnOk result (out.new.items ≡ out.old.items ++ without_slots bytes.now fixes.now) }
    ensures size { OnOk result (length out.new.items ≡ length out.old.items + length bytes.now) }
{
    let mut plain = Vec::from_slice(alloc, bytes)?;
    erase_slots(&mut plain, fixes);
    out.extend_from_slice(&plain)?;
    Ok(())
}

/// The slots of all pages, and the bytes beside them.
#[derive(Debug, Drop)]
struct Pages {
    fixes: Fixes,
    plain: Vec<u8>,
}

/// The pages in order.
fn read_pages(
    alloc: Global,
    at: &SlotsAt,
    starts: &[u16],
    bytes: &[u8],
) -> Result<Pages, Fault<ImageRule>>
    requires pages { length starts.now < 2 ^ 16 }
    requires starts { at.now.starts < 2 ^ 62 }
    requires here { at.now.place < 2 ^ 62 }
    requires size { length bytes.now ≡ page_size * length starts.now }
    ensures fixes { IfOk result (λ pages. pages.fixes ≡ slots_in at.now 0 starts.now bytes.now) }
    ensures plain { IfOk result (λ pages. pages.plain.items ≡ plain_in at.now 0 starts.now bytes.now) }
    ensures length { IfOk result (λ pages. length pages.plain.items ≡ length bytes.now) }
    ensures exact { AnswersOrMemory result (pages_flaw at.now 0 starts.now bytes.now) }
{
    let mut fixes = Fixes::new(alloc);
    let mut plain = Vec::new(alloc);
    let mut rest = bytes;
    let mut page = 0;
    for start in starts {
        let (bytes, more) = rest.split_at(PAGE);
        let slots = read_page(alloc, at, page, *start, bytes)?;
        append_plain(alloc, &mut plain, bytes, slots.as_slice())?;
        append_slots(&mut fixes, slots.as_slice(), page)?;
        rest = more;
        page += 1;
    }
    Ok(Pages { fixes, plain })
}

/// Beside slots and `__data` all is zero.
fn check_beside(at: &SlotsAt, plain: &[u8], low: usize, high: usize) -> Result<(), Flaw>
    requires here { at.now.place < 2 ^ 62 }
    requires order { low ≤ high }
    requires inside { high ≤ length plain.now }
    ensures { Answers result (beside at.now low high plain.now) }
{
    match first_nonzero(plain, low, high) {
        None => Ok(()),
        Some(place) => Err(Flaw {
            rule: ImageRule::H3,
            place: at.place + place as u64,
        }),
    }
}

/// The bytes of `__data` and the slots, once all checks have passed.
#[tactic(auto, unfolding(crate::specs::Slots::slots_flaw, crate::specs::Slots::taken))]
fn read_parts(
    alloc: Global,
    at: &SlotsAt,
    starts: &[u16],
    bytes: &[u8],
) -> Result<Slots, Fault<ImageRule>>
    requires pages { length starts.now < 2 ^ 16 }
    requires starts { at.now.starts < 2 ^ 62 }
    requires here { at.now.place < 2 ^ 62 }
    requires size { length bytes.now ≡ page_size * length starts.now }
    requires inside { cells_from at.now + at.now.cells ≤ length bytes.now }
    ensures value { IfOk result (λ slots. slots ≡ taken at.now starts.now bytes.now) }
    ensures exact { AnswersOrMemory result (slots_flaw at.now starts.now bytes.now) }
{
    let Pages { fixes, plain } = read_pages(alloc, at, starts, bytes)?;
    let low = at.cells_from();
    let high = low + at.cells as usize;
    check_beside(at, &plain, 0, low)?;
    check_beside(at, &plain, high, plain.len())?;
    let cells = Bytes::from_slice(alloc, &plain[low..high])?;
    Ok(Slots { cells, fixes })
}

/// What `__DATA` holds, whose pages have these starts, or the first flaw with its place in the file.
pub fn read_slots(
    alloc: Global,
    at: &SlotsAt,
    starts: &[u16],
    bytes: &[u8],
) -> Result<Slots, Fault<ImageRule>>
    requires pages { length starts.now < 2 ^ 16 }
    requires starts { at.now.starts < 2 ^ 62 }
    requires here { at.now.place < 2 ^ 62 }
    requires size { length bytes.now ≡ page_size * length starts.now }
    requires inside { cells_from at.now + at.now.cells ≤ length bytes.now }

    // What is read is what the bytes hold, and what they hold is read.
    ensures found { IfOk result (λ slots. AreSlots at.now starts.now slots bytes.now) }
    ensures only { (slots : Slots) → AreSlots at.now starts.now slots bytes.now → GivesOrMemory slots result }
    ensures flaw { AnswersOrMemory result (slots_flaw at.now starts.now bytes.now) }
{
    read_parts(alloc, at, starts, bytes)
}
