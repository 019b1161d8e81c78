ghost use Rattle.std.specs.Prelude.{◌≡◌, ◌≤◌, ◌<◌, ◌+◌, ◌*◌, ◌++◌, ◌^◌, ◌↔◌, IsTrue, true, length, map, IfOk, OnOk, List};
ghost use Rattle.pa_fixups.specs.Chain.{AreWritable, with_slots};
ghost use Rattle.pa_layout.specs.Fields.{AllFit, two};
ghost use Rattle.pa_slots.specs.Pages as spec;
ghost use Rattle.pa_slots.specs.Pages.{page_size, before, from, cells_from, of_page, page_slots, later_slots};
ghost use Rattle.pa_slots.specs.Slots.{AreSlots, plain_of, slots_with};
ghost use Rattle.pa_slots.specs.Writing as written;
ghost use Rattle.pa_slots.specs.Writing.{SlotFits, EachFits, SlotsFit, PagesWritable};

use crate::slots::{PAGE, SlotsAt};
use pa_fixups::{Fix, Fixes, Starts, write_chain};
use pa_layout::{number_of_eight, put_zeros};
use pa_num::Memory;
use std::alloc::{AllocError, Global};

/// The start of a page that has no slot.
const NO_SLOT: u16 = 0xffff;

/// The slot by its place in its page.
fn in_its_page(fix: &Fix) -> Fix
    ensures { result ≡ of_page (written.page_of fix.now) fix.now }
{
    Fix {
        at: fix.at % 0x4000,
        kind: fix.kind,
    }
}

/// The bytes of `__data` where the slot stands are zero.
fn is_clear(at: &SlotsAt, cells: &[u8], fix: &Fix) -> bool
    requires { fix.now.at + 8 ≤ cells_from at.now + length cells.now }
    ensures { result ≡ written.is_clear at.now cells.now fix.now }
{
    let low = at.cells_from();
    let place = fix.at as usize;
    place < low || number_of_eight(cells, place - low) == 0
}

/// The slot may stand where it is, and hides no byte.
#[tactic(auto, using(crate::proofs::Fits::inside_cells))]
fn slot_fits(at: &SlotsAt, cells: &[u8], fix: &Fix) -> bool
    requires { length cells.now ≡ at.now.cells }
    ensures { IsTrue result ↔ SlotFits at.now cells.now fix.now }
{
    let page = fix.at / 0x4000;
    at.bounds(page).fits(PAGE, &in_its_page(fix)) && is_clear(at, cells, fix)
}

/// `__DATA` can hold these bytes of `__data` and these slots.
pub fn slots_fit(at: &SlotsAt, cells: &[u8], fixes: &[Fix]) -> bool
    ensures { IsTrue result ↔ SlotsFit at.now (slots_with cells.now fixes.now) }
{
    if cells.len() != at.cells as usize {
        return false;
    }
    let mut rest = fixes;
    while let [fix, behind @ ..] = rest {
        if let [next, ..] = behind {
            if next.at <= fix.at {
                return false;
            }
        }
        if !slot_fits(at, cells, fix) {
            return false;
        }
        rest = behind;
    }
    true
}

/// How many of the slots stand before a place.
fn count_before(fixes: &[Fix], limit: u32) -> usize
    ensures value { result ≡ length (before limit fixes.now) }
    ensures within { result ≤ length fixes.now }
{
    let mut count = 0;
    for fix in fixes {
        if fix.at >= limit {
            return count;
        }
        count += 1;
    }
    count
}

/// The slots of the page by their places in it.
fn lowered(alloc: Global, fixes: &[Fix], page: u32) -> Result<Fixes, AllocError>
    requires page { page < 2 ^ 16 }
    ensures { IfOk result (λ made. made ≡ map (of_page page) fixes.now) }
{
    let mut made = Fixes::new(alloc);
    for fix in fixes {
        made.push(Fix {
            at: fix.at.saturating_sub(0x4000 * page),
            kind: fix.kind,
        })?;
    }
    Ok(made)
}

/// Appends a page: these bytes with its slots.
fn append_page(
    alloc: Global,
    out: &mut Vec<u8>,
    plain: &[u8],
    fixes: &[Fix],
) -> Result<(), AllocError>
    requires short { length plain.now ≤ 0x4000 }
    requires fits { AreWritable (length plain.now) fixes.now }
    ensures { OnOk result (out.new.items ≡ out.old.items ++ with_slots plain.now fixes.now) }
{
    let mut page = Vec::from_slice(alloc, plain)?;
    write_chain(&mut page, fixes);
    out.extend_from_slice(&page)?;
    Ok(())
}

/// Where the first slot of a page stands.
fn start_of(fixes: &[Fix]) -> u16
    requires { AreWritable page_size fixes.now }
    ensures { result ≡ written.start_of fixes.now }
{
    match fixes {
        [] => NO_SLOT,
        [fix, ..] => fix.at as u16,
    }
}

/// The bytes of `__DATA`, and the starts of its pages.
#[derive(Debug, Drop)]
pub struct Written {
    pub bytes: Vec<u8>,
    pub starts: Starts,
}

/// The pages in order, where these bytes stand beside the slots.
fn write_pages(alloc: Global, fixes: &[Fix], plain: &[u8], pages: u32) -> Result<Written, Memory>
    requires pages { pages < 2 ^ 16 }
    requires size { length plain.now ≡ page_size * pages }
    requires fits { PagesWritable 0 pages fixes.now }
    ensures bytes { IfOk result (λ made. made.bytes.items ≡ written.pages_of 0 pages fixes.now plain.now) }
    ensures starts { IfOk result (λ made. made.starts ≡ written.starts_of 0 pages fixes.now) }
{
    let mut bytes = Vec::new(alloc);
    let mut starts = Starts::new(alloc);
    let mut rest = fixes;
    let mut left = plain;
    for page in 0..pages {
        let (here, later) = rest.split_at(count_before(rest, 0x4000 * (page + 1)));
        let (front, more) = left.split_at(PAGE);
        let slots = lowered(alloc, here, page)?;
        starts.push(start_of(slots.as_slice()))?;
        append_page(alloc, &mut bytes, front, slots.as_slice())?;
        rest = later;
        left = more;
    }
    Ok(Written { bytes, starts })
}

/// The bytes beside the slots.
#[tactic(auto, unfolding(crate::specs::Slots::plain_of))]
fn plain(alloc: Global, at: &SlotsAt, cells: &[u8], pages: u32) -> Result<Vec<u8>, AllocError>
    requires pages { pages < 2 ^ 16 }
    requires cells { length cells.now ≡ at.now.cells }
    requires inside { cells_from at.now + at.now.cells ≤ page_size * pages }
    ensures { IfOk result (λ bytes. bytes.items ≡ plain_of at.now pages cells.now) }
{
    let low = at.cells_from();
    let mut bytes = Vec::new(alloc);
    put_zeros(&mut bytes, low)?;
    bytes.extend_from_slice(cells)?;
    put_zeros(&mut bytes, PAGE * pages as usize - (low + cells.len()))?;
    Ok(bytes)
}

/// The bytes of `__DATA` of n pages that hold these bytes of `__data` and these slots, and the starts of the pages.
pub fn write_slots(
    alloc: Global,
    at: &SlotsAt,
    cells: &[u8],
    fixes: &[Fix],
    pages: u32,
) -> Result<Written, Memory>
    requires pages { pages < 2 ^ 16 }
    requires inside { cells_from at.now + at.now.cells ≤ page_size * pages }
    requires fits { SlotsFit at.now (slots_with cells.now fixes.now) }
    ensures held { IfOk result (λ made. AreSlots at.now made.starts (slots_with cells.now fixes.now) made.bytes.items) }
    ensures pages { IfOk result (λ made. length made.starts ≡ pages) }
    ensures size { IfOk result (λ made. length made.bytes.items ≡ page_size * pages) }
    ensures starts { IfOk result (λ made. AllFit (map two made.starts)) }
{
    let plain = plain(alloc, at, cells, pages)?;
    let written = write_pages(alloc, fixes, &plain, pages)?;
    Ok(written)
}
