ghost use Rattle.std.specs.Prelude.{◌≡◌, ◌≤◌, ◌+◌, ◌^◌, ◌<◌, length, map, IfOk, true, List};
ghost use Rattle.pa_num.specs.declared.fault.ImageRule.TheVariants.{F3};
ghost use Rattle.pa_layout.specs.Flaws.{Answers, AnswersOrMemory, GivesOrMemory, Holds, flaw_of, first};
ghost use Rattle.pa_fixups.specs.declared.kind.Fix.{Fix};
ghost use Rattle.pa_fixups.specs.Slots.{kind_of, next_of, zeros_hold};
ghost use Rattle.pa_fixups.specs.Chain.{IsChain, chain_flaw, may_stand, word_at, link_at, fix_at, chain_places, slot_checks, slots_flaw};

use crate::bounds::Bounds;
use crate::kind::{Fix, FixKind, Fixes};
use crate::slot::read_slot;
use pa_layout::{Flaw, check, number_of_eight};
use pa_num::{Fault, ImageRule};
use std::alloc::Global;

/// The place that tells that a page's first slot may not stand where it should: no offset in a page.
const NO_PLACE: u64 = 65536;

#[tactic(auto, using(crate::proofs::Walk::slot_ok, crate::proofs::Walk::slot_err))]
/// What the word of a slot says, and its link, or F3 at its place.
fn slot_in(page: &[u8], at: usize) -> Result<(FixKind, u16), Flaw>
    requires { at + 8 ≤ length page.now }
    ensures value { IfOk result (λ slot. slot ≡ (kind_of (word_at page.now at), link_at page.now at)) }
    ensures exact { Answers result (flaw_of (Holds F3 at (zeros_hold (word_at page.now at))) page.now) }
{
    match read_slot(number_of_eight(page, at)) {
        Ok(slot) => Ok(slot),
        Err(rule) => Err(Flaw {
            rule,
            place: at as u64,
        }),
    }
}

#[tactic(auto, using(crate::proofs::Walk::stands_inside), unfolding(crate::specs::Chain::slot_checks))]
/// The slot at a place where one may stand, and its link, after its checks.
fn slot_at(page: &[u8], at: usize, bounds: &Bounds) -> Result<(Fix, u16), Flaw>
    requires short { length page.now ≤ 0x4000 }
    requires here { may_stand bounds.now (length page.now) at ≡ true }
    ensures value { IfOk result (λ slot. slot ≡ (fix_at page.now at, link_at page.now at)) }
    ensures exact { Answers result (first (slot_checks bounds.now page.now at) page.now) }
{
    let place = at as u64;
    let (kind, link) = slot_in(page, at)?;
    check(page, ImageRule::F5, place, bounds.has_ordinal(kind))?;
    check(page, ImageRule::F6, place, bounds.has_target(kind))?;
    check(
        page,
        ImageRule::F4,
        place,
        bounds.links_on(page.len(), place, link),
    )?;
    let fix = Fix {
        at: at as u32,
        kind,
    };
    Ok((fix, link))
}

/// The slots from a place where one may stand, along the links, or the first flaw.
fn read_slots(
    alloc: Global,
    page: &[u8],
    first: usize,
    bounds: &Bounds,
) -> Result<Fixes, Fault<ImageRule>>
    requires short { length page.now ≤ 0x4000 }
    requires here { may_stand bounds.now (length page.now) first ≡ true }
    ensures value { IfOk result (λ fixes. fixes ≡ map (λ at. fix_at page.now at) (chain_places bounds.now page.now first)) }
    ensures exact { AnswersOrMemory result (slots_flaw bounds.now page.now first) }
{
    let mut fixes = Fixes::new(alloc);
    let mut at = first;
    loop {
        let (fix, link) = slot_at(page, at, bounds)?;
        fixes.push(fix)?;
        if link == 0 {
            return Ok(fixes);
        }
        at += 8 * usize::from(link);
    }
}

/// The slots of a page along its chain, the first at the offset `first`, or the first flaw with its place in the page. Where
/// the first slot may not stand there, that is F4 at 65,536.
pub fn read_chain(
    alloc: Global,
    page: &[u8],
    first: u16,
    bounds: &Bounds,
) -> Result<Fixes, Fault<ImageRule>>
    requires short { length page.now ≤ 0x4000 }

    // What is read is the page's chain, and where the page has a chain, it is read.
    ensures found { IfOk result (IsChain bounds.now page.now first) }
    ensures only { (fixes : List Fix) → IsChain bounds.now page.now first fixes → GivesOrMemory fixes result }
    ensures flaw { AnswersOrMemory result (chain_flaw bounds.now page.now first) }
{
    if !bounds.allows(page.len(), first as u64) {
        return Err(Fault::Refused {
            rule: ImageRule::F4,
            place: NO_PLACE,
        });
    }
    read_slots(alloc, page, first as usize, bounds)
}
