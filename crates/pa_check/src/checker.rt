ghost use Rattle.std.specs.Prelude.{◌≡◌, ◌<◌, ◌^◌, ◌*◌, ◌/◌, ◌+◌};
ghost use Rattle.std.specs.Option.{option_or};
ghost use Rattle.pa_macho.specs.Layout.{places_of};
ghost use Rattle.pa_image.specs.Bytes.{header_of};
ghost use Rattle.pa_image.specs.Writing.{IsLegal};
ghost use Rattle.pa_check.specs.Text.{text_of};
ghost use Rattle.pa_check.specs.Rules as rules;
ghost use Rattle.pa_check.specs.Windowed.{first_flaw, first_stub, first_slot, slot_flaw, verdict_of};

use crate::pass::text_flaw;
use crate::rows::{ADDRESS, POINTER};
use crate::rule::{CheckRule, Flaw, Verdict};
use crate::rules::given_rule;
use crate::slots::{first_no_import, unsafe_flaw};
use crate::text::page;
use pa_a64::{BranchAuthenticatedOp, Instr, LoadStoreOp, SumImmediateOp, decode};
use pa_image::{Image, places};

/// Whether an instruction at a place is that part of the stub of the slot at another.
fn is_stub_word(at: u64, slot: u64, part: u64, instr: Option<Instr>) -> bool
    ensures { result ≡ rules.is_stub_word at slot part instr }
{
    match (part, instr) {
        (0, Some(Instr::Adrp { rd, pages })) => rd == ADDRESS
            && page(at, pages) == slot - slot % 4096,
        (
            1,
            Some(
                Instr::SumImmediate {
                    op: SumImmediateOp::Add,
                    rd,
                    rn,
                    imm,
                    shifted,
                },
            ),
        ) => { rd == ADDRESS && rn == ADDRESS && u64::from(imm) == slot % 4096 && !shifted }
        (
            2,
            Some(
                Instr::LoadStore {
                    op: LoadStoreOp::Ldr,
                    rt,
                    rn,
                    imm,
                },
            ),
        ) => rt == POINTER && rn == ADDRESS && imm == 0,
        (
            3,
            Some(
                Instr::BranchAuthenticated {
                    op: BranchAuthenticatedOp::Braa,
                    rn,
                    rm,
                },
            ),
        ) => rn == POINTER && rm == ADDRESS,
        _ => false,
    }
}

/// The lowest rule that word `n` of the stubs breaks.
fn stub_rule(
    image: &Image,
    stubs: u64,
    from: u64,
    n: u64,
    instr: Option<Instr>,
) -> Option<CheckRule>
    requires legal { IsLegal image.now }
    requires stubs { stubs ≡ (text_of image.now).stubs }
    requires place { stubs < 2 ^ 60 }
    requires slots { from < 2 ^ 60 }
    requires number { n < 2 ^ 60 }
    ensures { result ≡ rules.stub_rule (text_of image.now) from (image.now.got / 8) n instr }
{
    let at = stubs + 4 * n;
    if n / 4 < u64::from(image.got / 8) && is_stub_word(at, from + 8 * (n / 4), n % 4, instr) {
        None
    } else {
        Some(given_rule(image, stubs, at, instr, CheckRule::K7))
    }
}

/// The first of the stubs' words that breaks a rule.
fn stub_flaw(image: &Image, stubs: u64, from: u64) -> Option<Flaw>
    requires legal { IsLegal image.now }
    requires stubs { stubs ≡ (text_of image.now).stubs }
    requires place { stubs < 2 ^ 60 }
    requires slots { from < 2 ^ 60 }
    ensures { result ≡ first_stub (text_of image.now) from (image.now.got / 8) 0 image.now.stubs }
{
    let words = image.stubs.as_slice();
    for n in 0..words.len() {
        if let Some(rule) = stub_rule(image, stubs, from, n as u64, decode(words[n])) {
            return Some(Flaw {
                offset: stubs + 4 * n as u64,
                rule,
            });
        }
    }
    None
}

/// The first slot that breaks K5, where `__DATA` begins at this offset.
fn slot_flaw(image: &Image, from: u64) -> Option<Flaw>
    requires legal { IsLegal image.now }
    requires slots { from < 2 ^ 60 }
    ensures { result ≡ first_slot image.now (text_of image.now) from }
{
    match first_no_import(image.fixes.as_slice(), image.got) {
        Some(at) => Some(Flaw {
            offset: from + at,
            rule: CheckRule::K5,
        }),
        None => unsafe_flaw(image, image.role.base(), from),
    }
}

/// The first place of an image that breaks a rule, where the stubs and `__DATA` begin at these offsets.
#[tactic(auto, unfolding(crate::specs::Windowed::first_flaw))]
fn flaw_at(image: &Image, stubs: u64, from: u64) -> Option<Flaw>
    requires legal { IsLegal image.now }
    requires stubs { stubs ≡ (text_of image.now).stubs }
    requires from { from ≡ (places_of (header_of image.now)).got }
    requires place { stubs < 2 ^ 60 }
    requires slots { from < 2 ^ 60 }
    ensures { result ≡ first_flaw image.now }
{
    let flaw = text_flaw(image, stubs);
    if flaw.is_some() {
        return flaw;
    }
    let flaw = stub_flaw(image, stubs, from);
    if flaw.is_some() {
        return flaw;
    }
    slot_flaw(image, from)
}

/// Whether an image is windowed, so that its control flow is kept whatever is written to its memory, or the first place
/// where it breaks a rule: the words of `__text` by number, those of `__auth_stubs`, and then the slots of `__DATA`. It takes
/// no memory, and time in proportion to the image's words, and for calls and pointers to functions to the logarithm of their
/// number.
pub fn check(image: &Image) -> Verdict
    requires { IsLegal image.now }
    ensures { result ≡ verdict_of (first_flaw image.now) }
{
    let places = places(image);
    match flaw_at(image, places.stubs as u64, places.got as u64) {
        None => Verdict::Windowed,
        Some(flaw) => Verdict::Bad {
            offset: flaw.offset,
            rule: flaw.rule,
        },
    }
}
