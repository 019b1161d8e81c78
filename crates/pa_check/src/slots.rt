ghost use Rattle.std.specs.Prelude.{◌≡◌, ◌/◌, ◌%◌, ◌*◌, ◌+◌, ◌<◌, ◌^◌, ◌==◌, ◌&&◌, ℕ, All, IfSome, slice_index_or};
ghost use Rattle.std.specs.Bool.{OnTrue};
ghost use Rattle.pa_image.specs.Writing.{IsLegal};
ghost use Rattle.pa_slots.specs.Pages.{AreRising};
ghost use Rattle.pa_check.specs.declared.rule.CheckRule.TheVariants as rule;
ghost use Rattle.pa_check.specs.Windowed as windowed;
ghost use Rattle.pa_check.specs.Slots as slots;
ghost use Rattle.pa_check.specs.Slots.{no_fix};
ghost use Rattle.pa_check.specs.Text.{text_of};

use crate::rule::{CheckRule, Flaw};
use crate::text::is_entry;
use pa_fixups::{Fix, FixKind};
use pa_image::Image;
use pa_pac::Key;

/// Whether a slot is an import's: signed under IA with its own address.
fn is_import(kind: FixKind) -> bool
    ensures { result ≡ slots.is_import kind }
{
    match kind {
        FixKind::AuthBind { sig, .. } => sig.key == Key::IA && sig.addr && sig.disc == 0,
        _ => false,
    }
}

/// Whether a slot of an image with this base holds no code pointer, or a signed one to a function or an import under IA.
fn is_safe(image: &Image, base: u64, kind: FixKind) -> bool
    requires { IsLegal image.now }
    ensures { result ≡ slots.is_safe (text_of image.now) base kind }
{
    match kind {
        FixKind::Rebase { target, .. } => !is_entry(image, target.saturating_sub(base)),
        FixKind::Bind { .. } => false,
        FixKind::AuthRebase { target, sig } => sig.key == Key::IA
            && is_entry(image, u64::from(target)),
        FixKind::AuthBind { sig, .. } => sig.key == Key::IA,
    }
}

/// Whether a slot may hold what it holds.
fn may_hold(image: &Image, base: u64, fix: Fix) -> bool
    requires { IsLegal image.now }
    ensures { result ≡ slots.may_hold (text_of image.now) base image.now.got fix }
{
    if fix.at < image.got {
        is_import(fix.kind)
    } else {
        is_safe(image, base, fix.kind)
    }
}

/// Whether a slot stands there and is an import's.
fn is_import_at(fix: Fix, at: u64) -> bool
    ensures { result ≡ (fix.at == at && slots.is_import fix.kind) }
{
    u64::from(fix.at) == at && is_import(fix.kind)
}

/// Whether the slot of this number is an import's, where those before it stand one behind the other.
fn has_import(fixes: &[Fix], i: usize) -> bool
    requires rising { AreRising fixes.now }
    requires aligned { All (λ fix. fix.at % 8 ≡ 0) fixes.now }
    requires before { (j : ℕ) → j < i → (slice_index_or fixes.now j no_fix).at ≡ 8 * j }
    requires small { i < 2 ^ 60 }
    ensures value { result ≡ slots.has_import fixes.now (8 * i) }
    ensures there { OnTrue result ((slice_index_or fixes.now i no_fix).at ≡ 8 * i) }
{
    if i < fixes.len() {
        is_import_at(fixes[i], 8 * i as u64)
    } else {
        false
    }
}

/// The first slot of `__auth_got`, by its place in `__DATA`, that isn't an import's.
pub(crate) fn first_no_import(fixes: &[Fix], got: u32) -> Option<u64>
    requires rising { AreRising fixes.now }
    requires aligned { All (λ fix. fix.at % 8 ≡ 0) fixes.now }
    ensures value { result ≡ slots.first_no_import fixes.now 0 (got / 8) }
    ensures small { IfSome result (λ at. at < 2 ^ 40) }
{
    for i in 0..(got / 8) as usize {
        if !has_import(fixes, i) {
            return Some(8 * i as u64);
        }
    }
    None
}

/// The flaw of a slot, where `__DATA` begins at an offset.
fn slot_flaw(from: u64, at: u32) -> Flaw
    requires { from < 2 ^ 60 }
    ensures { result ≡ record { offset = from + at; rule = rule.K5 } }
{
    Flaw {
        offset: from + u64::from(at),
        rule: CheckRule::K5,
    }
}

/// The first slot that may not hold what it holds, where `__DATA` begins at an offset.
pub(crate) fn unsafe_flaw(image: &Image, base: u64, from: u64) -> Option<Flaw>
    requires legal { IsLegal image.now }
    requires place { from < 2 ^ 60 }
    ensures { result ≡ windowed.slot_flaw from (slots.first_unsafe (text_of image.now) base image.now.got image.now.fixes) }
{
    let fixes = image.fixes.as_slice();
    for i in 0..fixes.len() {
        if !may_hold(image, base, fixes[i]) {
            return Some(slot_flaw(from, fixes[i].at));
        }
    }
    None
}
