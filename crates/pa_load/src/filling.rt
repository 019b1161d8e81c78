ghost use Rattle.std.specs.Prelude.{◌≡◌, ◌≤◌, ◌+◌, ◌<◌, ◌^◌, ◌++◌, [], length, slice_index};
ghost use Rattle.byteorder.specs.Endian.{little_bytes};
ghost use Rattle.pa_fixups.specs.Chain.{put_at};
ghost use Rattle.pa_load.specs.Filling as spec;
ghost use Rattle.pa_load.specs.Filling.{filled, filling_log, slot_address, slot_value, slot_signs};
ghost use Rattle.pa_load.specs.Ready.{PointerFits, SlotReady, AllReady};

use pa_fixups::{Fix, FixKind, Sig};
use pa_log::{Log, When};
use pa_num::Sequence;
use pa_pac::{Pac, modifier, sign};
use std::marker::Model;

/// What the slots of a program are filled from: how far it is moved, the addresses of its first byte and of `__DATA`, and
/// those of its imports.
#[derive(Debug, Drop)]
pub(crate) struct Placed {
    pub shift: u64,
    pub base: u64,
    pub slots_base: u64,
    pub imports: Sequence<u64>,
}

impl Model for Placed {
    ghost use Rattle.pa_load.specs.Filling.{Filling};

    ghost Value = { Filling };

    ghost view = { λ p. record { shift = p.shift; base = p.base; slots_base = p.slots_base; imports = p.imports } };
}

/// An address with an addend.
fn plus(address: u64, addend: i32) -> u64
    requires low { 2 ^ 31 ≤ address }
    requires high { address < 2 ^ 63 }
    ensures { result ≡ spec.plus address addend }
{
    if addend < 0 {
        address - u64::from(addend.unsigned_abs())
    } else {
        address + addend as u64
    }
}

/// How a slot is signed, if it is.
fn sig_of(kind: FixKind) -> Option<Sig>
    ensures { result ≡ spec.sig_of kind }
{
    match kind {
        FixKind::Rebase { .. } | FixKind::Bind { .. } => None,
        FixKind::AuthRebase { sig, .. } | FixKind::AuthBind { sig, .. } => Some(sig),
    }
}

impl Placed {
    /// The address of an import.
    fn import(&self, ordinal: u16) -> u64
        requires { ordinal < length self.now.imports }
        ensures { result ≡ slice_index self.now.imports ordinal }
    {
        self.imports.as_slice()[usize::from(ordinal)]
    }

    /// The pointer that a slot is to hold, before it is signed.
    fn pointer(&self, kind: FixKind) -> u64
        requires { PointerFits self.now kind }
        ensures { result ≡ spec.pointer self.now kind }
    {
        match kind {
            FixKind::Rebase { target, high8 } => target + self.shift + (u64::from(high8) << 56),
            FixKind::Bind { ordinal, addend } => plus(self.import(ordinal), addend),
            FixKind::AuthRebase { target, .. } => self.base + u64::from(target),
            FixKind::AuthBind { ordinal, .. } => self.import(ordinal),
        }
    }
}

/// Puts the eight bytes of a number at a place.
fn put_word(contents: &mut [u8], at: usize, word: u64)
    requires { at + 8 ≤ length contents.old }
    ensures { contents.new ≡ put_at at (little_bytes 8 word) contents.old }
{
    contents[at..at + 8].copy_from_slice(&word.to_le_bytes());
}

/// The value of a slot; where it is signed, that is logged.
fn slot_word<P: Pac>(log: &mut Log, placed: &Placed, fix: &Fix, p: &P) -> u64
    requires room { 0 < log.old.spare }
    requires ready { PointerFits placed.now fix.now.kind }
    requires place { placed.now.slots_base < 2 ^ 63 }
    ensures value { result ≡ slot_value (P.code p.now) placed.now fix.now }
    ensures log { log.new.entries ≡ slot_signs (P.code p.now) placed.now fix.now ++ log.old.entries }
    ensures room { log.old.spare ≤ log.new.spare + 1 }
{
    let raw = placed.pointer(fix.kind);
    let Some(sig) = sig_of(fix.kind) else {
        return raw;
    };
    let at = placed.slots_base + u64::from(fix.at);
    let modifier = modifier(sig.addr, sig.disc, at);
    let signed = sign(p, sig.key, modifier, raw);
    log.push_sign(When::Load, sig.key, modifier, raw, signed);
    signed
}

/// Fills the slots of `__DATA` in their order, and logs each signature.
#[tactic(auto, unfolding(crate::specs::Filling::filled))]
pub(crate) fn fill<P: Pac>(
    contents: &mut [u8],
    log: &mut Log,
    placed: &Placed,
    fixes: &[Fix],
    p: &P,
)
    requires room { length fixes.now ≤ log.old.spare }
    requires empty { log.old.entries ≡ [] }
    requires place { placed.now.slots_base < 2 ^ 63 }
    requires ready { AllReady placed.now (length contents.old) fixes.now }
    ensures contents { contents.new ≡ filled (P.code p.now) placed.now fixes.now contents.old }
    ensures log { log.new.entries ≡ filling_log (P.code p.now) placed.now fixes.now }
{
    let mut rest = fixes;
    while let Some((fix, behind)) = rest.split_first() {
        let word = slot_word(log, placed, fix, p);
        put_word(contents, fix.at as usize, word);
        rest = behind;
    }
}
