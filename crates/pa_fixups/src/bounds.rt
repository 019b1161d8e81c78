ghost use Rattle.std.specs.Prelude.{◌≡◌, ◌<◌, ◌^◌, ◌↔◌, IsTrue};
ghost use Rattle.pa_fixups.specs.Slots.{FieldsFit};
ghost use Rattle.pa_fixups.specs.Chain.{may_stand, links_on, ordinal_fits, target_fits, FixFits};

use crate::kind::{Fix, FixKind};

/// What the slots of a page are checked against: the page's offset in `__DATA`, the sizes of its sections `__auth_got` and
/// `__data`, the count of imports, and the image's base and size.
#[derive(Clone, Copy, Debug, PartialEq, Eq)]
pub struct Bounds {
    pub page: u32,
    pub got: u32,
    pub cells: u32,
    pub imports: u32,
    pub base: u64,
    pub size: u64,
}

/// Each value of the slot has room in its field.
fn fields_fit(kind: FixKind) -> bool
    ensures { IsTrue result ↔ FieldsFit kind }
{
    match kind {
        FixKind::Rebase { target, .. } => target < 0x800_0000_0000,
        FixKind::Bind { addend, .. } => -0x4_0000 <= addend && addend < 0x4_0000,
        FixKind::AuthRebase { sig, .. } | FixKind::AuthBind { sig, .. } => sig.key.number() < 4,
    }
}

impl Bounds {
    /// The slot may stand where it is in a page of `len` bytes, and its values have room and are allowed.
    #[tactic(auto, using(crate::proofs::Fitting::fix_fits))]
    pub fn fits(&self, len: usize, fix: &Fix) -> bool
        ensures { IsTrue result ↔ FixFits self.now len fix.now }
    {
        fields_fit(fix.kind)
            && self.allows(len, u64::from(fix.at))
            && self.has_ordinal(fix.kind)
            && self.has_target(fix.kind)
    }

    /// A slot may stand there: at a multiple of 8, inside its page of `len` bytes and inside one of the sections.
    #[tactic(auto, unfolding(crate::specs::Chain::may_stand))]
    pub(crate) fn allows(&self, len: usize, at: u64) -> bool
        requires { at < 2 ^ 32 }
        ensures { result ≡ may_stand self.now len at }
    {
        let place = u64::from(self.page) + at;
        let got = u64::from(self.got);
        let cells = (got + 15) / 16 * 16;
        at % 8 == 0
            && at + 8 <= len as u64
            && (place + 8 <= got || (cells <= place && place + 8 <= cells + u64::from(self.cells)))
    }

    #[tactic(auto, unfolding(crate::specs::Chain::ordinal_fits))]
    pub(crate) fn has_ordinal(&self, kind: FixKind) -> bool
        ensures { result ≡ ordinal_fits self.now kind }
    {
        match kind {
            FixKind::Bind { ordinal, .. } | FixKind::AuthBind { ordinal, .. } => {
                u32::from(ordinal) < self.imports
            }
            _ => true,
        }
    }

    #[tactic(auto, unfolding(crate::specs::Chain::target_fits))]
    pub(crate) fn has_target(&self, kind: FixKind) -> bool
        ensures { result ≡ target_fits self.now kind }
    {
        match kind {
            FixKind::Rebase { target, .. } => {
                self.base <= target && target - self.base <= self.size
            }
            FixKind::AuthRebase { target, .. } => u64::from(target) < self.size,
            _ => true,
        }
    }

    pub(crate) fn links_on(&self, len: usize, at: u64, link: u16) -> bool
        requires at { at < 2 ^ 31 }
        requires link { link < 2 ^ 11 }
        ensures { result ≡ links_on self.now len at link }
    {
        link == 0 || self.allows(len, at + 8 * u64::from(link))
    }
}
