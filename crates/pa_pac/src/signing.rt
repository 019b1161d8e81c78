ghost use Rattle.std.specs.Prelude.{◌≡◌, IfOk, MatchResult, Some, None};
ghost use Rattle.pa_pac.specs.Signing as spec;

use crate::key::Key;
use crate::pac::Pac;
use thiserror::Error;

/// The authentication code was not the one of this key, modifier and address.
#[derive(Clone, Copy, Debug, PartialEq, Eq, Error)]
#[error("the authentication code does not fit")]
pub struct NotCanonical;

const MASK: u64 = 0xFF7F_0000_0000_0000;

/// The address of a value: bits 63 to 48 made equal to bit 55.
pub fn canonical(value: u64) -> u64
    ensures { result ≡ spec.canonical value }
{
    let address = value & 0xFFFF_FFFF_FFFF;
    if value >> 55 & 1 == 1 {
        address + 0xFFFF_0000_0000_0000
    } else {
        address
    }
}

fn covered<P: Pac>(p: &P, key: Key, modifier: u64, value: u64) -> u64
    ensures { result ≡ spec.covered (P.code p.now) key modifier value }
{
    value ^ (p.pac(key, canonical(value), modifier) & MASK)
}

/// The signed form of `raw` under the key and modifier. What is signed from a canonical address is accepted.
pub fn sign<P: Pac>(p: &P, key: Key, modifier: u64, raw: u64) -> u64
    ensures value { result ≡ spec.sign (P.code p.now) key modifier raw }
    ensures accepted { spec.canonical raw ≡ raw → spec.auth (P.code p.now) key modifier result ≡ Some raw }
{
    covered(p, key, modifier, raw)
}

/// The address that `value` was signed from under this key and modifier. It is refused exactly where what lies under the
/// code isn't canonical.
pub fn auth<P: Pac>(p: &P, key: Key, modifier: u64, value: u64) -> Result<u64, NotCanonical>
    ensures value { MatchResult result (λ raw. spec.auth (P.code p.now) key modifier value ≡ Some raw) (λ _. spec.auth (P.code p.now) key modifier value ≡ None) }
    ensures signed { IfOk result (λ raw. (spec.canonical raw ≡ raw) × (spec.sign (P.code p.now) key modifier raw ≡ value)) }
{
    let raw = covered(p, key, modifier, value);
    if raw == canonical(raw) {
        Ok(raw)
    } else {
        Err(NotCanonical)
    }
}

#[cfg(test)]
mod tests {
    use super::{NotCanonical, auth, canonical, sign};
    use crate::key::Key;
    use crate::pac::FoldPac;

    #[test]
    fn accepts_under_its_own_modifier_and_one_that_folds_alike(rt: HostRuntime) {
        let signed = sign(&FoldPac, Key::IA, 0x1234, 0x1_0000_8010);
        assert_eq!(rt; signed, 0x9225_0001_0000_8010);
        assert_eq!(rt; auth(&FoldPac, Key::IA, 0x1234, signed), Ok(0x1_0000_8010));
        assert_eq!(rt; auth(&FoldPac, Key::IA, 0x1235, signed), Err(NotCanonical));
        assert_eq!(rt; auth(&FoldPac, Key::IA, 0x12b4, signed), Ok(0x1_0000_8010));
        assert_eq!(rt; auth(&FoldPac, Key::IB, 0x1234, signed), Err(NotCanonical));
    }

    #[test]
    fn extends_the_selector(rt: HostRuntime) {
        assert_eq!(rt; canonical(0x9225_0001_0000_8010), 0x1_0000_8010);
        assert_eq!(rt; canonical(0x0080_0000_0000_0010), 0xFFFF_0000_0000_0010);
    }
}
