ghost use Rattle.std.specs.Prelude.{◌≡◌};
ghost use Rattle.pa_sip.specs.Discriminator.{discriminator};

use crate::sip::sip24;

/// The key of discriminators, its sixteen bytes read little-endian in two halves. LLVM's `getPointerAuthStableSipHash`
/// has the same one.
const K0: u64 = 0x794a_1079_ebc9_d4b5;

const K1: u64 = 0xd481_8742_1b8b_ec6f;

/// The discriminator of a text, from 1 to 65,535: its SipHash-2-4 under the key of discriminators modulo 65,535, plus 1
/// (`ptrauth_string_discriminator` of Clang's Pointer Authentication page).
pub fn string_disc(bytes: &[u8]) -> u16
    ensures { result ≡ discriminator bytes.now }
{
    (sip24(K0, K1, bytes) % 65535) as u16 + 1
}

#[cfg(test)]
mod tests {
    use super::string_disc;

    #[test]
    fn agrees_with_llvm(rt: HostRuntime) {
        assert_eq!(rt; string_disc(b""), 59283);
        assert_eq!(rt; string_disc(b"strlen"), 62568);
        assert_eq!(rt; string_disc(b"_ZN1 ind; f"), 11541);
        assert_eq!(rt; string_disc(b"cb"), 6971);
    }
}
