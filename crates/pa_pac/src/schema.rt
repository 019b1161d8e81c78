ghost use Rattle.std.specs.Prelude.{◌≡◌};
ghost use Rattle.pa_pac.specs.Schema as spec;

use crate::key::Key;
use pa_num::Field;

/// How a pointer is signed: under which key, whether the address that it is stored at takes part, and which
/// discriminator (`__ptrauth` of Clang's Pointer Authentication page).
#[derive(Clone, Copy, Debug, PartialEq, Eq)]
pub struct Schema {
    pub key: Key,
    pub addr: bool,
    pub disc: u16,
}

/// The pointer with bits 63 to 48 replaced by the low 16 bits of the integer (`ptrauth_blend_discriminator`).
pub fn blend(pointer: u64, integer: u64) -> u64
    ensures { result ≡ spec.blend pointer integer }
{
    Field::<48, 16>::put(pointer, integer & 0xFFFF)
}

/// The modifier of a pointer that is stored at `address`: the discriminator, blended with the address where `addr` is set.
pub fn modifier(addr: bool, disc: u16, address: u64) -> u64
    ensures { result ≡ spec.modifier addr disc address }
{
    let disc = u64::from(disc);
    if addr { blend(address, disc) } else { disc }
}

#[cfg(test)]
mod tests {
    use super::{blend, modifier};

    #[test]
    fn blends_the_low_bits(rt: HostRuntime) {
        assert_eq!(rt; blend(0x1_0000_8010, 0x1234), 0x1234_0001_0000_8010);
        assert_eq!(rt;
            blend(0xFFFF_0001_0000_8010, 0x5_1234),
            0x1234_0001_0000_8010
        );
        assert_eq!(rt;
            modifier(true, 0x1234, 0x1_0000_8010),
            0x1234_0001_0000_8010
        );
        assert_eq!(rt; modifier(false, 0x1234, 0x1_0000_8010), 0x1234);
    }
}
