ghost use Rattle.std.specs.Prelude.{◌≡◌, ◌<◌, ◌^◌, ℕ, ◌∷◌, ◌++◌};
ghost use Rattle.std.specs.Int.{w64, to_le_bytes};
ghost use Rattle.pa_pac.specs.declared.key.Key.{Key};
ghost use Rattle.pa_pac.specs.Key.{key_number};
ghost use Rattle.pa_pac.specs.Functions.{table_value};

use crate::key::Key;
use pa_num::Sequence;
use pa_sip::sip24;

/// A function from a key, a pointer and a modifier to the authentication code of the pointer: any that gives numbers of
/// 64 bits, and equal codes for equal arguments.
pub trait Pac {
    ghost code: { Self → Key → ℕ → ℕ → ℕ };

    fn pac(&self, key: Key, pointer: u64, modifier: u64) -> u64
        ensures { result ≡ code self.now key pointer modifier };

    ghost fits: { (p : Self) (key : Key) (pointer modifier : ℕ) → pointer < 2 ^ 64 → modifier < 2 ^ 64 → code p key pointer modifier < 2 ^ 64 };
}

/// No code at all: every signature is the pointer itself.
#[derive(Clone, Copy, Debug, PartialEq, Eq)]
pub struct ZeroPac;

impl Pac for ZeroPac {
    ghost use Rattle.std.proofs.Common.{lit<};

    ghost code = { λ _ _ _ _. 0 };

    fn pac(&self, _: Key, _: u64, _: u64) -> u64 {
        0
    }

    ghost fits = { λ _ _ _ _ _ _. lit< tt };
}

/// SipHash-2-4, under a key of two halves, of 17 bytes: the key's number, the pointer and the modifier, both little-endian.
#[derive(Clone, Copy, Debug, PartialEq, Eq)]
pub struct SipPac {
    pub k0: u64,
    pub k1: u64,
}

impl Pac for SipPac {
    ghost use Rattle.pa_pac.specs.Functions.{sip_value};
    ghost use Rattle.pa_pac.specs.Fits.{sip_value-fits};

    ghost code = { λ p. sip_value p.k0 p.k1 };

    fn pac(&self, key: Key, pointer: u64, modifier: u64) -> u64 {
        sip24(self.k0, self.k1, &sip_message(key, pointer, modifier))
    }

    ghost fits = { λ p key pointer modifier _ _. sip_value-fits p.k0 p.k1 key pointer modifier };
}

fn sip_message(key: Key, pointer: u64, modifier: u64) -> [u8; 17]
    ensures { result ≡ key_number key ∷ (to_le_bytes w64 pointer ++ to_le_bytes w64 modifier) }
{
    let mut message = [0; 17];
    message[0] = key.number();
    message[1..9].copy_from_slice(&pointer.to_le_bytes());
    message[9..].copy_from_slice(&modifier.to_le_bytes());
    message
}

/// The exclusive or of the 16-bit parts of the pointer and the modifier and of the key's number, in bits 63 to 48: a code
/// that is easy to compute by hand, and easy to forge.
#[derive(Clone, Copy, Debug, PartialEq, Eq)]
pub struct FoldPac;

impl Pac for FoldPac {
    ghost use Rattle.pa_pac.specs.Functions.{fold_value};
    ghost use Rattle.pa_pac.specs.Fits.{fold_value-fits};

    ghost code = { λ _. fold_value };

    fn pac(&self, key: Key, pointer: u64, modifier: u64) -> u64 {
        let x = pointer ^ modifier;
        let folded = ((x & 0xFFFF) ^ (x >> 16 & 0xFFFF))
            ^ ((x >> 32 & 0xFFFF) ^ (x >> 48 & 0xFFFF));
        (folded ^ u64::from(key.number())) << 48
    }

    ghost fits = { λ _ key pointer modifier _ _. fold_value-fits key pointer modifier };
}

/// The code of one key, pointer and modifier.
#[derive(Clone, Copy, Debug, PartialEq, Eq)]
pub struct PacRow {
    pub key: Key,
    pub pointer: u64,
    pub modifier: u64,
    pub value: u64,
}

impl PacRow {
    ghost use Rattle.pa_pac.specs.Functions.{is_for};

    fn is_for(&self, key: Key, pointer: u64, modifier: u64) -> bool
        ensures { result ≡ is_for self.now key pointer modifier }
    {
        self.key == key && self.pointer == pointer && self.modifier == modifier
    }
}

/// Rows in order.
pub type PacRows = Sequence<PacRow>;

/// The code of the first row with the key, pointer and modifier, and 0 where there is none. A run asks for finitely many
/// codes, so what holds for every table holds for every function.
#[derive(Debug, Drop)]
pub struct TablePac {
    pub rows: PacRows,
}

impl Pac for TablePac {
    ghost use Rattle.pa_pac.specs.Functions.{table_value};
    ghost use Rattle.pa_pac.specs.Fits.{table_value-fits};

    ghost code = { λ p. table_value p.rows };

    fn pac(&self, key: Key, pointer: u64, modifier: u64) -> u64 {
        table_code(self.rows.as_slice(), key, pointer, modifier)
    }

    ghost fits = { λ p key pointer modifier _ _. table_value-fits p.rows key pointer modifier };
}

fn table_code(rows: &[PacRow], key: Key, pointer: u64, modifier: u64) -> u64
    ensures { result ≡ table_value rows.now key pointer modifier }
{
    let mut rest = rows;
    while let Some((row, tail)) = rest.split_first() {
        if row.is_for(key, pointer, modifier) {
            return row.value;
        }
        rest = tail;
    }
    0
}

#[cfg(test)]
mod tests {
    use super::{Pac, PacRow, SipPac, TablePac, ZeroPac};
    use crate::key::Key;
    use pa_num::Sequence;
    use std::test::Fail;

    #[test]
    fn takes_the_first_row(rt: HostRuntime) -> Result<(), Fail> {
        let row = PacRow {
            key: Key::IB,
            pointer: 0x1000,
            modifier: 8,
            value: 0x1111 << 48,
        };
        let other = PacRow {
            value: 0x2222 << 48,
            ..row
        };
        let rows = Sequence::from_slice(rt.alloc(), &[row, other])?;
        let table = TablePac { rows };
        assert_eq!(rt; table.pac(Key::IB, 0x1000, 8), 0x1111 << 48);
        assert_eq!(rt; table.pac(Key::IA, 0x1000, 8), 0);
        assert_eq!(rt; table.pac(Key::IB, 0x1000, 9), 0);
        assert_eq!(rt; ZeroPac.pac(Key::IB, 0x1000, 8), 0);
        Ok(())
    }

    /// The value is that of `tools/siphash.py`.
    #[test]
    fn hashes_the_number_of_the_key_first(rt: HostRuntime) {
        let sip = SipPac {
            k0: 0x0706_0504_0302_0100,
            k1: 0x0f0e_0d0c_0b0a_0908,
        };
        let code = sip.pac(Key::DA, 0x1_0000_8010, 0x1234);
        assert_eq!(rt; code, 0x8e00_7196_85d6_946a);
    }
}
