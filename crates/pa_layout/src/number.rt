ghost use Rattle.std.specs.Prelude.{◌≡◌, ◌≤◌, ◌+◌, length};
ghost use Rattle.pa_layout.specs.Fields.{number};

use byteorder::{ByteOrder, LittleEndian};

/// The number in the two bytes from `at` on, little-endian.
pub fn number_of_two(bytes: &[u8], at: usize) -> u16
    requires { at + 2 ≤ length bytes.now }
    ensures { result ≡ number 2 at bytes.now }
{
    LittleEndian::read_u16(&bytes[at..])
}

/// The number in the four bytes from `at` on, little-endian.
pub fn number_of_four(bytes: &[u8], at: usize) -> u32
    requires { at + 4 ≤ length bytes.now }
    ensures { result ≡ number 4 at bytes.now }
{
    LittleEndian::read_u32(&bytes[at..])
}

/// The number in the eight bytes from `at` on, little-endian.
pub fn number_of_eight(bytes: &[u8], at: usize) -> u64
    requires { at + 8 ≤ length bytes.now }
    ensures { result ≡ number 8 at bytes.now }
{
    LittleEndian::read_u64(&bytes[at..])
}
