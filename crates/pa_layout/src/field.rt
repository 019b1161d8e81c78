ghost use Rattle.std.specs.Prelude.{◌≡◌, ◌≤◌, ◌++◌, length, OnOk};
ghost use Rattle.pa_layout.specs.Fields as spec;

use byteorder::{ByteOrder, LittleEndian};
use std::alloc::AllocError;

/// How many bytes a field has.
#[derive(Clone, Copy, Debug, PartialEq, Eq)]
pub enum Width {
    Two,
    Four,
    Eight,
    Sixteen,
}

impl Width {
    pub fn bytes(self) -> usize
        ensures { result ≡ spec.bytes_in self }
    {
        match self {
            Width::Two => 2,
            Width::Four => 4,
            Width::Eight => 8,
            Width::Sixteen => 16,
        }
    }
}

/// A field of a table: the number that has to stand there, little-endian, and whether it may stand there at all. A value
/// that is wider than its field doesn't fit; none is cut, so sums of sizes that a file tells can be values.
#[derive(Clone, Copy, Debug, PartialEq, Eq)]
pub struct FileField {
    pub width: Width,
    pub value: u128,
    pub allowed: bool,
}

impl FileField {
    ghost use Rattle.pa_layout.specs.Fields.{has_room};

    pub fn two(value: u128) -> FileField
        ensures { result ≡ spec.two value }
    {
        FileField {
            width: Width::Two,
            value,
            allowed: true,
        }
    }

    pub fn four(value: u128) -> FileField
        ensures { result ≡ spec.four value }
    {
        FileField {
            width: Width::Four,
            value,
            allowed: true,
        }
    }

    pub fn eight(value: u128) -> FileField
        ensures { result ≡ spec.eight value }
    {
        FileField {
            width: Width::Eight,
            value,
            allowed: true,
        }
    }

    pub fn sixteen(value: u128) -> FileField
        ensures { result ≡ spec.sixteen value }
    {
        FileField {
            width: Width::Sixteen,
            value,
            allowed: true,
        }
    }

    /// The field, which may only stand there where the test holds.
    pub fn only_if(self, test: bool) -> FileField
        ensures { result ≡ spec.only_if test self }
    {
        FileField {
            allowed: test,
            ..self
        }
    }

    /// The number has room in its bytes, and may stand there.
    pub fn fits(&self) -> bool
        ensures { result ≡ has_room self.now }
    {
        let value = self.value;
        self.allowed
            && match self.width {
                Width::Two => value < 0x1_0000,
                Width::Four => value < 0x1_0000_0000,
                Width::Eight => value < 0x1_0000_0000_0000_0000,
                Width::Sixteen => true,
            }
    }
}

/// The place of the first field that doesn't stand in the bytes, where the fields stand one after another from `start` on.
pub fn first_wrong(bytes: &[u8], start: usize, fields: &[FileField]) -> Option<usize>
    requires { start ≤ length bytes.now }
    ensures { result ≡ spec.wrong_from start fields.now bytes.now }
{
    let mut at = start;
    for field in fields {
        let width = field.width.bytes();
        if bytes.len() - at < width {
            return Some(at);
        }
        if LittleEndian::read_uint128(&bytes[at..], width) != field.value || !field.allowed {
            return Some(at);
        }
        at += width;
    }
    None
}

/// Appends the bytes of the fields. Out of memory, the bytes are as before, but for a front of the new ones.
pub fn put_fields(out: &mut Vec<u8>, fields: &[FileField]) -> Result<(), AllocError>
    requires { spec.AllFit fields.now }
    ensures { OnOk result (out.new.items ≡ out.old.items ++ spec.spelled fields.now) }
{
    for field in fields {
        let mut buffer = [0; 16];
        let width = field.width.bytes();
        LittleEndian::write_uint128(&mut buffer, field.value, width);
        out.extend_from_slice(&buffer[..width])?;
    }
    Ok(())
}

/// Each field fits.
pub fn all_fit(fields: &[FileField]) -> bool
    ensures { result ≡ spec.all_have_room fields.now }
{
    for field in fields {
        if !field.fits() {
            return false;
        }
    }
    true
}
