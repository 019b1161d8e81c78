ghost use Rattle.std.specs.Prelude.{◌≡◌, ◌≤◌, ◌-◌, ◌++◌, length, replicate, OnOk};
ghost use Rattle.pa_layout.specs.Fields.{nonzero_in};

use crate::number::number_of_eight;
use std::alloc::AllocError;

/// The place of the first byte from `low` up to `high` that isn't zero.
pub fn first_nonzero(bytes: &[u8], low: usize, high: usize) -> Option<usize>
    requires order { low ≤ high }
    requires inside { high ≤ length bytes.now }
    ensures { result ≡ nonzero_in low (high - low) bytes.now }
{
    let mut at = low;
    while high - at >= 8 && number_of_eight(bytes, at) == 0 {
        at += 8;
    }
    while at < high {
        if bytes[at] != 0 {
            return Some(at);
        }
        at += 1;
    }
    None
}

/// Appends `count` zeros. Out of memory, the bytes are as before, but for some of the zeros.
pub fn put_zeros(out: &mut Vec<u8>, count: usize) -> Result<(), AllocError>
    ensures { OnOk result (out.new.items ≡ out.old.items ++ replicate count 0) }
{
    for _ in 0..count {
        out.push(0)?;
    }
    Ok(())
}
