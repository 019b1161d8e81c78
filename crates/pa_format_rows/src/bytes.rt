ghost use Rattle.std.specs.Prelude.{◌≡◌, length, IfOk};

use std::alloc::{AllocError, Global};

/// `len` zeros.
pub(crate) fn zeros(alloc: Global, len: usize) -> Result<Vec<u8>, AllocError>
    ensures { IfOk result (λ bytes. length bytes.items ≡ len) }
{
    vec![in alloc; 0; len]
}

/// Puts a word at a place, if it has room there.
pub(crate) fn put(bytes: &mut [u8], at: usize, word: u64)
    ensures { length bytes.new ≡ length bytes.old }
{
    if at < bytes.len() && bytes.len() - at >= 8 {
        bytes[at..at + 8].copy_from_slice(&word.to_le_bytes());
    }
}
