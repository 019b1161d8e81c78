ghost use Rattle.std.specs.Prelude.{◌≡◌, ◌≤◌, ◌++◌, min, length, take, drop};

use pa_num::Bytes;

/// Moves as many bytes as fit from the front of `left` to the front of the buffer, and answers how many.
pub(crate) fn move_bytes(left: &mut Bytes, buffer: &mut [u8]) -> usize
    ensures count { result ≡ min (length left.old) (length buffer.old) }
    ensures moved { buffer.new ≡ take result left.old ++ drop result buffer.old }
    ensures left { left.new ≡ drop result left.old }
{
    let count = left.len().min(buffer.len());
    buffer[..count].copy_from_slice(&left.as_slice()[..count]);
    drop_front(left, count);
    count
}

fn drop_front(bytes: &mut Bytes, count: usize)
    requires { count ≤ length bytes.old }
    ensures { bytes.new ≡ drop count bytes.old }
{
    let kept = bytes.len() - count;
    for at in 0..kept {
        let byte = bytes.as_slice()[at + count];
        bytes.set(at, byte);
    }
    for _ in 0..count {
        let _ = bytes.pop();
    }
}
