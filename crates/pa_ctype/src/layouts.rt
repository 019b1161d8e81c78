ghost use Rattle.std.specs.Prelude.{◌≡◌, ◌≤◌};
ghost use Rattle.pa_ctype.specs.Layouts as spec;

use crate::ctype::Layout;

/// The most bytes that a type may have.
pub(crate) const MOST_BYTES: u64 = 4_294_967_295;

/// The layout of an object of so many bytes whose address is a multiple of that many.
pub(crate) fn aligned_to_size(bytes: u64) -> Layout
    ensures { result ≡ spec.aligned_to_size bytes }
{
    Layout {
        size: bytes,
        align: bytes,
    }
}

/// The layout, where it has no more bytes than a type may have.
pub(crate) fn small(layout: Layout) -> Option<Layout>
    ensures { result ≡ spec.small layout }
{
    if layout.size <= MOST_BYTES {
        Some(layout)
    } else {
        None
    }
}

/// The layout of an integer of so many bits.
pub(crate) fn integer_layout(bits: u8) -> Option<Layout>
    ensures { result ≡ spec.integer_layout bits }
{
    match bits {
        8 | 16 | 32 | 64 => Some(aligned_to_size(u64::from(bits / 8))),
        _ => None,
    }
}

/// Elements side by side.
pub(crate) fn times(count: u64, of: Layout) -> Option<Layout>
    ensures { result ≡ spec.times count of }
{
    if count == 0 {
        return None;
    }
    small(Layout {
        size: count.checked_mul(of.size)?,
        align: of.align,
    })
}

/// One more member behind those that are laid so far, at a multiple of its alignment.
pub(crate) fn placed(so_far: Layout, next: Layout) -> Layout
    requires bytes { so_far.size ≤ spec.most_bytes }
    requires positive { 1 ≤ next.align }
    requires align { next.align ≤ 8 }
    requires size { next.size ≤ spec.most_bytes }
    ensures { result ≡ spec.placed so_far next }
{
    Layout {
        size: so_far.size.next_multiple_of(next.align) + next.size,
        align: so_far.align.max(next.align),
    }
}

/// The whole struct, with padding at its end.
pub(crate) fn padded(layout: Layout) -> Option<Layout>
    requires bytes { layout.size ≤ spec.most_bytes }
    requires positive { 1 ≤ layout.align }
    requires align { layout.align ≤ 8 }
    ensures { result ≡ spec.padded layout }
{
    small(Layout {
        size: layout.size.next_multiple_of(layout.align),
        align: layout.align,
    })
}
