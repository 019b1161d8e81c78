ghost use Rattle.std.specs.Prelude.{◌≡◌, ◌≤◌, ◌+◌, ◌*◌, ◌<◌, length};
ghost use Rattle.pa_layout.specs.Flaws.{Answers, first};
ghost use Rattle.pa_fixups.specs.Fixups as spec;

use pa_layout::{FileField, Flaw, check, check_fields, check_zeros};
use pa_num::{ImageRule, Names, Sequence};

/// Where `__DATA` lies: the count of segments, of which it is the last but one, its offset from the image's base, and its
/// count of pages.
#[derive(Clone, Copy, Debug, PartialEq, Eq)]
pub struct DataAt {
    pub segments: u32,
    pub offset: u64,
    pub pages: u32,
}

/// For each page the offset of its first slot, or 0xFFFF where it has none.
pub type Starts = Sequence<u16>;

/// What the fixups of an image say beside its slots: where the slots begin, and the imports.
#[derive(Debug, Drop)]
pub struct Fixups {
    pub starts: Starts,
    pub imports: Names,
}

/// Where the starts of the pages begin.
pub(crate) const STARTS: usize = 78;

impl DataAt {
    ghost use Rattle.pa_fixups.specs.Fixups.{starts_end, imports_at, names_at};

    /// Where the starts of the pages end.
    pub(crate) fn starts_end(self) -> usize
        ensures { result ≡ starts_end self }
    {
        STARTS + 2 * self.pages as usize
    }

    /// Where the imports begin.
    pub(crate) fn imports(self) -> usize
        ensures { result ≡ imports_at self }
    {
        (self.starts_end() + 3) / 4 * 4
    }

    /// Where the names of `count` imports begin.
    pub(crate) fn names(self, count: u32) -> usize
        ensures { result ≡ names_at self count }
    {
        self.imports() + 4 * count as usize
    }
}

#[tactic(auto, unfolding(crate::specs::Fixups::header_of))]
pub(crate) fn header_fields(at: DataAt, count: u32) -> [FileField; 8]
    ensures { result ≡ spec.header_of at count }
{
    [
        FileField::four(0),
        FileField::four(32),
        FileField::four(at.imports() as u128),
        FileField::four(at.names(count) as u128),
        FileField::four(count as u128),
        FileField::four(1),
        FileField::four(0),
        FileField::four(0),
    ]
}

fn segment_offset(segments: u32, segment: u32) -> FileField
    requires { segment < 10 }
    ensures { result ≡ spec.segment_offset segments segment }
{
    let offset = if segments == segment + 2 { 24 } else { 0 };
    FileField::four(offset)
}

#[tactic(auto, unfolding(crate::specs::Fixups::segments_of))]
pub(crate) fn segment_fields(at: DataAt) -> [FileField; 6]
    ensures { result ≡ spec.segments_of at }
{
    [
        FileField::four(at.segments as u128),
        segment_offset(at.segments, 0),
        segment_offset(at.segments, 1),
        segment_offset(at.segments, 2),
        segment_offset(at.segments, 3),
        segment_offset(at.segments, 4),
    ]
}

#[tactic(auto, unfolding(crate::specs::Fixups::pages_of))]
pub(crate) fn page_fields(at: DataAt) -> [FileField; 6]
    ensures { result ≡ spec.pages_of at }
{
    let pages = at.pages as u128;
    [
        FileField::four(22 + 2 * pages),
        FileField::two(0x4000),
        FileField::two(1),
        FileField::eight(at.offset as u128),
        FileField::four(0),
        FileField::two(pages),
    ]
}

/// The header and the starts lie inside the part, and what pads them is zero.
#[tactic(auto, unfolding(crate::specs::Fixups::starts_checks))]
pub(crate) fn check_starts(part: &[u8], at: DataAt) -> Result<(), Flaw>
    ensures { Answers result (first (spec.starts_checks at (length part.now)) part.now) }
{
    let len = part.len();
    let end = at.starts_end();
    check_zeros(part, ImageRule::H3, end.min(len), at.imports().min(len))?;
    check(part, ImageRule::F1, 0, 28 <= len)?;
    check(part, ImageRule::F1, 32, end <= len)
}

/// The fields of the header and before the starts have their values, and the parts after them lie inside.
#[tactic(auto, unfolding(crate::specs::Fixups::table_checks))]
pub(crate) fn check_tables(part: &[u8], at: DataAt, count: u32) -> Result<(), Flaw>
    requires { 78 ≤ length part.now }
    ensures { Answers result (first (spec.table_checks at count (length part.now)) part.now) }
{
    let len = part.len();
    let names = at.names(count);
    check_fields(part, ImageRule::F2, 0, &header_fields(at, count))?;
    check_fields(part, ImageRule::F2, 32, &segment_fields(at))?;
    check_fields(part, ImageRule::F2, 56, &page_fields(at))?;
    check(part, ImageRule::F1, at.imports() as u64, names <= len)?;
    check(part, ImageRule::F1, names as u64, names < len)
}
