ghost use Rattle.std.specs.Prelude.{◌≡◌, option_map};
ghost use Rattle.pa_asmline.specs.Lines as lines;
ghost use Rattle.pa_asmline.specs.Reading as reading;
ghost use Rattle.pa_asmline.specs.Shapes.{shown};

use crate::row::{Row, row_of};
use crate::text::{before, behind, is_name};

/// What a line says.
#[derive(Drop)]
pub enum Line<'a> {
    /// An empty line or a comment.
    Blank,
    /// A label. A public one is a mark too.
    Label { public: bool, name: &'a [u8] },
    /// An instruction.
    Row(Row<'a>),
    /// Anything else.
    Unknown,
}

fn is_blank(text: &[u8]) -> bool
    ensures { result ≡ reading.is_blank text.now }
{
    match text {
        [] => true,
        [a, b, ..] => *a == b'/' && *b == b'/',
        [_] => false,
    }
}

fn named(text: Option<&[u8]>) -> Option<&[u8]>
    ensures { option_map (λ part. part.now) result ≡ reading.named (option_map (λ part. part.now) text.entry) }
{
    let text = text?;
    if is_name(text) { Some(text) } else { None }
}

/// What a line of a text says, without its line feed. No text is two lines.
pub fn read_line(text: &[u8]) -> Line<'_>
    ensures value { shown result ≡ reading.line text.now }
    ensures line { lines.IsLine (shown result) text.now }
    ensures one { lines.IsOne text.now }
{
    line_of(text)
}

#[tactic(auto, unfolding(crate::specs::Reading::line))]
fn line_of(text: &[u8]) -> Line<'_>
    ensures { shown result ≡ reading.line text.now }
{
    if is_blank(text) {
        return Line::Blank;
    }
    if let Some(name) = named(before(b":", text)) {
        return Line::Label {
            public: false,
            name,
        };
    }
    if let Some(name) = named(behind(b".globl ", text)) {
        return Line::Label { public: true, name };
    }
    match row_of(text) {
        Some(row) => Line::Row(row),
        None => Line::Unknown,
    }
}
