ghost use Rattle.std.specs.Prelude.{◌≡◌};
ghost use Rattle.pa_asmline.specs.Reading as reading;
ghost use Rattle.pa_asmline.specs.Shapes.{option_shown};

use crate::kind::Kind;
use crate::number::{number_operand, register_operand};
use crate::text::{before, behind, is_name};
use crate::value::Value;

/// What an operand says: a value, or a name as an operand of this kind.
#[derive(Clone, Copy, Debug)]
pub enum Operand<'a> {
    Given(Value),
    Named { kind: Kind, name: &'a [u8] },
}

impl Default for Operand<'_> {
    fn default() -> Self {
        Operand::Given(Value::Missing)
    }
}

fn named(kind: Kind, text: &[u8]) -> Option<Operand<'_>>
    ensures { option_shown result ≡ reading.named_operand kind text.now }
{
    if is_name(text) {
        Some(Operand::Named { kind, name: text })
    } else {
        None
    }
}

fn shift_12<'a>(text: &[u8]) -> Option<Operand<'a>>
    ensures { option_shown result ≡ reading.shift_12 text.now }
{
    if text == b"lsl #12".as_slice() {
        Some(Operand::Given(Value::Number {
            negative: false,
            count: 12,
        }))
    } else {
        None
    }
}

/// What an operand of this kind says in a text. None: no operand of the kind is this text.
pub fn operand_of(kind: Kind, text: &[u8]) -> Option<Operand<'_>>
    ensures { option_shown result ≡ reading.operand kind text.now }
{
    match kind {
        Kind::Register => register_operand(b"xzr", text),
        Kind::RegisterOrStack => register_operand(b"sp", text),
        Kind::Base => register_operand(b"sp", behind(b"[", text)?),
        Kind::Number(range) => number_operand(range, behind(b"#", text)?),
        Kind::Offset(range) => number_operand(range, before(b"]", behind(b"#", text)?)?),
        Kind::Shift(range) => number_operand(range, behind(b"lsl #", text)?),
        Kind::Shift12 => shift_12(text),
        Kind::Target(_) | Kind::Callee(_) => named(kind, text),
        Kind::Page => named(kind, before(b"@PAGE", text)?),
        Kind::PageOffset => named(kind, before(b"@PAGEOFF", text)?),
    }
}
