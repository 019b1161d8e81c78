ghost use Rattle.std.specs.Prelude.{◌≡◌, ◌≤◌, ◌<◌, length, IfSome, codes};
ghost use Rattle.pa_asmline.specs.Reading as reading;
ghost use Rattle.pa_asmline.specs.Shapes.{rows_operands, option_row};

use crate::form::{Form, forms_at};
use crate::kind::Kind;
use crate::operand::{Operand, operand_of};
use crate::text::{behind, len_before};
use arrayvec::ArrayVec;

/// How many operands a row has at most.
pub const MOST_OPERANDS: usize = 4;

/// The operands of a row, from left to right.
pub type Operands<'a> = ArrayVec<Operand<'a>, MOST_OPERANDS>;

/// A line that gives an instruction.
#[derive(Drop)]
pub struct Row<'a> {
    pub form: Form,
    pub operands: Operands<'a>,
}

/// The operands of these kinds that a text has behind a row's name.
#[tactic(auto, using(crate::proofs::Rows::onto_steps), unfolding(crate::specs::Reading::operands))]
fn operands_of<'a>(kinds: &[Kind], text: &'a [u8]) -> Option<Operands<'a>>
    requires { length kinds.now ≤ MOST_OPERANDS }
    ensures { rows_operands result ≡ reading.operands (codes " ") kinds.now text.now }
{
    let mut read = Operands::new();
    let mut separator: &[u8] = b" ";
    let mut rest = text;
    let mut ahead = kinds;
    'kinds: while let Some((kind, more)) = ahead.split_first() {
        let own = behind(separator, rest)?;
        let (front, back) = own.split_at(len_before(b',', own));
        read.push(operand_of(*kind, front)?);
        separator = b", ";
        rest = back;
        ahead = more;
    }
    if rest.is_empty() { Some(read) } else { None }
}

fn row_by(form: Form, text: &[u8]) -> Option<Row<'_>>
    ensures { option_row result ≡ reading.row_by form text.now }
{
    let (name, rest) = text.split_at(len_before(b' ', text));
    if name != form.name() {
        return None;
    }
    let operands = operands_of(form.kinds(), rest)?;
    Some(Row { form, operands })
}

#[tactic(auto, unfolding(crate::specs::Reading::row_among))]
fn row_among<'a>(forms: &[Form], text: &'a [u8]) -> Option<Row<'a>>
    ensures { option_row result ≡ reading.row_among forms.now text.now }
{
    let mut ahead = forms;
    'forms: while let [form, more @ ..] = ahead {
        if let Some(row) = row_by(*form, text) {
            return Some(row);
        }
        ahead = more;
    }
    None
}

/// The row that a text is.
pub fn row_of(text: &[u8]) -> Option<Row<'_>>
    ensures { option_row result ≡ reading.row text.now }
{
    let (first, _) = text.split_first()?;
    row_among(forms_at(*first), text)
}
