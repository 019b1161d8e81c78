ghost use Rattle.std.specs.Prelude.{◌≤◌, length};
ghost use Rattle.pa_asm.specs.Answers as answers;

use crate::assembly::Assembly;
use crate::labels::Labels;
use crate::pieces::cut_line;
use crate::rule::AsmRule;
use pa_asmline::read_line;
use pa_num::Fault;
use pa_object::Object;
use std::alloc::Global;

/// The object of a program in assembly, or the first line that breaks a rule, numbered from 1. A label may be used before
/// it stands. It takes time in proportion to the bytes: labels are hashed under a key that is made of the text.
pub fn assemble(alloc: Global, text: &str) -> Result<Object, Fault<AsmRule>>
    requires { length text.now ≤ 4294967295 }
    ensures answer { answers.IsAnswer text.now result }
    ensures settled { answers.IsSettled text.now }
{
    let bytes = text.as_bytes();
    let labels = Labels::of(alloc, bytes)?;
    let mut assembly = Assembly::new(alloc);
    let mut rest = Some(bytes);
    'lines: while let Some(ahead) = rest {
        let (line, behind) = cut_line(ahead);
        assembly.add(alloc, &labels, &read_line(line))?;
        rest = behind;
    }
    Ok(assembly.into_object(alloc))
}
