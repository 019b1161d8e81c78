//! From a text to a script.

ghost use Rattle.pa_script.specs.Rules.{IsAnswer, IsSettled};

use crate::item::read_item;
use crate::pieces::first_line;
use crate::rule::ScriptRule;
use crate::script::Script;
use pa_num::Fault;
use std::alloc::Global;

/// The script of a text, or the first line that breaks a rule, numbered from 1. It takes time in proportion to the bytes.
#[tactic(auto, using(crate::proofs::Settled::settled))]
pub fn read_script(alloc: Global, text: &[u8]) -> Result<Script, Fault<ScriptRule>>
    ensures answer { IsAnswer text.now result }
    ensures settled { IsSettled text.now }
{
    let mut script = Script::new(alloc);
    let mut rest = text;
    'lines: while let Some((line, behind)) = first_line(rest) {
        match read_item(alloc, line)? {
            Some(item) => script.push(item)?,
            None => return Err(script.refused(ScriptRule::P1)),
        }
        rest = behind;
    }
    Ok(script)
}
