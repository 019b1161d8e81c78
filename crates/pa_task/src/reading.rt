//! The parts of a command that are read: its program, its input and its script.

ghost use Rattle.std.specs.Prelude.{◌≡◌, ◌≤◌, length, vec_len, IfOk, IfErr};
ghost use Rattle.pa_io.specs.Outside.{ShelfSeen, SourceSeen, CameWhole, shelf_seen, source_seen};
ghost use Rattle.pa_straight.specs.Source.{IsTextOf};
ghost use Rattle.pa_script.specs.Rules.{Says};
ghost use Rattle.pa_task.specs.Refusals.{most_bytes};
ghost use Rattle.pa_task.specs.Reading.{Outside, FileRead, FileStops, IsOtherForm, ProgramRead, ProgramStops, SourceStops, InputRead, InputStops, NotSource, IsNoScript, ScriptRead, ScriptStops};

use crate::exit::{Exit, FIRST_FILE, INPUT_FILE, MOST_BYTES, Refusal, SCRIPT_FILE};
use pa_io::{Shelf, ShelfFault, Source, read_all};
use pa_num::{Fault, Memory};
use pa_script::{Script, read_script};
use pa_straight::Straight;
use pa_words::{Input, Word};
use std::alloc::Global;

/// The text of a file, which has this number in answers.
fn read_file<H: Shelf>(
    alloc: Global,
    number: u32,
    name: &str,
    shelf: &mut H,
) -> Result<Vec<u8>, Exit>
    ensures ok { IfOk result (λ text. FileRead (H.told shelf.old) name.now
        (shelf_seen H.given H.faults H.failed shelf.old)
        (shelf_seen H.given H.faults H.failed shelf.new) text.items) }
    ensures err { IfErr result (FileStops (H.told shelf.old) number name.now
        (shelf_seen H.given H.faults H.failed shelf.old)
        (shelf_seen H.given H.faults H.failed shelf.new)) }
    ensures tells { H.told shelf.new ≡ H.told shelf.old }
{
    match shelf.read(alloc, name, MOST_BYTES) {
        Ok(text) => Ok(text),
        Err(ShelfFault::Failed) => Err(Exit::ReadFault(number)),
        Err(ShelfFault::Long) => Err(Exit::Refused(Refusal::too_long(number))),
        Err(ShelfFault::Memory) => Err(Exit::Memory),
    }
}

/// The program of a text.
fn program_of(alloc: Global, text: &[u8]) -> Result<Straight, Exit>
    ensures ok { IfOk result (IsTextOf text.now) }
    ensures err { IfErr result (IsOtherForm text.now) }
{
    match pa_straight::read(alloc, text) {
        Ok(Some(program)) => Ok(program),
        Ok(None) => Err(Exit::Refused(Refusal::not_built())),
        Err(Memory) => Err(Exit::Memory),
    }
}

/// The program of the first file.
#[tactic(auto, using(crate::proofs::Parts::unread, crate::proofs::Parts::text_stops, crate::proofs::Parts::program_read))]
pub fn read_program<H: Shelf>(alloc: Global, name: &str, shelf: &mut H) -> Result<Straight, Exit>
    ensures ok { IfOk result (ProgramRead (H.told shelf.old) name.now
        (shelf_seen H.given H.faults H.failed shelf.old)
        (shelf_seen H.given H.faults H.failed shelf.new)) }
    ensures err { IfErr result (ProgramStops (H.told shelf.old) name.now
        (shelf_seen H.given H.faults H.failed shelf.old)
        (shelf_seen H.given H.faults H.failed shelf.new)) }
    ensures tells { H.told shelf.new ≡ H.told shelf.old }
{
    let text = read_file(alloc, FIRST_FILE, name, shelf)?;
    let program = program_of(alloc, &text)?;
    Ok(program)
}

/// All that the source has left.
fn read_source<S: Source>(alloc: Global, source: &mut S) -> Result<Vec<u8>, Exit>
    ensures ok { IfOk result (λ bytes. CameWhole most_bytes
        (source_seen S.left S.given S.faults source.old)
        (source_seen S.left S.given S.faults source.new) bytes.items) }
    ensures err { IfErr result (SourceStops
        (source_seen S.left S.given S.faults source.old)
        (source_seen S.left S.given S.faults source.new)) }
{
    match read_all(alloc, source, MOST_BYTES) {
        Ok(bytes) => Ok(bytes),
        Err(ShelfFault::Failed) => Err(Exit::InputFault),
        Err(ShelfFault::Long) => Err(Exit::Refused(Refusal::too_long(INPUT_FILE))),
        Err(ShelfFault::Memory) => Err(Exit::Memory),
    }
}

/// The input of a program: nothing, the text of a file, or all that the source has left.
pub fn read_input<H: Shelf, S: Source>(
    alloc: Global,
    from: &Input,
    shelf: &mut H,
    source: &mut S,
) -> Result<Vec<u8>, Exit>
    ensures ok { let before : Outside = record {
      shelf = shelf_seen H.given H.faults H.failed shelf.old;
      source = source_seen S.left S.given S.faults source.old;
    } in let now : Outside = record {
      shelf = shelf_seen H.given H.faults H.failed shelf.new;
      source = source_seen S.left S.given S.faults source.new;
    } in IfOk result (λ bytes. InputRead (H.told shelf.old) from.now before now bytes.items) }
    ensures err { let before : Outside = record {
      shelf = shelf_seen H.given H.faults H.failed shelf.old;
      source = source_seen S.left S.given S.faults source.old;
    } in let now : Outside = record {
      shelf = shelf_seen H.given H.faults H.failed shelf.new;
      source = source_seen S.left S.given S.faults source.new;
    } in IfErr result (InputStops (H.told shelf.old) from.now before now) }
    ensures tells { H.told shelf.new ≡ H.told shelf.old }
    ensures stays { NotSource from.now (source.new ≡ source.old) }
{
    match from {
        Input::Empty => Ok(Vec::new(alloc)),
        Input::Source => read_source(alloc, source),
        Input::File(name) => read_file(alloc, INPUT_FILE, name.as_str(), shelf),
    }
}

/// The items of a script's text.
fn items_of(alloc: Global, text: &[u8]) -> Result<Script, Exit>
    ensures ok { IfOk result (Says text.now) }
    ensures err { IfErr result (IsNoScript text.now) }
{
    match read_script(alloc, text) {
        Ok(script) => Ok(script),
        Err(Fault::Refused { rule, place }) => Err(Exit::Refused(Refusal::bad_line(rule, place))),
        Err(Fault::Memory) => Err(Exit::Memory),
    }
}

/// The script of a file, or the empty one where no file is named.
#[tactic(auto, using(crate::proofs::Parts::unread, crate::proofs::Parts::text_stops, crate::proofs::Parts::script_read))]
pub fn read_items<H: Shelf>(
    alloc: Global,
    name: &Option<Word>,
    shelf: &mut H,
) -> Result<Script, Exit>
    ensures ok { IfOk result (ScriptRead (H.told shelf.old) name.now
        (shelf_seen H.given H.faults H.failed shelf.old)
        (shelf_seen H.given H.faults H.failed shelf.new)) }
    ensures err { IfErr result (ScriptStops (H.told shelf.old) name.now
        (shelf_seen H.given H.faults H.failed shelf.old)
        (shelf_seen H.given H.faults H.failed shelf.new)) }
    ensures tells { H.told shelf.new ≡ H.told shelf.old }
{
    let Some(name) = name else {
        return Ok(Script::new(alloc));
    };
    let text = read_file(alloc, SCRIPT_FILE, name.as_str(), shelf)?;
    let script = items_of(alloc, &text)?;
    Ok(script)
}
