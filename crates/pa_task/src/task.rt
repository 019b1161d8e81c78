//! What a run is to do.

ghost use Rattle.std.specs.Prelude.{◌≡◌, IfOk, IfErr};
ghost use Rattle.pa_io.specs.Outside.{shelf_seen, source_seen};
ghost use Rattle.pa_task.specs.Reading.{Outside, TaskRead, TaskStops, NotSource};

use crate::exit::Exit;
use crate::reading::{read_input, read_items, read_program};
use pa_io::{Shelf, Source};
use pa_num::Bytes;
use pa_script::Script;
use pa_straight::Straight;
use pa_words::RunOptions;
use std::alloc::Global;

/// A program, its input, and what a second writer does beside its run.
#[derive(Debug, Drop)]
pub struct Task {
    pub program: Straight,
    pub input: Bytes,
    pub script: Script,
}

/// Reads the program of a file, then the input and then the script that the options name. No part is read before the one
/// before it has passed its checks.
pub fn read_task<H: Shelf, S: Source>(
    alloc: Global,
    file: &str,
    options: &RunOptions,
    shelf: &mut H,
    source: &mut S,
) -> Result<Task, Exit>
    ensures ok { let before : Outside = record {
      shelf = shelf_seen H.given H.faults H.failed shelf.old;
      source = source_seen S.left S.given S.faults source.old;
    } in let now : Outside = record {
      shelf = shelf_seen H.given H.faults H.failed shelf.new;
      source = source_seen S.left S.given S.faults source.new;
    } in IfOk result (TaskRead (H.told shelf.old) file.now options.now before now) }
    ensures err { let before : Outside = record {
      shelf = shelf_seen H.given H.faults H.failed shelf.old;
      source = source_seen S.left S.given S.faults source.old;
    } in let now : Outside = record {
      shelf = shelf_seen H.given H.faults H.failed shelf.new;
      source = source_seen S.left S.given S.faults source.new;
    } in IfErr result (TaskStops (H.told shelf.old) file.now options.now before now) }
    ensures tells { H.told shelf.new ≡ H.told shelf.old }
    ensures stays { NotSource options.now.input (source.new ≡ source.old) }
{
    let program = read_program(alloc, file, shelf)?;
    let input = read_input(alloc, &options.input, shelf, source)?;
    let script = read_items(alloc, &options.script, shelf)?;
    Ok(Task {
        program,
        input: Bytes::from_vec(input),
        script,
    })
}
