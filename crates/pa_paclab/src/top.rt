//! The top call, from words to what is printed.

ghost use Rattle.std.specs.Prelude.{◌≡◌, map, string_bytes, IfOk, IfErr};
ghost use Rattle.pa_io.specs.Outside.{shelf_seen, source_seen};
ghost use Rattle.pa_paclab.specs.Printed.{text_of};
ghost use Rattle.pa_task.specs.Reading.{Outside, NotSource};
ghost use Rattle.pa_paclab.specs.Answers.{Reports, RunFails, Prints, CommandStops, KeepsSource, IsDone, IsStopped, UnlessFromSource, Call, IsAnswer};
ghost use Rattle.pa_words.specs.Usage.{spelled};

use crate::lines::write_line;
use crate::printed::{Printed, write_printed};
use crate::running::run_task;
use pa_io::{Failed, Shelf, Sink, Source};
use pa_pac::Pac;
use pa_sip::string_disc;
use pa_task::{Exit, Refusal, read_task};
use pa_words::{Command, RunOptions};
use std::alloc::Global;

/// Runs a file, or answers why it isn't run.
#[tactic(auto, using(crate::proofs::Causes::unread, crate::proofs::Causes::not_run))]
fn run_file<H: Shelf, S: Source, P: Pac>(
    alloc: Global,
    file: &str,
    options: &RunOptions,
    shelf: &mut H,
    source: &mut S,
    host: &P,
) -> Result<Printed, Exit>
    ensures ok { let before : Outside = record {
      shelf = shelf_seen H.given H.faults H.failed shelf.old;
      source = source_seen S.left S.given S.faults source.old;
    } in let now : Outside = record {
      shelf = shelf_seen H.given H.faults H.failed shelf.new;
      source = source_seen S.left S.given S.faults source.new;
    } in IfOk result (λ printed.
        Reports (P.code host.now) (H.told shelf.old) file.now options.now before now (text_of printed)) }
    ensures err { let before : Outside = record {
      shelf = shelf_seen H.given H.faults H.failed shelf.old;
      source = source_seen S.left S.given S.faults source.old;
    } in let now : Outside = record {
      shelf = shelf_seen H.given H.faults H.failed shelf.new;
      source = source_seen S.left S.given S.faults source.new;
    } in IfErr result (RunFails (P.code host.now) (H.told shelf.old) file.now options.now before now) }
    ensures tells { H.told shelf.new ≡ H.told shelf.old }
    ensures stays { NotSource options.now.input (source.new ≡ source.old) }
{
    let task = read_task(alloc, file, options, shelf, source)?;
    let ran = run_task(alloc, &task, options, host)?;
    Ok(Printed::Report {
        ran,
        form: options.log,
    })
}

/// Does what a command asks for, up to the printing.
fn do_command<H: Shelf, S: Source, P: Pac>(
    alloc: Global,
    command: &Command,
    shelf: &mut H,
    source: &mut S,
    host: &P,
) -> Result<Printed, Exit>
    ensures ok { let before : Outside = record {
      shelf = shelf_seen H.given H.faults H.failed shelf.old;
      source = source_seen S.left S.given S.faults source.old;
    } in let now : Outside = record {
      shelf = shelf_seen H.given H.faults H.failed shelf.new;
      source = source_seen S.left S.given S.faults source.new;
    } in IfOk result (λ printed. Prints (P.code host.now) (H.told shelf.old) command.now before now (text_of printed)) }
    ensures err { let before : Outside = record {
      shelf = shelf_seen H.given H.faults H.failed shelf.old;
      source = source_seen S.left S.given S.faults source.old;
    } in let now : Outside = record {
      shelf = shelf_seen H.given H.faults H.failed shelf.new;
      source = source_seen S.left S.given S.faults source.new;
    } in IfErr result (CommandStops (P.code host.now) (H.told shelf.old) command.now before now) }
    ensures tells { H.told shelf.new ≡ H.told shelf.old }
    ensures stays { KeepsSource command.now (source.new ≡ source.old) }
{
    match command {
        Command::Run { files, options } => match files.as_slice() {
            [file] => run_file(alloc, file.as_str(), options, shelf, source, host),
            _ => Err(Exit::Refused(Refusal::not_built())),
        },
        Command::Disc { text } => Ok(Printed::Disc(string_disc(text.as_str().as_bytes()))),
        _ => Err(Exit::Refused(Refusal::not_built())),
    }
}

/// Does what the words ask for, up to the printing.
#[tactic(auto, using(crate::proofs::Causes::no_command, crate::proofs::Causes::command_stops, crate::proofs::Causes::command_done, crate::proofs::Causes::kept_without_command, crate::proofs::Causes::kept_by_command))]
fn answer<H: Shelf, S: Source, P: Pac>(
    alloc: Global,
    words: &[String],
    shelf: &mut H,
    source: &mut S,
    host: &P,
) -> Result<Printed, Exit>
    ensures ok { let before : Outside = record {
      shelf = shelf_seen H.given H.faults H.failed shelf.old;
      source = source_seen S.left S.given S.faults source.old;
    } in let now : Outside = record {
      shelf = shelf_seen H.given H.faults H.failed shelf.new;
      source = source_seen S.left S.given S.faults source.new;
    } in IfOk result (λ printed.
        IsDone (map string_bytes words.now) (P.code host.now) (H.told shelf.old) before now (text_of printed)) }
    ensures err { let before : Outside = record {
      shelf = shelf_seen H.given H.faults H.failed shelf.old;
      source = source_seen S.left S.given S.faults source.old;
    } in let now : Outside = record {
      shelf = shelf_seen H.given H.faults H.failed shelf.new;
      source = source_seen S.left S.given S.faults source.new;
    } in IfErr result (IsStopped (map string_bytes words.now) (P.code host.now) (H.told shelf.old) before now) }
    ensures tells { H.told shelf.new ≡ H.told shelf.old }
    ensures stays { UnlessFromSource (spelled (map string_bytes words.now)) (source.new ≡ source.old) }
{
    let command = pa_words::words(alloc, words)?;
    let printed = do_command(alloc, &command, shelf, source, host)?;
    Ok(printed)
}

/// Does what the words ask for, with the files of a shelf, the bytes of a source and the host's PAC function, and writes
/// what is printed: the whole text where the answer is `Done`, a proper prefix of it where it is `WriteFault`, and otherwise
/// one line that tells the answer, or a proper prefix of that line where the sink fails.
///
/// `run FILE` compiles the file to an image, loads it, runs it and prints the report; its options say where its input comes
/// from, which script writes to its memory, how many instructions run, where and under which PAC function it is loaded, and
/// which lines of the log are printed. `disc TEXT` prints the string discriminator of a text. The other commands, and `run`
/// of several files, are refused by the rule N1 for now.
pub fn paclab<H: Shelf, S: Source, K: Sink, P: Pac>(
    alloc: Global,
    words: &[String],
    shelf: &mut H,
    input: &mut S,
    out: &mut K,
    host: &P,
) -> Exit
    // Each answer has its cause, and with each the text or a line is written, or a proper prefix of that; and each cause has its
    // answer, but for out of memory.
    ensures answer { IsAnswer record {
      words = map string_bytes words.now;
      host = P.code host.now;
      told = H.told shelf.old;
      before = record {
        shelf = shelf_seen H.given H.faults H.failed shelf.old;
        source = source_seen S.left S.given S.faults input.old;
      };
      now = record {
        shelf = shelf_seen H.given H.faults H.failed shelf.new;
        source = source_seen S.left S.given S.faults input.new;
      };
      written_before = K.written out.old;
      written_now = K.written out.new;
      write_faults_before = K.faults out.old;
      write_faults_now = K.faults out.new;
    } result }

    // What stays: what the shelf tells, and the source unless the words ask for it.
    ensures tells { H.told shelf.new ≡ H.told shelf.old }
    ensures source { UnlessFromSource (spelled (map string_bytes words.now)) (input.new ≡ input.old) }
{
    match answer(alloc, words, shelf, input, host) {
        Ok(printed) => match write_printed(&printed, out) {
            Ok(()) => Exit::Done,
            Err(Failed) => Exit::WriteFault,
        },
        Err(exit) => {
            let _ = write_line(exit, out);
            exit
        }
    }
}
