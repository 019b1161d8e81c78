ghost use Rattle.std.specs.Prelude.{◌≡◌, map, string_bytes, IfOk, IfErr};
ghost use Rattle.std.specs.IoError.{error_kind};
ghost use Rattle.pa_io.specs.Outside.{shelf_seen, source_seen};
ghost use Rattle.pa_words.specs.Usage.{spelled};
ghost use Rattle.pa_paclab.specs.Answers.{Call, UnlessFromSource};
ghost use Rattle.pa_paclab.specs.Exit.{no_words_status, IsStatusOf};
ghost use Rattle.pa_paclab.specs.Host.{host_code};
ghost use Rattle.pa_task.specs.Reading.{Outside};

use crate::top::paclab;
use pa_io::{Shelf, Sink, Source};
use pa_pac::SipPac;
use pa_task::Exit;
use std::alloc::Global;
use std::io;

/// The host's PAC function.
const HOST: SipPac = SipPac {
    k0: 0x0706_0504_0302_0100,
    k1: 0x0f0e_0d0c_0b0a_0908,
};

/// The status where the system gives no words.
const NO_WORDS: u8 = 8;

/// The status for an error in place of the words: that of the answer `Memory`, or `NO_WORDS`.
fn words_status(error: &io::Error) -> u8
    ensures { result ≡ no_words_status (error_kind error.now) }
{
    if error.kind() == io::ErrorKind::OutOfMemory {
        Exit::Memory.status()
    } else {
        NO_WORDS
    }
}

/// Does what the words of the command line ask for, as `paclab` does under the host's PAC function, and answers the status with
/// which the program ends. Where the system gave no words nothing is done.
pub fn command<H: Shelf, S: Source, K: Sink>(
    alloc: Global,
    words: &io::Result<Vec<String>>,
    shelf: &mut H,
    input: &mut S,
    out: &mut K,
) -> u8
    // The status is that of an answer to the words.
    ensures answer { IfOk words.now (λ words. IsStatusOf record {
      words = map string_bytes words.items;
      host = host_code;
      told = H.told shelf.old;
      before = record {
        shelf = shelf_seen H.given H.faults H.failed shelf.old;
        source = source_seen S.left S.given S.faults input.old;
      };
      now = record {
        shelf = shelf_seen H.given H.faults H.failed shelf.new;
        source = source_seen S.left S.given S.faults input.new;
      };
      written_before = K.written out.old;
      written_now = K.written out.new;
      write_faults_before = K.faults out.old;
      write_faults_now = K.faults out.new;
    } result) }
    ensures no_words { IfErr words.now (λ error.
        (result ≡ no_words_status (error_kind error)) × (shelf.new ≡ shelf.old) × (input.new ≡ input.old) × (out.new ≡ out.old)) }

    // What stays: what the shelf tells, and the source unless the words ask for it.
    ensures tells { H.told shelf.new ≡ H.told shelf.old }
    ensures source { IfOk words.now (λ words.
        UnlessFromSource (spelled (map string_bytes words.items)) (input.new ≡ input.old)) }
{
    match words {
        Ok(words) => paclab(alloc, words, shelf, input, out, &HOST).status(),
        Err(error) => words_status(error),
    }
}
