//! What a command prints where it is done.

ghost use Rattle.std.specs.Prelude.{◌≡◌, OnOk, OnErr};
ghost use Rattle.pa_io.specs.Outside.{Rose, Grew, GrewByProperPrefix};
ghost use Rattle.pa_paclab.specs.Printed.{disc_line, text_of};
ghost use Rattle.pa_paclab.specs.Runs.{is_short};

use pa_engine::{Page, Ran, report};
use pa_io::{Failed, Sink};
use pa_words::LogForm;

/// What a command prints where it is done.
#[derive(Debug, Drop)]
pub enum Printed {
    /// The report of a run, with the lines of its log that the form has.
    Report { ran: Ran, form: LogForm },
    /// A string discriminator.
    Disc(u16),
}

/// The line of a string discriminator.
#[tactic(auto, unfolding(crate::specs::Printed::disc_line))]
fn disc_line(disc: u16) -> Page
    ensures { result ≡ disc_line disc }
{
    let mut page = Page::new();
    page.push(b"disc ");
    page.push_decimal(u64::from(disc));
    page.push(b"\n");
    page
}

/// Writes what a command prints.
pub fn write_printed<K: Sink>(printed: &Printed, out: &mut K) -> Result<(), Failed>
    ensures all { OnOk result (Grew (K.written out.old) (K.written out.new) (text_of printed.now)) }
    ensures prefix { OnErr result (GrewByProperPrefix (K.written out.old) (K.written out.new) (text_of printed.now)) }
    ensures fault { OnErr result (Rose (K.faults out.old) (K.faults out.new)) }
    ensures others { OnOk result (K.faults out.new ≡ K.faults out.old) }
{
    match printed {
        Printed::Report { ran, form } => report(ran, *form == LogForm::Short, out),
        Printed::Disc(disc) => disc_line(*disc).flush(out),
    }
}
