ghost use Rattle.std.specs.Prelude.{◌≡◌, [], ◌++◌, ◌+◌, ◌≤◌, length, reverse, flat_map, codes, decimal, OnOk, OnErr};
ghost use Rattle.pa_io.specs.Outside.{Rose, Grew, GrewByProperPrefix};
ghost use Rattle.pa_engine.specs.Pieces.{Passed};
ghost use Rattle.pa_engine.specs.Report.{count_of, is_sign, is_take, is_land, is_unsigned, output_line, end_line, counts_line, shown_text, report_text};

use crate::page::Page;
use crate::text::{LINE, tells_unsigned};
use pa_io::{Failed, Sink, write_all};
use pa_log::Log;
use pa_num::Bytes;
use pa_object::End;
use pa_pac::{Entry, Event};

/// What a run left: its output, how it ended, and its log.
#[derive(Debug, Drop)]
pub struct Ran {
    pub output: Bytes,
    pub end: End,
    pub log: Log,
}

/// Writes the report of a run: the output and its length, the end, how many entries the log has of each kind, and the lines of
/// the log, of which a short report has only those of authentications that nothing had signed. It takes no memory.
pub fn report<K: Sink>(ran: &Ran, short: bool, out: &mut K) -> Result<(), Failed>
    ensures all { OnOk result (Grew (K.written out.old) (K.written out.new) (report_text ran.now.output ran.now.end ran.now.log.entries short)) }
    ensures prefix { OnErr result (GrewByProperPrefix (K.written out.old) (K.written out.new) (report_text ran.now.output ran.now.end ran.now.log.entries short)) }
    ensures fault { OnErr result (Rose (K.faults out.old) (K.faults out.new)) }
    ensures others { OnOk result (K.faults out.new ≡ K.faults out.old) }
{
    write_report(
        ran.output.as_slice(),
        ran.end,
        ran.log.entries(),
        short,
        out,
    )
}

/// How many signatures the log has.
fn signs(entries: &[Entry]) -> u64
    ensures { result ≡ count_of is_sign entries.now }
{
    entries
        .iter()
        .filter(|entry| matches!(entry.event, Event::Sign { .. }))
        .count() as u64
}

/// How many accepted authentications the log has.
fn takes(entries: &[Entry]) -> u64
    ensures { result ≡ count_of is_take entries.now }
{
    entries
        .iter()
        .filter(|entry| matches!(entry.event, Event::Take { .. }))
        .count() as u64
}

/// How many indirect branches the log has.
fn lands(entries: &[Entry]) -> u64
    ensures { result ≡ count_of is_land entries.now }
{
    entries
        .iter()
        .filter(|entry| matches!(entry.event, Event::Land { .. }))
        .count() as u64
}

/// How many accepted authentications of the log nothing had signed.
fn unsigned(entries: &[Entry]) -> u64
    ensures { result ≡ count_of is_unsigned entries.now }
{
    entries.iter().filter(|entry| tells_unsigned(entry)).count() as u64
}

impl Page {
    /// Adds the line that tells how many bytes a run printed.
    #[tactic(auto, unfolding(crate::specs::Report::output_line))]
    fn push_output_line(&mut self, output: &[u8])
        requires { length self.old + 64 ≤ 8192 }
        ensures { self.new ≡ self.old ++ output_line output.now }
    {
        self.push(b"output ");
        self.push_decimal(output.len() as u64);
        self.push(b"\n");
    }

    /// Adds the line of a run's end.
    #[tactic(auto, unfolding(crate::specs::Report::end_line))]
    fn push_end_line(&mut self, end: End)
        requires { length self.old + 64 ≤ 8192 }
        ensures text { self.new ≡ self.old ++ end_line end }
        ensures short { length self.new ≤ length self.old + 64 }
    {
        self.push(b"end ");
        self.push_end(end);
        self.push(b"\n");
    }

    /// Adds the line that tells how many entries are of each kind.
    #[tactic(auto, unfolding(crate::specs::Report::counts_line))]
    fn push_counts_line(&mut self, entries: &[Entry])
        requires { length self.old + 128 ≤ 8192 }
        ensures { self.new ≡ self.old ++ counts_line entries.now }
    {
        self.push(b"signs ");
        self.push_decimal(signs(entries));
        self.push(b" takes ");
        self.push_decimal(takes(entries));
        self.push(b" lands ");
        self.push_decimal(lands(entries));
        self.push(b" unsigned ");
        self.push_decimal(unsigned(entries));
        self.push(b"\n");
    }
}

/// Adds the line of an entry where the report shows it, and writes the page before where the line may not fit.
fn put_entry<K: Sink>(
    page: &mut Page,
    entry: &Entry,
    short: bool,
    out: &mut K,
) -> Result<(), Failed>
    ensures all { OnOk result (Passed (K.written out.old) (K.written out.new) page.old page.new (shown_text short entry.now)) }
    ensures prefix { OnErr result (GrewByProperPrefix (K.written out.old) (K.written out.new) page.old) }
    ensures fault { OnErr result (Rose (K.faults out.old) (K.faults out.new)) }
    ensures others { OnOk result (K.faults out.new ≡ K.faults out.old) }
{
    if short && !tells_unsigned(entry) {
        return Ok(());
    }
    if !page.has_room(LINE) {
        page.flush(out)?;
    }
    page.push_line(entry);
    Ok(())
}

/// Writes the text of a page and then the lines of the log, the oldest entry first.
fn write_lines<K: Sink>(
    page: &mut Page,
    entries: &[Entry],
    short: bool,
    out: &mut K,
) -> Result<(), Failed>
    ensures all { OnOk result (Grew (K.written out.old) (K.written out.new) (page.old ++ flat_map (shown_text short) entries.now)) }
    ensures prefix { OnErr result (GrewByProperPrefix (K.written out.old) (K.written out.new) (page.old ++ flat_map (shown_text short) entries.now)) }
    ensures fault { OnErr result (Rose (K.faults out.old) (K.faults out.new)) }
    ensures others { OnOk result (K.faults out.new ≡ K.faults out.old) }
{
    for entry in entries {
        put_entry(page, entry, short, out)?;
    }
    page.flush(out)
}

/// Writes the report of a run from its parts, of the log the oldest entry first.
pub(crate) fn write_report<K: Sink>(
    output: &[u8],
    end: End,
    entries: &[Entry],
    short: bool,
    out: &mut K,
) -> Result<(), Failed>
    ensures all { OnOk result (Grew (K.written out.old) (K.written out.new) (report_text output.now end (reverse entries.now) short)) }
    ensures prefix { OnErr result (GrewByProperPrefix (K.written out.old) (K.written out.new) (report_text output.now end (reverse entries.now) short)) }
    ensures fault { OnErr result (Rose (K.faults out.old) (K.faults out.new)) }
    ensures others { OnOk result (K.faults out.new ≡ K.faults out.old) }
{
    let mut page = Page::new();
    page.push_output_line(output);
    page.flush(out)?;
    write_all(out, output)?;
    page.push(b"\n");
    page.push_end_line(end);
    page.push_counts_line(entries);
    write_lines(&mut page, entries, short, out)
}
