ghost use Rattle.std.specs.Prelude.{◌≡◌, ◌≤◌, ◌++◌, length, OnOk, OnErr};
ghost use Rattle.pa_io.specs.Outside.{Rose, Grew, GrewByProperPrefix};
ghost use Rattle.pa_paclab.specs.Lines.{use_fault_text, script_rule_text, rule_text, line_of};

use pa_engine::Page;
use pa_io::{Failed, Sink};
use pa_script::ScriptRule;
use pa_task::{Exit, Rule};
use pa_words::UseFault;

fn use_fault_word(fault: UseFault) -> &'static [u8]
    ensures word { result.now ≡ use_fault_text fault }
    ensures short { length result.now ≡ 2 }
{
    match fault {
        UseFault::U1 => b"U1",
        UseFault::U2 => b"U2",
        UseFault::U3 => b"U3",
        UseFault::U4 => b"U4",
        UseFault::U5 => b"U5",
        UseFault::U6 => b"U6",
    }
}

fn script_rule_word(rule: ScriptRule) -> &'static [u8]
    ensures word { result.now ≡ script_rule_text rule }
    ensures short { length result.now ≡ 2 }
{
    match rule {
        ScriptRule::P1 => b"P1",
        ScriptRule::P2 => b"P2",
        ScriptRule::P3 => b"P3",
        ScriptRule::P4 => b"P4",
    }
}

fn rule_word(rule: Rule) -> &'static [u8]
    ensures word { result.now ≡ rule_text rule }
    ensures short { length result.now ≡ 2 }
{
    match rule {
        Rule::Script(rule) => script_rule_word(rule),
        Rule::M6 => b"M6",
        Rule::N1 => b"N1",
    }
}

/// The line that tells of this end of a command.
#[tactic(auto, unfolding(crate::specs::Lines::line_of))]
fn line(exit: Exit) -> Page
    ensures { result ≡ line_of exit }
{
    let mut page = Page::new();
    match exit {
        Exit::Done | Exit::WriteFault => {}
        Exit::Usage(fault) => {
            page.push(b"usage ");
            page.push(use_fault_word(fault));
            page.push(b"\n");
        }
        Exit::Refused(refusal) => {
            page.push(b"refused ");
            page.push(rule_word(refusal.rule));
            page.push(b" ");
            page.push_decimal(u64::from(refusal.file));
            page.push(b" ");
            page.push_decimal(refusal.place);
            page.push(b"\n");
        }
        Exit::ReadFault(file) => {
            page.push(b"read fault ");
            page.push_decimal(u64::from(file));
            page.push(b"\n");
        }
        Exit::InputFault => page.push(b"input fault\n"),
        Exit::Memory => page.push(b"memory\n"),
    }
    page
}

/// Writes the line that tells of this end of a command.
pub fn write_line<K: Sink>(exit: Exit, out: &mut K) -> Result<(), Failed>
    ensures all { OnOk result (Grew (K.written out.old) (K.written out.new) (line_of exit)) }
    ensures prefix { OnErr result (GrewByProperPrefix (K.written out.old) (K.written out.new) (line_of exit)) }
    ensures fault { OnErr result (Rose (K.faults out.old) (K.faults out.new)) }
    ensures others { OnOk result (K.faults out.new ≡ K.faults out.old) }
{
    line(exit).flush(out)
}
