ghost use Rattle.std.specs.Prelude.{◌≡◌, ◌++◌, ◌+◌, ◌≤◌, ◌∷◌, length};
ghost use Rattle.pa_engine.specs.Report.{when_text, event_text, end_text, key_text, way_text, trap_text, known_text, line_text, is_unsigned};

use crate::page::Page;
use pa_object::{End, Trap};
use pa_pac::{Entry, Event, Key, Way, When};

/// No line of a log has more bytes.
pub const LINE: usize = 96;

fn key_word(key: Key) -> &'static [u8]
    ensures word { result.now ≡ key_text key }
    ensures short { length result.now ≡ 2 }
{
    match key {
        Key::IA => b"ia",
        Key::IB => b"ib",
        Key::DA => b"da",
        Key::DB => b"db",
        Key::GA => b"ga",
    }
}

fn way_word(way: Way) -> &'static [u8]
    ensures word { result.now ≡ way_text way }
    ensures short { length result.now ≤ 6 }
{
    match way {
        Way::Call => b"call",
        Way::Jump => b"jump",
        Way::Return => b"return",
    }
}

fn trap_word(trap: Trap) -> &'static [u8]
    ensures word { result.now ≡ trap_text trap }
    ensures short { length result.now ≤ 11 }
{
    match trap {
        Trap::AuthFail => b"auth_fail",
        Trap::DataAbort => b"data_abort",
        Trap::FetchAbort => b"fetch_abort",
        Trap::BadWord => b"bad_word",
        Trap::Break => b"break",
    }
}

fn known_word(known: bool) -> &'static [u8]
    ensures word { result.now ≡ known_text known }
    ensures short { length result.now ≤ 8 }
{
    if known { b"known" } else { b"UNSIGNED" }
}

/// Whether this is an authentication that was accepted though nothing had signed the like.
pub fn tells_unsigned(entry: &Entry) -> bool
    ensures { result ≡ is_unsigned entry.now.event }
{
    matches!(entry.event, Event::Take { known: false, .. })
}

impl Page {
    pub(crate) fn push_end(&mut self, end: End)
        requires { length self.old + 20 ≤ 8192 }
        ensures text { self.new ≡ self.old ++ end_text end }
        ensures short { length self.new ≤ length self.old + 20 }
    {
        match end {
            End::Exit(status) => {
                self.push(b"exit ");
                self.push_integer(status);
            }
            End::Trap(trap) => {
                self.push(b"trap ");
                self.push(trap_word(trap));
            }
            End::Bound => self.push(b"bound"),
        }
    }

    fn push_when(&mut self, when: When)
        requires { length self.old + 20 ≤ 8192 }
        ensures text { self.new ≡ self.old ++ when_text when }
        ensures short { length self.new ≤ length self.old + 20 }
    {
        match when {
            When::Load => self.push(b"load"),
            When::Step(number) => self.push_decimal(u64::from(number)),
        }
    }

    fn push_event(&mut self, event: Event)
        requires { length self.old + 64 ≤ 8192 }
        ensures text { self.new ≡ self.old ++ event_text event }
        ensures short { length self.new ≤ length self.old + 64 }
    {
        match event {
            Event::Sign {
                key,
                modifier,
                raw,
                signed,
            } => {
                self.push(b"sign ");
                self.push(key_word(key));
                self.push_address(modifier);
                self.push_address(raw);
                self.push_address(signed);
            }
            Event::Take {
                key,
                modifier,
                raw,
                known,
            } => {
                self.push(b"take ");
                self.push(key_word(key));
                self.push_address(modifier);
                self.push_address(raw);
                self.push(b" ");
                self.push(known_word(known));
            }
            Event::Land { way, target } => {
                self.push(b"land ");
                self.push(way_word(way));
                self.push_address(target);
            }
        }
    }

    /// Adds the line of an entry of the log.
    pub(crate) fn push_line(&mut self, entry: &Entry)
        requires { length self.old + 96 ≤ 8192 }
        ensures { self.new ≡ self.old ++ line_text entry.now }
    {
        self.push_when(entry.when);
        self.push(b" ");
        self.push_event(entry.event);
        self.push(b"\n");
    }
}
