ghost use Rattle.std.specs.Prelude.{◌≡◌, ◌≢◌, ◌≤◌, ◌<◌, ◌+◌, ◌^◌, ◌↔◌, IsTrue, [], length, IfSome, not};
ghost use Rattle.std.specs.List.{prefix_len};
ghost use Rattle.pa_num.specs.declared.fault.Fault.TheVariants.{Refused};
ghost use Rattle.pa_lex.specs.Bytes.{is_line_feed};
ghost use Rattle.pa_lex.specs.Lexes as lexes;
ghost use Rattle.pa_lex.specs.Reading as reading;
ghost use Rattle.pa_lex.specs.Shapes.{shown_option, taken};

use crate::byte;
use crate::form::{self, Form};
use crate::meaning::Spelled;
use crate::token::LexRule;
use pa_num::Fault;
use std::alloc::Global;
use std::marker::Model;

fn next_is(byte: u8, text: &[u8]) -> bool
    ensures { result ≡ reading.next_is byte text.now }
{
    match text {
        [c, ..] => *c == byte,
        [] => false,
    }
}

/// Where the first `*/` stands.
#[tactic(auto, using(crate::proofs::Steps::plus_plus_one), unfolding(crate::specs::Reading::close))]
fn close(text: &[u8]) -> Option<usize>
    ensures value { result ≡ reading.close text.now }
    ensures within { IfSome result (λ n. n ≤ length text.now) }
{
    let mut rest = text;
    let mut n = 0;
    'bytes: while let [c, tail @ ..] = rest {
        if *c == b'*' && next_is(b'/', tail) {
            return Some(n);
        }
        rest = tail;
        n += 1;
    }
    None
}

fn line_len(text: &[u8]) -> usize
    ensures value { result ≡ prefix_len (λ c. not (is_line_feed c)) text.now }
    ensures within { result ≤ length text.now }
{
    text.iter().take_while(|c| **c != b'\n').count()
}

/// How long the comment is, from what stands behind its first slash.
fn comment_len(text: &[u8]) -> Option<usize>
    ensures { result ≡ reading.len_of (reading.comment_at text.now) }
{
    match text {
        [b'/', tail @ ..] => Some(line_len(tail) + 2),
        [b'*', tail @ ..] => Some(close(tail)? + 4),
        _ => None,
    }
}

/// How long the separator at the front is.
#[tactic(auto, unfolding(crate::specs::Reading::separator_at))]
fn separator_len(text: &[u8]) -> Option<usize>
    ensures { result ≡ reading.len_of (reading.separator_at text.now) }
{
    match text {
        [c, ..] if byte::is_white(*c) => Some(1),
        [b'/', tail @ ..] => comment_len(tail),
        _ => None,
    }
}

fn opens_comment(text: &[u8]) -> bool
    ensures { result ≡ lexes.opens_comment text.now }
{
    match text {
        [b'/', c, ..] => *c == b'*' || *c == b'/',
        _ => false,
    }
}

/// Whether a line begins behind a text.
#[tactic(auto, using(crate::proofs::Lines::starts_line_last), unfolding(crate::specs::Lexes::starts_line))]
fn begins_line(first: bool, text: &[u8]) -> bool
    ensures { result ≡ lexes.starts_line first text.now }
{
    match text {
        [.., last] => *last == b'\n',
        [] => first,
    }
}

fn refused(rule: LexRule, place: u32) -> Fault<LexRule>
    ensures { result ≡ Refused rule place }
{
    Fault::Refused {
        rule,
        place: u64::from(place),
    }
}

/// A place in the bytes of a file.
#[derive(Drop)]
pub struct Reader<'a> {
    /// How many bytes are behind the place.
    at: u32,
    /// Whether a line begins here.
    first: bool,
    ahead: &'a [u8],
}

impl<'a> Model for Reader<'a> {
    ghost use Rattle.pa_lex.specs.Lexes.{Cursor};

    ghost Value = { Cursor };

    ghost use Rattle.pa_lex.specs.Inside.{cursor_of, IsInFile};

    ghost view = { cursor_of };

    ghost invariant = { IsInFile };
}

impl<'a> Reader<'a> {
    pub fn new(bytes: &'a [u8]) -> Reader<'a>
        requires { length bytes.now ≤ 4294967295 }
        ensures { result ≡ lexes.start bytes.now }
    {
        Reader {
            at: 0,
            first: true,
            ahead: bytes,
        }
    }

    pub fn is_at_end(&self) -> bool
        ensures { IsTrue result ↔ (self.now.ahead ≡ []) }
    {
        self.ahead.is_empty()
    }

    /// Moves behind the next `count` bytes.
    fn advance(&mut self, count: usize)
        requires { count ≤ length self.old.ahead }
        ensures { self.new ≡ reading.passed count self.old }
    {
        let (passed, ahead) = self.ahead.split_at(count);
        self.first = begins_line(self.first, passed);
        self.at += count as u32;
        self.ahead = ahead;
    }

    /// How long the separator here is.
    fn separator(&self) -> Option<usize>
        ensures { result ≡ reading.len_of (reading.separator_at self.now.ahead) }
    {
        separator_len(self.ahead)
    }

    /// Moves behind the separators.
    pub fn skip(&mut self)
        ensures { reading.Skips self.old self.new }
    {
        'separators: while let Some(count) = self.separator() {
            self.advance(count);
        }
    }

    /// The rule that is broken where nothing begins.
    fn rule(&self) -> LexRule
        ensures { result ≡ lexes.rule_at self.now }
    {
        match self.ahead {
            [b'"' | b'\'', ..] => LexRule::X2,
            ahead if opens_comment(ahead) => LexRule::X2,
            [b'#', ..] if self.first => LexRule::X4,
            _ => LexRule::X1,
        }
    }

    /// The longest form here, where no separator begins.
    fn form(&self) -> Option<Form<'a>>
        ensures { shown_option result ≡ reading.form_here self.now }
    {
        if opens_comment(self.ahead) {
            None
        } else {
            form::form_at(self.first, self.ahead)
        }
    }

    fn place(&self) -> u32
        ensures value { result ≡ self.now.at }
        ensures in_file { self.now.at + length self.now.ahead < 2 ^ 32 }
    {
        self.at
    }

    /// The token here, which is then behind the reader.
    pub fn token(&mut self, alloc: Global) -> Result<Spelled<'a>, Fault<LexRule>>
        requires more { self.old.ahead ≢ [] }
        requires stops { reading.separator_at self.old.ahead ≡ None }
        ensures { reading.TakesToken self.old (taken result) self.new }
    {
        let from = self.place();
        let Some(form) = self.form() else {
            return Err(refused(self.rule(), from));
        };
        let Some(meaning) = form.meaning(alloc)? else {
            return Err(refused(form.rule(), from));
        };
        self.advance(form.len());
        let to = self.place();
        Ok(Spelled { meaning, from, to })
    }
}
