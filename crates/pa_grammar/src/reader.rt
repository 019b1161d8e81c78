//! A reader stands before a token.

ghost use Rattle.std.specs.Prelude.{◌≡◌, ◌≤◌, length, OnOk, Ok};
ghost use Rattle.std.specs.Option.{option_copied};
ghost use Rattle.pa_tree.specs.Cursors as cursors;
ghost use Rattle.pa_grammar.specs.Parser as spec;
ghost use Rattle.pa_grammar.specs.Reads.{Reads};

use crate::rule::{ParseError, SynRule};
use crate::token::is_mark;
use pa_lex::{Punct, Token};
use std::marker::Model;

/// A place among the tokens of a file: the tokens ahead, and where the one before ends.
#[derive(Drop)]
pub struct Reader<'a> {
    ahead: &'a [Token],
    ended: u32,
}

impl<'a> Model for Reader<'a> {
    ghost use Rattle.pa_tree.specs.Cursors.{Cursor};

    ghost Value = { Cursor };

    ghost use Rattle.pa_grammar.specs.Inside.{cursor_of};

    ghost view = { cursor_of };
}

impl<'a> Reader<'a> {
    /// Before all of these tokens.
    pub fn new(ahead: &'a [Token]) -> Reader<'a>
        ensures { result ≡ cursors.start ahead.now }
    {
        Reader { ahead, ended: 0 }
    }

    /// Before these tokens, where the token in front of them ends there.
    pub fn behind(ahead: &'a [Token], ended: u32) -> Reader<'a>
        ensures { result ≡ record { ended = ended; ahead = ahead.now } }
    {
        Reader { ahead, ended }
    }

    /// How many tokens are ahead.
    pub fn left(&self) -> usize
        ensures { result ≡ length self.now.ahead }
    {
        self.ahead.len()
    }

    /// The next token.
    pub fn peek(&self) -> Option<&'a Token>
        ensures { option_copied result ≡ cursors.head self.now.ahead }
    {
        self.ahead.first()
    }

    /// Where the token before ends.
    pub fn ended(&self) -> u32
        ensures { result ≡ self.now.ended }
    {
        self.ended
    }

    /// Where the next token begins, or 0 where none is left.
    pub fn begin(&self) -> u32
        ensures { result ≡ cursors.from_of (cursors.head self.now.ahead) }
    {
        match self.peek() {
            Some(t) => t.from,
            None => 0,
        }
    }

    /// Goes behind the next token, which is this one.
    pub fn take(&mut self, t: &Token)
        ensures { spec.after t.now self.old ≡ Ok (tt, self.new) }
    {
        self.ended = t.to;
        if let [_, rest @ ..] = self.ahead {
            self.ahead = rest;
        }
    }

    /// The next token is this punctuator.
    pub fn sees(&self, punct: Punct) -> bool
        ensures { result ≡ spec.sees punct (cursors.head self.now.ahead) }
    {
        match self.peek() {
            Some(t) => is_mark(&t.kind, punct),
            None => false,
        }
    }

    /// Takes this punctuator, or stands still.
    pub fn expect(&mut self, punct: Punct) -> Result<(), ParseError>
        ensures { Reads (λ x. x) (spec.mark punct self.old) result self.new }
    {
        match self.peek() {
            Some(t) if is_mark(&t.kind, punct) => {
                self.take(t);
                Ok(())
            }
            _ => Err(ParseError::Broken(SynRule::S1)),
        }
    }
}

/// There is room for so many levels.
pub fn needs(n: u32, depth: u32) -> Result<(), ParseError>
    ensures value { (c : _) → Reads (λ x. x) (spec.needs n depth c) result c }
    ensures fits { OnOk result (n ≤ depth) }
{
    if n <= depth {
        Ok(())
    } else {
        Err(ParseError::Broken(SynRule::S2))
    }
}
