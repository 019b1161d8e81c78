ghost use Rattle.std.specs.Prelude.{◌≡◌, ℕ, [], ◌∷◌, ◌++◌, ◌+◌, ◌≤◌, ◌↔◌, length, IsTrue, decimal, OnOk, OnErr};
ghost use Rattle.std.specs.Fmt.{signed_decimal};
ghost use Rattle.pa_io.specs.Outside.{Rose, Grew, GrewByProperPrefix};
ghost use Rattle.pa_engine.specs.Report.{address_text};

use arrayvec::ArrayVec;
use hex::encode_to_slice;
use itoa::Buffer;
use pa_io::{Failed, Sink, write_all};
use std::marker::Model;

/// How many bytes a page holds.
pub const PAGE: usize = 8192;

/// Text that is gathered before it is written, so that a line doesn't cost a write.
#[derive(Drop)]
pub struct Page {
    text: ArrayVec<u8, PAGE>,
}

impl Model for Page {
    ghost use Rattle.std.specs.Prelude.{ℕ, List};

    ghost Value = { List ℕ };

    ghost view = { λ p. p.text.items };
}

impl Page {
    /// A page without text.
    pub fn new() -> Page
        ensures { result ≡ [] }
    {
        Page {
            text: ArrayVec::new(),
        }
    }

    /// The text so far.
    pub fn as_slice(&self) -> &[u8]
        ensures { result.now ≡ self.now }
    {
        self.text.as_slice()
    }

    /// Whether `count` more bytes fit.
    pub fn has_room(&self, count: usize) -> bool
        requires { count ≤ 8192 }
        ensures { IsTrue result ↔ (length self.now + count ≤ 8192) }
    {
        self.text.len() <= PAGE - count
    }

    /// Removes the text.
    pub fn clear(&mut self)
        ensures { self.new ≡ [] }
    {
        self.text.clear();
    }

    /// Adds this text.
    pub fn push(&mut self, text: &[u8])
        requires { length self.old + length text.now ≤ 8192 }
        ensures { self.new ≡ self.old ++ text.now }
    {
        let _ = self.text.try_extend_from_slice(text);
    }

    /// Adds the decimal digits of a number.
    pub fn push_decimal(&mut self, number: u64)
        requires { length self.old + 20 ≤ 8192 }
        ensures text { self.new ≡ self.old ++ decimal number }
        ensures short { length self.new ≤ length self.old + 20 }
    {
        let mut buffer = Buffer::new();
        self.push(buffer.format(number).as_bytes());
    }

    /// Adds the decimal digits of an integer, behind a minus sign where it is negative.
    pub fn push_integer(&mut self, integer: i32)
        requires { length self.old + 11 ≤ 8192 }
        ensures text { self.new ≡ self.old ++ signed_decimal integer }
        ensures short { length self.new ≤ length self.old + 11 }
    {
        let mut buffer = Buffer::new();
        self.push(buffer.format(integer).as_bytes());
    }

    /// Adds a space and the 16 hexadecimal digits of an address.
    pub fn push_address(&mut self, address: u64)
        requires { length self.old + 17 ≤ 8192 }
        ensures text { self.new ≡ self.old ++ (32 ∷ address_text address) }
        ensures short { length self.new ≡ length self.old + 17 }
    {
        let mut text = [b' '; 17];
        let _ = encode_to_slice(address.to_be_bytes(), &mut text[1..]);
        self.push(&text);
    }

    /// Writes the text, and is empty then.
    pub fn flush<K: Sink>(&mut self, out: &mut K) -> Result<(), Failed>
        ensures all { OnOk result (Grew (K.written out.old) (K.written out.new) self.old) }
        ensures empty { OnOk result (self.new ≡ []) }
        ensures prefix { OnErr result (GrewByProperPrefix (K.written out.old) (K.written out.new) self.old) }
        ensures fault { OnErr result (Rose (K.faults out.old) (K.faults out.new)) }
        ensures others { OnOk result (K.faults out.new ≡ K.faults out.old) }
    {
        write_all(out, self.as_slice())?;
        self.clear();
        Ok(())
    }
}
