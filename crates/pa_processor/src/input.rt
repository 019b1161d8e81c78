//! What a program reads.

ghost use Rattle.std.specs.Prelude.{◌≡◌, [], ◌∷◌, MatchOption};

use pa_num::Bytes;
use std::marker::Model;

/// Bytes that are read one by one from the first.
#[derive(Debug, Drop)]
pub struct Input {
    bytes: Bytes,
    position: usize,
}

impl Model for Input {
    ghost use Rattle.std.specs.Prelude.{List, ℕ, drop};

    ghost Value = { List ℕ };

    ghost view = { λ i. drop i.position i.bytes };
}

impl Input {
    pub(crate) fn new(bytes: Bytes) -> Input
        ensures { result ≡ bytes }
    {
        Input { bytes, position: 0 }
    }

    /// The first byte of what is left.
    pub(crate) fn next(&mut self) -> Option<u8>
        ensures { MatchOption result ((self.old ≡ []) × (self.new ≡ [])) (λ byte. self.old ≡ byte ∷ self.new) }
    {
        let byte = self.bytes.as_slice().get(self.position).copied()?;
        self.position += 1;
        Some(byte)
    }
}
