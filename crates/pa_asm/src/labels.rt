ghost use Rattle.std.specs.Prelude.{◌≡◌, ◌≤◌, ℕ, List, length, None, OnOk, IfOk};
ghost use Rattle.pa_asmline.specs.Shapes.{shown};
ghost use Rattle.pa_names.specs.Kept.{Adds, noted};
ghost use Rattle.pa_asm.specs.Labels as spec;
ghost use Rattle.pa_asm.specs.Reading.{kept, noted_line};
ghost use Rattle.pa_asm.specs.Written.{read};

use crate::pieces::cut_line;
use indexmap::IndexMap;
use pa_asmline::{Line, read_line};
use pa_names::TextKey;
use pa_num::Memory;
use std::alloc::Global;

/// Where a label stands: in which line, from 1, and with how many words before it.
#[derive(Clone, Copy, Debug)]
pub struct Place {
    pub line: u64,
    pub at: u32,
}

/// The labels of a text. Of several with one name the first counts.
#[derive(Drop)]
pub struct Labels<'a> {
    places: IndexMap<&'a [u8], Place, TextKey>,
}

impl<'a> Labels<'a> {
    /// None yet. They are hashed under the key.
    fn new(alloc: Global, key: TextKey) -> Labels<'a>
        ensures { (name : List ℕ) → kept result name ≡ None }
    {
        Labels {
            places: IndexMap::with_hasher(alloc, key),
        }
    }

    /// Where the label of a name stands.
    pub fn find(&self, name: &[u8]) -> Option<Place>
        ensures { result ≡ kept self.now name.now }
    {
        self.places.get(name).copied()
    }

    /// Keeps the place of a label, unless its name has one.
    fn note(&mut self, own: &'a [u8], place: Place) -> Result<(), Memory>
        ensures { OnOk result (Adds (kept self.old) (kept self.new) (noted own.now place)) }
    {
        if self.find(own).is_some() {
            return Ok(());
        }
        match self.places.insert(own, place) {
            Ok(_) => Ok(()),
            Err(_) => Err(Memory),
        }
    }

    /// Keeps the place of a line's label if it has one.
    #[tactic(auto, using(pa_names::proofs::Kept::nothing_noted))]
    fn note_line(&mut self, line: &Line<'a>, place: Place) -> Result<(), Memory>
        ensures { OnOk result (Adds (kept self.old) (kept self.new) (noted_line (shown line.now) place)) }
    {
        match line {
            Line::Label { name, .. } => self.note(name, place),
            Line::Blank | Line::Row(_) | Line::Unknown => Ok(()),
        }
    }

    /// The labels of the lines of a text.
    pub fn of(alloc: Global, text: &'a [u8]) -> Result<Labels<'a>, Memory>
        requires { length text.now ≤ 4294967295 }
        ensures { IfOk result (λ labels. (name : List ℕ) → kept labels name ≡ spec.find (read text.now) name) }
    {
        let mut labels = Labels::new(alloc, TextKey::of(text));
        let mut number = 1;
        let mut at = 0;
        let mut rest = Some(text);
        'lines: while let Some(ahead) = rest {
            let (text, behind) = cut_line(ahead);
            let line = read_line(text);
            labels.note_line(&line, Place { line: number, at })?;
            number += 1;
            at += words(&line);
            rest = behind;
        }
        Ok(labels)
    }
}

/// How many words a line gives.
fn words(line: &Line) -> u32
    ensures { result ≡ spec.words (shown line.now) }
{
    match line {
        Line::Blank | Line::Label { .. } => 0,
        Line::Row(_) | Line::Unknown => 1,
    }
}
