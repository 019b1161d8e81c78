ghost use Rattle.std.specs.Prelude.{◌≡◌, ◌≤◌, ◌<◌, ◌+◌, ◌^◌, ℕ, List, None, length, OnOk};
ghost use Rattle.std.specs.List.{AllByRecursion};
ghost use Rattle.pa_names.specs.Kept.{Adds, noted};
ghost use Rattle.pa_linker.specs.Layout.{find, functions_from, globals_from, marks_behind, marks_of, words_after};
ghost use Rattle.pa_linker.specs.Tables.{all_shown, kept_place, most_words, most_data, MarksStand};

use crate::layout::START_WORDS;
use crate::section::LaidGlobal;
use indexmap::IndexMap;
use pa_macho::FRONT;
use pa_names::TextKey;
use pa_num::Memory;
use pa_object::Object;
use std::alloc::Global;

/// The functions and globals of an image with their places, from its first byte. Of several with one name the first counts.
#[derive(Drop)]
pub(crate) struct Symbols<'a> {
    places: IndexMap<&'a [u8], u32, TextKey>,
}

impl<'a> Symbols<'a> {
    /// None yet. They are hashed under the key.
    pub(crate) fn new(alloc: Global, key: TextKey) -> Symbols<'a>
        ensures { (name : List ℕ) → kept_place result name ≡ None }
    {
        Symbols {
            places: IndexMap::with_hasher(alloc, key),
        }
    }

    /// Where the function or the global of a name stands.
    pub(crate) fn find(&self, name: &[u8]) -> Option<u32>
        ensures { result ≡ kept_place self.now name.now }
    {
        self.places.get(name).copied()
    }

    /// Keeps the place of a name, unless it has one.
    fn note(&mut self, own: &'a [u8], place: u32) -> Result<(), Memory>
        ensures { OnOk result (Adds (kept_place self.old) (kept_place self.new) (noted own.now place)) }
    {
        if self.find(own).is_some() {
            return Ok(());
        }
        match self.places.insert(own, place) {
            Ok(_) => Ok(()),
            Err(_) => Err(Memory),
        }
    }

    /// Keeps the places of an object's functions, where its code begins behind so many words.
    fn note_marks(&mut self, object: &'a Object, words: u32) -> Result<(), Memory>
        requires stand { MarksStand object.now }
        requires few { words + length object.now.code ≤ most_words }
        ensures { OnOk result (Adds (kept_place self.old) (kept_place self.new)
            (find (functions_from (marks_behind words object.now.marks)))) }
    {
        let mut rest = object.marks.as_slice();
        while let Some((mark, behind)) = rest.split_first() {
            self.note(mark.name.as_slice(), FRONT as u32 + 4 * (words + mark.at))?;
            rest = behind;
        }
        Ok(())
    }

    /// Keeps the places of the functions of objects.
    #[tactic(auto, using(crate::proofs::Words::least, crate::proofs::Words::find_more))]
    pub(crate) fn note_functions(&mut self, objects: &'a [Object]) -> Result<(), Memory>
        requires stand { AllByRecursion MarksStand objects.now }
        requires few { words_after 3 objects.now ≤ most_words }
        ensures { OnOk result (Adds (kept_place self.old) (kept_place self.new) (find (functions_from (marks_of objects.now)))) }
    {
        let mut words = START_WORDS;
        let mut rest = objects;
        while let Some((object, behind)) = rest.split_first() {
            self.note_marks(object, words)?;
            words += object.code.len() as u32;
            rest = behind;
        }
        Ok(())
    }

    /// Keeps the places of the globals of a section.
    pub(crate) fn note_globals(
        &mut self,
        section: u32,
        globals: &[LaidGlobal<'a>],
    ) -> Result<(), Memory>
        requires begins { section < 2 ^ 23 }
        requires small { AllByRecursion (λ laid. laid.at ≤ most_data) (all_shown globals.now) }
        ensures { OnOk result (Adds (kept_place self.old) (kept_place self.new)
            (find (globals_from section (all_shown globals.now)))) }
    {
        for laid in globals {
            self.note(laid.global.name.as_slice(), section + laid.at)?;
        }
        Ok(())
    }
}
