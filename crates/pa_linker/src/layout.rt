ghost use Rattle.std.specs.Prelude.{◌≡◌, ◌≤◌, ◌<◌, ◌^◌, true, false, IfOk};
ghost use Rattle.pa_macho.specs.Layout.{places_of};
ghost use Rattle.pa_linker.specs.Layout as spec;
ghost use Rattle.pa_linker.specs.Layout.{begins, header_with, layout_of, words_after};
ghost use Rattle.pa_linker.specs.Linked.{target};
ghost use Rattle.pa_linker.specs.Tables.{layout_in, most_words, most_data, Fits, IsSection, IsSmall};

use crate::imports::{Imports, key_of};
use crate::section::Section;
use crate::symbols::Symbols;
use pa_macho::{Header, Role};
use pa_num::{Memory, Names};
use pa_object::{Object, RefKind};
use std::alloc::Global;

/// The words of the code that calls `_main`, before the functions.
pub(crate) const START_WORDS: u32 = 3;

/// The bytes of a stub, of four words.
const STUB_SIZE: u32 = 16;

/// The bytes of a slot.
pub(crate) const SLOT_SIZE: u32 = 8;

/// Where `__auth_stubs`, `__const`, `__auth_got` and `__data` begin, from the image's first byte.
#[derive(Clone, Copy)]
pub(crate) struct Sections {
    pub stubs: u32,
    pub consts: u32,
    pub got: u32,
    pub cells: u32,
}

impl Sections {
    /// Those of an image of so many words of code, imports, bytes of string literals and bytes of other globals.
    #[tactic(auto, using(crate::proofs::Small::places_small))]
    fn of(words: u32, imports: usize, literals: u32, variables: u32) -> Sections
        requires words { words ≤ most_words }
        requires imports { imports ≤ 2 }
        requires literals { literals ≤ most_data }
        requires variables { variables ≤ most_data }
        ensures value { result ≡ begins (places_of (header_with words imports literals variables)) }
        ensures consts { result.consts < 2 ^ 23 }
        ensures cells { result.cells < 2 ^ 23 }
    {
        let places = Header {
            role: Role::Main,
            text: 4 * words,
            stubs: STUB_SIZE * imports as u32,
            consts: literals,
            got: SLOT_SIZE * imports as u32,
            cells: variables,
            fixups: 0,
            symbols: 0,
            strings: 0,
        }
        .places();
        Sections {
            stubs: places.stubs as u32,
            consts: places.consts as u32,
            got: places.got as u32,
            cells: places.cells as u32,
        }
    }
}

/// How many words of code the image of objects has.
#[tactic(auto, using(crate::proofs::Words::least))]
fn code_words(objects: &[Object]) -> u32
    requires { words_after 3 objects.now ≤ most_words }
    ensures { result ≡ words_after 3 objects.now }
{
    let mut words = START_WORDS;
    let mut rest = objects;
    while let Some((object, behind)) = rest.split_first() {
        words += object.code.len() as u32;
        rest = behind;
    }
    words
}

/// Where all that has a name stands in an image, from its first byte.
#[derive(Drop)]
pub(crate) struct LayoutTable<'a> {
    pub sections: Sections,
    pub imports: Imports<'a>,
    symbols: Symbols<'a>,
}

impl<'a> LayoutTable<'a> {
    /// The layout of the image of objects, whose sections are these.
    pub(crate) fn of(
        alloc: Global,
        objects: &'a [Object],
        literals: &Section<'a>,
        variables: &Section<'a>,
    ) -> Result<LayoutTable<'a>, Memory>
        requires fits { Fits objects.now }
        requires literals { IsSection literals.now true objects.now }
        requires variables { IsSection variables.now false objects.now }
        ensures { IfOk result (λ table. layout_in table ≡ layout_of objects.now) }
    {
        let key = key_of(objects);
        let imports = Imports::of(alloc, key, objects)?;
        let words = code_words(objects);
        let sections = Sections::of(words, imports.names().len(), literals.end, variables.end);
        let mut symbols = Symbols::new(alloc, key);
        symbols.note_functions(objects)?;
        symbols.note_globals(sections.consts, literals.globals.as_slice())?;
        symbols.note_globals(sections.cells, variables.globals.as_slice())?;
        Ok(LayoutTable {
            sections,
            imports,
            symbols,
        })
    }

    /// The names of the imports, in order.
    pub(crate) fn into_imports(self) -> Names
        ensures { result ≡ (layout_in self.entry).imports }
    {
        let LayoutTable { imports, .. } = self;
        imports.into_names()
    }

    /// Where the function or the global of a name stands.
    pub(crate) fn find(&self, name: &[u8]) -> Option<u32>
        ensures { result ≡ (layout_in self.now).find name.now }
    {
        self.symbols.find(name)
    }

    /// The stub of an import.
    pub(crate) fn stub(&self, import: usize) -> u32
        requires small { IsSmall (layout_in self.now) }
        requires few { import ≤ 2 }
        ensures { result ≡ spec.stub_place (layout_in self.now) import }
    {
        self.sections.stubs + STUB_SIZE * import as u32
    }

    /// The slot of an import.
    pub(crate) fn slot(&self, import: usize) -> u32
        requires small { IsSmall (layout_in self.now) }
        requires few { import ≤ 2 }
        ensures { result ≡ spec.slot_place (layout_in self.now) import }
    {
        self.sections.got + SLOT_SIZE * import as u32
    }

    /// Where the function or the global of a name stands, or the stub of its import.
    pub(crate) fn place(&self, name: &[u8]) -> u32
        requires small { IsSmall (layout_in self.now) }
        ensures value { result ≡ spec.place_of (layout_in self.now) name.now }
        ensures small { result < 2 ^ 24 }
    {
        match self.find(name) {
            Some(place) => place,
            None => self.stub(self.imports.index(name)),
        }
    }

    /// Where a reference leads.
    pub(crate) fn target(&self, kind: RefKind, name: &[u8]) -> u32
        requires small { IsSmall (layout_in self.now) }
        ensures value { result ≡ target (layout_in self.now) kind name.now }
        ensures small { result < 2 ^ 24 }
    {
        match kind {
            RefKind::SlotPage | RefKind::SlotLow => self.slot(self.imports.index(name)),
            RefKind::Call | RefKind::Page | RefKind::Low => self.place(name),
        }
    }
}
