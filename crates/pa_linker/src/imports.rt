ghost use Rattle.std.specs.Prelude.{◌≡◌, [], ◌∷◌, filter, IfOk, OnOk};
ghost use Rattle.std.specs.List.{AllByRecursion};
ghost use Rattle.pa_linker.specs.Imports as spec;
ghost use Rattle.pa_linker.specs.Imports.{first_uses, is_runtime, imports_of};
ghost use Rattle.pa_linker.specs.Tables.{IsIndexed, kept_import, index_of, RefsStand};

use crate::references::{by_word, ref_at};
use indexmap::IndexMap;
use pa_names::{TextDigest, TextKey};
use pa_num::{Memory, Name, Names};
use pa_object::{Object, Slot, SlotValue};
use std::alloc::Global;

/// The functions of the runtime image that objects use, in the order of first use.
#[derive(Drop)]
pub(crate) struct Imports<'a> {
    indexes: IndexMap<&'a [u8], usize, TextKey>,
    names: Names,
}

/// The name is that of a function of the runtime image.
fn is_runtime(name: &[u8]) -> bool
    ensures { result ≡ spec.is_runtime name.now }
{
    name == b"_putchar".as_slice() || name == b"_getchar".as_slice()
}

/// The name that a slot's pointer is made of.
fn slot_name(value: &SlotValue) -> &[u8]
    ensures { result.now ≡ spec.slot_name value.now }
{
    match value {
        SlotValue::Address { name, .. } | SlotValue::Signed { name, .. } => name.as_slice(),
    }
}

/// Takes in what decides which names the tables of these objects keep.
fn add_names(digest: &mut TextDigest, object: &Object) {
    for mark in object.marks.as_slice() {
        digest.add(mark.name.as_slice());
    }
    for reference in object.refs.as_slice() {
        digest.add(reference.name.as_slice());
    }
    for global in object.globals.as_slice() {
        digest.add(global.name.as_slice());
        for slot in global.slots.as_slice() {
            digest.add(slot_name(&slot.value));
        }
    }
}

/// The key that names are hashed under.
pub(crate) fn key_of(objects: &[Object]) -> TextKey {
    let mut digest = TextDigest::new();
    for object in objects {
        add_names(&mut digest, object);
    }
    digest.finish()
}

impl<'a> Imports<'a> {
    fn new(alloc: Global, key: TextKey) -> Imports<'a>
        ensures names { result.names ≡ [] }
        ensures indexed { IsIndexed result }
    {
        Imports {
            indexes: IndexMap::with_hasher(alloc, key),
            names: Names::new(alloc),
        }
    }

    fn find(&self, name: &[u8]) -> Option<usize>
        ensures { result ≡ kept_import self.now name.now }
    {
        self.indexes.get(name).copied()
    }

    /// Which import has the name; of a name that isn't imported, the number of imports.
    pub(crate) fn index(&self, name: &[u8]) -> usize
        ensures { result ≡ index_of self.now name.now }
    {
        self.find(name).unwrap_or(self.names.len())
    }

    pub(crate) fn names(&self) -> &[Name]
        ensures { result.now ≡ self.now.names }
    {
        self.names.as_slice()
    }

    pub(crate) fn into_names(self) -> Names
        ensures { result ≡ self.entry.names }
    {
        let Imports { names, .. } = self;
        names
    }

    /// Notes a use of a name.
    fn note(&mut self, alloc: Global, name: &'a [u8]) -> Result<(), Memory>
        requires { IsIndexed self.old }
        ensures names { OnOk result (self.new.names ≡ first_uses self.old.names (filter is_runtime (name.now ∷ []))) }
        ensures indexed { OnOk result (IsIndexed self.new) }
    {
        if !is_runtime(name) || self.find(name).is_some() {
            return Ok(());
        }
        let index = self.names.len();
        self.names.push(Name::from_slice(alloc, name)?)?;
        match self.indexes.insert(name, index) {
            Ok(_) => Ok(()),
            Err(_) => Err(Memory),
        }
    }

    /// Notes the references of an object, word by word.
    fn note_refs(&mut self, alloc: Global, object: &'a Object) -> Result<(), Memory>
        requires indexed { IsIndexed self.old }
        requires stand { RefsStand object.now }
        ensures names { OnOk result (self.new.names ≡
            first_uses self.old.names (filter is_runtime (spec.ref_names (spec.refs_of object.now)))) }
        ensures indexed { OnOk result (IsIndexed self.new) }
    {
        let refs = object.refs.as_slice();
        let table = by_word(alloc, refs, object.code.len())?;
        for word in 0..table.len() {
            if let Some(reference) = ref_at(refs, table.as_slice(), word) {
                self.note(alloc, reference.name.as_slice())?;
            }
        }
        Ok(())
    }

    /// Notes slots in their order.
    fn note_slots(&mut self, alloc: Global, slots: &'a [Slot]) -> Result<(), Memory>
        requires indexed { IsIndexed self.old }
        ensures names { OnOk result (self.new.names ≡
            first_uses self.old.names (filter is_runtime (spec.slot_names slots.now))) }
        ensures indexed { OnOk result (IsIndexed self.new) }
    {
        let mut rest = slots;
        while let Some((slot, behind)) = rest.split_first() {
            self.note(alloc, slot_name(&slot.value))?;
            rest = behind;
        }
        Ok(())
    }

    /// Notes the slots of an object's globals.
    #[tactic(auto, using(crate::proofs::Uses::runtime_uses))]
    fn note_globals(&mut self, alloc: Global, object: &'a Object) -> Result<(), Memory>
        requires indexed { IsIndexed self.old }
        ensures names { OnOk result (self.new.names ≡
            first_uses self.old.names (filter is_runtime (spec.slot_names_of object.now.globals))) }
        ensures indexed { OnOk result (IsIndexed self.new) }
    {
        let mut rest = object.globals.as_slice();
        while let Some((global, behind)) = rest.split_first() {
            self.note_slots(alloc, global.slots.as_slice())?;
            rest = behind;
        }
        Ok(())
    }

    /// The imports of objects.
    #[tactic(auto, using(crate::proofs::Uses::runtime_uses))]
    pub(crate) fn of(
        alloc: Global,
        key: TextKey,
        objects: &'a [Object],
    ) -> Result<Imports<'a>, Memory>
        requires { AllByRecursion RefsStand objects.now }
        ensures names { IfOk result (λ imports. imports.names ≡ imports_of objects.now) }
        ensures indexed { IfOk result IsIndexed }
    {
        let mut imports = Imports::new(alloc, key);
        let mut rest = objects;
        'refs: while let Some((object, behind)) = rest.split_first() {
            imports.note_refs(alloc, object)?;
            rest = behind;
        }
        rest = objects;
        'slots: while let Some((object, behind)) = rest.split_first() {
            imports.note_globals(alloc, object)?;
            rest = behind;
        }
        Ok(imports)
    }
}
