ghost use Rattle.std.specs.Prelude.{◌≡◌, ℕ, List, [], ◌∷◌, IfOk, OnOk};
ghost use Rattle.pa_macho.specs.Layout.{base_of};
ghost use Rattle.pa_macho.specs.declared.header.Role.TheVariants.{Library};
ghost use Rattle.pa_image.specs.Places.{exported};
ghost use Rattle.pa_names.specs.Kept.{Adds, noted};
ghost use Rattle.pa_load.specs.Exports.{kept};

use indexmap::IndexMap;
use pa_macho::{FRONT, Role};
use pa_names::{TextDigest, TextKey};
use pa_num::Memory;
use pa_object::Mark;
use std::alloc::Global;

/// The functions that a runtime image exports, with their addresses. Of several with one name the first counts.
#[derive(Drop)]
pub(crate) struct Exports<'a> {
    addresses: IndexMap<&'a [u8], u64, TextKey>,
}

/// The key of a table of the public names: they alone decide what the table keeps.
fn key_of(marks: &[Mark]) -> TextKey {
    let mut digest = TextDigest::new();
    for mark in marks {
        if mark.public {
            digest.add(mark.name.as_slice());
        }
    }
    digest.finish()
}

impl<'a> Exports<'a> {
    /// The address of the function of a name.
    pub(crate) fn find(&self, name: &[u8]) -> Option<u64>
        ensures { result ≡ kept self.now name.now }
    {
        self.addresses.get(name).copied()
    }

    /// Keeps the address of a function, unless its name has one.
    fn note(&mut self, own: &'a [u8], address: u64) -> Result<(), Memory>
        ensures { OnOk result (Adds (kept self.old) (kept self.new) (noted own.now address)) }
    {
        if self.find(own).is_some() {
            return Ok(());
        }
        match self.addresses.insert(own, address) {
            Ok(_) => Ok(()),
            Err(_) => Err(Memory),
        }
    }

    /// Keeps the address of a mark that other images see.
    fn note_mark(&mut self, mark: &'a Mark) -> Result<(), Memory>
        ensures { OnOk result (Adds (kept self.old) (kept self.new) (exported (base_of Library) (mark.now ∷ []))) }
    {
        if mark.public {
            // A runtime image stays where its file says.
            let text = Role::Library.base() + FRONT as u64;
            self.note(mark.name.as_slice(), text + 4 * u64::from(mark.at))
        } else {
            Ok(())
        }
    }

    /// The functions of a runtime image with these marks.
    pub(crate) fn of(alloc: Global, marks: &'a [Mark]) -> Result<Exports<'a>, Memory>
        ensures { IfOk result (λ exports. (name : List ℕ) → kept exports name ≡ exported (base_of Library) marks.now name) }
    {
        let mut exports = Exports {
            addresses: IndexMap::with_hasher(alloc, key_of(marks)),
        };
        let mut rest = marks;
        while let Some((mark, behind)) = rest.split_first() {
            exports.note_mark(mark)?;
            rest = behind;
        }
        Ok(exports)
    }
}
