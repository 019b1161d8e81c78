//! The tags of structs and enumerations, by the numbers of their names.

ghost use Rattle.std.specs.Prelude.{◌≡◌, ◌∷◌, [], ◌++◌, ℕ, List, None, Some, false, IfOk, OnOk, OnErr};
ghost use Rattle.pa_scope.specs.Numbered as spec;

use indexmap::{IndexMap, IndexSet};
use pa_num::Memory;
use std::alloc::Global;
use std::marker::Model;

/// The tags of structs with the structs' ids, and those of enumerations (C11 6.2.3), each once and in order.
#[derive(Drop)]
pub struct Tags {
    structs: IndexMap<u32, u32>,
    enums: IndexSet<u32>,
}

impl Model for Tags {
    ghost use Rattle.pa_scope.specs.Numbered.{TagNumbers};

    ghost Value = { TagNumbers };

    ghost view = { λ t. record { structs = t.structs.entries; enums = t.enums.keys } };
}

impl Tags {
    /// No tags. It takes no memory.
    pub(crate) fn new(alloc: Global) -> Tags
        ensures { result ≡ record { structs = []; enums = [] } }
    {
        Tags {
            structs: IndexMap::new(alloc),
            enums: IndexSet::new(alloc),
        }
    }

    /// The id of the struct of a tag.
    pub fn struct_id(&self, tag: u32) -> Option<u32>
        ensures { result ≡ spec.id_of self.now.structs tag }
    {
        self.structs.get(&tag).copied()
    }

    /// Whether there is an enumeration of this tag.
    pub fn has_enum(&self, tag: u32) -> bool
        ensures { result ≡ spec.has_tag self.now.enums tag }
    {
        self.enums.contains(&tag)
    }

    /// One more tag of a struct. After want of memory there is none more.
    pub(crate) fn add_struct(&mut self, tag: u32, id: u32) -> Result<(), Memory>
        requires { spec.id_of self.old.structs tag ≡ None }
        ensures ok { OnOk result (self.new ≡ record self.old { structs = self.old.structs ++ (tag, id) ∷ [] }) }
        ensures err { OnErr result (self.new ≡ self.old) }
    {
        let Ok(_) = self.structs.insert(tag, id) else {
            return Err(Memory);
        };
        Ok(())
    }

    /// One more tag of an enumeration. After want of memory there is none more.
    pub(crate) fn add_enum(&mut self, tag: u32) -> Result<(), Memory>
        requires { spec.has_tag self.old.enums tag ≡ false }
        ensures ok { OnOk result (self.new ≡ record self.old { enums = self.old.enums ++ tag ∷ [] }) }
        ensures err { OnErr result (self.new ≡ self.old) }
    {
        match self.enums.insert(tag) {
            Ok(_) => Ok(()),
            Err(_) => Err(Memory),
        }
    }

    /// Without the last tag of a struct.
    pub(crate) fn remove_last_struct(&mut self)
        ensures { (tags : List (ℕ × ℕ)) (last : ℕ × ℕ) → self.old.structs ≡ tags ++ last ∷ [] → self.new ≡ record self.old { structs = tags } }
    {
        self.structs.pop();
    }
}
