//! All objects of a run, by their owners.

ghost use Rattle.std.specs.Prelude.{◌≡◌, ◌<◌, ◌≤◌, ℕ, List, [], length, IfSome, option_map};
ghost use Rattle.std.specs.Option.{option_copied};
ghost use Rattle.pa_ctype.specs.Values as spec;
ghost use Rattle.pa_ctype.specs.Nodes.{at};
ghost use Rattle.pa_ctype.specs.Tables.{TypeTable, AreApart};
ghost use Rattle.pa_store.specs.Views.{owner_bound, owner_tree, place_tree, value_tree};
ghost use Rattle.pa_store.specs.Objects.{IsObject, object_tree};
ghost use Rattle.pa_store.specs.Store.{AreObjects, objects_tree, ForStores};

use crate::objects::Object;
use crate::value::{Owner, Place, Value};
use indexmap::IndexMap;
use pa_ctype::Types;
use std::alloc::Global;

/// The objects of a run in the order in which they came to life, dead ones too.
#[derive(Drop)]
pub struct Objects {
    pub(crate) objects: IndexMap<Owner, Object>,
}

impl Objects {
    /// No objects. It takes no memory.
    pub fn new(alloc: Global) -> Objects
        ensures { result.objects.entries ≡ [] }
    {
        Objects {
            objects: IndexMap::new(alloc),
        }
    }

    /// The object of this owner, if there is one.
    pub fn object(&self, owner: Owner) -> Option<&Object>
        ensures well { (t : TypeTable) → AreObjects t self.now
            → IfSome result (λ object. IsObject t object.now) }
        ensures is { ForStores self.now owner (λ t names.
            option_map (object_tree names t) (option_copied result)
            ≡ spec.object_of (objects_tree names t self.now) (owner_tree names owner)) }
    {
        self.objects.get(&owner)
    }

    /// What a read of that type at the place gives (C11 6.3.2.1p2, 6.5p7). None: the behaviour is undefined.
    pub fn read(&self, types: &Types, place: Place, of: u32) -> Option<Value>
        requires objects { AreObjects types.now self.now }
        requires owner { owner_bound place.owner ≤ types.now.names }
        requires known { of < length types.now.nodes }
        ensures { (names : ℕ → List ℕ) → AreApart types.now.names names
            → option_map (value_tree names) result
            ≡ spec.read (objects_tree names types.now self.now) (place_tree names place)
            (at types.now.nodes of) }
    {
        self.object(place.owner)?.read(types, place.offset, of)
    }

    /// Whether the place lies in its object or at its end (C11 6.5.6p8).
    pub fn has(&self, place: Place) -> bool
        ensures { ForStores self.now place.owner (λ t names.
            result ≡ spec.is_in_object (objects_tree names t self.now) (place_tree names place)) }
    {
        match self.object(place.owner) {
            Some(object) => place.offset <= object.size,
            None => false,
        }
    }
}
