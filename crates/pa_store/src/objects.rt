//! Objects of a program that is run (C11 3.15, 6.2.4), of whose cells those with a value are kept.

ghost use Rattle.std.specs.Prelude.{◌≡◌, ◌<◌, ℕ, List, length, Some, None, IfSome, OnOk, OnErr, option_map, false};
ghost use Rattle.std.specs.Option.{option_and_then};
ghost use Rattle.indexmap.specs.IndexMap.{get};
ghost use Rattle.pa_ctype.specs.Values.{cell_in, fresh};
ghost use Rattle.pa_ctype.specs.Nodes.{at};
ghost use Rattle.pa_ctype.specs.Tables.{TypeTable};
ghost use Rattle.pa_store.specs.Found.{structs_in};
ghost use Rattle.pa_store.specs.Views.{owner_tree, value_tree};
ghost use Rattle.pa_store.specs.Objects.{IsObject, object_tree, kept_cell, with_value_at};

use crate::finding::{Scalar, find_cell};
use crate::value::{Owner, Value};
use indexmap::IndexMap;
use pa_ctype::Types;
use pa_num::Memory;
use std::alloc::Global;

/// An object of a type of a table, with the values of its cells by their places in bytes. It may be dead, and then keeps them.
#[derive(Drop)]
pub struct Object {
    pub(crate) owner: Owner,
    pub(crate) of: u32,
    pub(crate) size: u64,
    pub(crate) alive: bool,
    pub(crate) values: IndexMap<u64, Value>,
}

impl Object {
    /// A living object of a type, without a value yet. It takes no memory. None: the type has no layout.
    pub fn fresh(alloc: Global, types: &Types, owner: Owner, of: u32) -> Option<Object>
        requires { of < length types.now.nodes }
        ensures well { IfSome result (λ object. IsObject types.now object) }
        ensures is { (names : ℕ → List ℕ)
            → option_map (object_tree names types.now) result
            ≡ fresh (structs_in names types.now) (owner_tree names owner) (at types.now.nodes of) }
    {
        let layout = types.layout_of(of)?;
        Some(Object {
            owner,
            of,
            size: layout.size,
            alive: true,
            values: IndexMap::new(alloc),
        })
    }

    /// The cell of the object that begins at the place and has that type, but for a `const` of its own (C11 6.5p7). None: there is
    /// none, or the object is dead.
    pub fn cell(&self, types: &Types, place: u64, of: u32) -> Option<Scalar>
        requires well { IsObject types.now self.now }
        requires known { of < length types.now.nodes }
        ensures { (names : ℕ → List ℕ)
            → option_map (kept_cell names types.now self.now place) result
            ≡ cell_in place (at types.now.nodes of) (object_tree names types.now self.now) }
    {
        if !self.alive {
            return None;
        }
        if place >= self.size {
            return None;
        }
        let cell = find_cell(types, self.of, place)?;
        if types.is_same_but_const(cell.of, of) {
            Some(cell)
        } else {
            None
        }
    }

    /// What a read of that type at the place gives (C11 6.3.2.1p2, 6.5p7). None: the behaviour is undefined.
    pub fn read(&self, types: &Types, place: u64, of: u32) -> Option<Value>
        requires well { IsObject types.now self.now }
        requires known { of < length types.now.nodes }
        ensures { (names : ℕ → List ℕ)
            → option_map (value_tree names) result
            ≡ option_and_then (λ cell. cell.value)
            (cell_in place (at types.now.nodes of) (object_tree names types.now self.now)) }
    {
        let _cell = self.cell(types, place, of)?;
        Some(*self.values.get(&place)?)
    }

    /// Gives the cell at a place its value; where there is no cell, nothing changes. When memory is out, the object stays as it was.
    pub fn set(&mut self, place: u64, value: Value) -> Result<(), Memory>
        ensures well { (t : TypeTable) → IsObject t self.old → IsObject t self.new }
        ensures ok { OnOk result ((t : TypeTable) (names : ℕ → List ℕ)
            → object_tree names t self.new
            ≡ with_value_at place (value_tree names value) (object_tree names t self.old)) }
        ensures err { OnErr result ((t : TypeTable) (names : ℕ → List ℕ)
            → object_tree names t self.new ≡ object_tree names t self.old) }
    {
        match self.values.insert(place, value) {
            Ok(_) => Ok(()),
            Err(_) => Err(Memory),
        }
    }

    /// The object dies (C11 6.2.4p2).
    pub fn die(&mut self)
        ensures { self.new ≡ record self.old { alive = false } }
    {
        self.alive = false;
    }
}
