//! The names that are type names.

ghost use Rattle.std.specs.Prelude.{◌≡◌, ℕ, [], ◌∷◌, ◌<◌, false, get_or, length, OnOk, OnErr};
ghost use Rattle.pa_tree.specs.Spells as grammar;

use pa_lex::NameNumber;
use pa_num::Memory;
use std::alloc::{AllocError, Global};
use std::marker::Model;

/// The type names at a place of a file (C11 6.7.8), the one declared last first.
#[derive(Drop)]
pub struct TypeNames {
    names: Vec<NameNumber>,
    /// Whether the name of each number is one of them.
    marks: Vec<bool>,
}

impl Model for TypeNames {
    ghost use Rattle.std.specs.Prelude.{◌≡◌, ℕ, List, false, get_or, reverse};
    ghost use Rattle.pa_tree.specs.Spells as grammar;

    ghost Value = { List ℕ };

    ghost view = { λ t. reverse t.names.items };

    ghost invariant = { λ t. (name : ℕ) → get_or t.marks.items name false ≡ grammar.is_type t.names.items name };
}

/// Makes room for the mark of a name.
fn make_room(marks: &mut Vec<bool>, name: NameNumber) -> Result<(), AllocError>
    ensures same { (n : ℕ) → get_or marks.new.items n false ≡ get_or marks.old.items n false }
    ensures room { OnOk result (name < length marks.new.items) }
{
    let name = name as usize;
    if marks.len() <= name {
        marks.resize(name + 1, false)?;
    }
    Ok(())
}

impl TypeNames {
    /// No name yet. It takes no memory.
    pub fn new(alloc: Global) -> TypeNames
        ensures { result ≡ [] }
    {
        TypeNames {
            names: Vec::new(alloc),
            marks: Vec::new(alloc),
        }
    }

    /// Makes this name a type name, in memory in proportion to its number. After want of memory the names are as before.
    #[tactic(auto, using(crate::proofs::Noted::reverse_snoc, crate::proofs::Noted::is_type_snoc))]
    pub fn push(&mut self, name: NameNumber) -> Result<(), Memory>
        ensures ok { OnOk result (self.new ≡ name ∷ self.old) }
        ensures err { OnErr result (self.new ≡ self.old) }
    {
        make_room(&mut self.marks, name)?;
        if self.names.push(name).is_err() {
            return Err(Memory);
        }
        self.marks[name as usize] = true;
        Ok(())
    }

    /// The name is one of them.
    #[tactic(auto, using(crate::proofs::Noted::is_type_reverse))]
    pub fn contains(&self, name: NameNumber) -> bool
        ensures { result ≡ grammar.is_type self.now name }
    {
        self.marks.get(name as usize).copied().unwrap_or(false)
    }
}
