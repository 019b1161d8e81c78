//! The declarations of the open blocks, by the numbers of their names.

ghost use Rattle.std.specs.Prelude.{◌≡◌, ◌≤◌, ◌<◌, ◌∷◌, [], ◌++◌, ℕ, length, get_or, reverse, Some, None, IsSome, IfSome, OnOk, OnErr, ◌==◌};
ghost use Rattle.pa_blocks.specs.Blocks as spec;
ghost use Rattle.pa_blocks.specs.Steps as kept;

use crate::meant::Meant;
use pa_num::Memory;
use sqlite_items::Items;
use std::alloc::{AllocError, Global};
use std::marker::Model;

/// The newest declaration of a name: how many blocks are around its own, and what it means.
#[derive(Clone, Copy)]
pub(crate) struct Known {
    pub(crate) level: usize,
    pub(crate) means: Meant,
}

impl Known {
    /// The declaration, as one of this type.
    fn with_type(self, of: u32) -> Known
        ensures { result ≡ kept.with_known_type of self }
    {
        Known {
            level: self.level,
            means: self.means.with_type(of),
        }
    }
}

/// What the end of a block undoes.
#[derive(Clone, Copy)]
pub(crate) enum Step {
    /// A block began.
    Enter,
    /// A name was declared, which had this declaration before.
    Declare { name: u32, before: Option<Known> },
}

/// The declarations of ordinary names in the open blocks (C11 6.2.1p4). Each name's newest one is found by its number, and a
/// block's end undoes what the block declared.
#[derive(Drop)]
pub struct Declarations {
    newest: Vec<Option<Known>>,
    steps: Items<Step>,
    level: usize,
}

impl Model for Declarations {
    ghost use Rattle.std.specs.Prelude.{reverse};
    ghost use Rattle.pa_blocks.specs.Blocks.{Blocks};

    ghost Value = { Blocks };

    ghost use Rattle.pa_blocks.specs.Steps as kept;

    ghost view = { λ d. kept.blocks_of (kept.newest_of d.newest.items) (reverse d.steps) };

    ghost invariant = { λ d. kept.AreLevelled (kept.newest_of d.newest.items) (reverse d.steps) d.level };
}

/// Makes room for the declaration of a name.
fn make_room(newest: &mut Vec<Option<Known>>, name: u32) -> Result<(), AllocError>
    ensures same { (n : ℕ) → get_or newest.new.items n None ≡ get_or newest.old.items n None }
    ensures room { OnOk result (name < length newest.new.items) }
{
    let name = name as usize;
    if newest.len() <= name {
        newest.resize(name + 1, None)?;
    }
    Ok(())
}

/// The newest declaration of a name. None: it has none.
fn known_of(newest: &[Option<Known>], name: u32) -> Option<Known>
    ensures { result ≡ get_or newest.now name None }
{
    match newest.get(name as usize) {
        Some(known) => *known,
        None => None,
    }
}

/// What the name is declared as.
fn means_of(known: Option<Known>) -> Option<Meant>
    ensures { result ≡ kept.means_of known }
{
    match known {
        Some(known) => Some(known.means),
        None => None,
    }
}

/// What the name is declared as in a block of that level.
fn means_at(level: usize, known: Option<Known>) -> Option<Meant>
    ensures { result ≡ kept.means_at level known }
{
    match known {
        Some(known) if known.level == level => Some(known.means),
        _ => None,
    }
}

/// Another declaration of a name becomes its newest.
fn put(newest: &mut Vec<Option<Known>>, name: u32, known: Option<Known>)
    requires { name < length newest.old.items }
    ensures { (n : ℕ) → get_or newest.new.items n None ≡ kept.put name known (kept.newest_of newest.old.items) n }
{
    newest[name as usize] = known;
}

impl Declarations {
    /// The file, without names. It takes no memory.
    pub fn new(alloc: Global) -> Declarations
        ensures { result ≡ spec.none }
    {
        Declarations {
            newest: Vec::new(alloc),
            steps: Items::new(alloc),
            level: 0,
        }
    }

    /// Whether no block is open but the file.
    pub fn is_file_level(&self) -> bool
        ensures { result ≡ (length self.now.around == 0) }
    {
        self.level == 0
    }

    /// Begins a block. After want of memory none is begun.
    pub fn enter(&mut self) -> Result<(), Memory>
        ensures ok { OnOk result (self.new ≡ spec.entered self.old) }
        ensures err { OnErr result (self.new ≡ self.old) }
    {
        let Some(level) = self.level.checked_add(1) else {
            return Err(Memory);
        };
        self.steps.push(Step::Enter)?;
        self.level = level;
        Ok(())
    }

    /// Ends the innermost block, whose names mean what they meant before it. It takes time in proportion to their count.
    pub fn leave(&mut self)
        requires { 1 ≤ length self.old.around }
        ensures { self.new ≡ spec.left self.old }
    {
        'steps: while let Some(step) = self.steps.pop() {
            match step {
                Step::Enter => {
                    self.level -= 1;
                    return;
                }
                Step::Declare { name, before } => put(&mut self.newest, name, before),
            }
        }
    }

    /// Declares a name in the innermost block, in memory in proportion to its number. After want of memory it isn't declared.
    pub fn declare(&mut self, name: u32, means: Meant) -> Result<(), Memory>
        ensures ok { OnOk result (self.new ≡ spec.with_name name means self.old) }
        ensures err { OnErr result (self.new ≡ self.old) }
    {
        make_room(&mut self.newest, name)?;
        let before = known_of(&self.newest, name);
        self.steps.push(Step::Declare { name, before })?;
        let level = self.level;
        put(&mut self.newest, name, Some(Known { level, means }));
        Ok(())
    }

    /// What the name means: by its innermost declaration. None: it isn't declared.
    pub fn find(&self, name: u32) -> Option<Meant>
        ensures value { result ≡ spec.meaning self.now name }
        ensures known { spec.types_in result ≤ spec.types_bound self.now }
    {
        means_of(known_of(&self.newest, name))
    }

    /// What the innermost block declares the name as. None: it doesn't declare it.
    pub fn find_in_block(&self, name: u32) -> Option<Meant>
        ensures value { result ≡ spec.in_block self.now.block name }
        ensures known { spec.types_in result ≤ spec.block_types self.now.block }
    {
        means_at(self.level, known_of(&self.newest, name))
    }

    /// Gives the innermost object or function of the name this type.
    pub fn set_type(&mut self, name: u32, of: u32)
        requires { IsSome (spec.meaning self.old name) }
        ensures { self.new ≡ spec.retyped name of self.old }
    {
        match known_of(&self.newest, name) {
            Some(known) => put(&mut self.newest, name, Some(known.with_type(of))),
            None => unreachable!(),
        }
    }
}
