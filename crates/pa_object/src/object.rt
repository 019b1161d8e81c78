//! Objects of code: what a compiler or an assembler makes, and a linker puts together.

use pa_num::{Bytes, Name, Sequence, Words};
use pa_pac::Schema;

/// Words of code with the names that stand in them, what they refer to, and data. `linkable` in `specs/Linkable.antt` says
/// which lists of objects make an image.
#[derive(Debug, Drop)]
pub struct Object {
    pub code: Words,
    pub marks: Marks,
    pub refs: Refs,
    pub globals: Globals,
}

/// A name for the word number `at` of an object's code. Other objects and the image's symbols see a public one.
#[derive(Debug, Drop)]
pub struct Mark {
    pub name: Name,
    /// How many words of the object's code stand before it.
    pub at: u32,
    pub public: bool,
}

/// Marks in the order of their places.
pub type Marks = Sequence<Mark>;

/// Which part of a word a name's place fills.
#[derive(Clone, Copy, Debug, PartialEq, Eq)]
pub enum RefKind {
    /// The distance to a function, in a BL.
    Call,
    /// The page of a function or a global, in an ADRP.
    Page,
    /// The place in that page, in an ADD with an immediate.
    Low,
    /// The page of an import's slot, in an ADRP.
    SlotPage,
    /// The place in that page, in an ADD with an immediate.
    SlotLow,
}

/// A word of an object's code that is filled when the place of a name is known. Until then its field is 0.
#[derive(Debug, Drop)]
pub struct Ref {
    /// How many words of the object's code stand before it.
    pub at: u32,
    pub kind: RefKind,
    pub name: Name,
}

/// References in the order of their words.
pub type Refs = Sequence<Ref>;

/// A pointer in a global's bytes that is filled when the place of a name is known. It has 8 bytes.
#[derive(Debug, Drop)]
pub enum SlotValue {
    /// The address of a function or a global, plus so many bytes.
    Address { name: Name, addend: i64 },
    /// The address of a function, signed under the schema.
    Signed { name: Name, schema: Schema },
}

#[derive(Debug, Drop)]
pub struct Slot {
    /// How many bytes of the global stand before it.
    pub offset: u32,
    pub value: SlotValue,
}

/// Slots in the order of their offsets.
pub type Slots = Sequence<Slot>;

/// An object of data: a global, or a string literal where `constant` is set.
#[derive(Debug, Drop)]
pub struct Global {
    pub name: Name,
    /// In bytes.
    pub align: u32,
    pub constant: bool,
    /// The bytes that it begins with. Those of a slot don't count.
    pub bytes: Bytes,
    pub slots: Slots,
}

/// Globals in the order in which they are laid out.
pub type Globals = Sequence<Global>;

/// Objects in the order in which they are linked.
pub type Objects = Sequence<Object>;
