use crate::expr::{ExprType, TExpr};
use crate::stmt::TStmt;
use pa_ctype::Types;
use pa_num::{Bytes, Names, Sequence};

/// A cell of a global (a part of a scalar type, at this offset in bytes) and the value that it gets.
#[derive(Drop)]
pub struct Cell {
    pub at: u64,
    pub of: ExprType,
    pub value: TExpr,
}

/// Cells, ascending.
pub type Cells = Sequence<Cell>;

/// String literals by their numbers from 0, each without the zero at its end: those that are a `StringPlace` or are given to a
/// part of a local object, in order of appearance.
pub type Texts = Sequence<Bytes>;

/// An object of a function: a parameter, or a name that a block declares. `size` and `align` are those of its type, in bytes.
#[derive(Clone, Copy, Debug, PartialEq, Eq)]
pub struct CLocal {
    pub of: u32,
    pub size: u64,
    pub align: u64,
}

/// The objects of a function by their numbers.
pub type CLocals = Sequence<CLocal>;

/// A function that is defined. `place` is the first byte of its name in the file; `public`: other files see it. The first
/// `parameters` of its locals are its parameters.
#[derive(Drop)]
pub struct Function {
    pub name: u32,
    pub place: u64,
    pub public: bool,
    pub of: u32,
    pub parameters: u32,
    pub locals: CLocals,
    pub body: TStmt,
}

/// Functions in order.
pub type Functions = Sequence<Function>;

/// An object at file level. Its `cells` are the initialized ones, those of a string that initializes an array among them.
#[derive(Drop)]
pub struct CGlobal {
    pub name: u32,
    pub place: u64,
    pub public: bool,
    pub of: u32,
    pub size: u64,
    pub align: u64,
    pub cells: Cells,
}

/// Globals in order.
pub type CGlobals = Sequence<CGlobal>;

/// A declaration of a function or a global at file level.
#[derive(Clone, Copy, Debug, PartialEq, Eq)]
pub struct Declared {
    pub name: u32,
    pub place: u64,
    pub public: bool,
    pub of: u32,
}

/// Declarations in the order of the source.
pub type Declareds = Sequence<Declared>;

/// A file that keeps the rules of types, with the count of the nodes of its syntax tree.
#[derive(Drop)]
pub struct Unit {
    pub functions: Functions,
    pub globals: CGlobals,
    pub declared: Declareds,
    pub types: Types,
    pub names: Names,
    pub texts: Texts,
    pub nodes: u64,
}

/// The units of a program together, one behind the other: ids of structs and numbers of texts are raised by the counts of those
/// before.
#[derive(Drop)]
pub struct Program {
    pub functions: Functions,
    pub globals: CGlobals,
    pub declared: Declareds,
    pub types: Types,
    pub names: Names,
    pub texts: Texts,
    pub nodes: u64,
}
