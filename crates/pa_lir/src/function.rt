use crate::op::Ops;
use pa_num::{Name, Sequence};
use pa_object::Globals;

/// A local object of a function. It lives from the function's entry to its return.
#[derive(Clone, Copy, Debug, PartialEq, Eq)]
pub struct LirLocal {
    /// In bytes.
    pub size: u64,
    /// In bytes.
    pub align: u64,
}

/// Locals by their numbers, from 0.
pub type Locals = Sequence<LirLocal>;

/// A function in flat code.
#[derive(Debug, Drop)]
pub struct LirFn {
    pub name: Name,
    /// Other files see it.
    pub public: bool,
    /// So many of its locals, the first ones, are its parameters.
    pub parameters: u32,
    pub locals: Locals,
    pub ops: Ops,
}

/// Functions in the order of the program.
pub type LirFns = Sequence<LirFn>;

/// A program in flat code. Names are those of C, without the underscore that symbols have.
#[derive(Debug, Drop)]
pub struct Lir {
    pub functions: LirFns,
    pub globals: Globals,
}
