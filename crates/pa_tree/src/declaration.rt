use crate::expr::{Declarator, Expr, Specs};
use sqlite_items::Items;

/// An initializer (6.7.9).
#[derive(Drop)]
pub enum Initializer {
    /// An expression.
    Value {
        value: Expr,
        from: u32,
        to: u32,
    },
    /// `{ items }` with at least one of them, and a last comma or none.
    Braced {
        items: Items<Initializer>,
        from: u32,
        to: u32,
    },
}

/// A declarator, with its initializer where it has one (6.7).
#[derive(Drop)]
pub struct InitDeclarator {
    pub declarator: Declarator,
    pub initializer: Option<Initializer>,
    pub from: u32,
    pub to: u32,
}

/// A declaration in a block: specifiers and one declarator or more.
#[derive(Drop)]
pub struct BlockDeclaration {
    pub specs: Specs,
    pub declarators: Items<InitDeclarator>,
    pub from: u32,
    pub to: u32,
}
