use crate::declaration::InitDeclarator;
use crate::expr::{Declarator, Specs};
use crate::stmt::Stmt;
use pa_lex::Include;
use sqlite_items::Items;

/// The word in front of a declaration (C11 6.7.1).
#[derive(Clone, Copy, Debug, PartialEq, Eq)]
pub enum Storage {
    Typedef,
    Static,
    Extern,
}

/// A declaration at file level (6.7).
#[derive(Drop)]
pub struct Declaration {
    pub storage: Option<Storage>,
    pub specs: Specs,
    pub declarators: Items<InitDeclarator>,
    pub from: u32,
    pub to: u32,
}

/// A function's definition (6.9.1), whose body is a compound statement.
#[derive(Drop)]
pub struct FunctionDefinition {
    pub storage: Option<Storage>,
    pub specs: Specs,
    pub declarator: Declarator,
    pub body: Stmt,
    pub from: u32,
    pub to: u32,
}

/// What a file holds (6.9), and the lines that bring in a header.
#[derive(Drop)]
pub enum FileItem {
    /// An include line.
    Included {
        include: Include,
        from: u32,
        to: u32,
    },
    /// A declaration.
    Declared {
        declaration: Declaration,
        from: u32,
        to: u32,
    },
    /// A function's definition.
    Defined {
        definition: FunctionDefinition,
        from: u32,
        to: u32,
    },
}

/// A translation unit (C11 6.9).
#[derive(Drop)]
pub struct File {
    pub items: Items<FileItem>,
}
