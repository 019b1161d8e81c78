//! The syntax trees of C, one enum for each nonterminal of the grammar, and which tokens a tree spells.
#![tactic(auto)]

mod declaration;
mod expr;
mod file;
mod operator;
mod stmt;

pub use declaration::{BlockDeclaration, InitDeclarator, Initializer};
pub use expr::{
    Base, Declarator, Enumerator, Expr, Member, Parameter, Parameters, Qualifier, Specs, Tag,
    TypeName,
};
pub use file::{Declaration, File, FileItem, FunctionDefinition, Storage};
pub use operator::{
    BinaryOperator, CAST_LEVEL, COND_LEVEL, IntegerWord, PrefixOperator, Step, UNARY_LEVEL,
};
pub use stmt::{BlockItem, ForStart, Stmt};
