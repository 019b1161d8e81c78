//! How a tree of C is read from the left, as a definition with its laws, and what every reader starts from: a place among the tokens,
//! names and type names, and tests of the next token.
#![tactic(auto)]

mod begins;
mod name;
mod naming;
mod reader;
mod rule;
mod token;
mod type_names;

pub use begins::no_expr;
pub use name::{begins_type, plain_name};
pub use reader::{Reader, needs};
pub use rule::{Level, Naming, ParseError, SynRule};
pub use token::{is_mark, is_word};
pub use type_names::TypeNames;
