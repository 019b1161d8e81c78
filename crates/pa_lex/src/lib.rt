//! From the bytes of a file of C to its tokens, or to the first rule that they break.
#![tactic(auto)]

mod byte;
mod form;
mod lexer;
mod literal;
mod meaning;
mod names;
mod reader;
mod table;
mod token;

pub use lexer::{Lexed, lex};
pub use names::Names;
pub use token::{Include, Keyword, Kind, LexRule, NameNumber, Punct, Token, Tokens};
