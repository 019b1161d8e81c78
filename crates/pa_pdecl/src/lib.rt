//! Statements, declarations and files of C.
#![tactic(auto)]

mod declaration;
mod file;
mod initializer;
mod parser;
mod repetition;
mod selection;
mod statement;
mod stmt_rules;
mod typedef;
mod word;

pub use parser::parse;
