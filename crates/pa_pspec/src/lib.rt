//! Specifiers and declarators of C over the readers of their parts, each function equal to its part of the reading.
#![tactic(auto)]

mod body;
mod declarators;
mod parameter;
mod qualifier;
mod specifier;
mod type_rules;
mod word;

pub use declarators::bare_declarator;
pub use type_rules::TypeRules;
