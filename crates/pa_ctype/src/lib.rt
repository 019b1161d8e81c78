//! Types of C11 as the compiler knows them, with the layout of objects, and what values, objects and traces of C are.
#![tactic(auto)]

mod ctype;
mod joined;
mod layouts;
mod node;
mod nodes;
mod structs;
mod types;

pub use ctype::{Held, Layout, Member, Members};
pub use node::{Node, Qualifier, SchemaKey, Shape};
pub use types::{Joined, Types};
