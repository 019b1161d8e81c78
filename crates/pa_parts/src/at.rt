//! Where a tree is read.

use pa_grammar::TypeNames;

/// What the reading of a part depends on besides the tokens: the names that are type names, and the depth that is left.
#[derive(Clone, Copy)]
pub struct At<'a> {
    pub names: &'a TypeNames,
    pub depth: u32,
}
