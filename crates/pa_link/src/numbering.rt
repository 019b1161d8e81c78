ghost use Rattle.std.specs.Prelude.{◌≡◌, ◌+◌, IfOk};
ghost use Rattle.pa_link.specs.Numbering as spec;

use pa_num::{Memory, Sequence};
use pa_typed::ExprType;

/// The numbers that what a file names has in the program.
#[derive(Drop)]
pub(crate) struct Numbering {
    /// By the number of a function's or a global's name in the file: that of its name in the program.
    pub(crate) names: Sequence<u32>,
    /// The number of a name that isn't in the file's list.
    pub(crate) unnamed: u32,
    /// By the number of a type in the file.
    pub(crate) types: Sequence<u32>,
    /// The number of `void`, which stands for a type that isn't in the file's table.
    pub(crate) void: u32,
    /// How many string literals the files before it have.
    pub(crate) texts: u32,
}

impl Numbering {
    pub(crate) fn name(&self, name: u32) -> u32
        ensures { result ≡ spec.name_number self.now name }
    {
        match self.names.get(name as usize) {
            Some(number) => *number,
            None => self.unnamed,
        }
    }

    pub(crate) fn type_number(&self, of: u32) -> u32
        ensures { result ≡ spec.type_number self.now of }
    {
        match self.types.get(of as usize) {
            Some(number) => *number,
            None => self.void,
        }
    }

    /// The type with its number in the program. Its shape stays.
    pub(crate) fn expr_type(&self, of: ExprType) -> ExprType
        ensures { result ≡ spec.numbered_type self.now of }
    {
        ExprType {
            number: self.type_number(of.number),
            shape: of.shape,
        }
    }

    /// The number of a string literal. A number that doesn't fit counts as want of memory.
    pub(crate) fn text(&self, text: u32) -> Result<u32, Memory>
        ensures { IfOk result (λ number. number ≡ self.now.texts + text) }
    {
        self.texts.checked_add(text).ok_or(Memory)
    }
}
