//! One line of a program in assembly: what it says.
#![tactic(auto)]

mod form;
mod instructions;
mod kind;
mod line;
mod number;
mod operand;
mod row;
mod text;
mod value;

pub use form::Form;
pub use instructions::instruction;
pub use kind::{Kind, Range, Step};
pub use line::{Line, read_line};
pub use operand::Operand;
pub use row::{MOST_OPERANDS, Operands, Row};
pub use value::Value;
