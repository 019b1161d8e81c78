//! Flat code: functions as lists of operations over temporaries, between typed trees of C and machine code.
#![tactic(auto)]

mod checks;
mod code;
mod counts;
mod function;
mod op;
#[cfg(test)]
mod tests;
mod walk;

pub use checks::well_formed;
pub use counts::{bytes, costs, has_frame, held};
pub use function::{Lir, LirFn, LirFns, LirLocal, Locals};
pub use op::{BinOp, Label, Op, Ops, Temp, Temps, UnOp};
