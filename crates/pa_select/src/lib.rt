//! Machine code of functions in flat code: for each operation its instructions, over the function's stack frame.
#![tactic(auto)]

mod accesses;
mod computing;
mod constants;
mod framed;
mod objects;
mod operations;
mod registers;

pub use objects::select;
