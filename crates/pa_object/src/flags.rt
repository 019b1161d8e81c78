//! The condition flags.

/// What the last comparison left: whether the result was negative or zero, whether nothing was borrowed, and whether the
/// result of signed numbers didn't fit (Arm Architecture Reference Manual, PSTATE.N, Z, C and V).
#[derive(Clone, Copy, Debug, PartialEq, Eq)]
pub struct Flags {
    pub negative: bool,
    pub zero: bool,
    pub carry: bool,
    pub overflow: bool,
}
