//! The registers that the code uses (Procedure Call Standard for the Arm 64-bit Architecture, 6.1.1), by their numbers.

/// The first argument, and the result.
pub(crate) const X0: u8 = 0;

/// What an operation computes with. No function keeps these three for its caller.
pub(crate) const X9: u8 = 9;

pub(crate) const X10: u8 = 10;

pub(crate) const X11: u8 = 11;

/// The address of what lies far in the frame.
pub(crate) const X12: u8 = 12;

/// The frame pointer.
pub(crate) const X29: u8 = 29;

/// The link register.
pub(crate) const X30: u8 = 30;

/// The stack pointer, in rows that take it as register 31.
pub(crate) const SP: u8 = 31;

/// The zero register, in all other rows.
pub(crate) const XZR: u8 = 31;
