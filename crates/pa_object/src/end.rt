//! How a run ends.

/// Why an instruction was not carried out.
#[derive(Clone, Copy, Debug, PartialEq, Eq)]
pub enum Trap {
    /// An authentication was not accepted.
    AuthFail,
    /// A load or store was not inside one region with the right to it.
    DataAbort,
    /// No instruction could be fetched.
    FetchAbort,
    /// The word is of no row of the table, or asks for a system call that isn't there.
    BadWord,
    /// `brk`.
    Break,
}

/// The end of a run.
#[derive(Clone, Copy, Debug, PartialEq, Eq)]
pub enum End {
    /// The program ended with this status.
    Exit(i32),
    Trap(Trap),
    /// The bound of instructions was reached.
    Bound,
}
