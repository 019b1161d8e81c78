use pa_num::Sequence;
use pa_pac::Key;

/// How a slot's pointer is signed.
#[derive(Clone, Copy, Debug, PartialEq, Eq)]
pub struct Sig {
    pub key: Key,
    pub addr: bool,
    pub disc: u16,
}

/// What a slot is to hold once the image is loaded.
#[derive(Clone, Copy, Debug, PartialEq, Eq)]
pub enum FixKind {
    /// The address `target`, moved with the image, with `high8` in its top byte.
    Rebase { target: u64, high8: u8 },
    /// The address of the import `ordinal`, counted from 0, plus `addend`.
    Bind { ordinal: u16, addend: i32 },
    /// The address `target` bytes after the image's base, signed.
    AuthRebase { target: u32, sig: Sig },
    /// The address of the import `ordinal`, signed.
    AuthBind { ordinal: u16, sig: Sig },
}

/// A slot: where it stands, and what it is to hold.
#[derive(Clone, Copy, Debug, PartialEq, Eq)]
pub struct Fix {
    pub at: u32,
    pub kind: FixKind,
}

/// Slots in the order in which they stand.
pub type Fixes = Sequence<Fix>;
