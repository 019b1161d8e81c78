ghost use Rattle.std.specs.Prelude.{◌≡◌};
ghost use Rattle.pa_mem.specs.Access.{byte_count, includes};

use thiserror::Error;

/// What may be done with the bytes of a region.
#[derive(Clone, Copy, Debug, PartialEq, Eq)]
pub struct Rights {
    pub read: bool,
    pub write: bool,
    pub run: bool,
}

impl Rights {
    /// To read, and no other right.
    pub const READ: Rights = Rights {
        read: true,
        write: false,
        run: false,
    };

    /// To write, and no other right.
    pub const WRITE: Rights = Rights {
        read: false,
        write: true,
        run: false,
    };

    /// To run, and no other right.
    pub const RUN: Rights = Rights {
        read: false,
        write: false,
        run: true,
    };

    /// Whether each right that is asked for is among these.
    pub fn include(self, asked: Rights) -> bool
        ensures { result ≡ includes self asked }
    {
        (!asked.read || self.read) && (!asked.write || self.write) && (!asked.run || self.run)
    }
}

/// How many bytes one read or write moves.
#[derive(Clone, Copy, Debug, PartialEq, Eq)]
pub enum Size {
    B1,
    B2,
    B4,
    B8,
}

impl Size {
    /// 1, 2, 4 or 8.
    pub fn count(self) -> u64
        ensures { result ≡ byte_count self }
    {
        match self {
            Size::B1 => 1,
            Size::B2 => 2,
            Size::B4 => 4,
            Size::B8 => 8,
        }
    }
}

/// The place isn't inside one region with the right that the access needs, or a fetch isn't at a multiple of 4.
#[derive(Clone, Copy, Debug, PartialEq, Eq, Error)]
#[error("the access isn't allowed")]
pub struct Abort;
