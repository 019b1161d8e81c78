use crate::key::Key;

/// How an indirect branch leaves: `br` and `braa` jump, `ret` and `retab` return, the others call.
#[derive(Clone, Copy, Debug, PartialEq, Eq)]
pub enum Way {
    Call,
    Jump,
    Return,
}

/// Something that the log tells of pointer authentication.
#[derive(Clone, Copy, Debug, PartialEq, Eq)]
pub enum Event {
    /// A signature was made of `raw`, and is `signed`.
    Sign {
        key: Key,
        modifier: u64,
        raw: u64,
        signed: u64,
    },
    /// An authentication was accepted and gave `raw`. It is known where an earlier signature has this key, modifier and
    /// raw address.
    Take {
        key: Key,
        modifier: u64,
        raw: u64,
        known: bool,
    },
    /// An indirect branch went to `target`.
    Land {
        way: Way,
        target: u64,
    },
}

/// When an event came: while the image was loaded, or at the instruction of this number, counted from 0.
#[derive(Clone, Copy, Debug, PartialEq, Eq)]
pub enum When {
    Load,
    Step(u32),
}

/// An entry of the log.
#[derive(Clone, Copy, Debug, PartialEq, Eq)]
pub struct Entry {
    pub when: When,
    pub event: Event,
}
