use std::alloc::AllocError;

/// Want of memory, and nothing else.
#[derive(Clone, Copy, Debug, PartialEq, Eq)]
pub struct Memory;

impl From<AllocError> for Memory {
    ghost from_gives = { λ _ _. Unit {0} };

    fn from(_: AllocError) -> Memory {
        Memory
    }
}

/// Why a call gave no answer: a rule of its own that the input breaks, with the place that the rule names, or want of
/// memory.
#[derive(Clone, Copy, Debug, PartialEq, Eq)]
pub enum Fault<R> {
    Refused { rule: R, place: u64 },
    Memory,
}

impl<R> From<AllocError> for Fault<R> {
    ghost use Rattle.std.specs.Prelude.{◌≡◌};
    ghost use Rattle.pa_num.specs.declared.fault.Fault.TheVariants as fault;

    ghost from_gives = { λ _ f. f ≡ fault.Memory };

    fn from(_: AllocError) -> Fault<R> {
        Fault::Memory
    }
}

impl<R> From<Memory> for Fault<R> {
    ghost use Rattle.std.specs.Prelude.{◌≡◌};
    ghost use Rattle.pa_num.specs.declared.fault.Fault.TheVariants as fault;

    ghost from_gives = { λ _ f. f ≡ fault.Memory };

    fn from(_: Memory) -> Fault<R> {
        Fault::Memory
    }
}

/// The rules of an image: H of the headers and symbols, F of the chained fixups.
#[derive(Clone, Copy, Debug, PartialEq, Eq)]
pub enum ImageRule {
    H1,
    H2,
    H3,
    H4,
    H5,
    F1,
    F2,
    F3,
    F4,
    F5,
    F6,
    F7,
}
