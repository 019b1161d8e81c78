use pa_num::Memory;

/// The rules of several files together, in the order in which they are tried.
#[derive(Clone, Copy, Debug, PartialEq, Eq)]
pub enum LinkRule {
    /// A name is used and not defined.
    L1,
    /// A name is defined twice; `putchar` and `getchar` are defined by the runtime.
    L2,
    /// A name has two types; `putchar` and `getchar` have those of `<stdio.h>`.
    L3,
    /// There is no `int main(void)`.
    L4,
    /// There are more than 16,384 nodes.
    M1,
    /// Globals, each rounded up to 8 bytes, and string literals, each with its zero, have more than 1,048,576 bytes.
    M2,
    /// More than 4,096 functions are defined.
    M3,
    /// The objects of a function, each rounded up to 8 bytes, have more than 16,384 bytes.
    M4,
}

/// A rule that is broken, in the file of this number from 1, or 0 where the program as a whole breaks it. The place is that of
/// the first byte of the name in the file; at M1 to M3 it is the count, at L4 it is 0.
#[derive(Clone, Copy, Debug, PartialEq, Eq)]
pub struct LinkFault {
    pub rule: LinkRule,
    pub file: u32,
    pub place: u64,
}

/// Why files gave no program: the first rule that they break together, or want of memory.
#[derive(Clone, Copy, Debug, PartialEq, Eq)]
pub enum JoinFault {
    Refused {
        rule: LinkRule,
        file: u32,
        place: u64,
    },
    Memory,
}

impl From<Memory> for JoinFault {
    ghost use Rattle.std.specs.Prelude.{◌≡◌};
    ghost use Rattle.pa_link.specs.declared.rule.JoinFault.TheVariants as fault;

    ghost from_gives = { λ _ f. f ≡ fault.Memory };

    fn from(_: Memory) -> JoinFault {
        JoinFault::Memory
    }
}
