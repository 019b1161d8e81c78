/// What code, or a slot of `__DATA`, breaks. The lowest one counts where several are broken.
#[derive(Clone, Copy, Debug, PartialEq, Eq)]
pub enum CheckRule {
    /// A function that doesn't begin with PACIBSP, or a word before the first function that isn't `start`'s.
    K1,
    /// A branch out of its function or to its first word, or a call of neither a function nor a stub.
    K2,
    /// A word that may not stand in its window or outside of one, or a branch into a window.
    K3,
    /// A function whose last word goes on.
    K4,
    /// A slot that may hold a code pointer that isn't signed as it is to be.
    K5,
    /// A word of no instruction, a strip, a signature to data, or a word of `start` that differs.
    K6,
    /// A branch by a register that isn't authenticated there, or a word of a stub that differs.
    K7,
    /// A return address that is signed or authenticated elsewhere than where a function begins and returns.
    K8,
}

/// Where a rule is broken: the offset in the image's file, and the rule.
#[derive(Clone, Copy, Debug, PartialEq, Eq)]
pub struct Flaw {
    pub offset: u64,
    pub rule: CheckRule,
}

/// What the checker says of an image.
#[derive(Clone, Copy, Debug, PartialEq, Eq)]
pub enum Verdict {
    /// No rule is broken.
    Windowed,
    /// The first place where a rule is broken, as an offset in the file, and the lowest rule that is broken there.
    Bad { offset: u64, rule: CheckRule },
}
