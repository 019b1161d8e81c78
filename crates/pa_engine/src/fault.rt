use pa_check::CheckRule;
use pa_load::LoadRule;
use pa_num::{ImageRule, Memory};
use pa_script::ScriptRule;

/// A rule that a file breaks.
#[derive(Clone, Copy, Debug, PartialEq, Eq)]
pub enum Rule {
    /// Of an image's bytes.
    Image(ImageRule),
    /// Of the checker.
    Code(CheckRule),
    /// The image is a library and no program.
    B2,
    /// Of loading.
    Load(LoadRule),
    /// Of a script.
    Script(ScriptRule),
}

/// A rule that is broken, the number of the file where it is, and the place in that file.
#[derive(Clone, Copy, Debug, PartialEq, Eq)]
pub struct Refusal {
    pub rule: Rule,
    pub file: u32,
    pub place: u64,
}

/// Why nothing was run.
#[derive(Clone, Copy, Debug, PartialEq, Eq)]
pub enum EngineFault {
    /// A rule is broken.
    Refused(Refusal),
    /// Out of memory.
    Memory,
}

impl From<Memory> for EngineFault {
    ghost use Rattle.std.specs.Prelude.{◌≡◌};
    ghost use Rattle.pa_engine.specs.declared.fault.EngineFault.TheVariants as fault;

    ghost from_gives = { λ _ answer. answer ≡ fault.Memory };

    fn from(_: Memory) -> EngineFault {
        EngineFault::Memory
    }
}
