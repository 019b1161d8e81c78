use pa_num::Memory;
use pa_script::ScriptRule;
use pa_words::{UseFault, WordsFault};

/// How many bytes a source, an input or a script may have.
pub const MOST_BYTES: u64 = 1_048_576;

/// The numbers of files: sources are numbered by their place among the operands from 1.
pub const FIRST_FILE: u32 = 1;

pub const INPUT_FILE: u32 = 65;

pub const SCRIPT_FILE: u32 = 66;

/// A rule that a file can break.
#[derive(Clone, Copy, Debug, PartialEq, Eq)]
pub enum Rule {
    /// A line of the script breaks this rule.
    Script(ScriptRule),
    /// A file is longer than allowed.
    M6,
    /// The command, or the form of the program, isn't built yet.
    N1,
}

/// A rule that was broken, and where.
#[derive(Clone, Copy, Debug, PartialEq, Eq)]
pub struct Refusal {
    pub rule: Rule,
    /// The number of the file: that of a source is its place among the operands from 1, that of the input 65, and that of the
    /// script 66. A rule that is about no file has the number 0.
    pub file: u32,
    /// The line of a script from 1, or the limit that a file passes.
    pub place: u64,
}

impl Refusal {
    ghost use Rattle.std.specs.Prelude.{◌≡◌};
    ghost use Rattle.pa_task.specs.Refusals.{too_long, not_built, bad_line};

    /// The file of this number has more bytes than it may have.
    pub fn too_long(file: u32) -> Refusal
        ensures { result ≡ too_long file }
    {
        Refusal {
            rule: Rule::M6,
            file,
            place: MOST_BYTES,
        }
    }

    /// What the words ask for, or the form of the program, isn't built.
    pub fn not_built() -> Refusal
        ensures { result ≡ not_built }
    {
        Refusal {
            rule: Rule::N1,
            file: 0,
            place: 0,
        }
    }

    /// This line of the script breaks a rule.
    pub fn bad_line(rule: ScriptRule, line: u64) -> Refusal
        ensures { result ≡ bad_line rule line }
    {
        Refusal {
            rule: Rule::Script(rule),
            file: SCRIPT_FILE,
            place: line,
        }
    }
}

/// How a command ended.
#[derive(Clone, Copy, Debug, PartialEq, Eq)]
pub enum Exit {
    /// All was written.
    Done,
    /// The words are no command.
    Usage(UseFault),
    /// A file breaks a rule.
    Refused(Refusal),
    /// The file of this number couldn't be read.
    ReadFault(u32),
    /// The source couldn't be read.
    InputFault,
    /// The text of a command that is done couldn't be written; a proper prefix of it may be out.
    WriteFault,
    /// Out of memory.
    Memory,
}

impl Exit {
    ghost use Rattle.std.specs.Prelude.{◌≡◌};
    ghost use Rattle.pa_task.specs.Status.{status_of};

    /// The status with which a program ends that ran the command.
    pub fn status(self) -> u8
        ensures { result ≡ status_of self }
    {
        match self {
            Exit::Done => 0,
            Exit::Usage(_) => 2,
            Exit::Refused(_) => 3,
            Exit::ReadFault(_) => 4,
            Exit::InputFault => 5,
            Exit::WriteFault => 6,
            Exit::Memory => 7,
        }
    }
}

impl From<WordsFault> for Exit {
    ghost use Rattle.std.specs.Prelude.{◌≡◌};
    ghost use Rattle.pa_task.specs.Refusals.{exit_of};

    ghost from_gives = { λ fault answer. answer ≡ exit_of fault };

    fn from(fault: WordsFault) -> Exit {
        match fault {
            WordsFault::Usage(rule) => Exit::Usage(rule),
            WordsFault::Memory => Exit::Memory,
        }
    }
}

impl From<Memory> for Exit {
    ghost use Rattle.std.specs.Prelude.{◌≡◌};
    ghost use Rattle.pa_task.specs.declared.exit.Exit.TheVariants as exit;

    ghost from_gives = { λ _ answer. answer ≡ exit.Memory };

    fn from(_: Memory) -> Exit {
        Exit::Memory
    }
}
