use pa_a64::Instr;

/// A word of code, decoded, and whether a function begins there.
#[derive(Clone, Copy, Debug, PartialEq, Eq)]
pub struct Word {
    pub marked: bool,
    pub instr: Option<Instr>,
}
