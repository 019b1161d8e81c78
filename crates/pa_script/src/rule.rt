/// Which rule of scripts a line breaks. Where it breaks more than one, the first of them counts.
#[derive(Clone, Copy, Debug, PartialEq, Eq)]
pub enum ScriptRule {
    /// The line is neither `STEP write ADDRESS BYTES` nor `STEP copy TO FROM COUNT`.
    P1,
    /// Its step is lower than that of the line before.
    P2,
    /// It is line 65,537.
    P3,
    /// What it writes isn't inside one region that may be written, or what it copies isn't inside one that may be read.
    P4,
}
