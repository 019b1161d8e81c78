/// Which rule of assembly a line breaks. Where it breaks more than one, the first of them counts.
#[derive(Clone, Copy, Debug, PartialEq, Eq)]
pub enum AsmRule {
    /// The line is neither empty, a comment, a label, a mark nor an instruction with operands of its form.
    A1,
    /// A number isn't in the range of its operand or is no multiple of its step, a label is too far away, or an `ldp` loads
    /// one register twice.
    A2,
    /// A label that the text doesn't have.
    A3,
    /// A label of a name that an earlier label has.
    A4,
}
