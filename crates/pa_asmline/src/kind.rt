ghost use Rattle.std.specs.Prelude.{◌≡◌, ◌≤◌};
ghost use Rattle.pa_asmline.specs.Rows as rows;
ghost use Rattle.pa_asmline.specs.Operands as operands;

use crate::value::Value;

/// What a number in a line counts: bytes, or a greater power of two.
#[derive(Clone, Copy, Debug, PartialEq, Eq)]
pub enum Step {
    One,
    Two,
    Four,
    Eight,
    Sixteen,
}

impl Step {
    fn size(self) -> u32
        ensures value { result ≡ rows.size self }
        ensures some { 1 ≤ result }
    {
        match self {
            Step::One => 1,
            Step::Two => 2,
            Step::Four => 4,
            Step::Eight => 8,
            Step::Sixteen => 16,
        }
    }
}

/// Which numbers an operand may be: the multiples of `step` from `-below` to `most`.
#[derive(Clone, Copy, Debug, PartialEq, Eq)]
pub struct Range {
    pub below: u32,
    pub most: u32,
    pub step: Step,
}

impl Range {
    /// What the number of this sign and size is as an operand: how many steps it has.
    pub fn value(self, negative: bool, size: u32) -> Value
        ensures { result ≡ operands.value self negative size }
    {
        let bound = if negative { self.below } else { self.most };
        let step = self.step.size();
        if size <= bound && size % step == 0 {
            Value::Number {
                negative,
                count: size / step,
            }
        } else {
            Value::Out
        }
    }
}

/// What an operand may be.
#[derive(Clone, Copy, Debug, PartialEq, Eq)]
pub enum Kind {
    /// `x0` to `x30`, or `xzr` for 31.
    Register,
    /// `x0` to `x30`, or `sp` for 31.
    RegisterOrStack,
    /// `[` and one of `x0` to `x30` and `sp`: the base of an address.
    Base,
    /// `#` and a number.
    Number(Range),
    /// `#`, a number and `]`: the offset of an address.
    Offset(Range),
    /// `lsl #` and a number.
    Shift(Range),
    /// `lsl #12`.
    Shift12,
    /// A label of the text. Its distance in words has this range.
    Target(Range),
    /// A label of the text, or another function's name.
    Callee(Range),
    /// A name and `@PAGE`.
    Page,
    /// A name and `@PAGEOFF`.
    PageOffset,
}
