ghost use Rattle.std.specs.Prelude.{◌≡◌};
ghost use Rattle.pa_asmline.specs.Instructions as instructions;

/// What an operand is worth to its instruction.
#[derive(Clone, Copy, Debug, Default, PartialEq, Eq)]
pub enum Value {
    /// A register's number, or how many steps of its range a number has.
    Number { negative: bool, count: u32 },
    /// A number that isn't in the range of its operand.
    Out,
    /// A label that the text doesn't have.
    #[default]
    Missing,
}

fn at(values: &[Value], index: usize) -> Value
    ensures { result ≡ instructions.at index values.now }
{
    values.get(index).copied().unwrap_or(Value::Missing)
}

/// The number at an index, where it has 8 bits.
pub fn byte(values: &[Value], index: usize) -> u8
    ensures { result ≡ instructions.byte index values.now }
{
    match at(values, index) {
        Value::Number { count, .. } => u8::try_from(count).unwrap_or(0),
        Value::Out | Value::Missing => 0,
    }
}

/// The number at an index, where it has 16 bits.
pub fn half(values: &[Value], index: usize) -> u16
    ensures { result ≡ instructions.half index values.now }
{
    match at(values, index) {
        Value::Number { count, .. } => u16::try_from(count).unwrap_or(0),
        Value::Out | Value::Missing => 0,
    }
}

/// The number at an index with its sign, where it has 32 bits.
pub fn signed(values: &[Value], index: usize) -> i32
    ensures { result ≡ instructions.signed index values.now }
{
    match at(values, index) {
        Value::Number { negative, count } => {
            let size = i32::try_from(count).unwrap_or(0);
            if negative { -size } else { size }
        }
        Value::Out | Value::Missing => 0,
    }
}

/// The number at an index with its sign, where it has 16 bits.
pub fn signed_half(values: &[Value], index: usize) -> i16
    ensures { result ≡ instructions.signed_half index values.now }
{
    match at(values, index) {
        Value::Number { negative, count } => {
            let size = i16::try_from(count).unwrap_or(0);
            if negative { -size } else { size }
        }
        Value::Out | Value::Missing => 0,
    }
}

/// The number at an index with its sign, where it has 8 bits.
pub fn signed_byte(values: &[Value], index: usize) -> i8
    ensures { result ≡ instructions.signed_byte index values.now }
{
    match at(values, index) {
        Value::Number { negative, count } => {
            let size = i8::try_from(count).unwrap_or(0);
            if negative { -size } else { size }
        }
        Value::Out | Value::Missing => 0,
    }
}
