//! The numbers of a line.

ghost use Rattle.std.specs.Prelude.{◌≡◌, ◌≤◌, ◌^◌, ◌<◌, true};
ghost use Rattle.std.specs.List.{list_all};
ghost use Rattle.std.specs.Char.{digit_value as value_of_digit};
ghost use Rattle.pa_script.specs.Items as items;

/// The value of a digit or letter as in radix 36, and 36 for any other byte.
fn digit_value(digit: u8) -> u64
    ensures value { result ≡ value_of_digit digit }
    ensures within { result ≤ 36 }
{
    match char::from(digit).to_digit(36) {
        Some(value) => u64::from(value),
        None => 36,
    }
}

fn are_digits(radix: u64, digits: &[u8]) -> bool
    ensures { result ≡ list_all (items.is_digit radix) digits.now }
{
    digits.iter().all(|digit| digit_value(*digit) < radix)
}

/// The number of 1 to `most` digits of this radix.
pub fn number(radix: u64, most: usize, digits: &[u8]) -> Option<u64>
    requires radix { 1 ≤ radix }
    requires fits { radix ^ most ≤ 2 ^ 64 }
    ensures { result ≡ items.number radix most digits.now }
{
    if digits.is_empty() || digits.len() > most || !are_digits(radix, digits) {
        return None;
    }
    let mut number = 0;
    for digit in digits {
        number = number * radix + digit_value(*digit);
    }
    Some(number)
}

/// The number of the instruction before which an item comes.
pub fn step(text: &[u8]) -> Option<u32>
    ensures { result ≡ items.step text.now }
{
    let number = number(10, 10, text)?;
    u32::try_from(number).ok()
}

/// An address.
pub fn address(text: &[u8]) -> Option<u64>
    ensures { result ≡ items.address text.now }
{
    match text {
        [b'0', b'x', digits @ ..] => number(16, 16, digits),
        _ => None,
    }
}

/// How many bytes are copied.
pub fn count(text: &[u8]) -> Option<u32>
    ensures { result ≡ items.count text.now }
{
    match text {
        [] | [b'0', ..] => None,
        _ => match number(10, 4, text) {
            Some(count) if (1..=4096).contains(&count) => Some(count as u32),
            _ => None,
        },
    }
}
