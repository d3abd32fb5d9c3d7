// Number fields: decimal without leading zeros, of any length, and never wrapped.
ghost use Rattle.std.specs.Prelude.{◌≡◌, ℕ, ◌≤◌, List, Option, IfSome};
ghost use Rattle.schedule.specs.Numbers.{digits_after, number_field, value_field, negative};
ghost use Rattle.schedule.specs.Numbers.{highest_index, lowest_value};

const HIGHEST_INDEX: u32 = u8::MAX as u32;

const HIGHEST_VALUE: u32 = i32::MAX as u32;
// The lowest value is the negative of this.
const LOWEST_VALUE: u32 = HIGHEST_VALUE + 1;

// The number that the digits write, if all are digits and it is at most `top`.
fn total(digits: &[u8], top: u32) -> Option<u32>
    ensures value { result ≡ digits_after top 0 digits.now }
    ensures bound { IfSome result (λ n. n ≤ top) }
{
    let mut sum: u64 = 0;
    for d in digits {
        if !d.is_ascii_digit() {
            return None;
        }
        sum = sum * 10 + u64::from(*d - b'0');
        if sum > u64::from(top) {
            return None;
        }
    }
    Some(sum as u32)
}

// A number from 0 to `top`. One digit has an arm of its own, which saves a line of short numbers 7 percent of the instructions of a check.
fn number_field(text: &[u8], top: u32) -> Option<u32>
    ensures value { result ≡ number_field top text.now }
    ensures bound { IfSome result (λ n. n ≤ top) }
{
    match text {
        [] => None,
        [_] => total(text, top),
        [b'0', ..] => None,
        _ => total(text, top),
    }
}

// A value after its minus.
fn negative_field(digits: &[u8]) -> Option<i32>
    ensures { result ≡ negative (number_field lowest_value digits.now) }
{
    number_field(digits, LOWEST_VALUE)
        .filter(|n| *n > 0)
        .map(|n| (-i64::from(n)) as i32)
}

// What a field holds.
pub(crate) trait Field: Sized {
    // what a field's text says, if it says one
    ghost reads: { List ℕ → Option Self };

    fn read(text: &[u8]) -> Option<Self>
        ensures { result ≡ reads text.now };
}

// A task or a variable.
impl Field for u8 {
    ghost reads = { number_field highest_index };

    fn read(text: &[u8]) -> Option<u8> {
        number_field(text, HIGHEST_INDEX).map(|n| n as u8)
    }
}

// A signed value.
impl Field for i32 {
    ghost reads = { value_field };

    fn read(text: &[u8]) -> Option<i32> {
        match text {
            [b'-', digits @ ..] => negative_field(digits),
            _ => number_field(text, HIGHEST_VALUE).map(|n| n as i32),
        }
    }
}
