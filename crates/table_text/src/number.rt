//! Numbers.

ghost use Rattle.std.specs.Prelude.{◌≡◌, ◌+◌, ◌*◌, ◌<◌, ◌≤◌, ◌^◌, nat_lt, if◌then◌else◌, Some, None};
ghost use Rattle.std.specs.Option.{SomeIff};
ghost use Rattle.table_text.specs.Bytes.{digit_value, number_of};

use crate::byte_classes::digit_value;

/// A number with one digit more, if it is below `2 ^ 128`.
fn with_digit(base: u8, number: u128, digit: u8) -> Option<u128>
    ensures { SomeIff result (number * base + digit_value digit < 2 ^ 128) (number * base + digit_value digit) }
{
    let shifted = number.checked_mul(u128::from(base))?;
    shifted.checked_add(u128::from(digit_value(digit)))
}

/// The number that digits spell, the highest first, if it is below `2 ^ 128`.
pub(crate) fn number_of(base: u8, digits: &[u8]) -> Option<u128>
    requires { 1 ≤ base }
    ensures { result ≡ (if nat_lt (number_of base digits.now) (2 ^ 128) then Some (number_of base digits.now) else None) }
{
    let mut number = 0u128;
    for digit in digits {
        let Some(next) = with_digit(base, number, *digit) else {
            return None;
        };
        number = next;
    }
    Some(number)
}
