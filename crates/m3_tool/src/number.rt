//! The number that a word spells.

ghost use Rattle.std.specs.Prelude.{◌≡◌, ◌+◌, ◌*◌, ◌<◌, ◌≤◌, ◌^◌, ◌&&◌, length, nat_eq, nat_lt, if◌then◌else◌, codes, true, false, Some, None};
ghost use Rattle.std.specs.List.{list_all, starts_with};
ghost use Rattle.std.specs.Option.{SomeIff};
ghost use Rattle.table_text.specs.Bytes as bytes;
ghost use Rattle.m3_tool.specs.Number.{number_of};

fn is_digit(byte: u8) -> bool
    ensures { result ≡ bytes.is_digit byte }
{
    byte.is_ascii_digit()
}

fn is_hex_digit(byte: u8) -> bool
    ensures { result ≡ bytes.is_hex_digit byte }
{
    byte.is_ascii_hexdigit()
}

fn has_digits_only(word: &[u8]) -> bool
    ensures { result ≡ list_all bytes.is_digit word.now }
{
    word.iter().all(|byte| is_digit(*byte))
}

fn are_digits(word: &[u8]) -> bool
    ensures { result ≡ (nat_lt 0 (length word.now) && list_all bytes.is_digit word.now) }
{
    !word.is_empty() && has_digits_only(word)
}

fn has_hex_digits_only(word: &[u8]) -> bool
    ensures { result ≡ list_all bytes.is_hex_digit word.now }
{
    word.iter().all(|byte| is_hex_digit(*byte))
}

fn are_hex_digits(word: &[u8]) -> bool
    ensures { result ≡ (nat_lt 0 (length word.now) && list_all bytes.is_hex_digit word.now) }
{
    !word.is_empty() && has_hex_digits_only(word)
}

/// What a digit of either case counts. Another byte counts something too.
fn digit_value(digit: u8) -> u8
    ensures { result ≡ bytes.digit_value digit }
{
    if is_digit(digit) {
        digit - b'0'
    } else if b'a' <= digit {
        digit - (b'a' - 10)
    } else {
        digit.saturating_sub(b'A' - 10)
    }
}

/// A number with one digit more, if it is below `2 ^ 128`.
fn with_digit(base: u8, number: u128, digit: u8) -> Option<u128>
    ensures { SomeIff result (number * base + bytes.digit_value digit < 2 ^ 128) (number * base + bytes.digit_value digit) }
{
    let shifted = number.checked_mul(u128::from(base))?;
    shifted.checked_add(u128::from(digit_value(digit)))
}

/// The number that digits spell, the highest first, if it is below `2 ^ 128`.
fn number_of_digits(base: u8, digits: &[u8]) -> Option<u128>
    requires { 1 ≤ base }
    ensures { result ≡ (if nat_lt (bytes.number_of base digits.now) (2 ^ 128) then Some (bytes.number_of base digits.now) else None) }
{
    let mut number = 0u128;
    for digit in digits {
        let Some(next) = with_digit(base, number, *digit) else {
            return None;
        };
        number = next;
    }
    Some(number)
}

fn hexadecimal(word: &[u8]) -> Option<u128>
    requires { starts_with nat_eq word.now (codes "0x") ≡ true }
    ensures { result ≡ number_of word.now }
{
    let digits = &word[2..];
    if are_hex_digits(digits) {
        number_of_digits(16, digits)
    } else {
        None
    }
}

fn decimal(word: &[u8]) -> Option<u128>
    requires { starts_with nat_eq word.now (codes "0x") ≡ false }
    ensures { result ≡ number_of word.now }
{
    if are_digits(word) {
        number_of_digits(10, word)
    } else {
        None
    }
}

/// The number that a word spells as the language spells numbers, if it is below `2 ^ 128`. Takes
/// no memory.
pub(crate) fn number_of(word: &str) -> Option<u128>
    ensures { result ≡ number_of word.now }
{
    let word = word.as_bytes();
    if word.starts_with(b"0x") {
        hexadecimal(word)
    } else {
        decimal(word)
    }
}
