//! The classes of bytes.

ghost use Rattle.std.specs.Prelude.{◌≡◌, ◌≤◌};
ghost use Rattle.table_text.specs.Bytes as bytes;

fn is_between(low: u8, high: u8, byte: u8) -> bool
    ensures { result ≡ bytes.is_between low high byte }
{
    low <= byte && byte <= high
}

pub(crate) fn is_blank(byte: u8) -> bool
    ensures { result ≡ bytes.is_blank byte }
{
    byte == b'\t' || byte == b'\n' || byte == b'\r' || byte == b' '
}

/// Whether a text may have a byte.
pub(crate) fn is_text(byte: u8) -> bool
    ensures { result ≡ bytes.is_text byte }
{
    is_blank(byte) || is_between(b' ', b'~', byte)
}

pub(crate) fn is_digit(byte: u8) -> bool
    ensures { result ≡ bytes.is_digit byte }
{
    is_between(b'0', b'9', byte)
}

pub(crate) fn is_letter(byte: u8) -> bool
    ensures { result ≡ bytes.is_letter byte }
{
    is_between(b'A', b'Z', byte) || is_between(b'a', b'z', byte)
}

/// Whether a word may go on with a byte.
pub(crate) fn is_word_byte(byte: u8) -> bool
    ensures { result ≡ bytes.is_word_byte byte }
{
    is_letter(byte) || is_digit(byte) || byte == b'_'
}

pub(crate) fn is_hex_digit(byte: u8) -> bool
    ensures { result ≡ bytes.is_hex_digit byte }
{
    is_digit(byte) || is_between(b'A', b'F', byte) || is_between(b'a', b'f', byte)
}

pub(crate) fn is_mark(byte: u8) -> bool
    ensures { result ≡ bytes.is_mark byte }
{
    byte == b':'
        || byte == b';'
        || byte == b','
        || byte == b'('
        || byte == b')'
        || byte == b'{'
        || byte == b'}'
        || byte == b'='
        || byte == b'+'
        || byte == b'*'
}

/// What a digit of either case counts. Another byte counts something too.
pub(crate) fn digit_value(byte: u8) -> u8
    ensures { result ≡ bytes.digit_value byte }
{
    if is_digit(byte) {
        byte - b'0'
    } else if b'a' <= byte {
        byte - (b'a' - 10)
    } else {
        byte.saturating_sub(b'A' - 10)
    }
}
