//! The pieces of a text.

ghost use Rattle.std.specs.Prelude.{◌≡◌, ◌+◌, ◌≤◌, ◌<◌, ◌==◌, not, length, Some, None};
ghost use Rattle.std.specs.List.{prefix_len};
ghost use Rattle.table_text.specs.Bytes.{number_of, is_word_byte, is_digit, is_hex_digit};
ghost use Rattle.table_text.specs.Lexing.{is_reserved, word_token, number_token, gap, word_at, decimal_at, number_at, piece_at};
ghost use Rattle.table_text.specs.TokenMeaning.{shown, shown_piece};

use crate::byte_classes::{is_blank, is_digit, is_hex_digit, is_letter, is_mark, is_word_byte};
use crate::fault::TextKind;
use crate::limits::MAX_WORD;
use crate::number::number_of;
use crate::token::Token;

/// What stands at the front of bytes: how many of them it takes, and which token it is.
#[derive(Clone, Copy)]
pub(crate) struct Piece<'a> {
    pub len: usize,
    pub token: Option<Token<'a>>,
}

fn word_len(bytes: &[u8]) -> usize
    ensures exact { result ≡ prefix_len is_word_byte bytes.now }
    ensures within { result ≤ length bytes.now }
{
    bytes.iter().take_while(|byte| is_word_byte(**byte)).count()
}

fn digits_len(bytes: &[u8]) -> usize
    ensures exact { result ≡ prefix_len is_digit bytes.now }
    ensures within { result ≤ length bytes.now }
{
    bytes.iter().take_while(|byte| is_digit(**byte)).count()
}

fn hex_digits_len(bytes: &[u8]) -> usize
    ensures exact { result ≡ prefix_len is_hex_digit bytes.now }
    ensures within { result ≤ length bytes.now }
{
    bytes.iter().take_while(|byte| is_hex_digit(**byte)).count()
}

fn line_len(bytes: &[u8]) -> usize
    ensures exact { result ≡ prefix_len (λ b. not (b == 10)) bytes.now }
    ensures within { result ≤ length bytes.now }
{
    bytes.iter().take_while(|byte| !(**byte == b'\n')).count()
}

pub(crate) fn is_reserved(word: &[u8]) -> bool
    ensures { result ≡ is_reserved word.now }
{
    word == b"table".as_slice()
        || word == b"channel".as_slice()
        || word == b"boundary".as_slice()
        || word == b"column".as_slice()
        || word == b"virtual".as_slice()
        || word == b"zero".as_slice()
        || word == b"push".as_slice()
        || word == b"pull".as_slice()
        || word == b"if".as_slice()
        || word == b"x".as_slice()
        || word == b"rows".as_slice()
        || word == b"linear".as_slice()
        || word == b"shl".as_slice()
        || word == b"shr".as_slice()
        || word == b"rol".as_slice()
        || word == b"pack".as_slice()
        || word == b"project".as_slice()
}

fn word_token(word: &[u8]) -> Token<'_>
    ensures { shown result ≡ word_token word.now }
{
    if word.len() > MAX_WORD {
        Token::Wrong(TextKind::NameTooLong)
    } else if is_reserved(word) {
        Token::Reserved(word)
    } else {
        Token::Name(word)
    }
}

fn number_token<'a>(base: u8, digits: &[u8]) -> Token<'a>
    requires { 1 ≤ base }
    ensures { shown result ≡ number_token (number_of base digits.now) }
{
    match number_of(base, digits) {
        Some(number) => Token::Number(number),
        None => Token::Wrong(TextKind::NumberTooWide),
    }
}

fn gap<'a>(len: usize) -> Piece<'a>
    ensures { shown_piece result ≡ gap len }
{
    Piece { len, token: None }
}

fn of_token(len: usize, token: Token<'_>) -> Piece<'_>
    ensures { shown_piece result ≡ record { len = len; token = Some (shown token.entry) } }
{
    Piece {
        len,
        token: Some(token),
    }
}

fn word_at(bytes: &[u8]) -> Piece<'_>
    ensures { shown_piece result ≡ word_at bytes.now }
{
    let len = word_len(bytes);
    of_token(len, word_token(&bytes[..len]))
}

fn decimal_at(bytes: &[u8]) -> Piece<'_>
    ensures { shown_piece result ≡ decimal_at bytes.now }
{
    let len = digits_len(bytes);
    of_token(len, number_token(10, &bytes[..len]))
}

fn number_at(bytes: &[u8]) -> Piece<'_>
    ensures { shown_piece result ≡ number_at bytes.now }
{
    if bytes.starts_with(b"0x") {
        let digits = &bytes[2..];
        let len = hex_digits_len(digits);
        if 0 < len {
            return of_token(len + 2, number_token(16, &digits[..len]));
        }
    }
    decimal_at(bytes)
}

/// The piece at the front of bytes, which takes at least one of them.
#[tactic(auto, using(crate::proofs::Pieces::piece_at_bounds))]
pub(crate) fn piece_at(bytes: &[u8]) -> Piece<'_>
    requires { 0 < length bytes.now }
    ensures exact { shown_piece result ≡ piece_at bytes.now }
    ensures goes_on { 1 ≤ result.len }
    ensures within { result.len ≤ length bytes.now }
{
    let byte = bytes[0];
    if is_blank(byte) {
        gap(1)
    } else if byte == b'#' {
        gap(line_len(bytes))
    } else if is_letter(byte) {
        word_at(bytes)
    } else if is_digit(byte) {
        number_at(bytes)
    } else if is_mark(byte) {
        of_token(1, Token::Mark(byte))
    } else {
        of_token(1, Token::Wrong(TextKind::Unexpected))
    }
}
