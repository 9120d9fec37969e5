//! Tokens.

ghost use Rattle.std.specs.Prelude.{◌≡◌, option_and_then};
ghost use Rattle.std.specs.List.{list_any};
ghost use Rattle.std.specs.Str.{bytes_eq};
ghost use Rattle.table_text.specs.Faults.{is_mark_of, is_one_of, is_boundary, declaration_words, side_words, begins_declaration, own_fault};
ghost use Rattle.table_text.specs.TokenClasses.{is_word, level_of, log_values_of, name_of, number_in};
ghost use Rattle.table_text.specs.TokenMeaning.{shown};
ghost use Rattle.table_text.specs.StepMeaning.{IsStepTo};

use crate::expr::Name;
use crate::fault::TextKind;
use crate::refusal::Refusal;
use sqlite_items::Items;
use std::alloc::Global;

/// A token, with its word where the text has it.
#[derive(Clone, Copy)]
pub(crate) enum Token<'a> {
    Name(&'a [u8]),
    Reserved(&'a [u8]),
    Number(u128),
    Mark(u8),
    Wrong(TextKind),
}

/// Whether a token is a mark.
pub(crate) fn is_mark(token: Token<'_>, mark: u8) -> bool
    ensures { result ≡ is_mark_of mark (shown token.entry) }
{
    match token {
        Token::Mark(byte) => mark == byte,
        _ => false,
    }
}

/// Whether a token is a reserved word.
pub(crate) fn is_word(token: Token<'_>, word: &[u8]) -> bool
    ensures { result ≡ is_word word.now (shown token.entry) }
{
    match token {
        Token::Reserved(bytes) => bytes == word,
        _ => false,
    }
}

/// Whether a token is the word `boundary`.
pub(crate) fn is_boundary(token: Token<'_>) -> bool
    ensures { result ≡ is_boundary (shown token.entry) }
{
    is_word(token, b"boundary")
}

fn is_declaration_word(token: Token<'_>) -> bool
    ensures { result ≡ is_one_of declaration_words (shown token.entry) }
{
    match token {
        Token::Reserved(word) => {
            word == b"channel".as_slice()
                || word == b"boundary".as_slice()
                || word == b"table".as_slice()
                || word == b"column".as_slice()
                || word == b"virtual".as_slice()
                || word == b"zero".as_slice()
        }
        _ => false,
    }
}

fn is_side(token: Token<'_>) -> bool
    ensures { result ≡ is_one_of side_words (shown token.entry) }
{
    match token {
        Token::Reserved(word) => word == b"push".as_slice() || word == b"pull".as_slice(),
        _ => false,
    }
}

/// Whether a declaration begins with a token, which stands behind `boundary` or not.
pub(crate) fn begins_declaration(behind_boundary: bool, token: Token<'_>) -> bool
    ensures { result ≡ begins_declaration behind_boundary (shown token.entry) }
{
    is_declaration_word(token) || is_side(token) && !behind_boundary
}

/// What is wrong with a token wherever it stands.
pub(crate) fn own_fault(token: Token<'_>) -> Option<TextKind>
    ensures { result ≡ own_fault (shown token.entry) }
{
    match token {
        Token::Wrong(kind) => Some(kind),
        _ => None,
    }
}

/// A word that isn't reserved, as a name.
pub(crate) fn name_of(alloc: Global, token: Token<'_>) -> Result<Name, Refusal>
    ensures { IsStepTo result (name_of (shown token.entry)) }
{
    match token {
        Token::Name(word) => Ok(Items::from_slice(alloc, word)?),
        _ => Err(Refusal::Unexpected),
    }
}

/// A number.
pub(crate) fn number_of(token: Token<'_>) -> Result<u128, Refusal>
    ensures { IsStepTo result (number_in (shown token.entry)) }
{
    match token {
        Token::Number(number) => Ok(number),
        _ => Err(Refusal::Unexpected),
    }
}

/// The level of a type's word.
pub(crate) fn level_of(token: Token<'_>) -> Result<u32, Refusal>
    ensures { IsStepTo result (option_and_then level_of (name_of (shown token.entry))) }
{
    let Token::Name(word) = token else {
        return Err(Refusal::Unexpected);
    };
    if word == b"b1".as_slice() {
        Ok(0)
    } else if word == b"b2".as_slice() {
        Ok(1)
    } else if word == b"b4".as_slice() {
        Ok(2)
    } else if word == b"b8".as_slice() {
        Ok(3)
    } else if word == b"b16".as_slice() {
        Ok(4)
    } else if word == b"b32".as_slice() {
        Ok(5)
    } else if word == b"b64".as_slice() {
        Ok(6)
    } else if word == b"b128".as_slice() {
        Ok(7)
    } else {
        Err(Refusal::Unexpected)
    }
}

/// The logarithm of a number of values per row.
pub(crate) fn log_values_of(token: Token<'_>) -> Result<u32, Refusal>
    ensures { IsStepTo result (option_and_then log_values_of (number_in (shown token.entry))) }
{
    let Token::Number(number) = token else {
        return Err(Refusal::Unexpected);
    };
    match number {
        1 => Ok(0),
        2 => Ok(1),
        4 => Ok(2),
        8 => Ok(3),
        16 => Ok(4),
        32 => Ok(5),
        64 => Ok(6),
        128 => Ok(7),
        _ => Err(Refusal::Unexpected),
    }
}
