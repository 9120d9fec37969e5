//! What `B128::to_bytes` spells is read again by `B128::from_bytes`, and the other way round.

ghost use Rattle.tower_field.specs.BytesAgain.{BytesAreSpelledAgain, NumbersAreReadAgain};

/// The number that the bytes of a number below 2^128 spell is that number.
pub fn numbers_are_read_again()
    ensures { NumbersAreReadAgain }
{}

/// The bytes of the number that 16 bytes spell are these bytes.
pub fn bytes_are_spelled_again()
    ensures { BytesAreSpelledAgain }
{}
