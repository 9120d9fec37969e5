//! The words of the program, and the command that they mean.

ghost use Rattle.std.specs.Prelude.{◌≡◌, ◌≤◌, ℕ, [], ◌∷◌, Some, map, string_bytes, is_some, slice_index, IfOk, IsSome};
ghost use Rattle.table_shape.specs.Limits.{max_rows};
ghost use Rattle.m3_tool.specs.Command.{command_of, count_of, lower_of, other_command_of, row_count_of, row_counts_of};
ghost use Rattle.m3_tool.specs.Words.{HasRowCounts, seen};

use crate::number::number_of;
use std::alloc::{AllocError, Global};
use table_shape::MAX_ROWS;

/// A command, with the files that it names.
#[derive(Clone, Copy)]
pub(crate) enum Command<'a> {
    Check {
        tables_file: &'a str,
        witness_file: &'a str,
    },
    Print {
        tables_file: &'a str,
    },
    Lower {
        tables_file: &'a str,
        witness_file: &'a str,
        alpha: u128,
        gamma: u128,
    },
    /// Each of the rows' words spells a number of rows.
    Count {
        tables_file: &'a str,
        rows: &'a [String],
    },
    Help,
    Version,
}

/// The command that one word means.
fn command_of_word(word: &str) -> Option<Command<'static>>
    ensures seen { seen result ≡ other_command_of (word.now ∷ []) }
    ensures rows { HasRowCounts result }
{
    if word == "--help" {
        Some(Command::Help)
    } else if word == "--version" {
        Some(Command::Version)
    } else {
        None
    }
}

/// A lower of two files, if both of its words spell numbers.
fn lower_of<'a>(
    tables_file: &'a str,
    witness_file: &'a str,
    alpha: Option<u128>,
    gamma: Option<u128>,
) -> Option<Command<'a>>
    ensures seen { seen result ≡ lower_of tables_file.now witness_file.now alpha gamma }
    ensures rows { HasRowCounts result }
{
    Some(Command::Lower {
        tables_file,
        witness_file,
        alpha: alpha?,
        gamma: gamma?,
    })
}

/// The number of rows that a word spells, if a table may have so many.
fn row_count_of(word: &str) -> Option<u32>
    ensures { result ≡ row_count_of word.now }
{
    match number_of(word) {
        Some(number) if number <= u128::from(MAX_ROWS) => Some(number as u32),
        _ => None,
    }
}

fn are_row_counts(words: &[String]) -> bool
    ensures { result ≡ is_some (row_counts_of (map string_bytes words.now)) }
{
    for word in words {
        if row_count_of(word.as_str()).is_none() {
            return false;
        }
    }
    true
}

/// The numbers of rows that words spell.
pub(crate) fn rows_of(alloc: Global, words: &[String]) -> Result<Vec<u32>, AllocError>
    requires { IsSome (row_counts_of (map string_bytes words.now)) }
    ensures rows { IfOk result (λ rows. row_counts_of (map string_bytes words.now) ≡ Some rows.items) }
    ensures few { IfOk result (λ rows. (t : ℕ) → slice_index rows.items t ≤ max_rows) }
{
    let mut rows = Vec::new(alloc);
    for word in words {
        match row_count_of(word.as_str()) {
            Some(count) => rows.push(count)?,
            None => unreachable!(),
        }
    }
    Ok(rows)
}

/// A count of a file of tables, if each word after its name spells a number of rows.
fn count_of(words: &[String]) -> Option<Command<'_>>
    ensures seen { seen result ≡ count_of (map string_bytes words.now) }
    ensures rows { HasRowCounts result }
{
    match words {
        [tables, rows @ ..] if are_row_counts(rows) => Some(Command::Count {
            tables_file: tables.as_str(),
            rows,
        }),
        _ => None,
    }
}

/// The command that words mean, if they fit a pattern. Takes no memory.
pub(crate) fn command_of(words: &[String]) -> Option<Command<'_>>
    ensures seen { seen result ≡ command_of (map string_bytes words.now) }
    ensures rows { HasRowCounts result }
{
    match words {
        [word, words @ ..] if word.as_str() == "count" => count_of(words),
        _ => other_command_of(words),
    }
}

/// The command that words mean which don't begin with `count`.
fn other_command_of(words: &[String]) -> Option<Command<'_>>
    ensures seen { seen result ≡ other_command_of (map string_bytes words.now) }
    ensures rows { HasRowCounts result }
{
    match words {
        [word] => command_of_word(word.as_str()),
        [word, tables] if word.as_str() == "print" => Some(Command::Print {
            tables_file: tables.as_str(),
        }),
        [word, tables, witness] if word.as_str() == "check" => Some(Command::Check {
            tables_file: tables.as_str(),
            witness_file: witness.as_str(),
        }),
        [word, tables, witness, alpha, gamma] if word.as_str() == "lower" => lower_of(
            tables.as_str(),
            witness.as_str(),
            number_of(alpha.as_str()),
            number_of(gamma.as_str()),
        ),
        _ => None,
    }
}
