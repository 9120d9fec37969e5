//! The reader of a text.

ghost use Rattle.std.specs.Prelude.{◌≡◌, ◌≢◌, ◌<◌, ◌^◌, length, List, IfOk, Ok, Err, IfSome, not, position};
ghost use Rattle.table_text.specs.declared.decl.Decl.{Decl};
ghost use Rattle.table_text.specs.declared.fault.TextFault.{TextFault};
ghost use Rattle.table_text.specs.Bytes.{is_text};
ghost use Rattle.table_text.specs.Faults.{IsTablesText, IsFirstFault};
ghost use Rattle.table_text.specs.Lexing.{spots};
ghost use Rattle.table_text.specs.Reading.{Gives, begin, reading, reading_from};

use crate::byte_classes::is_text;
use crate::decl::Decls;
use crate::fault::{TextFault, TextKind, TextStop};
use crate::lexer::piece_at;
use crate::progress::{after_piece, begin, finished};
use crate::tables::Tables;
use std::alloc::Global;

/// The declarations of a text of bytes that a text may have.
fn read_from(alloc: Global, text: &[u8]) -> Result<Decls, TextStop>
    requires { length text.now < 2 ^ 32 }
    ensures { Gives result (reading_from begin (spots text.now) (length text.now)) }
{
    let mut progress = begin(alloc);
    let mut at = 0usize;
    while at < text.len() {
        let piece = piece_at(&text[at..]);
        progress = after_piece(alloc, progress, at as u32, piece.token)?;
        at += piece.len;
    }
    finished(progress.state, text.len() as u32)
}

/// The place of the first byte that no text has.
fn not_text(text: &[u8]) -> Option<usize>
    ensures place { result ≡ position (λ b. not (is_text b)) text.now }
    ensures within { IfSome result (λ place. place < length text.now) }
{
    text.iter().position(|byte| !is_text(*byte))
}

fn read(alloc: Global, text: &[u8]) -> Result<Decls, TextStop>
    requires { length text.now < 2 ^ 32 }
    ensures { Gives result (reading text.now) }
{
    if let Some(place) = not_text(text) {
        return Err(TextStop::Fault(TextFault {
            place: place as u32,
            kind: TextKind::NotText,
        }));
    }
    read_from(alloc, text)
}

/// The declarations of a text, or its first fault.
pub fn read_tables(alloc: Global, text: &[u8]) -> Result<Tables, TextStop>
    requires { length text.now < 2 ^ 32 }
    ensures found { IfOk result (λ tables. IsTablesText text.now tables) }
    ensures refused { (fault : TextFault) → result ≡ Err (TextStop.Fault fault) → IsFirstFault text.now fault }

    // Unless memory runs out, each text of declarations is read, and each first fault is answered.
    ensures reads { (decls : List Decl) → IsTablesText text.now decls → result ≢ Err TextStop.NoMemory → result ≡ Ok decls }
    ensures refuses { (fault : TextFault) → IsFirstFault text.now fault → result ≢ Err TextStop.NoMemory → result ≡ Err (TextStop.Fault fault) }
{
    let decls = read(alloc, text)?;
    Ok(Tables::new(decls))
}
