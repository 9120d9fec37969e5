//! A text that is being read, with what its limits count.

ghost use Rattle.std.specs.Prelude.{◌≡◌, ◌+◌, ◌<◌, ◌≤◌, ◌^◌, IfOk, option_map};
ghost use Rattle.table_text.specs.Reading.{CountsWithin, Gives, begin, limit_fault, one_if, taken, after_piece, finished};
ghost use Rattle.table_text.specs.TokenMeaning.{shown};

use crate::decl::Decls;
use crate::fault::{TextFault, TextKind, TextStop};
use crate::limits::{MAX_DECLARATIONS, MAX_OPEN};
use crate::refusal::Refusal;
use crate::state::{State, is_file_stage, start, step};
use crate::token::{Token, begins_declaration, is_boundary, is_mark, own_fault};
use std::alloc::Global;

/// What was read, how many parentheses were opened and closed in it, and how many declarations were begun.
#[derive(Drop)]
pub(crate) struct Progress {
    pub state: State,
    pub opened: usize,
    pub closed: usize,
    pub begun: usize,
    /// Whether the last token was `boundary`.
    pub behind_boundary: bool,
}

/// Before the first token.
pub(crate) fn begin(alloc: Global) -> Progress
    ensures { result ≡ begin }
{
    Progress {
        state: start(alloc),
        opened: 0,
        closed: 0,
        begun: 0,
        behind_boundary: false,
    }
}

/// What the limits have against a token.
fn limit_fault(progress: &Progress, token: Token<'_>) -> Option<TextKind>
    ensures { result ≡ limit_fault progress.now (shown token.entry) }
{
    let open = progress.opened.saturating_sub(progress.closed);
    if is_mark(token, b'(') && MAX_OPEN <= open {
        Some(TextKind::TooDeep)
    } else if begins_declaration(progress.behind_boundary, token)
        && MAX_DECLARATIONS <= progress.begun
    {
        Some(TextKind::TooMany)
    } else {
        None
    }
}

fn fault(place: u32, kind: TextKind) -> TextStop
    ensures { result ≡ TextStop.Fault (record { place = place; kind = kind }) }
{
    TextStop::Fault(TextFault { place, kind })
}

/// A count with one more, if a token counts.
fn counted(count: usize, counts: bool) -> usize
    requires { count < 2 ^ 32 }
    ensures exact { result ≡ count + one_if counts }
    ensures bound { result ≤ count + 1 }
{
    if counts { count + 1 } else { count }
}

/// After one token more, at its place in the text.
fn taken(
    alloc: Global,
    progress: Progress,
    place: u32,
    token: Token<'_>,
) -> Result<Progress, TextStop>
    requires { CountsWithin progress place }
    ensures exact { Gives result (taken progress place (shown token.entry)) }
    ensures counts { IfOk result (λ p. CountsWithin p (place + 1)) }
{
    if let Some(kind) = own_fault(token) {
        return Err(fault(place, kind));
    }
    let limit = limit_fault(&progress, token);
    let Progress {
        state,
        opened,
        closed,
        begun,
        behind_boundary,
    } = progress;
    let state = match step(alloc, state, token) {
        Ok(state) => state,
        Err(Refusal::Unexpected) => return Err(fault(place, TextKind::Unexpected)),
        Err(Refusal::NoMemory) => return Err(TextStop::NoMemory),
    };
    if let Some(kind) = limit {
        return Err(fault(place, kind));
    }
    Ok(Progress {
        state,
        opened: counted(opened, is_mark(token, b'(')),
        closed: counted(closed, is_mark(token, b')')),
        begun: counted(begun, begins_declaration(behind_boundary, token)),
        behind_boundary: is_boundary(token),
    })
}

/// After a piece, which may be no token.
pub(crate) fn after_piece(
    alloc: Global,
    progress: Progress,
    place: u32,
    token: Option<Token<'_>>,
) -> Result<Progress, TextStop>
    requires { CountsWithin progress place }
    ensures exact { Gives result (after_piece progress place (option_map shown token.entry)) }
    ensures counts { IfOk result (λ p. CountsWithin p (place + 1)) }
{
    match token {
        Some(token) => taken(alloc, progress, place, token),
        None => Ok(progress),
    }
}

/// The declarations, where the text ends.
pub(crate) fn finished(state: State, end: u32) -> Result<Decls, TextStop>
    ensures { Gives result (finished state end) }
{
    let State { decls, stage } = state;
    if is_file_stage(&stage) {
        Ok(decls)
    } else {
        Err(fault(end, TextKind::Unexpected))
    }
}
