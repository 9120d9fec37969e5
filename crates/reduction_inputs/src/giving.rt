//! A reduction by numbers that are given, entry by entry.

use crate::given::{Lack, element, elements};
use std::alloc::Global;
use sumcheck::{Next, Pending, Reduction, Refused};
use tower_field::B128;

/// What is given to a reduction.
#[derive(Clone, Copy)]
pub enum Given<'a> {
    Draw(u64),
    Message(&'a [u64]),
}

/// How a reduction takes what is given.
#[derive(Clone, Copy, PartialEq, Eq, Debug)]
pub enum Taken {
    Passed,
    Refused(Refused),
    NotDue,
}

/// Gives a reduction one draw.
fn give_draw<R: Reduction>(reduction: &mut R, c: u64) -> Taken {
    match reduction.next() {
        Next::Draw { .. } => {
            reduction.draw(element(c));
            Taken::Passed
        }
        Next::Message { .. } | Next::Stopped(_) | Next::Done => Taken::NotDue,
    }
}

/// Gives a reduction one message, also where it has stopped.
fn give_message<R: Reduction>(reduction: &mut R, values: &[B128]) -> Taken {
    let is_due = match reduction.next() {
        Next::Message { length, .. } => values.len() == length as usize,
        Next::Stopped(_) => true,
        Next::Draw { .. } | Next::Done => false,
    };
    if !is_due {
        return Taken::NotDue;
    }
    match reduction.message(values) {
        Ok(()) => Taken::Passed,
        Err(refused) => Taken::Refused(refused),
    }
}

/// Gives a reduction one entry.
fn give<R: Reduction>(alloc: Global, reduction: &mut R, given: Given<'_>) -> Result<Taken, Lack> {
    match given {
        Given::Draw(c) => Ok(give_draw(reduction, c)),
        Given::Message(numbers) => {
            let values = elements(alloc, numbers)?;
            Ok(give_message(reduction, values.as_slice()))
        }
    }
}

/// How many of the entries pass, up to the first that doesn't, and how that one is taken.
pub fn run<R: Reduction>(
    alloc: Global,
    reduction: &mut R,
    given: &[Given<'_>],
) -> Result<(usize, Taken), Lack> {
    for k in 0..given.len() {
        let taken = give(alloc, reduction, given[k])?;
        if taken != Taken::Passed {
            return Ok((k, taken));
        }
    }
    Ok((given.len(), Taken::Passed))
}

/// The first claim that is pending.
pub fn first_pending<R: Reduction>(reduction: &R) -> Option<Pending<'_>> {
    if reduction.pending_count() == 0 {
        return None;
    }
    Some(reduction.pending(0))
}
