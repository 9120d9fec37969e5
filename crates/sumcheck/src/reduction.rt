//! A reduction that stops at its first refusal.

ghost use Rattle.std.specs.Prelude.{◌≡◌, ℕ, ◌<◌, length, slice_get, IfErr, MatchResult, None, OnErr, OnOk, Option, Some};
ghost use Rattle.sumcheck.specs.declared.refused.Refused.{Refused};
ghost use Rattle.sumcheck.specs.Claim.{claim_of};
ghost use Rattle.sumcheck.specs.Reduction.{answer_of, claim_unless, next_of, MayDraw, MayTake};

use crate::entry::Entry;
use crate::pending::Pending;
use crate::refused::Refused;
use crate::steps::Steps;
use poly_forms::{CheckKind, DrawKind};
use std::marker::Model;
use tower_field::B128;

/// What a reduction asks for.
#[derive(Clone, Copy, PartialEq, Eq, Debug)]
pub enum Next {
    Message { check: CheckKind, length: u32 },
    Draw { kind: DrawKind, count: u64 },
    Stopped(Refused),
    Done,
}

/// Pending claims, and the messages and draws that turn them into others, up to the first message
/// that is refused. No call takes memory.
pub trait Reduction {
    type Walk: Steps;

    ghost walk: { Self → Self.Walk };

    ghost stopped: { Self → Option Refused };

    fn next(&self) -> Next
        ensures { result ≡ next_of (stopped self.now) (Self.Walk.machine.entries (walk self.now)) };

    /// A message. A stopped reduction answers its refusal again, and nothing else has changed.
    fn message(&mut self, values: &[B128]) -> Result<(), Refused>
        requires { MayTake (length values.now) (stopped self.old) (Self.Walk.machine.entries (walk self.old)) }
        ensures answer { MatchResult result (λ _. answer_of (stopped self.old) (Self.Walk.machine.refusal (walk self.old) values.now) ≡ None) (λ e. answer_of (stopped self.old) (Self.Walk.machine.refusal (walk self.old) values.now) ≡ Some e) }
        ensures state { OnOk result (walk self.new ≡ Self.Walk.machine.after_message (walk self.old) values.now) }
        ensures goes_on { OnOk result (stopped self.new ≡ None) }
        ensures kept { OnErr result (walk self.new ≡ walk self.old) }
        ensures stops { IfErr result (λ e. stopped self.new ≡ Some e) };

    fn draw(&mut self, c: B128)
        requires { MayDraw (stopped self.old) (Self.Walk.machine.entries (walk self.old)) }
        ensures state { walk self.new ≡ Self.Walk.machine.after_draw (walk self.old) c }
        ensures goes_on { stopped self.new ≡ None };

    /// The claim of the round that is due, where `next` is a message of a round.
    fn round_claim(&self) -> Option<B128>
        ensures { result ≡ claim_unless (stopped self.now) (Self.Walk.machine.round_claim (walk self.now)) };

    /// How many claims are pending.
    fn pending_count(&self) -> u32
        ensures { result ≡ length (Self.Walk.machine.pending (walk self.now)) };

    /// A claim that is pending.
    fn pending(&self, i: u32) -> Pending<'_>
        requires { i < length (Self.Walk.machine.pending (walk self.now)) }
        ensures { slice_get (Self.Walk.machine.pending (walk self.now)) i ≡ Some (claim_of result) };
}

/// A walk as a reduction: it remembers the first message that is refused.
#[derive(Drop)]
pub struct Stopping<W: Steps + Drop> {
    walk: W,
    stopped: Option<Refused>,
}

impl<W: Steps + Drop> Model for Stopping<W> {
    ghost use Rattle.sumcheck.specs.Reduction.{Stoppable};

    ghost Value = { Stoppable W };

    ghost view = { λ s. record { walk = s.walk; stopped = s.stopped } };
}

impl<W: Steps + Drop> Stopping<W> {
    /// The reduction of a walk, from where the walk stands.
    pub fn new(walk: W) -> Stopping<W>
        ensures { result ≡ record { walk = walk; stopped = None } }
    {
        Stopping {
            walk,
            stopped: None,
        }
    }

    pub fn walk(&self) -> &W
        ensures { result.now ≡ self.now.walk }
    {
        &self.walk
    }

    pub fn into_walk(self) -> W
        ensures { result ≡ self.walk }
    {
        let Stopping { walk, stopped: _ } = self;
        walk
    }
}

impl<W: Steps + Drop> Reduction for Stopping<W> {
    type Walk = W;

    ghost walk = { λ s. s.walk };

    ghost stopped = { λ s. s.stopped };

    fn next(&self) -> Next {
        if let Some(refused) = self.stopped {
            return Next::Stopped(refused);
        }
        match self.walk.due() {
            Some(Entry::Message { check, length }) => Next::Message { check, length },
            Some(Entry::Draw { kind, count }) => Next::Draw { kind, count },
            None => Next::Done,
        }
    }

    fn message(&mut self, values: &[B128]) -> Result<(), Refused> {
        if let Some(refused) = self.stopped {
            return Err(refused);
        }
        if let Err(Refused { check, left, right }) = self.walk.message(values) {
            self.stopped = Some(Refused { check, left, right });
            return Err(Refused { check, left, right });
        }
        Ok(())
    }

    fn draw(&mut self, c: B128) {
        self.walk.draw(c);
    }

    fn round_claim(&self) -> Option<B128> {
        if self.stopped.is_some() {
            return None;
        }
        self.walk.round_claim()
    }

    fn pending_count(&self) -> u32 {
        self.walk.pending_count()
    }

    fn pending(&self, i: u32) -> Pending<'_> {
        self.walk.pending(i)
    }
}
