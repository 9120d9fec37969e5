//! What every walk does.

ghost use Rattle.std.specs.Prelude.{◌≡◌, ℕ, ◌<◌, length, slice_get, IfErr, IfOk, MatchResult, None, Some};
ghost use Rattle.sumcheck.specs.Claim.{claim_of};
ghost use Rattle.sumcheck.specs.Machine.{first_entry, AwaitsDraw, AwaitsMessage, Lawful, Machine};

use crate::entry::Entry;
use crate::pending::Pending;
use crate::refused::Refused;
use tower_field::B128;

/// The steps of a reduction: pending claims, and the messages and draws that turn them into others.
///
/// A refused message leaves a walk as it was. No call takes memory.
pub trait Steps {
    ghost machine: { Machine Self };

    /// That the reduction keeps truth, for every filling. Does nothing.
    fn is_lawful()
        ensures { Lawful machine };

    /// The entry that is due.
    fn due(&self) -> Option<Entry>
        ensures { result ≡ first_entry (machine.entries self.now) };

    fn message(&mut self, values: &[B128]) -> Result<(), Refused>
        requires { AwaitsMessage (length values.now) (machine.entries self.old) }
        ensures answer { MatchResult result (λ _. machine.refusal self.old values.now ≡ None) (λ e. machine.refusal self.old values.now ≡ Some e) }
        ensures state { IfOk result (λ _. self.new ≡ machine.after_message self.old values.now) }
        ensures kept { IfErr result (λ _. self.new ≡ self.old) };

    fn draw(&mut self, c: B128)
        requires { AwaitsDraw (machine.entries self.old) }
        ensures { self.new ≡ machine.after_draw self.old c };

    /// The claim of the round that is due.
    fn round_claim(&self) -> Option<B128>
        ensures { result ≡ machine.round_claim self.now };

    /// How many claims are pending.
    fn pending_count(&self) -> u32
        ensures { result ≡ length (machine.pending self.now) };

    /// A claim that is pending.
    fn pending(&self, i: u32) -> Pending<'_>
        requires { i < length (machine.pending self.now) }
        ensures { slice_get (machine.pending self.now) i ≡ Some (claim_of result) };
}
