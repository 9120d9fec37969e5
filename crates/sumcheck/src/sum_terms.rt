//! What a walk says of its sum, and the steps of every sum.

ghost use Rattle.std.specs.Prelude.{◌≡◌, ℕ, [], ◌∷◌, length, cond, IfErr, IfOk, MatchResult, None, Some};
ghost use Rattle.sumcheck.specs.Claim.{claim_of, terms_of};
ghost use Rattle.sumcheck.specs.Machine.{first_entry, AwaitsMessage};
ghost use Rattle.sumcheck.specs.Rounds.{bound};
ghost use Rattle.sumcheck.specs.Summing.{Summing, adding, closed, summed_entries, summed_message, summed_pending, summed_refusal};

use crate::entry::Entry;
use crate::pending::{Pending, SumOf};
use crate::refused::Refused;
use crate::rounds::SumRounds;
use poly_forms::{CheckKind, DrawKind};
use tower_field::B128;

/// What a sum is about.
pub trait SumTerms {
    /// What is claimed once the last message has passed.
    type Closed;

    ghost summing: { Summing Self Self.Closed };

    /// The kind of the last check.
    fn check() -> CheckKind
        ensures { result ≡ summing.check };

    /// The kind of the draws.
    fn kind() -> DrawKind
        ensures { result ≡ summing.kind };

    /// How many numbers the last message has.
    fn count(&self) -> u32
        ensures { result ≡ summing.count self.now };

    /// Which sum a claim is about.
    fn sum_of(&self) -> SumOf<'_>
        ensures { terms_of result ≡ summing.terms self.now };

    /// The left side of the last check.
    fn left(&self, point: &[B128], values: &[B128]) -> B128
        requires { length values.now ≡ summing.count self.now }
        ensures { result ≡ summing.left self.now point.now values.now };
}

/// A round or the last message, which changes no terms: whether it was the last.
pub fn sum_message<T: SumTerms>(
    terms: &T,
    rounds: &mut SumRounds,
    values: &[B128],
) -> Result<bool, Refused>
    requires { AwaitsMessage (length values.now) (summed_entries T.summing (adding terms.now rounds.old)) }
    ensures answer { MatchResult result (λ _. summed_refusal T.summing (adding terms.now rounds.old) values.now ≡ None) (λ e. summed_refusal T.summing (adding terms.now rounds.old) values.now ≡ Some e) }
    ensures state { IfOk result (λ last. summed_message T.summing (adding terms.now rounds.old) values.now ≡ cond last (closed (T.summing.closed terms.now (bound rounds.old) values.now)) (adding terms.now rounds.new)) }
    ensures point { IfOk result (λ last. bound rounds.new ≡ bound rounds.old) }
    ensures kept { IfErr result (λ _. rounds.new ≡ rounds.old) }
{
    if rounds.left() > 0 {
        rounds.round(values)?;
        return Ok(false);
    }
    let left = terms.left(rounds.point(), values);
    let right = rounds.claim();
    if left != right {
        return Err(Refused {
            check: T::check(),
            left,
            right,
        });
    }
    Ok(true)
}

/// The entry of a sum that is due.
pub fn sum_due<T: SumTerms>(terms: &T, rounds: &SumRounds) -> Entry
    ensures { first_entry (summed_entries T.summing (adding terms.now rounds.now)) ≡ Some result }
{
    if rounds.has_passed() {
        return Entry::Draw {
            kind: T::kind(),
            count: rounds.degree() as u64,
        };
    }
    if rounds.left() > 0 {
        return Entry::Message {
            check: CheckKind::RoundSum,
            length: rounds.degree() + 1,
        };
    }
    Entry::Message {
        check: T::check(),
        length: terms.count(),
    }
}

/// The claim of a sum that is pending.
pub fn sum_pending<'a, T: SumTerms>(terms: &'a T, rounds: &'a SumRounds) -> Pending<'a>
    ensures { claim_of result ∷ [] ≡ summed_pending T.summing (adding terms.now rounds.now) }
{
    let terms = terms.sum_of();
    let prefix = rounds.point();
    if rounds.has_passed() {
        let values = rounds.passed();
        return Pending::Round {
            terms,
            prefix,
            values,
        };
    }
    let value = rounds.claim();
    Pending::Sum {
        terms,
        prefix,
        value,
    }
}
