//! What the walks of a chain share.

ghost use Rattle.std.specs.Prelude.{◌≡◌, ℕ, ◌<◌, ◌≤◌, ◌^◌, [], length, slice_get, Some};
ghost use Rattle.sumcheck.specs.Claim.{claim_of};
ghost use Rattle.walk_chain.specs.Chain.{Chain};
ghost use Rattle.walk_chain.specs.LawfulChain.{LawfulChain};
ghost use Rattle.walk_chain.specs.SameSteps.{SameSteps};

use sumcheck::{Pending, Steps};

/// A walk of a chain. It is made beforehand, and entered with the claims that wait.
pub trait Linked: Steps {
    /// The claims that wait.
    type Kept: Drop;

    /// A type that stands for what is known of these before any message. It may have no values.
    type Key;

    ghost chain: { Chain Self Self.Kept Self.Key };

    /// That the hand-overs keep truth, for every filling. Does nothing.
    fn is_linked()
        ensures lawful { LawfulChain chain }
        ensures same { SameSteps chain.walk Self.machine };

    /// Takes its claims out of those that wait.
    fn enter(&mut self, kept: &mut Self::Kept)
        requires takes { chain.takes self.old (chain.key kept.old) }
        ensures state { self.new ≡ chain.enter self.old kept.old }
        ensures stays { kept.new ≡ chain.stays self.old kept.old };

    /// Adds the claims that it leaves to those that wait.
    fn leave(self, kept: &mut Self::Kept)
        requires done { chain.walk.entries self ≡ [] }
        requires room { chain.has_room (chain.left_key self (chain.key kept.old)) }
        ensures { kept.new ≡ chain.leaves self kept.old };

    /// That a walk has few claims pending: what waits and the walks to come can be counted with
    /// them. Does nothing.
    fn is_short(&self)
        ensures { length (chain.walk.pending self.now) ≤ 2 ^ 30 };

    /// How many claims wait.
    fn kept_count(kept: &Self::Kept) -> u32
        ensures count { result ≡ length (chain.kept_pending kept.now) }
        ensures few { result ≤ 2 ^ 30 };

    /// A claim that waits.
    fn kept_pending(kept: &Self::Kept, i: u32) -> Pending<'_>
        requires { i < length (chain.kept_pending kept.now) }
        ensures { slice_get (chain.kept_pending kept.now) i ≡ Some (claim_of result) };

    /// How many claims are the walk's own before it is entered.
    fn waiting_count(&self) -> u32
        ensures count { result ≡ length (chain.stage_pending self.now) }
        ensures few { result ≤ 2 ^ 13 };

    /// A claim of the walk before it is entered.
    fn waiting(&self, i: u32) -> Pending<'_>
        requires { i < length (chain.stage_pending self.now) }
        ensures { slice_get (chain.stage_pending self.now) i ≡ Some (claim_of result) };
}
